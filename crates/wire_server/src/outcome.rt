//! The outcome of a request, and its reply.
ghost use Rattle.std.specs.Prelude.{◌≡◌, ◌⊎◌, ◌<◌, ◌^◌};
ghost use Rattle.wire_format.specs.Replies.{numbers_reply};
ghost use Rattle.wire_server.specs.Outcomes.{Sends, SendsAnswer, SendsOutcome, body_reply, file_number, outcome_of, place_reply};
ghost use Rattle.store_api.specs.Answers.{answer_of};

use content_files::{ContentName, Located};
use std::alloc::Global;
use std::io::{self, ErrorKind, Write};
use store_api::{Piece, Reply};
use wire_format::{write_digest, write_refusal, write_reply};

/// The outcome of a request.
#[derive(Drop)]
pub enum RequestResult {
    /// A reply of the store or of the table of leases.
    Answered(Reply),
    /// A new lease of a blob.
    NewLease {
        /// The blob's size in bytes.
        size: u64,
        /// The number of the lease.
        number: u32,
    },
    /// A short piece of a blob, whose lease has ended.
    Fetched {
        /// The size of the blob in bytes.
        size: u64,
        /// The piece.
        piece: Piece,
    },
    /// Where bytes of a leased blob lie.
    Located(Located),
    /// Bytes of a leased blob lie in no file, or there are none.
    NoFile,
    /// The bytes that were asked for lie in a file that has others, or that cannot be read.
    Unreadable,
    /// The result of a query.
    QueryNumbers {
        /// A size in bytes, a number of slots, or a tenant's use in bytes.
        first: u64,
        /// The tenant's quota in bytes, or 0.
        second: u64,
    },
    /// The request's first byte names no command.
    NoCommand,
}

/// The status of a request for bytes that cannot be read as they were stored.
const UNREADABLE: u32 = 253;

/// The status of a request that names a lease which does not exist.
const NO_LEASE: u32 = 254;

/// The status of a request whose first byte names no command.
const NO_COMMAND: u32 = 255;

/// Writes the reply of a status and two numbers.
fn write_numbers<W: Write>(output: &mut W, status: u32, first: u64, second: u64) -> io::Result<()>
    ensures { Sends W.contents result output.old output.new (numbers_reply status first second) }
{
    write_reply(output, status, first, second, b"", b"")
}

/// Writes the reply of a number and a body, without a copy of the body.
fn write_body<W: Write>(output: &mut W, first: u64, body: &[u8]) -> io::Result<()>
    ensures { Sends W.contents result output.old output.new (body_reply first body.now) }
{
    write_reply(output, 0, first, 0, b"", body)
}

/// Writes the reply of a number and a piece, without a copy of its bytes. Fails if they are not in memory, and writes nothing
/// then.
fn write_piece<W: Write>(output: &mut W, first: u64, piece: &Piece) -> io::Result<()>
    ensures { Sends W.contents result output.old output.new (body_reply first piece.now) }
{
    match piece.bytes() {
        Some(bytes) => write_body(output, first, bytes),
        None => Err(io::Error::from(ErrorKind::Unsupported)),
    }
}

/// Returns the number that stands for the file of a content in a reply: the position of its tenant, and the number of the
/// session that received it in the lower 32 bits.
fn file_number(name: ContentName) -> u64
    ensures { result ≡ file_number name }
{
    u64::from(name.tenant) * 4_294_967_296 + u64::from(name.number)
}

/// Writes the reply of a place: the offset of the first piece, the number of the file, and the notes of the pieces.
fn write_place<W: Write>(output: &mut W, located: &Located) -> io::Result<()>
    ensures { Sends W.contents result output.old output.new (place_reply
        (file_number located.now.name)
        located.now.offset located.now.notes.items) }
{
    write_reply(
        output,
        0,
        located.offset,
        file_number(located.name),
        b"",
        located.notes.as_slice(),
    )
}

/// Writes the reply that reports an answer of the store or of the table of leases.
fn write_answer<W: Write>(alloc: Global, output: &mut W, reply: &Reply) -> io::Result<()>
    ensures { SendsAnswer W.contents result output.old output.new (answer_of reply.now) }
{
    match reply {
        Reply::Session(number) => write_numbers(output, 0, u64::from(*number), 0),
        Reply::Received(length) => write_numbers(output, 0, *length, 0),
        Reply::Stored(size) | Reply::Leased(size) | Reply::Verified(size) => {
            write_numbers(output, 0, *size, 0)
        }
        Reply::Abandoned | Reply::Mounted | Reply::Deleted | Reply::Shared | Reply::GivenBack =>
            write_numbers(output, 0, 0, 0),
        Reply::Manifest(digest) => write_digest(alloc, output, 0, digest),
        Reply::Body(manifest) => write_body(output, 0, manifest.bytes()),
        Reply::Bytes(piece) => write_piece(output, 0, piece),
        Reply::Swept(swept) => write_numbers(
            output,
            0,
            u64::from(swept.freed),
            u64::from(swept.held),
        ),
        Reply::NoLease | Reply::NameTaken => write_numbers(output, NO_LEASE, 0, 0),
        Reply::Refused(refusal) => write_refusal(alloc, output, refusal),
    }
}

/// Writes the reply that reports an outcome. If memory runs out for the text of a digest, it writes `Memory` instead.
///
/// # Errors
///
/// A write failed, or the bytes of a piece are not in memory. Then a part of the reply may have been written.
///
/// # Cost
///
/// Linear in the reply's length. It allocates only the text of a digest, and does not copy bytes of a blob or a manifest.
pub fn write_outcome<W: Write>(
    alloc: Global,
    output: &mut W,
    outcome: &RequestResult,
) -> io::Result<()>
    ensures { SendsOutcome W.contents result output.old output.new (outcome_of outcome.now) }
{
    match outcome {
        RequestResult::Answered(reply) => write_answer(alloc, output, reply),
        RequestResult::NewLease { size, number } => write_numbers(
            output,
            0,
            *size,
            u64::from(*number),
        ),
        RequestResult::Fetched { size, piece } => write_piece(output, *size, piece),
        RequestResult::Located(located) => write_place(output, located),
        RequestResult::NoFile => write_numbers(output, 0, 0, 0),
        RequestResult::Unreadable => write_numbers(output, UNREADABLE, 0, 0),
        RequestResult::QueryNumbers { first, second } => write_numbers(output, 0, *first, *second),
        RequestResult::NoCommand => write_numbers(output, NO_COMMAND, 0, 0),
    }
}
