//! The header of a log.
ghost use Rattle.std.specs.Prelude.{◌≡◌, IfOk, length};
ghost use Rattle.log_frames.specs.Headers.{IsOpening, OpensAs, header_bytes, header_front, start_of};

use crate::cursor::Cursor;
use crate::fault::ReadFault;
use crate::fill::fill;
use crate::sum::{BASIS, is_sum, sum_words};
use crate::words::{four_words, three_words};
use byte_fields::u64_at;
use std::io::Read;

/// The length of a header, in bytes.
pub const HEADER_LENGTH: u64 = 32;

/// The first eight bytes of a header, `bloblog\0`, as a number.
const MAGIC: u64 = 29_114_433_899_818_082;

/// The version of the layout of frames.
const VERSION: u64 = 1;

/// The beginning of a file.
#[derive(Clone, Copy, Debug, PartialEq, Eq)]
pub enum Opening {
    /// A header with this id. The first frame begins at the cursor.
    Log(u64, Cursor),
    /// Fewer bytes than a header has.
    TooShort,
    /// Other bytes than `bloblog\0`.
    NotALog,
    /// A header of this version, which is not 1.
    OtherVersion(u64),
    /// A header with a wrong sum.
    WrongSum,
}

/// Returns the first 24 bytes of a header.
#[tactic(auto, unfolding(crate::specs::Headers::header_front))]
fn header_front(id: u64) -> [u8; 24]
    ensures { result ≡ header_front id }
{
    three_words(MAGIC, VERSION, id)
}

/// Returns the header of a log with this id.
pub fn header_bytes(id: u64) -> [u8; 32]
    ensures { result ≡ header_bytes id }
{
    let sum = sum_words(BASIS, &header_front(id));
    four_words(MAGIC, VERSION, id, sum)
}

/// Returns the cursor after the header of a log with this id.
pub fn start_of(id: u64) -> Cursor
    ensures { result ≡ start_of id }
{
    Cursor {
        place: HEADER_LENGTH,
        sum: sum_words(BASIS, &header_front(id)),
    }
}

/// Decides what 32 bytes are.
fn opening_of(bytes: &[u8]) -> Opening
    requires { length bytes.now ≡ 32 }
    ensures { IsOpening bytes.now result }
{
    let (magic, rest) = u64_at(bytes);
    if magic != MAGIC {
        return Opening::NotALog;
    }
    let (version, rest) = u64_at(rest);
    if version != VERSION {
        return Opening::OtherVersion(version);
    }
    let (id, back) = u64_at(rest);
    let start = start_of(id);
    if is_sum(start.sum, back) {
        Opening::Log(id, start)
    } else {
        Opening::WrongSum
    }
}

/// Reads the header of a log.
///
/// # Errors
///
/// - `Failed` if a read fails.
pub fn read_header<R: Read>(input: &mut R) -> Result<Opening, ReadFault>
    ensures { IfOk result (OpensAs (R.remaining input.old) (R.remaining input.new)) }
{
    let mut bytes = [0u8; 32];
    let count = fill(input, &mut bytes, 0, 32)?;
    if count < 32 {
        return Ok(Opening::TooShort);
    }
    Ok(opening_of(&bytes))
}
