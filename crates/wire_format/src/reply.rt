//! Writes replies.
ghost use Rattle.std.specs.Prelude.{◌<◌, ◌^◌, length};
ghost use Rattle.wire_format.specs.Replies.{Sends, SendsDigest, SendsParts, SendsRefusal, numbers_reply};

use blob_digest::{Digest, Refusal};
use std::alloc::Global;
use std::io::{self, Write};

/// Writes a reply: a head of 32 bytes, the text of a digest, and a body. It does not flush.
///
/// # Errors
///
/// - The error of a failed write. Part of the frame may have been written, so the connection is of no further use.
#[tactic(auto, unfolding(crate::specs::Replies::reply_bytes))]
pub fn write_reply<W: Write>(
    out: &mut W,
    status: u32,
    first: u64,
    second: u64,
    digest: &[u8],
    body: &[u8],
) -> io::Result<()>
    requires { length digest.now < 2 ^ 32 }
    ensures { SendsParts result W.contents out.old out.new status first second digest.now body.now }
{
    out.write_all(&status.to_le_bytes())?;
    out.write_all(&(digest.len() as u32).to_le_bytes())?;
    out.write_all(&first.to_le_bytes())?;
    out.write_all(&second.to_le_bytes())?;
    out.write_all(&(body.len() as u64).to_le_bytes())?;
    out.write_all(digest)?;
    out.write_all(body)
}

/// Writes a reply with a status and two numbers.
fn write_numbers<W: Write>(out: &mut W, status: u32, first: u64, second: u64) -> io::Result<()>
    ensures { Sends result W.contents out.old out.new (numbers_reply status first second) }
{
    write_reply(out, status, first, second, b"", b"")
}

/// Writes the reply that reports a refusal: its number as the status, and its numbers or its digest.
///
/// If allocation of the digest's text fails, the reply is `Memory`. A refusal without a digest does not allocate.
///
/// # Errors
///
/// - The error of a failed write, as for `write_reply`.
pub fn write_refusal<W: Write>(alloc: Global, out: &mut W, refusal: &Refusal) -> io::Result<()>
    ensures { SendsRefusal result W.contents out.old out.new refusal.now }
{
    match refusal {
        Refusal::NameInvalid => write_numbers(out, 1, 0, 0),
        Refusal::DigestInvalid => write_numbers(out, 2, 0, 0),
        Refusal::NameUnknown => write_numbers(out, 3, 0, 0),
        Refusal::UploadUnknown => write_numbers(out, 4, 0, 0),
        Refusal::SizeInvalid => write_numbers(out, 5, 0, 0),
        Refusal::RangeInvalid { received } => write_numbers(out, 6, *received, 0),
        Refusal::BlobUnknown => write_numbers(out, 7, 0, 0),
        Refusal::ManifestInvalid => write_numbers(out, 8, 0, 0),
        Refusal::ManifestUnknown => write_numbers(out, 9, 0, 0),
        Refusal::ManifestBlobUnknown { digest } => write_digest(alloc, out, 10, digest),
        Refusal::Quota { used, quota } => write_numbers(out, 11, *used, *quota),
        Refusal::Referenced { manifest } => write_digest(alloc, out, 12, manifest),
        Refusal::StoreFull => write_numbers(out, 13, 0, 0),
        Refusal::TooManyReaders => write_numbers(out, 14, 0, 0),
        Refusal::LimitReached => write_numbers(out, 15, 0, 0),
        Refusal::WeightSpent => write_numbers(out, 16, 0, 0),
        Refusal::Memory => write_numbers(out, 17, 0, 0),
        Refusal::Busy => write_numbers(out, 18, 0, 0),
        Refusal::RepoInUse => write_numbers(out, 19, 0, 0),
    }
}

/// Writes a reply with a status and the text of a digest, or `Memory` if allocation of the text fails.
///
/// # Errors
///
/// - The error of a failed write, as for `write_reply`.
pub fn write_digest<W: Write>(
    alloc: Global,
    out: &mut W,
    status: u32,
    digest: &Digest,
) -> io::Result<()>
    ensures { SendsDigest result W.contents out.old out.new status digest.now }
{
    let mut text = String::new(alloc);
    match digest.write(&mut text) {
        Ok(()) => write_reply(out, status, 0, 0, text.as_bytes(), b""),
        Err(_) => write_numbers(out, 17, 0, 0),
    }
}
