//! The last chunk of a checked-out session, and the digest of all of its bytes.

ghost use Rattle.std.specs.Prelude.{◌≡◌, ◌≤◌, IfSome, None, length, take, true};
ghost use Rattle.blob_digest.specs.Digests.{hash_text};
ghost use Rattle.content_files.specs.Notes.{is_read};
ghost use Rattle.upload_table.specs.Rows.{all_lengths, IsFilledBuffer, IsHashOf, LosesHash};
ghost use Rattle.upload_table.specs.Uploaded.{HashesIfAny};

use crate::hashing::digest_after;
use crate::upload::ChunkBuffer;
use blob_digest::{Algorithm, Digest, UploadHashes};
use content_files::Content;
use std::mem;

/// Adds the filled chunk, if there is one, to the lengths and the hashes. Its bytes and the room for its length are
/// there.
pub(crate) fn add_last(pieces: &mut ChunkBuffer, received: usize, len: u64)
    requires last { IsFilledBuffer received len pieces.old }
    requires front { HashesIfAny pieces.old.hashes (take received pieces.old.bytes) }
    ensures none { pieces.new.whole ≡ None }
    ensures bytes { pieces.new.bytes ≡ pieces.old.bytes }
    ensures lens { pieces.new.lens.items ≡ all_lengths pieces.old len }
    ensures hash { HashesIfAny pieces.new.hashes pieces.old.bytes }
{
    let Some(hashed) = mem::replace(&mut pieces.whole, None) else {
        return;
    };
    match pieces.bytes.bytes() {
        Some(bytes) => hashed.move_into(&mut pieces.hashes, &bytes[received..]),
        None => hashed.move_without_bytes(&mut pieces.hashes),
    }
    if len > 0 {
        match pieces.lens.push(len) {
            Ok(()) => {}
            Err(_) => unreachable!(),
        }
    }
}

/// Returns the digest of all bytes by an algorithm, and removes the hash of all bytes.
///
/// `hashes` describes the first `received` bytes. Returns `None` if not all bytes were read since the start. If they are not
/// in memory, returns `None` unless they were hashed by this algorithm.
pub(crate) fn whole_digest(
    pieces: &mut ChunkBuffer,
    received: usize,
    algorithm: Algorithm,
) -> Option<Digest>
    requires within { received ≤ length pieces.old.bytes }
    requires front { HashesIfAny pieces.old.hashes (take received pieces.old.bytes) }
    requires all { IfSome pieces.old.whole (λ w. IsHashOf w pieces.old.bytes) }
    ensures value { IfSome result (λ d. d ≡ hash_text algorithm pieces.old.bytes) }
    ensures read { IfSome result (λ d. is_read pieces.old.bytes ≡ true) }
    ensures kept { LosesHash pieces.old pieces.new }
    ensures same { HashesIfAny pieces.new.hashes (take received pieces.old.bytes) }
{
    let whole = mem::replace(&mut pieces.whole, None);
    if !pieces.bytes.is_read() {
        return None;
    }
    match pieces.bytes.bytes() {
        Some(bytes) => match whole {
            Some(hashed) => Some(hashed.digest(&mut pieces.hashes, bytes, received, algorithm)),
            None => Some(digest_after(&mut pieces.hashes, bytes, received, algorithm)),
        },
        None => match whole {
            Some(hashed) => hashed.digest_without_bytes(algorithm),
            None => digest_of_front(&pieces.hashes, &pieces.bytes, received, algorithm),
        },
    }
}

/// Returns the digest of a content by an algorithm, if `front` describes all of it and the algorithm has taken in all of it.
///
/// `front` describes the first `received` bytes.
fn digest_of_front(
    front: &Option<UploadHashes>,
    content: &Content,
    received: usize,
    algorithm: Algorithm,
) -> Option<Digest>
    requires { HashesIfAny front.now (take received content.now) }
    ensures { IfSome result (λ d. d ≡ hash_text algorithm content.now) }
{
    let Some(hashes) = front else {
        return None;
    };
    if content.len() != received as u64 {
        return None;
    }
    match algorithm {
        Algorithm::Sha256 => Some(hashes.sha256()),
        Algorithm::Sha512 => hashes.sha512(),
    }
}
