//! An open session and its chunks.

ghost use Rattle.std.specs.Prelude.{◌≡◌, ◌+◌, ◌<◌, ◌^◌, ◌++◌, [], OnOk, OnErr, Some, length, sum, true};
ghost use Rattle.std.specs.Vec.{vec_capacity};
ghost use Rattle.content_files.specs.Chunks.{chunk_notes, is_in_file, read_notes};
ghost use Rattle.store_model.specs.Sessions.{length_after as length_after_chunk};
ghost use Rattle.upload_table.specs.Rows.{checked_out_row, content_charge, content_received, cut_buffer, is_at_home, is_out_with, HasHashOfAll, IsConsistentBuffer, KeepsBytes};
ghost use Rattle.upload_table.specs.Uploaded.{HashesIfAny};

use crate::hashed::ContentHash;
use crate::hashing::Hashing;
use blob_digest::{ByteRange, Refusal, RepoName, UploadHashes};
use content_files::{Content, ContentError, ContentName, ContentStore, Home};
use std::alloc::Global;
use std::mem;

/// The chunks of a session: their concatenated bytes, in memory or in a file, their lengths, and the hashes of the bytes,
/// unless a chunk was not hashed.
#[derive(Drop)]
pub(crate) struct ChunkBuffer {
    pub(crate) bytes: Content,
    pub(crate) lens: Vec<u64>,
    pub(crate) hashes: Option<UploadHashes>,
    /// The hash of all bytes. It is set while the buffer ends with a filled chunk that is not yet part of `lens` and
    /// `hashes`.
    pub(crate) whole: Option<ContentHash>,
}

/// The content of a session: its chunks, or only their lengths while the session is checked out.
///
/// The chunks are boxed, so that checking a session out or in does not copy the state of the hashes.
#[derive(Drop)]
pub(crate) enum SessionContent {
    Home(Box<ChunkBuffer>),
    InHand { received: u64, reserved: u64 },
}

/// An open session of a tenant.
#[derive(Drop)]
pub(crate) struct Upload {
    pub(crate) number: u32,
    pub(crate) repo: RepoName,
    pub(crate) content: SessionContent,
}

impl ChunkBuffer {
    /// Returns a buffer without chunks, in memory. Allocates nothing.
    pub(crate) fn new(alloc: Global) -> ChunkBuffer
        ensures whole { IsConsistentBuffer result }
        ensures none { cut_buffer result ≡ [] }
        ensures empty { result.bytes ≡ [] }
    {
        ChunkBuffer {
            bytes: Content::resident(Vec::new(alloc)),
            lens: Vec::new(alloc),
            hashes: Some(UploadHashes::new()),
            whole: None,
        }
    }
}

/// Returns the number of bytes that a session has received.
pub(crate) fn received_of(content: &SessionContent) -> u64
    ensures { result ≡ content_received content.now }
{
    match content {
        SessionContent::Home(pieces) => pieces.bytes.len(),
        SessionContent::InHand {
            received,
            reserved: _,
        } => *received,
    }
}

/// Returns the number of bytes that a session counts in its tenant's usage.
pub(crate) fn charge_of(content: &SessionContent) -> u64
    requires { content_charge content.now < 2 ^ 64 }
    ensures { result ≡ content_charge content.now }
{
    match content {
        SessionContent::Home(pieces) => pieces.bytes.len(),
        SessionContent::InHand { received, reserved } => *received + *reserved,
    }
}

/// Returns whether a session is checked out with these lengths.
pub(crate) fn is_in_hand(content: &SessionContent, received: u64, reserved: u64) -> bool
    ensures { result ≡ is_out_with received reserved content.now }
{
    match content {
        SessionContent::Home(_) => false,
        SessionContent::InHand {
            received: n,
            reserved: m,
        } => *n == received && *m == reserved,
    }
}

/// Moves the chunks out of a checked-in session, and reserves `len` bytes.
pub(crate) fn take_chunks(upload: &mut Upload, len: u64) -> Box<ChunkBuffer>
    requires { is_at_home upload.old.content ≡ true }
    ensures pieces { upload.old.content ≡ SessionContent.Home result }
    ensures row { upload.new ≡ checked_out_row upload.old len }
{
    let received = received_of(&upload.content);
    let out = SessionContent::InHand {
        received,
        reserved: len,
    };
    match mem::replace(&mut upload.content, out) {
        SessionContent::Home(pieces) => pieces,
        SessionContent::InHand { .. } => unreachable!(),
    }
}

/// Returns the length of a session of `before` bytes after a chunk of `len` bytes.
///
/// # Errors
///
/// - `SizeInvalid`: the range has another length than the chunk, or the sum exceeds `max_blob`.
/// - `RangeInvalid`, with the received length: the range does not start at `before`.
pub(crate) fn length_after(
    before: u64,
    range: Option<ByteRange>,
    len: u64,
    max_blob: u64,
) -> Result<u64, Refusal>
    ensures { result ≡ length_after_chunk max_blob before range len }
{
    if let Some(range) = range {
        if range.len() != len {
            return Err(Refusal::SizeInvalid);
        }
    }
    match before.checked_add(len) {
        Some(after) if after <= max_blob => match range {
            Some(range) if range.start != before => {
                Err(Refusal::RangeInvalid { received: before })
            }
            _ => Ok(after),
        },
        _ => Err(Refusal::SizeInvalid),
    }
}

/// Appends the bytes of a chunk, reserves room for its length, and sets the hash of all bytes.
///
/// The hashes of the earlier chunks are kept, so removing the last chunk requires no new hashing. If the content lies in its
/// home's file then, the notes of the chunk's pieces are appended to `notes`.
///
/// # Errors
///
/// The cause. The bytes are unchanged. `notes` may have grown.
pub(crate) fn extend<F: ContentStore>(
    pieces: &mut ChunkBuffer,
    files: &F,
    home: Option<Home>,
    chunk: &[u8],
    hashing: Hashing<'_>,
    notes: &mut Vec<u8>,
) -> Result<(), ContentError>
    requires { HashesIfAny pieces.old.hashes pieces.old.bytes }
    ensures hash { OnOk result (HasHashOfAll pieces.new) }
    ensures bytes { OnOk result (pieces.new.bytes ≡ pieces.old.bytes ++ chunk.now) }
    ensures noted { OnOk result (is_in_file home (length pieces.old.bytes + length chunk.now)
        ≡ true →
        notes.new.items ≡ notes.old.items ++ chunk_notes chunk.now) }
    ensures room { OnOk result (length pieces.new.lens.items < vec_capacity pieces.new.lens) }
    ensures err { OnErr result (KeepsBytes pieces.old pieces.new) }
    ensures lens { pieces.new.lens.items ≡ pieces.old.lens.items }
    ensures front { HashesIfAny pieces.new.hashes pieces.old.bytes }
{
    let received = pieces.bytes.len() as usize;
    pieces.lens.reserve(1)?;
    let both = files.hashes_sha512();
    let unsynced = pieces.bytes.begin(files, home, chunk)?;
    // Bytes that were written to a file may move to the disk while they are hashed.
    let early = match &unsynced {
        Some(_) => Some(ContentHash::of_chunk(&pieces.hashes, chunk, hashing, both)),
        None => None,
    };
    pieces.bytes.complete(files, home, chunk, unsynced, notes)?;
    let whole = match early {
        Some(hashed) => hashed,
        None => ContentHash::of_content(
            &mut pieces.hashes,
            &pieces.bytes,
            chunk,
            received,
            hashing,
            both,
        ),
    };
    pieces.whole = Some(whole);
    Ok(())
}

/// Appends a chunk that an earlier process added, by the notes of its pieces, and reserves room for its length. It is not
/// hashed.
///
/// # Errors
///
/// The cause. The bytes are unchanged.
pub(crate) fn extend_noted(
    pieces: &mut ChunkBuffer,
    name: ContentName,
    notes: &[u8],
) -> Result<(), ContentError>
    requires { HashesIfAny pieces.old.hashes pieces.old.bytes }
    ensures hash { OnOk result (HasHashOfAll pieces.new) }
    ensures bytes { OnOk result (pieces.new.bytes ≡ pieces.old.bytes ++ read_notes notes.now) }
    ensures noted { OnOk result (chunk_notes (read_notes notes.now) ≡ notes.now) }
    ensures room { OnOk result (length pieces.new.lens.items < vec_capacity pieces.new.lens) }
    ensures err { OnErr result (KeepsBytes pieces.old pieces.new) }
    ensures lens { pieces.new.lens.items ≡ pieces.old.lens.items }
    ensures front { HashesIfAny pieces.new.hashes pieces.old.bytes }
{
    pieces.lens.reserve(1)?;
    pieces.bytes.extend_noted(name, notes)?;
    pieces.whole = Some(ContentHash::Missing);
    Ok(())
}

/// Returns the sum of some lengths.
pub(crate) fn sum_of(lens: &[u64]) -> u64
    requires { sum lens.now < 2 ^ 64 }
    ensures { result ≡ sum lens.now }
{
    lens.iter().sum()
}
