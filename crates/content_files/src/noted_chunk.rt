//! A chunk that an earlier process added, of which a log has the notes.

ghost use Rattle.std.specs.Prelude.{◌≡◌, IfOk, IfSome, length};
ghost use Rattle.content_files.specs.Chunks.{chunk_notes, read_notes};
ghost use Rattle.content_files.specs.FirstNotes.{IsFirstNote};

use crate::error::ContentError;
use crate::name::ContentName;
use crate::note::{NOTE_LEN, Note};
use crate::pieces::MAX_PIECE;
use crate::store::ContentStore;
use std::alloc::{AllocError, Global};

/// Returns the first of the notes of a chunk, and the others.
///
/// Returns `None` if this is no note of a chunk: it is too short, its piece is empty or too long, or it is not the last one
/// and its piece has fewer than `MAX_PIECE` bytes.
pub(crate) fn first_note(notes: &[u8]) -> Option<(Note, &[u8])>
    ensures { IfSome result (λ r. IsFirstNote notes.now r.0 r.1.now) }
{
    if notes.len() < NOTE_LEN {
        return None;
    }
    let (first, rest) = notes.split_at(NOTE_LEN);
    let note = Note::read(first);
    if note.len == MAX_PIECE as u64 {
        return Some((note, rest));
    }
    if rest.is_empty() && note.len > 0 && note.len < MAX_PIECE as u64 {
        return Some((note, rest));
    }
    None
}

/// Returns the length in bytes of the chunk that notes describe, if they describe one.
pub fn noted_len(notes: &[u8]) -> Option<u64>
    ensures { IfSome result (λ n. n ≡ length (read_notes notes.now)) }
{
    let mut len: u64 = 0;
    let mut rest = notes;
    while !rest.is_empty() {
        let (note, others) = first_note(rest)?;
        len = len.checked_add(note.len)?;
        rest = others;
    }
    Some(len)
}

/// Returns the notes of a chunk's pieces: for each its length and its sum, 16 bytes. Every piece but the last has a MiB.
///
/// # Errors
///
/// - if memory runs out.
///
/// # Cost
///
/// Linear in the chunk's length, and an allocation of the notes' length.
pub fn notes_of(alloc: Global, bytes: &[u8]) -> Result<Vec<u8>, AllocError>
    ensures { IfOk result (λ v. v.items ≡ chunk_notes bytes.now) }
{
    let mut notes = Vec::new(alloc);
    if bytes.is_empty() {
        return Ok(notes);
    }
    let mut rest = bytes;
    while rest.len() > MAX_PIECE {
        let (piece, others) = rest.split_at(MAX_PIECE);
        Note::of(piece).write(&mut notes)?;
        rest = others;
    }
    Note::of(rest).write(&mut notes)?;
    Ok(notes)
}

/// Reads a chunk that has these notes from the file of a content, at an offset.
///
/// # Errors
///
/// - `Notes`: these are not the notes of a chunk.
/// - `Fault`: the file has other bytes, or too few.
/// - `Memory`
/// - `Io`: the operating system's error.
///
/// # Cost
///
/// One read, and allocations of the chunk's length and of its notes.
pub fn read_chunk<F: ContentStore>(
    files: &F,
    alloc: Global,
    name: ContentName,
    offset: u64,
    notes: &[u8],
) -> Result<Vec<u8>, ContentError>
    ensures { IfOk result (λ v. chunk_notes v.items ≡ notes.now) }
{
    let Some(len) = noted_len(notes) else {
        return Err(ContentError::Notes);
    };
    let mut bytes = Vec::from_elem(alloc, 0u8, len as usize)?;
    files.read(name, offset, bytes.as_mut_slice())?;
    let found = notes_of(alloc, bytes.as_slice())?;
    if found.as_slice() != notes {
        return Err(ContentError::Fault);
    }
    Ok(bytes)
}
