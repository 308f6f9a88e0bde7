//! The pieces of a content in a file, and what memory keeps of them.

ghost use Rattle.std.specs.Prelude.{◌≡◌, ◌++◌, ◌≤◌, ◌<◌, ◌+◌, ◌-◌, ◌∷◌, [], IfOk, OnOk, OnErr, drop, length, take, true, IfSome};
ghost use Rattle.content_files.specs.Chunks.{chunk_notes, note_bytes, read_notes};
ghost use Rattle.content_files.specs.FirstNotes.{AreOfChunk};
ghost use Rattle.content_files.specs.LocatedNotes.{AreNotesBetween};
ghost use Rattle.content_files.specs.Notes.{note_of, unread};
ghost use Rattle.content_files.specs.Parts.{IsAddedRead, IsCountIn, IsReadWithin};
ghost use Rattle.content_files.specs.Pieces.{BeginsAs, HasRoomFor, IsAtEndOf, LieAs, bytes_of, pieces_of, with_piece};
ghost use Rattle.content_files.specs.Shown.{note_shown};

use crate::error::ContentError;
use crate::name::ContentName;
use crate::note::{Note, count_within, find, sum_of};
use crate::noted_chunk::first_note;
use crate::store::ContentStore;
use crate::trace::PieceTrace;
use crate::written::{Unsynced, Written};
use std::alloc::{AllocError, Global};
use std::marker::Model;

/// The most bytes of a piece that is written: 1 MiB. A read takes a whole piece into memory.
pub const MAX_PIECE: usize = 1_048_576;

/// The pieces of a content in its file: of each, its length and its sum.
///
/// Contracts see the content's name, the offset in the file at which the pieces begin, and the pieces.
#[derive(Drop)]
pub(crate) struct Pieces {
    notes: Vec<Note>,
    /// The length of all pieces.
    total: u64,
    trace: PieceTrace,
}

impl Model for Pieces {
    ghost use Rattle.content_files.specs.Pieces as specs;
    ghost use Rattle.content_files.specs.Shown.{AreNotesOf};

    ghost Value = { specs.Pieces };

    ghost view = { λ p. p.trace };

    ghost invariant = { λ p. AreNotesOf p.notes.items p.total p.trace.each };
}

impl Pieces {
    /// Creates a list of no pieces. They will begin at the offset `base` of the file.
    pub(crate) fn new(alloc: Global, name: ContentName, base: u64) -> Result<Pieces, AllocError>
        ensures { IfOk result (λ p. p ≡ pieces_of name base []) }
    {
        let trace = PieceTrace::new(alloc, name, base)?;
        Ok(Pieces {
            notes: Vec::new(alloc),
            total: 0,
            trace,
        })
    }

    /// Returns the content's name.
    pub(crate) fn name(&self) -> ContentName
        ensures { result ≡ self.now.name }
    {
        self.trace.name()
    }

    /// Returns the length of all pieces.
    pub(crate) fn total(&self) -> u64
        ensures { result ≡ length (bytes_of self.now) }
    {
        self.total
    }

    /// Adds a piece whose bytes were written at the end of the pieces. Its note is appended to `notes`.
    ///
    /// # Errors
    ///
    /// `Memory`. Nothing changed, but `notes` may have grown.
    fn add_piece(&mut self, piece: Written<'_>, notes: &mut Vec<u8>) -> Result<(), ContentError>
        requires at { IsAtEndOf piece self.old }
        requires fits { HasRoomFor self.old piece.bytes }
        ensures ok { OnOk result (self.new ≡ with_piece self.old piece.entry.bytes) }
        ensures noted { OnOk result (notes.new.items ≡ notes.old.items
            ++ note_bytes piece.entry.bytes) }
        ensures err { OnErr result (self.new ≡ self.old) }
    {
        let note = Note {
            len: piece.len() as u64,
            sum: piece.sum(),
        };
        note.write(notes)?;
        let trace = self.trace.with_written(*self.notes.allocator(), &piece)?;
        self.notes.push(note)?;
        self.total += note.len;
        self.trace = trace;
        Ok(())
    }

    /// Adds bytes that were written to the file where the pieces end, once they are synced. The notes of their pieces are appended to
    /// `notes`. No bytes have no notes.
    ///
    /// # Errors
    ///
    /// Some pieces may have been added.
    ///
    /// - `Cut`: the pieces do not end where the bytes begin.
    /// - The error of `ContentStore::sync`.
    /// - `Memory`
    pub(crate) fn complete<F: ContentStore>(
        &mut self,
        files: &F,
        unsynced: Unsynced<'_>,
        notes: &mut Vec<u8>,
    ) -> Result<(), ContentError>
        ensures lies { LieAs self.old self.new }
        ensures ok { OnOk result (bytes_of self.new ≡ bytes_of self.old ++ unsynced.entry.bytes) }
        ensures noted { OnOk result (notes.new.items ≡ notes.old.items
            ++ chunk_notes unsynced.entry.bytes) }
        ensures begin { BeginsAs self.old self.new }
        ensures long { length (bytes_of self.old) ≤ length (bytes_of self.new) }
    {
        if unsynced.len() == 0 {
            return Ok(());
        }
        let Some(end) = self.trace.base().checked_add(self.total) else {
            return Err(ContentError::Memory);
        };
        if !unsynced.is_at(self.trace.name(), end) {
            return Err(ContentError::Cut);
        }
        let written = files.sync(unsynced)?;
        self.add_written(written, notes)
    }

    /// Adds bytes that were written at the end of the pieces, in pieces of at most `MAX_PIECE` bytes. Their notes are appended
    /// to `notes`.
    ///
    /// # Errors
    ///
    /// `Memory`. Some pieces may have been added.
    fn add_written(&mut self, written: Written<'_>, notes: &mut Vec<u8>) -> Result<(), ContentError>
        requires some { 0 < length written.bytes }
        requires at { IsAtEndOf written self.old }
        requires fits { HasRoomFor self.old written.bytes }
        ensures lies { LieAs self.old self.new }
        ensures ok { OnOk result (bytes_of self.new ≡ bytes_of self.old ++ written.entry.bytes) }
        ensures noted { OnOk result (notes.new.items ≡ notes.old.items
            ++ chunk_notes written.entry.bytes) }
        ensures begin { BeginsAs self.old self.new }
        ensures long { length (bytes_of self.old) ≤ length (bytes_of self.new) }
    {
        let mut rest = written;
        while rest.len() > MAX_PIECE {
            let (piece, others) = rest.split_at(MAX_PIECE);
            self.add_piece(piece, notes)?;
            rest = others;
        }
        self.add_piece(rest, notes)
    }

    /// Adds a chunk that an earlier process added, by the notes of its pieces.
    ///
    /// # Errors
    ///
    /// Some pieces may have been added.
    ///
    /// - `Notes`: these are not the notes of a chunk.
    /// - `Memory`
    pub(crate) fn add_notes(&mut self, notes: &[u8]) -> Result<(), ContentError>
        ensures lies { LieAs self.old self.new }
        ensures ok { OnOk result (bytes_of self.new ≡ bytes_of self.old ++ read_notes notes.now) }
        ensures notes { OnOk result (AreOfChunk notes.now) }
        ensures begin { BeginsAs self.old self.new }
        ensures long { length (bytes_of self.old) ≤ length (bytes_of self.new) }
    {
        let mut rest = notes;
        while !rest.is_empty() {
            let Some((note, others)) = first_note(rest) else {
                return Err(ContentError::Notes);
            };
            self.add_noted(note)?;
            rest = others;
        }
        Ok(())
    }

    /// Adds a piece that an earlier process added, by its note.
    ///
    /// # Errors
    ///
    /// `Memory`. Nothing changed.
    fn add_noted(&mut self, note: Note) -> Result<(), ContentError>
        requires { 0 < note.len }
        ensures ok { OnOk result (self.new ≡ with_piece self.old (unread note.len note.sum)) }
        ensures err { OnErr result (self.new ≡ self.old) }
    {
        let Some(total) = self.total.checked_add(note.len) else {
            return Err(ContentError::Memory);
        };
        let alloc = *self.notes.allocator();
        let trace = self.trace.with_unread(alloc, note.len, note.sum)?;
        self.notes.push(note)?;
        self.total = total;
        self.trace = trace;
        Ok(())
    }

    /// Removes the last piece, if it begins at this length or behind it. Returns whether it does.
    ///
    /// # Errors
    ///
    /// `Memory`. Nothing changed.
    fn remove_behind(&mut self, len: u64) -> Result<bool, ContentError>
        requires { len ≤ length (bytes_of self.old) }
        ensures lies { LieAs self.old self.new }
        ensures same { take len (bytes_of self.new) ≡ take len (bytes_of self.old) }
        ensures long { len ≤ length (bytes_of self.new) }
    {
        let trace = self.trace.without_last(*self.notes.allocator())?;
        if let Some(note) = self.notes.pop() {
            let before = self.total - note.len;
            if len <= before {
                self.total = before;
                self.trace = trace;
                return Ok(true);
            }
            if self.notes.push(note).is_err() {
                unreachable!();
            }
        }
        Ok(false)
    }

    /// Removes the pieces that begin at this length or behind it.
    ///
    /// # Errors
    ///
    /// Some of them may have been removed.
    ///
    /// - `Cut`: a piece begins before this length and ends behind it.
    /// - `Memory`
    pub(crate) fn cut(&mut self, len: u64) -> Result<(), ContentError>
        requires { len ≤ length (bytes_of self.old) }
        ensures lies { LieAs self.old self.new }
        ensures same { take len (bytes_of self.new) ≡ take len (bytes_of self.old) }
        ensures long { len ≤ length (bytes_of self.new) }
        ensures ok { OnOk result (length (bytes_of self.new) ≡ len) }
    {
        let count = self.notes.len();
        for _ in 0..count {
            if self.total == len {
                return Ok(());
            }
            if !self.remove_behind(len)? {
                return Err(ContentError::Cut);
            }
        }
        if self.total == len {
            Ok(())
        } else {
            Err(ContentError::Cut)
        }
    }

    /// Returns how many pieces a content of this length has, if it ends where one of them does.
    fn count_within(&self, len: u64) -> Option<usize>
        ensures { IfSome result (IsCountIn self.now.each len) }
    {
        if self.total == len {
            return Some(self.notes.len());
        }
        count_within(self.notes.as_slice(), len)
    }

    /// Reads the bytes from `start` to before `end` of the first pieces, which have this length, and compares the sums of the pieces that have
    /// them.
    ///
    /// # Errors
    ///
    /// - `Cut`: this length ends within a piece.
    /// - `Fault`: it ends before `end`, or the file has other bytes, or too few.
    /// - `Memory`
    /// - `Io`: the operating system's error.
    pub(crate) fn read_between<F: ContentStore>(
        &self,
        files: &F,
        alloc: Global,
        len: u64,
        start: u64,
        end: u64,
    ) -> Result<Vec<u8>, ContentError>
        requires { start < end }
        ensures read { IfOk result (λ v. IsReadWithin self.now.each len start end v.items) }
        ensures there { IfOk result (λ _. F.on_disk ≡ true) }
    {
        let Some(count) = self.count_within(len) else {
            return Err(ContentError::Cut);
        };
        let Some((first, begin)) = find(&self.notes.as_slice()[..count], start) else {
            return Err(ContentError::Fault);
        };
        let mut bytes = Vec::new(alloc);
        let mut at = begin;
        for index in first..count {
            let note = self.notes[index];
            let Some(offset) = self.trace.base().checked_add(at) else {
                return Err(ContentError::Fault);
            };
            add_read(files, self.name(), offset, note, &mut bytes)?;
            let Some(next) = at.checked_add(note.len) else {
                return Err(ContentError::Fault);
            };
            if end <= next {
                return part_of(alloc, bytes.as_slice(), start - begin, end - begin);
            }
            at = next;
        }
        Err(ContentError::Fault)
    }

    /// Returns the notes of the pieces that have the bytes from `start` to before `end` of the first pieces, which have this length,
    /// and where among the pieces the first of them begins.
    ///
    /// # Errors
    ///
    /// - `Cut`: this length ends within a piece.
    /// - `Fault`: it ends before `end`.
    /// - `Memory`
    pub(crate) fn notes_between(
        &self,
        alloc: Global,
        len: u64,
        start: u64,
        end: u64,
    ) -> Result<(u64, Vec<u8>), ContentError>
        requires { start < end }
        ensures { IfOk result (λ r. AreNotesBetween (take len (bytes_of self.now)) start end r.0
            r.1.items) }
    {
        let Some(count) = self.count_within(len) else {
            return Err(ContentError::Cut);
        };
        let Some((first, begin)) = find(&self.notes.as_slice()[..count], start) else {
            return Err(ContentError::Fault);
        };
        let mut notes = Vec::new(alloc);
        let mut at = begin;
        for index in first..count {
            let note = self.notes[index];
            note.write(&mut notes)?;
            let Some(next) = at.checked_add(note.len) else {
                return Err(ContentError::Fault);
            };
            if end <= next {
                return Ok((begin, notes));
            }
            at = next;
        }
        Err(ContentError::Fault)
    }
}

/// Copies the bytes from `start` to before `end`.
pub(crate) fn part_of(
    alloc: Global,
    bytes: &[u8],
    start: u64,
    end: u64,
) -> Result<Vec<u8>, ContentError>
    requires ordered { start ≤ end }
    requires within { end ≤ length bytes.now }
    ensures { IfOk result (λ v. v.items ≡ take (end - start) (drop start bytes.now)) }
{
    let part = &bytes[start as usize..end as usize];
    let mut copy = Vec::with_capacity(alloc, part.len())?;
    copy.extend_from_slice(part)?;
    Ok(copy)
}

/// Reads the piece with a note and adds its bytes.
fn add_read<F: ContentStore>(
    files: &F,
    name: ContentName,
    offset: u64,
    note: Note,
    out: &mut Vec<u8>,
) -> Result<(), ContentError>
    ensures ok { OnOk result (IsAddedRead (note_shown note) out.old.items out.new.items) }
    ensures there { OnOk result (F.on_disk ≡ true) }
{
    let mut bytes = Vec::from_elem(*out.allocator(), 0u8, note.len as usize)?;
    read_noted(files, name, offset, note, bytes.as_mut_slice())?;
    out.extend_from_slice(bytes.as_slice())?;
    Ok(())
}

/// Reads bytes of which this is noted, and compares their sum.
fn read_noted<F: ContentStore>(
    files: &F,
    name: ContentName,
    offset: u64,
    note: Note,
    out: &mut [u8],
) -> Result<(), ContentError>
    requires { length out.old ≡ note.len }
    ensures len { length out.new ≡ length out.old }
    ensures ok { OnOk result (note_of out.new ≡ note_shown note) }
    ensures there { OnOk result (F.on_disk ≡ true) }
{
    files.read(name, offset, out)?;
    if sum_of(out) != note.sum {
        return Err(ContentError::Fault);
    }
    Ok(())
}
