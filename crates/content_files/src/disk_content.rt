//! A content in a file.

ghost use Rattle.std.specs.Prelude.{◌≡◌, ◌++◌, ◌<◌, IfErr, IfOk, OnOk, OnErr, false, length, take, true};
ghost use Rattle.content_files.specs.Chunks.{chunk_notes, read_notes};
ghost use Rattle.content_files.specs.Held.{first_noted, first_within};
ghost use Rattle.content_files.specs.LocatedNotes.{AreNotesBetween};
ghost use Rattle.content_files.specs.Notes.{is_read};
ghost use Rattle.content_files.specs.Parts.{IsPart};

use crate::error::ContentError;
use crate::located::Located;
use crate::name::ContentName;
use crate::note::{Note, reveal_read};
use crate::pieces::{Pieces, part_of};
use crate::store::ContentStore;
use crate::written::Unsynced;
use std::alloc::{AllocError, Global};
use std::marker::Model;
use std::mem;

/// A content in a file, in pieces of at most `MAX_PIECE` bytes. Memory keeps the length and the sum of each piece.
///
/// The first bytes may be in memory too: those that the content had before it moved into its file. They have no piece and
/// no note, and each piece lies at its offset in the content.
///
/// Contracts see the bytes that were added, or, for a piece that an earlier process added, as many numbers above 255
/// (`unread`). That the file holds the bytes is the premise of `Unsynced::sync`.
#[derive(Drop)]
pub struct DiskContent {
    /// The first bytes.
    front: Vec<u8>,
    pieces: Pieces,
    /// The length of the content. It is less than that of the first bytes and the pieces if the content was cut.
    len: u64,
    /// The offset of the first byte that was not read since the start.
    first_unread: Option<u64>,
}

impl Model for DiskContent {
    ghost use Rattle.std.specs.Prelude.{ℕ, List};
    ghost use Rattle.content_files.specs.Held.{IsHeld, held};

    ghost Value = { List ℕ };

    ghost view = { λ d. held d.front.items d.len d.pieces };

    ghost invariant = { λ d. IsHeld d.front.items d.len d.pieces d.first_unread };
}

impl DiskContent {
    /// Creates a content of these bytes, which stay in memory. Nothing is written, and its file need not exist.
    ///
    /// # Cost
    ///
    /// Two small allocations, which are given back.
    pub fn new(alloc: Global, name: ContentName, front: Vec<u8>) -> Result<DiskContent, AllocError>
        ensures { IfOk result (λ d. d ≡ front.items) }
    {
        let len = front.len() as u64;
        let pieces = Pieces::new(alloc, name, len)?;
        reveal_read(front.as_slice());
        Ok(DiskContent {
            front,
            pieces,
            len,
            first_unread: None,
        })
    }

    /// Writes a content in memory to its file, and more bytes after it, and does not sync them. `moved` syncs the file, with all of them.
    ///
    /// # Errors
    ///
    /// `Memory` if there are more than 2^64 bytes, or the error of `ContentStore::write`.
    pub(crate) fn begin_moved<'b, F: ContentStore>(
        files: &F,
        name: ContentName,
        content: &[u8],
        bytes: &'b [u8],
    ) -> Result<Unsynced<'b>, ContentError>
        ensures { IfOk result (λ w. w.bytes ≡ bytes.now) }
    {
        let base = content.len() as u64;
        if base.checked_add(bytes.len() as u64).is_none() {
            return Err(ContentError::Memory);
        }
        if !content.is_empty() {
            let _front = files.write(name, 0, content)?;
        }
        files.write(name, base, bytes)
    }

    /// Moves a content in memory into its file, to which it was written with more bytes: syncs both. The notes of the pieces of the
    /// further bytes are appended to `notes`. What the content had stays in memory too.
    ///
    /// # Errors
    ///
    /// The content in memory is unchanged. `notes` may have grown.
    ///
    /// - `Cut`: the bytes do not lie where the content ends.
    /// - `Memory`
    /// - The error of `ContentStore::sync`.
    pub(crate) fn moved<F: ContentStore>(
        files: &F,
        content: &mut Vec<u8>,
        unsynced: Unsynced<'_>,
        notes: &mut Vec<u8>,
    ) -> Result<DiskContent, ContentError>
        ensures ok { IfOk result (λ d. d ≡ content.old.items ++ unsynced.entry.bytes) }
        ensures noted { OnOk result (notes.new.items ≡ notes.old.items
            ++ chunk_notes unsynced.entry.bytes) }
        ensures err { OnErr result (content.new.items ≡ content.old.items) }
    {
        let alloc = *content.allocator();
        let base = content.len() as u64;
        let mut pieces = Pieces::new(alloc, unsynced.name(), base)?;
        reveal_read(content.as_slice());
        unsynced.reveal_read();
        pieces.complete(files, unsynced, notes)?;
        let Some(len) = base.checked_add(pieces.total()) else {
            return Err(ContentError::Memory);
        };
        Ok(DiskContent {
            front: mem::replace(content, Vec::new(alloc)),
            pieces,
            len,
            first_unread: None,
        })
    }

    /// Takes a content in memory, and adds a chunk that lies in the file of this name, by the notes of its pieces. Nothing is
    /// written or read.
    ///
    /// # Errors
    ///
    /// The content in memory is unchanged.
    ///
    /// - `Notes`: these are not the notes of a chunk.
    /// - `Memory`
    pub(crate) fn noted(
        name: ContentName,
        content: &mut Vec<u8>,
        notes: &[u8],
    ) -> Result<DiskContent, ContentError>
        ensures ok { IfOk result (λ d. d ≡ content.old.items ++ read_notes notes.now) }
        ensures notes { OnOk result (chunk_notes (read_notes notes.now) ≡ notes.now) }
        ensures err { OnErr result (content.new.items ≡ content.old.items) }
    {
        let alloc = *content.allocator();
        let base = content.len() as u64;
        let mut pieces = Pieces::new(alloc, name, base)?;
        pieces.add_notes(notes)?;
        let Some(len) = base.checked_add(pieces.total()) else {
            return Err(ContentError::Memory);
        };
        reveal_read(content.as_slice());
        let first_unread = first_after(None, base, len);
        Ok(DiskContent {
            front: mem::replace(content, Vec::new(alloc)),
            pieces,
            len,
            first_unread,
        })
    }

    /// Returns the name.
    pub fn name(&self) -> ContentName {
        self.pieces.name()
    }

    /// Returns the allocator of the first bytes.
    pub(crate) fn allocator(&self) -> Global {
        *self.front.allocator()
    }

    /// Returns the length in bytes.
    pub fn len(&self) -> u64
        ensures { result ≡ length self.now }
    {
        self.len
    }

    /// Returns whether every byte was added as a byte, and none by a note alone.
    pub fn is_read(&self) -> bool
        ensures { result ≡ true → is_read self.now ≡ true }
    {
        self.first_unread.is_none()
    }

    /// Returns whether some byte was added by a note alone.
    pub fn is_unread(&self) -> bool
        ensures { result ≡ true → is_read self.now ≡ false }
    {
        self.first_unread.is_some()
    }

    /// Cuts the content to a length in bytes, if it is longer. The file is not changed.
    pub fn truncate(&mut self, len: u64)
        ensures { self.new ≡ take len self.old }
    {
        if len < self.len {
            self.len = len;
            self.first_unread = first_before(self.first_unread, len);
        }
    }

    /// Cuts the content to a length in bytes. Returns its bytes if all of them are in memory, and the content if not.
    pub(crate) fn truncated(self, len: u64) -> Result<Vec<u8>, DiskContent>
        ensures front { IfOk result (λ v. v.items ≡ take len self) }
        ensures rest { IfErr result (λ d. d ≡ take len self) }
    {
        let mut content = self;
        content.truncate(len);
        let left = content.len;
        if left > content.front.len() as u64 {
            return Err(content);
        }
        let mut front = content.front;
        front.truncate(left as usize);
        Ok(front)
    }

    /// Writes bytes at the end of the content, and does not sync them. `complete` adds them.
    ///
    /// # Errors
    ///
    /// `Memory` if the content would be longer than 2^64 bytes, or the error of `ContentStore::write`.
    pub(crate) fn begin<'b, F: ContentStore>(
        &self,
        files: &F,
        bytes: &'b [u8],
    ) -> Result<Unsynced<'b>, ContentError>
        ensures { IfOk result (λ w. w.bytes ≡ bytes.now) }
    {
        if self.len.checked_add(bytes.len() as u64).is_none() {
            return Err(ContentError::Memory);
        }
        files.write(self.name(), self.len, bytes)
    }

    /// Adds bytes that `begin` has written, once they are synced. The notes of their pieces are appended to `notes`. No bytes have no
    /// notes.
    ///
    /// # Errors
    ///
    /// The content is unchanged, and the next bytes go to the same place.
    ///
    /// - `Cut`: the content was cut within its first bytes or a piece, or does not end where the bytes begin.
    /// - The error of `ContentStore::sync`.
    /// - `Memory`
    ///
    /// # Cost
    ///
    /// One sync, and 16 bytes of memory for each MiB, as of `notes`. Two small allocations are made for each piece, and given
    /// back.
    pub(crate) fn complete<F: ContentStore>(
        &mut self,
        files: &F,
        unsynced: Unsynced<'_>,
        notes: &mut Vec<u8>,
    ) -> Result<(), ContentError>
        ensures ok { OnOk result (self.new ≡ self.old ++ unsynced.entry.bytes) }
        ensures noted { OnOk result (notes.new.items ≡ notes.old.items
            ++ chunk_notes unsynced.entry.bytes) }
        ensures err { OnErr result (self.new ≡ self.old) }
    {
        let Some(rest) = self.len.checked_sub(self.front.len() as u64) else {
            return Err(ContentError::Cut);
        };
        let Some(len) = self.len.checked_add(unsynced.len() as u64) else {
            return Err(ContentError::Memory);
        };
        self.pieces.cut(rest)?;
        unsynced.reveal_read();
        self.pieces.complete(files, unsynced, notes)?;
        self.len = len;
        Ok(())
    }

    /// Adds bytes: writes them at the end of the file, and syncs them. The notes of their pieces are appended to `notes`. No
    /// bytes are not written, and have no notes.
    ///
    /// # Errors
    ///
    /// The content is unchanged, and the next bytes go to the same place.
    ///
    /// - `Cut`: the content was cut within its first bytes or a piece.
    /// - The error of `ContentStore::write` or `ContentStore::sync`.
    /// - `Memory`, also if the content would be longer than 2^64 bytes.
    ///
    /// # Cost
    ///
    /// One write, and that of a sync, with 16 bytes of memory for each MiB, as of `notes`.
    pub fn add<F: ContentStore>(
        &mut self,
        files: &F,
        bytes: &[u8],
        notes: &mut Vec<u8>,
    ) -> Result<(), ContentError>
        ensures ok { OnOk result (self.new ≡ self.old ++ bytes.now) }
        ensures noted { OnOk result (notes.new.items ≡ notes.old.items ++ chunk_notes bytes.now) }
        ensures err { OnErr result (self.new ≡ self.old) }
    {
        if bytes.is_empty() {
            return Ok(());
        }
        let unsynced = self.begin(files, bytes)?;
        self.complete(files, unsynced, notes)
    }

    /// Adds a chunk that an earlier process added, by the notes of its pieces. Nothing is written or read.
    ///
    /// # Errors
    ///
    /// The content is unchanged.
    ///
    /// - `Cut`: the content was cut within its first bytes or a piece.
    /// - `Notes`: these are not the notes of a chunk.
    /// - `Memory`, also if the content would be longer than 2^64 bytes.
    pub fn add_notes(&mut self, notes: &[u8]) -> Result<(), ContentError>
        ensures ok { OnOk result (self.new ≡ self.old ++ read_notes notes.now) }
        ensures notes { OnOk result (chunk_notes (read_notes notes.now) ≡ notes.now) }
        ensures err { OnErr result (self.new ≡ self.old) }
    {
        let base = self.front.len() as u64;
        let Some(rest) = self.len.checked_sub(base) else {
            return Err(ContentError::Cut);
        };
        self.pieces.cut(rest)?;
        self.pieces.add_notes(notes)?;
        let Some(len) = base.checked_add(self.pieces.total()) else {
            return Err(ContentError::Memory);
        };
        self.first_unread = first_after(self.first_unread, self.len, len);
        self.len = len;
        Ok(())
    }

    /// Returns the bytes from `start` to before `end`. Those that are not in memory are read, piece by piece, and the pieces'
    /// sums are compared.
    ///
    /// # Errors
    ///
    /// - `Fault`: the content ends before `end`, or the file has other bytes or too few.
    /// - `Cut`: the content was cut within a piece.
    /// - `Memory`
    /// - `Io`: the operating system's error.
    ///
    /// # Cost
    ///
    /// One step for each piece before them, or for each piece if the content was cut. A read for each piece that has some of
    /// them. Allocations of their length, of a piece, and of the bytes of these pieces.
    pub fn read_between<F: ContentStore>(
        &self,
        files: &F,
        alloc: Global,
        start: u64,
        end: u64,
    ) -> Result<Vec<u8>, ContentError>
        requires { start < end }
        ensures { IfOk result (λ v. IsPart F.on_disk self.now start end v.items) }
    {
        let base = self.front.len() as u64;
        if end > self.len {
            return Err(ContentError::Fault);
        }
        if end <= base {
            return part_of(alloc, self.front.as_slice(), start, end);
        }
        let rest = self.len - base;
        if base <= start {
            return self
                .pieces
                .read_between(files, alloc, rest, start - base, end - base);
        }
        let mut bytes = part_of(alloc, self.front.as_slice(), start, base)?;
        let others = self.pieces.read_between(files, alloc, rest, 0, end - base)?;
        bytes.extend_from_slice(others.as_slice())?;
        Ok(bytes)
    }

    /// Returns where the bytes from `start` to before `end` lie in the file, with the notes of the pieces that have them. The first
    /// bytes are in the file too, as one piece.
    ///
    /// # Errors
    ///
    /// - `Fault`: the content ends before `end`.
    /// - `Cut`: the content was cut within its first bytes or a piece.
    /// - `Memory`
    ///
    /// # Cost
    ///
    /// One step for each piece before them, or for each piece if the content was cut. An allocation of 16 bytes for each piece.
    /// The first bytes are summed. It reads no file.
    pub fn located(&self, alloc: Global, start: u64, end: u64) -> Result<Located, ContentError>
        requires { start < end }
        ensures { IfOk result (λ l. AreNotesBetween self.now start end l.offset l.notes.items) }
    {
        let base = self.front.len() as u64;
        if end > self.len {
            return Err(ContentError::Fault);
        }
        let Some(rest) = self.len.checked_sub(base) else {
            return Err(ContentError::Cut);
        };
        let name = self.name();
        if base <= start {
            let (begin, notes) = self
                .pieces
                .notes_between(alloc, rest, start - base, end - base)?;
            return Ok(Located {
                name,
                offset: base + begin,
                notes,
            });
        }
        let mut notes = Vec::new(alloc);
        Note::of(self.front.as_slice()).write(&mut notes)?;
        let offset = 0;
        if end <= base {
            return Ok(Located {
                name,
                offset,
                notes,
            });
        }
        let (_, others) = self.pieces.notes_between(alloc, rest, 0, end - base)?;
        notes.extend_from_slice(others.as_slice())?;
        Ok(Located {
            name,
            offset,
            notes,
        })
    }
}

/// Returns the offset of the first unread byte of a content that is cut to this length.
fn first_before(first_unread: Option<u64>, len: u64) -> Option<u64>
    ensures { result ≡ first_within first_unread len }
{
    match first_unread {
        Some(first) if first < len => Some(first),
        _ => None,
    }
}

/// Returns the offset of the first unread byte of a content that grew by an unread chunk.
fn first_after(first_unread: Option<u64>, old_len: u64, new_len: u64) -> Option<u64>
    ensures { result ≡ first_noted first_unread old_len new_len }
{
    match first_unread {
        Some(first) => Some(first),
        None if old_len < new_len => Some(old_len),
        None => None,
    }
}
