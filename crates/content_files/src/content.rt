//! A content, in memory or in a file.

ghost use Rattle.std.specs.Prelude.{◌≡◌, ◌<◌, ◌++◌, length, take, IfOk, IfSome, OnErr, OnOk, [], false, true};
ghost use Rattle.content_files.specs.Chunks.{chunk_notes, is_in_file, read_notes};
ghost use Rattle.content_files.specs.LocatedNotes.{AreNotesBetween};
ghost use Rattle.content_files.specs.Notes.{is_read};
ghost use Rattle.content_files.specs.Parts.{IsPart};
ghost use Rattle.content_files.specs.Places.{content_shown};

use crate::disk_content::DiskContent;
use crate::error::ContentError;
use crate::home::Home;
use crate::located::Located;
use crate::name::ContentName;
use crate::note::reveal_read;
use crate::pieces::part_of;
use crate::store::ContentStore;
use crate::written::Unsynced;
use std::alloc::{AllocError, Global};
use std::marker::Model;
use std::mem;

/// Where a content lies.
#[derive(Drop)]
enum Place {
    Resident(Vec<u8>),
    OnDisk(DiskContent),
}

/// A content, in memory or in a file. Contracts see its bytes.
///
/// A content in a file keeps the bytes in memory that it had before it moved there. The file has them too.
#[derive(Drop)]
pub struct Content {
    place: Place,
}

impl Model for Content {
    ghost use Rattle.std.specs.Prelude.{ℕ, List};
    ghost use Rattle.content_files.specs.Places.{content_shown};

    ghost Value = { List ℕ };

    ghost view = { λ c. content_shown c.place };
}

impl Content {
    /// Returns a content in memory.
    pub fn resident(bytes: Vec<u8>) -> Content
        ensures { result ≡ bytes.items }
    {
        Content {
            place: Place::Resident(bytes),
        }
    }

    /// Returns the length in bytes.
    pub fn len(&self) -> u64
        ensures { result ≡ length self.now }
    {
        match &self.place {
            Place::Resident(bytes) => bytes.len() as u64,
            Place::OnDisk(content) => content.len(),
        }
    }

    /// Returns whether all of the content was accepted or read since the start.
    pub fn is_read(&self) -> bool
        ensures { result ≡ true → is_read self.now ≡ true }
    {
        match &self.place {
            Place::Resident(bytes) => {
                reveal_read(bytes.as_slice());
                true
            }
            Place::OnDisk(content) => content.is_read(),
        }
    }

    /// Returns whether a byte of the content was not read since the start.
    pub fn is_unread(&self) -> bool
        ensures { result ≡ true → is_read self.now ≡ false }
    {
        match &self.place {
            Place::Resident(_) => false,
            Place::OnDisk(content) => content.is_unread(),
        }
    }

    /// Returns the name, if the content lies in a file.
    pub fn name(&self) -> Option<ContentName> {
        match &self.place {
            Place::Resident(_) => None,
            Place::OnDisk(content) => Some(content.name()),
        }
    }

    /// Returns the bytes, if they are in memory.
    pub fn bytes(&self) -> Option<&[u8]>
        ensures { IfSome result (λ b. b.now ≡ self.now) }
    {
        match &self.place {
            Place::Resident(bytes) => Some(bytes.as_slice()),
            Place::OnDisk(_) => None,
        }
    }

    /// Returns the bytes without copying them, if they are in memory.
    pub fn into_bytes(self) -> Option<Vec<u8>>
        ensures { IfSome result (λ b. b.items ≡ self) }
    {
        match self.place {
            Place::Resident(bytes) => Some(bytes),
            Place::OnDisk(_) => None,
        }
    }

    /// Returns a content in a file, without bytes.
    pub fn on_disk(alloc: Global, name: ContentName) -> Result<Content, AllocError>
        ensures { IfOk result (λ c. c ≡ []) }
    {
        let content = DiskContent::new(alloc, name, Vec::new(alloc))?;
        Ok(Content {
            place: Place::OnDisk(content),
        })
    }

    /// Writes bytes that are to be added at the end, if the content lies in a file with them, and does not sync them. `complete` adds
    /// the bytes.
    ///
    /// If the content is in memory and becomes longer than its home allows, what it has is written to its file first.
    ///
    /// # Errors
    ///
    /// `Memory` if the content would be longer than 2^64 bytes, or the error of `ContentStore::write`.
    ///
    /// # Cost
    ///
    /// One write, or two if the content is in memory.
    pub fn begin<'b, F: ContentStore>(
        &self,
        files: &F,
        home: Option<Home>,
        bytes: &'b [u8],
    ) -> Result<Option<Unsynced<'b>>, ContentError>
        ensures { IfOk result (λ r. IfSome r (λ w. w.bytes ≡ bytes.now)) }
    {
        if bytes.is_empty() {
            return Ok(None);
        }
        match &self.place {
            Place::Resident(old) => match new_name(home, old.len(), bytes.len()) {
                Some(name) => {
                    let unsynced = DiskContent::begin_moved(files, name, old.as_slice(), bytes)?;
                    Ok(Some(unsynced))
                }
                None => Ok(None),
            },
            Place::OnDisk(content) => {
                let unsynced = content.begin(files, bytes)?;
                Ok(Some(unsynced))
            }
        }
    }

    /// Adds bytes at the end, of which `begin` returned `unsynced`. If they are in a file, they are synced, and the notes of their
    /// pieces are appended to `notes`.
    ///
    /// What a content had that moved into its file stays in memory too.
    ///
    /// # Errors
    ///
    /// The content is unchanged. `notes` may have grown.
    ///
    /// - `Cut`: the content is not that for which the bytes were written, or was cut within a piece.
    /// - The error of `ContentStore::sync`.
    /// - `Memory`
    pub fn complete<F: ContentStore>(
        &mut self,
        files: &F,
        home: Option<Home>,
        bytes: &[u8],
        unsynced: Option<Unsynced<'_>>,
        notes: &mut Vec<u8>,
    ) -> Result<(), ContentError>
        requires { IfSome unsynced (λ w. w.bytes ≡ bytes.now) }
        ensures ok { OnOk result (self.new ≡ self.old ++ bytes.now) }
        ensures noted { OnOk result (is_in_file home (length self.new) ≡ true →
            notes.new.items ≡ notes.old.items ++ chunk_notes bytes.now) }
        ensures err { OnErr result (self.new ≡ self.old) }
    {
        match &mut self.place {
            Place::Resident(old) => match unsynced {
                Some(unsynced) => {
                    let content = DiskContent::moved(files, old, unsynced, notes)?;
                    self.place = Place::OnDisk(content);
                    Ok(())
                }
                None => add_in_memory(old, home, bytes),
            },
            Place::OnDisk(content) => match unsynced {
                Some(unsynced) => content.complete(files, unsynced, notes),
                None if bytes.is_empty() => Ok(()),
                None => Err(ContentError::Cut),
            },
        }
    }

    /// Adds bytes at the end: `begin`, and then `complete`.
    ///
    /// # Errors
    ///
    /// The cause. The content is unchanged. `notes` may have grown.
    pub fn extend<F: ContentStore>(
        &mut self,
        files: &F,
        home: Option<Home>,
        bytes: &[u8],
        notes: &mut Vec<u8>,
    ) -> Result<(), ContentError>
        ensures ok { OnOk result (self.new ≡ self.old ++ bytes.now) }
        ensures noted { OnOk result (is_in_file home (length self.new) ≡ true →
            notes.new.items ≡ notes.old.items ++ chunk_notes bytes.now) }
        ensures err { OnErr result (self.new ≡ self.old) }
    {
        let unsynced = self.begin(files, home, bytes)?;
        self.complete(files, home, bytes, unsynced, notes)
    }

    /// Adds a chunk that an earlier process added and that was not read since the start, by the notes of its pieces. Nothing is
    /// written or read.
    ///
    /// If the content is in memory, what it has stays there, and what follows lies in the file of this name. A content in a file
    /// keeps its name. No notes change nothing.
    ///
    /// # Errors
    ///
    /// The content is unchanged.
    ///
    /// - `Notes`: these are not the notes of a chunk.
    /// - `Cut`: the content was cut.
    /// - `Memory`
    pub fn extend_noted(&mut self, name: ContentName, notes: &[u8]) -> Result<(), ContentError>
        ensures ok { OnOk result (self.new ≡ self.old ++ read_notes notes.now) }
        ensures notes { OnOk result (chunk_notes (read_notes notes.now) ≡ notes.now) }
        ensures err { OnErr result (self.new ≡ self.old) }
    {
        if notes.is_empty() {
            return Ok(());
        }
        match &mut self.place {
            Place::Resident(old) => {
                let content = DiskContent::noted(name, old, notes)?;
                self.place = Place::OnDisk(content);
                Ok(())
            }
            Place::OnDisk(content) => content.add_notes(notes),
        }
    }

    /// Cuts the content to a length, if it is longer. If all that is left is in memory, it is a content in memory again. The file is
    /// not changed.
    pub fn truncate(&mut self, len: usize)
        ensures { self.new ≡ take len self.old }
    {
        let alloc = match &self.place {
            Place::Resident(bytes) => *bytes.allocator(),
            Place::OnDisk(content) => content.allocator(),
        };
        let empty = Place::Resident(Vec::new(alloc));
        let place = mem::replace(&mut self.place, empty);
        self.place = truncated(place, len);
    }

    /// Returns the bytes from `start` to before `end`. It reads those that are not in memory, and compares the sums of the pieces
    /// that have them.
    ///
    /// # Errors
    ///
    /// - `Fault`: the content ends before `end`, or the file has other bytes or too few.
    /// - `Cut`: the content was cut within a piece.
    /// - `Memory`
    /// - `Io`: the operating system's error.
    ///
    /// # Cost
    ///
    /// A copy of the bytes, or a read for each piece that has some of them.
    pub fn read_between<F: ContentStore>(
        &self,
        files: &F,
        alloc: Global,
        start: u64,
        end: u64,
    ) -> Result<Vec<u8>, ContentError>
        requires { start < end }
        ensures { IfOk result (λ v. IsPart F.on_disk self.now start end v.items) }
    {
        match &self.place {
            Place::Resident(bytes) => {
                if end > bytes.len() as u64 {
                    return Err(ContentError::Fault);
                }
                part_of(alloc, bytes.as_slice(), start, end)
            }
            Place::OnDisk(content) => content.read_between(files, alloc, start, end),
        }
    }

    /// Returns where the bytes from `start` to before `end` lie in the content's file, with the notes of the pieces that have them, for
    /// a reader that opens the file itself. Returns `None` if the content is in memory.
    ///
    /// # Errors
    ///
    /// - `Fault`: the content ends before `end`.
    /// - `Cut`: the content was cut within a piece.
    /// - `Memory`
    ///
    /// # Cost
    ///
    /// As of `DiskContent::located`: 16 bytes of memory for each piece. It reads no file.
    pub fn located(
        &self,
        alloc: Global,
        start: u64,
        end: u64,
    ) -> Result<Option<Located>, ContentError>
        requires { start < end }
        ensures { IfOk result (λ o. IfSome o (λ l. AreNotesBetween self.now start end l.offset
            l.notes.items)) }
    {
        match &self.place {
            Place::Resident(_) => Ok(None),
            Place::OnDisk(content) => Ok(Some(content.located(alloc, start, end)?)),
        }
    }
}

/// Returns the name of the file into which a content of `len` bytes in memory moves with `more` bytes, or `None` if it stays in
/// memory.
fn new_name(home: Option<Home>, len: usize, more: usize) -> Option<ContentName> {
    let home = home?;
    match (len as u64).checked_add(more as u64) {
        Some(after) if !home.has_content_of(after) => None,
        _ => Some(home.name),
    }
}

/// Adds bytes to a content that stays in memory with them.
///
/// # Errors
///
/// The content is unchanged.
///
/// - `Cut`: there are bytes, and the content lies in its home's file with them.
/// - `Memory`
fn add_in_memory(
    content: &mut Vec<u8>,
    home: Option<Home>,
    bytes: &[u8],
) -> Result<(), ContentError>
    ensures ok { OnOk result (content.new.items ≡ content.old.items ++ bytes.now) }
    ensures stays { OnOk result (is_in_file home (length content.new.items) ≡ true →
        bytes.now ≡ []) }
    ensures err { OnErr result (content.new.items ≡ content.old.items) }
{
    if bytes.is_empty() {
        return Ok(());
    }
    let Some(len) = (content.len() as u64).checked_add(bytes.len() as u64) else {
        return Err(ContentError::Memory);
    };
    if let Some(home) = home
        && home.has_content_of(len)
    {
        return Err(ContentError::Cut);
    }
    content.extend_from_slice(bytes)?;
    Ok(())
}

/// Cuts what lies at a place to a length.
fn truncated(place: Place, len: usize) -> Place
    ensures { content_shown result ≡ take len (content_shown place) }
{
    match place {
        Place::Resident(bytes) => {
            let mut front = bytes;
            front.truncate(len);
            Place::Resident(front)
        }
        Place::OnDisk(content) => match content.truncated(len as u64) {
            Ok(front) => Place::Resident(front),
            Err(rest) => Place::OnDisk(rest),
        },
    }
}

/// Takes what threads may share, and what one may give to another.
fn crosses<T: Send + Sync>(value: &T) {
    let _ = value;
}

/// Does nothing at run time: it is checked here that threads may share a content, and that one may give it to another.
pub fn reveal_shared(content: &Content) {
    crosses(content);
}
