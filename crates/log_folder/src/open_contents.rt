//! The contents of sessions, while a log is converted.

ghost use Rattle.std.specs.Prelude.{true};

use content_files::{Content, ContentError, ContentName, ContentStore, Home, Unsynced, Written};
use content_folder::{ContentFolder, WrittenFiles};
use std::alloc::{AllocError, Global};
use std::collections::BTreeMap;

/// The files of contents. Bytes that a file has already are not written again.
///
/// So a conversion that was interrupted goes on where it was, and never cuts a file of which its log has notes.
#[derive(Drop)]
struct OnceWritten<'c, 'r> {
    folder: &'c ContentFolder<'r>,
    already: WrittenFiles<'c, 'r>,
}

impl<'c, 'r> ContentStore for OnceWritten<'c, 'r> {
    ghost on_disk = { true };

    fn is_on_disk(&self) -> bool {
        true
    }

    fn hashes_sha512(&self) -> bool {
        false
    }

    fn write<'b>(
        &self,
        name: ContentName,
        offset: u64,
        bytes: &'b [u8],
    ) -> Result<Unsynced<'b>, ContentError> {
        match self.already.write(name, offset, bytes) {
            Ok(unsynced) => Ok(unsynced),
            Err(_) => self.folder.write(name, offset, bytes),
        }
    }

    fn sync<'b>(&self, written: Unsynced<'b>) -> Result<Written<'b>, ContentError> {
        match written.sync() {
            Ok(synced) => Ok(synced),
            Err(error) => Err(ContentError::Io(error)),
        }
    }

    fn cut_behind(&self, _name: ContentName, _len: u64) {}

    fn read(&self, name: ContentName, offset: u64, out: &mut [u8]) -> Result<(), ContentError> {
        self.folder.read(name, offset, out)
    }
}

/// The number of contents in files, and the number of their bytes.
#[derive(Clone, Copy)]
pub(crate) struct HeldContents {
    pub contents: u64,
    pub bytes: u64,
}

impl HeldContents {
    /// Counts a content, if it lies in a file.
    fn add(&mut self, content: &Content) {
        if content.name().is_some() {
            self.contents = self.contents.saturating_add(1);
            self.bytes = self.bytes.saturating_add(content.len());
        }
    }
}

/// The contents of the sessions that are open at a place in a log. A content that becomes longer than `longest` goes into its file.
///
/// # Memory
///
/// Of each content up to `longest` bytes, and 16 bytes for each MiB in its file.
#[derive(Drop)]
pub(crate) struct OpenContents<'c, 'r> {
    alloc: Global,
    files: OnceWritten<'c, 'r>,
    tenants: &'c [String],
    longest: u64,
    /// Each content by the number of its session, for each tenant.
    open: Vec<BTreeMap<u32, Content>>,
    /// The contents of sessions that were closed.
    closed: HeldContents,
}

impl<'c, 'r> OpenContents<'c, 'r> {
    /// Begins at the front of a log. The tenants are those of the folder.
    pub fn new(
        alloc: Global,
        folder: &'c ContentFolder<'r>,
        tenants: &'c [String],
        longest: u64,
    ) -> Result<OpenContents<'c, 'r>, AllocError> {
        let mut open = Vec::with_capacity(alloc, tenants.len())?;
        for _ in tenants {
            open.push(BTreeMap::new(alloc))?;
        }
        Ok(OpenContents {
            alloc,
            files: OnceWritten {
                folder,
                already: folder.written_already(),
            },
            tenants,
            longest,
            open,
            closed: HeldContents {
                contents: 0,
                bytes: 0,
            },
        })
    }

    /// Returns the name of the content of a session, if the tenant and the number are those of one.
    pub fn name_of(&self, tenant: &[u8], number: u64) -> Option<ContentName> {
        let number = u32::try_from(number).ok()?;
        for (index, name) in self.tenants.iter().enumerate() {
            if name.as_bytes() == tenant {
                let tenant = u16::try_from(index).ok()?;
                return Some(ContentName { tenant, number });
            }
        }
        None
    }

    /// Takes the content of a session. If there is none, it is empty.
    fn take(&mut self, name: ContentName) -> Content {
        if let Some(sessions) = self.open.get_mut(name.tenant as usize) {
            if let Some(content) = sessions.remove(&name.number) {
                return content;
            }
        }
        Content::resident(Vec::new(self.alloc))
    }

    /// Puts the content of a session back.
    fn put_back(&mut self, name: ContentName, content: Content) -> Result<(), AllocError> {
        if let Some(sessions) = self.open.get_mut(name.tenant as usize) {
            let _ = sessions.insert(name.number, content)?;
        }
        Ok(())
    }

    /// Takes the content of a session, and adds a chunk. Returns the content, and whether it lies in its file. The notes of the
    /// chunk's pieces are appended to `notes` then.
    fn extended(
        &mut self,
        name: ContentName,
        bytes: &[u8],
        notes: &mut Vec<u8>,
    ) -> Result<(Content, bool), ContentError> {
        let home = Home {
            name,
            longest: self.longest,
        };
        let mut content = self.take(name);
        content.extend(&self.files, Some(home), bytes, notes)?;
        let is_long = home.has_content_of(content.len());
        Ok((content, is_long))
    }

    /// Adds a chunk to the content of a session. Returns whether it lies in its file. The notes of the chunk's pieces are appended
    /// to `notes` then.
    ///
    /// # Errors
    ///
    /// The error of a write, or `Memory`. Then the content is forgotten.
    pub fn add(
        &mut self,
        name: ContentName,
        bytes: &[u8],
        notes: &mut Vec<u8>,
    ) -> Result<bool, ContentError> {
        let (content, is_long) = self.extended(name, bytes, notes)?;
        self.put_back(name, content)?;
        Ok(is_long)
    }

    /// Adds the last chunk to the content of a session, as `add` does, and closes the session.
    ///
    /// # Errors
    ///
    /// Those of `add`.
    pub fn close(
        &mut self,
        name: ContentName,
        last: &[u8],
        notes: &mut Vec<u8>,
    ) -> Result<bool, ContentError> {
        let (content, is_long) = self.extended(name, last, notes)?;
        self.closed.add(&content);
        Ok(is_long)
    }

    /// Adds a chunk of which the log has notes. If `is_last`, closes the session. Nothing is written.
    ///
    /// # Errors
    ///
    /// `Notes`, or `Memory`. Then the content is forgotten.
    pub fn add_noted(
        &mut self,
        name: ContentName,
        notes: &[u8],
        is_last: bool,
    ) -> Result<(), ContentError> {
        let mut content = self.take(name);
        content.extend_noted(name, notes)?;
        if is_last {
            self.closed.add(&content);
        } else {
            self.put_back(name, content)?;
        }
        Ok(())
    }

    /// Forgets the content of a session that is dropped.
    pub fn forget(&mut self, name: ContentName) {
        let _ = self.take(name);
    }

    /// Returns the contents in files, of sessions that were closed and of those that are open.
    pub fn held(&self) -> HeldContents {
        let mut held = self.closed;
        for sessions in &self.open {
            for content in sessions.values() {
                held.add(content);
            }
        }
        held
    }
}
