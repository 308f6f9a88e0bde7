//! The files of contents, of which a long chunk is synced while it is hashed.

ghost use Rattle.std.specs.Prelude.{true};

use crate::contents::ServedContents;
use content_files::{ContentError, ContentName, ContentStore, Unsynced, Written};
use std::thread::Threads;
use store_server::ContentFiles;

/// The length of the shortest chunk of which a thread begins the sync, in bytes. Below it, a thread takes longer to start than the chunk
/// to hash.
const LONG: usize = 262_144;

/// The files of a store's contents. After the write of a long chunk a thread begins to sync it. The caller hashes the chunk, and syncs it
/// then: it waits only for what is left.
#[derive(Drop)]
pub struct EarlySyncs<'f, 'c, W> {
    rt: &'f W,
    files: &'f ServedContents<'c>,
}

impl<'f, 'c, W: Threads> EarlySyncs<'f, 'c, W> {
    /// Returns these files, whose threads are started by `rt`.
    pub fn new(rt: &'f W, files: &'f ServedContents<'c>) -> EarlySyncs<'f, 'c, W> {
        EarlySyncs { rt, files }
    }
}

impl<'f, 'c, W: Threads> ContentStore for EarlySyncs<'f, 'c, W> {
    ghost on_disk = { true };

    fn is_on_disk(&self) -> bool {
        true
    }

    fn hashes_sha512(&self) -> bool {
        self.files.hashes_sha512()
    }

    fn write<'b>(
        &self,
        name: ContentName,
        offset: u64,
        bytes: &'b [u8],
    ) -> Result<Unsynced<'b>, ContentError> {
        match self.files.write(name, offset, bytes) {
            Ok(unsynced) => {
                if bytes.len() >= LONG {
                    self.files.start_sync(self.rt, name);
                }
                Ok(unsynced)
            }
            Err(error) => Err(error),
        }
    }

    fn sync<'b>(&self, written: Unsynced<'b>) -> Result<Written<'b>, ContentError> {
        self.files.sync(written)
    }

    fn cut_behind(&self, name: ContentName, len: u64) {
        self.files.cut_behind(name, len);
    }

    fn read(&self, name: ContentName, offset: u64, out: &mut [u8]) -> Result<(), ContentError> {
        self.files.read(name, offset, out)
    }
}

impl<'f, 'c, W: Threads> ContentFiles for EarlySyncs<'f, 'c, W> {
    fn remove(&self, name: ContentName) {
        self.files.remove(name);
    }
}
