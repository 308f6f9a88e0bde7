//! The contents of a store with a log: their folder, and what a start finds in it.

ghost use Rattle.std.specs.Prelude.{true};

use content_files::{ContentError, ContentName, ContentStore, Unsynced, Written};
use content_folder::ContentFolder;
use std::alloc::{AllocError, Global};
use std::fs::File;
use std::io;
use std::sync::atomic::{AtomicU64, Ordering};
use std::thread::{self, Threads};
use std::time::Instant;
use store_book::Config;
use store_server::ContentFiles;

/// The length of the longest content that is in memory and in the log, in bytes, in a folder of which it is not recorded yet.
pub const LONGEST: u64 = 16_384;

/// The seconds in which at most one failed call on a content is printed.
const QUIET_SECONDS: u64 = 60;

/// The files of a store's contents, which prints calls that fail: at most one a minute.
#[derive(Drop)]
pub struct ServedContents<'c> {
    rt: HostRuntime,
    /// The folder of the log, as messages name it.
    data: &'c str,
    tenants: &'c [String],
    folder: ContentFolder<'c>,
    start: Option<Instant>,
    /// The number of the minute, counted from 1, in which a failed call was printed last.
    printed: AtomicU64,
}

/// The contents of a store, as a start takes them.
#[derive(Drop)]
pub struct Contents<'c> {
    /// The files.
    pub files: ServedContents<'c>,
    /// The path of the folder of contents.
    pub path: &'c str,
    /// The length of the longest content whose bytes the log has.
    pub longest: u64,
    /// The number of the store's slots.
    pub slots: u32,
    /// Whether the store is served although files are missing.
    pub accepts_loss: bool,
}

impl<'c> ServedContents<'c> {
    /// Opens the folder `path` of the contents of these tenants, and makes what is missing of it. Messages name it by `data`, the
    /// folder of the log. If `sha512`, contents are hashed by SHA-512 too as they come.
    ///
    /// # Errors
    ///
    /// The operating system's error.
    pub fn open(
        rt: &'c HostRuntime,
        data: &'c str,
        path: &'c str,
        tenants: &'c [String],
        sha512: bool,
    ) -> io::Result<ServedContents<'c>> {
        let folder = ContentFolder::open(rt, data, path, tenants)?.with_sha512(sha512);
        Ok(ServedContents {
            rt: *rt,
            data,
            tenants,
            folder,
            start: Instant::now(rt).ok(),
            printed: AtomicU64::new(0),
        })
    }

    /// Returns the folder.
    pub fn folder(&self) -> &ContentFolder<'c> {
        &self.folder
    }

    /// Returns the names of the tenants, in the order in which contents name them.
    pub fn tenants(&self) -> &'c [String] {
        self.tenants
    }

    /// Returns a copy of the names of the tenants.
    pub fn copied_tenants(&self, alloc: Global) -> Result<Vec<String>, AllocError> {
        let mut names = Vec::with_capacity(alloc, self.tenants.len())?;
        for tenant in self.tenants {
            names.push(tenant.clone()?)?;
        }
        Ok(names)
    }

    /// Returns the name of a content's file below the folder of the log, for messages.
    pub fn shown(&self, alloc: Global, name: ContentName) -> Result<String, AllocError> {
        let (data, number) = (self.data, name.number);
        match self.tenants.get(name.tenant as usize) {
            Some(tenant) => format!(in alloc; "{data}/contents/{tenant}/{number}"),
            None => format!(in alloc; "{data}/contents/?/{number}"),
        }
    }

    /// Starts a thread that syncs the file of a content. If it cannot be started, or its sync fails, nothing is lost but time: whoever
    /// has written to the file syncs it too, and gets the error.
    pub fn start_sync<W: Threads>(&self, rt: &W, name: ContentName) {
        let Ok(path) = self.folder.path_of(name) else {
            return;
        };
        let host = self.rt;
        let job = move || {
            if let Ok(file) = File::open(&host, path.as_str()) {
                let _ = file.sync_data();
            }
        };
        let _ = thread::spawn(rt, job);
    }

    /// Returns whether no failed call was printed in this minute.
    fn is_due(&self) -> bool {
        let seconds = match self.start {
            Some(start) => match start.elapsed(&self.rt) {
                Ok(elapsed) => elapsed.as_secs(),
                Err(_) => 0,
            },
            None => 0,
        };
        let minute = (seconds / QUIET_SECONDS).saturating_add(1);
        self.printed.swap(minute, Ordering::SeqCst) != minute
    }

    /// Prints that a call on a content failed.
    fn report(&self, verb: &str, name: ContentName, offset: u64, error: ContentError) {
        if !self.is_due() {
            return;
        }
        if let Ok(path) = self.shown(self.rt.alloc(), name) {
            let _ = eprint!(self.rt; "blobd: cannot {verb} {path} at byte {offset}: {error}\n");
        }
    }
}

impl<'c> ContentStore for ServedContents<'c> {
    ghost on_disk = { true };

    fn is_on_disk(&self) -> bool {
        true
    }

    fn hashes_sha512(&self) -> bool {
        self.folder.hashes_sha512()
    }

    fn write<'b>(
        &self,
        name: ContentName,
        offset: u64,
        bytes: &'b [u8],
    ) -> Result<Unsynced<'b>, ContentError> {
        match self.folder.write(name, offset, bytes) {
            Ok(unsynced) => Ok(unsynced),
            Err(error) => {
                self.report("write", name, offset, error);
                Err(error)
            }
        }
    }

    fn sync<'b>(&self, written: Unsynced<'b>) -> Result<Written<'b>, ContentError> {
        let (name, offset) = (written.name(), written.offset());
        match self.folder.sync(written) {
            Ok(synced) => Ok(synced),
            Err(error) => {
                self.report("write", name, offset, error);
                Err(error)
            }
        }
    }

    fn cut_behind(&self, name: ContentName, len: u64) {
        self.folder.cut_behind(name, len);
    }

    fn read(&self, name: ContentName, offset: u64, out: &mut [u8]) -> Result<(), ContentError> {
        match self.folder.read(name, offset, out) {
            Ok(()) => Ok(()),
            Err(error) => {
                self.report("read", name, offset, error);
                Err(error)
            }
        }
    }
}

impl<'c> ContentFiles for ServedContents<'c> {
    fn remove(&self, name: ContentName) {
        if let Err(error) = self.folder.remove(name) {
            self.report("remove", name, 0, ContentError::Io(error));
        }
    }
}

/// Copies the names of tenants.
pub fn copied(alloc: Global, tenants: &[String]) -> Result<Vec<String>, AllocError> {
    let mut copies = Vec::with_capacity(alloc, tenants.len())?;
    for tenant in tenants {
        copies.push(tenant.clone()?)?;
    }
    Ok(copies)
}

/// Returns the names of a store's tenants, in the order in which contents name them.
pub fn tenant_names(alloc: Global, store: &Config) -> Result<Vec<String>, AllocError> {
    let mut names = Vec::with_capacity(alloc, store.tenants.len())?;
    for tenant in store.tenants.iter() {
        names.push(tenant.name.clone()?)?;
    }
    names.sort_unstable();
    Ok(names)
}
