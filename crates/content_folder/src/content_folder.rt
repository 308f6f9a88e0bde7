//! A folder of contents.

ghost use Rattle.std.specs.Prelude.{◌≡◌, ◌≤◌, ◌+◌, IfOk, length, true};
ghost use Rattle.content_files.specs.Placed.{placed};

use crate::listed::Listed;
use content_files::{
    ContentError, ContentName, ContentStore, Unsynced, Written, read_back, write_unsynced,
};
use std::fs::{self, DirBuilder, File};
use std::io::{self, ErrorKind, Read, Seek, SeekFrom};
use std::os::unix::fs::{DirBuilderExt, OpenOptionsExt};
use std::sync::Mutex;

/// The permissions of a new folder: its user may list and change it, and nobody else may.
const FOLDER_MODE: u32 = 0o700;

/// The permissions of a new file: its user may read and write it, and nobody else may.
const FILE_MODE: u32 = 0o600;

/// A folder with a file for each content, in a folder for each tenant.
///
/// A file is opened for each call, so no descriptor is kept. A write cuts the file at its offset first, and again if it fails,
/// so that a file ends where the last chunk that was written does. That a file holds what was written to it, and that nobody else
/// writes to the folder, are premises (`write_unsynced`, `Unsynced::sync`).
#[derive(Drop)]
pub struct ContentFolder<'r> {
    rt: &'r HostRuntime,
    path: &'r str,
    tenants: &'r [String],
    /// Whether contents are hashed by SHA-512 too as they come.
    sha512: bool,
}

/// Makes a folder, if it does not exist.
fn make_folder(rt: &HostRuntime, folder: &str) -> io::Result<()> {
    match DirBuilder::new().mode(FOLDER_MODE).create(rt, folder) {
        Ok(()) => Ok(()),
        Err(error) => match error.kind() {
            ErrorKind::AlreadyExists => Ok(()),
            _ => Err(error),
        },
    }
}

/// Syncs a folder, so that a crash leaves what it contains.
fn sync_folder(rt: &HostRuntime, folder: &str) -> io::Result<()> {
    File::open(rt, folder)?.sync_all()
}

/// Returns the error of a call: a file that ends too soon has lost a part of its content.
fn fault_of(error: io::Error) -> ContentError {
    match error.kind() {
        ErrorKind::UnexpectedEof => ContentError::Fault,
        ErrorKind::OutOfMemory => ContentError::Memory,
        _ => ContentError::Io(error),
    }
}

impl<'r> ContentFolder<'r> {
    /// Returns the folder `path`, which exists, as do the folders of the tenants. Nothing is looked at.
    ///
    /// `tenants` are the tenants' names in their order. A name is one component of a path.
    pub fn at(rt: &'r HostRuntime, path: &'r str, tenants: &'r [String]) -> ContentFolder<'r> {
        ContentFolder {
            rt,
            path,
            tenants,
            sha512: false,
        }
    }

    /// Returns the folder, whose contents are hashed by SHA-512 too as they come, or are not.
    pub fn with_sha512(self, hashes: bool) -> ContentFolder<'r> {
        ContentFolder {
            sha512: hashes,
            ..self
        }
    }

    /// Opens the folder `path` in the folder `parent`, and makes it and the folder of each tenant that has none.
    ///
    /// `tenants` are the tenants' names in their order. A name is one component of a path.
    ///
    /// # Errors
    ///
    /// The operating system's error. Some of the folders may have been made.
    ///
    /// # Cost
    ///
    /// A call for each tenant, and two syncs.
    pub fn open(
        rt: &'r HostRuntime,
        parent: &str,
        path: &'r str,
        tenants: &'r [String],
    ) -> io::Result<ContentFolder<'r>> {
        make_folder(rt, path)?;
        sync_folder(rt, parent)?;
        let folder = ContentFolder::at(rt, path, tenants);
        for tenant in 0..tenants.len() {
            if tenant > u16::MAX as usize {
                break;
            }
            let own = folder.folder_of(tenant as u16)?;
            make_folder(rt, own.as_str())?;
        }
        sync_folder(rt, path)?; // An earlier process may have made folders, and crashed before it synced this one.
        Ok(folder)
    }

    /// Returns the path of a tenant's folder.
    fn folder_of(&self, tenant: u16) -> io::Result<String> {
        let path = self.path;
        match self.tenants.get(tenant as usize) {
            Some(name) => {
                let folder = format!(in self.rt.alloc(); "{path}/{name}")?;
                Ok(folder)
            }
            None => Err(io::Error::from(ErrorKind::NotFound)),
        }
    }

    /// Returns the path of a content's file.
    ///
    /// # Errors
    ///
    /// `NotFound` if there is no such tenant, or out of memory.
    pub fn path_of(&self, name: ContentName) -> io::Result<String> {
        let folder = self.folder_of(name.tenant)?;
        let number = name.number;
        let path = format!(in self.rt.alloc(); "{folder}/{number}")?;
        Ok(path)
    }

    /// Syncs the folder of a tenant, so that a crash leaves the files in it.
    ///
    /// # Errors
    ///
    /// `NotFound` if there is no such tenant, or the operating system's error.
    pub fn sync_tenant(&self, tenant: u16) -> io::Result<()> {
        let folder = self.folder_of(tenant)?;
        sync_folder(self.rt, folder.as_str())
    }

    /// Creates the file of a content, so that a crash leaves it. An old file is removed, and not written: another process may have
    /// it open.
    fn create(&self, name: ContentName) -> io::Result<File> {
        let _ = self.remove(name)?;
        let path = self.path_of(name)?;
        let file = File::options()
            .write(true)
            .create_new(true)
            .mode(FILE_MODE)
            .open(self.rt, path.as_str())?;
        self.sync_tenant(name.tenant)?;
        Ok(file)
    }

    /// Opens the file of a content for writing at an offset, and cuts it there. A file that ends before has lost bytes.
    fn open_to_write(&self, name: ContentName, offset: u64) -> io::Result<File> {
        let path = self.path_of(name)?;
        let mut file = File::options().write(true).open(self.rt, path.as_str())?;
        let len = file.seek(SeekFrom::End(0))?;
        if len < offset {
            return Err(io::Error::from(ErrorKind::UnexpectedEof));
        }
        if len > offset {
            file.set_len(offset)?;
        }
        Ok(file)
    }

    /// Opens the file of a content for reading.
    fn open_to_read(&self, name: ContentName) -> io::Result<File> {
        let path = self.path_of(name)?;
        File::open(self.rt, path.as_str())
    }

    /// Returns the contents' files as they are: a write succeeds if the file has these bytes already, and changes no file.
    pub fn written_already(&self) -> WrittenFiles<'_, 'r> {
        WrittenFiles {
            folder: self,
            error: Mutex::new(None),
        }
    }

    /// Cuts the file of a content to a length, if it is longer. Returns whether it was.
    ///
    /// # Errors
    ///
    /// The operating system's error.
    pub fn cut(&self, name: ContentName, len: u64) -> io::Result<bool> {
        let path = self.path_of(name)?;
        let mut file = File::options().write(true).open(self.rt, path.as_str())?;
        if file.seek(SeekFrom::End(0))? <= len {
            return Ok(false);
        }
        file.set_len(len)?;
        Ok(true)
    }

    /// Returns the length of a content's file in bytes, or `None` if there is no file.
    ///
    /// # Errors
    ///
    /// The operating system's error.
    pub fn len_of(&self, name: ContentName) -> io::Result<Option<u64>> {
        let path = self.path_of(name)?;
        match fs::metadata(self.rt, path.as_str()) {
            Ok(found) => Ok(Some(found.len())),
            Err(error) => match error.kind() {
                ErrorKind::NotFound => Ok(None),
                _ => Err(error),
            },
        }
    }

    /// Removes the file of a content. Returns whether there was one. The folder is not synced: a crash may leave the file.
    ///
    /// # Errors
    ///
    /// The operating system's error.
    pub fn remove(&self, name: ContentName) -> io::Result<bool> {
        let path = self.path_of(name)?;
        match fs::remove_file(self.rt, path.as_str()) {
            Ok(()) => Ok(true),
            Err(error) => match error.kind() {
                ErrorKind::NotFound => Ok(false),
                _ => Err(error),
            },
        }
    }

    /// Returns what lies in the folder of a tenant: names alone, no file is looked at.
    ///
    /// # Errors
    ///
    /// The operating system's error, or out of memory.
    ///
    /// # Cost
    ///
    /// One read of the folder, and 4 bytes of memory for each content.
    pub fn list(&self, tenant: u16) -> io::Result<Listed> {
        let folder = self.folder_of(tenant)?;
        let mut listed = Listed {
            numbers: Vec::new(self.rt.alloc()),
            others: 0,
        };
        for entry in fs::read_dir(self.rt, folder.as_str())? {
            listed.add(entry?.file_name())?;
        }
        Ok(listed)
    }
}

impl<'r> ContentStore for ContentFolder<'r> {
    ghost on_disk = { true };

    fn is_on_disk(&self) -> bool {
        true
    }

    fn hashes_sha512(&self) -> bool {
        self.sha512
    }

    fn write<'b>(
        &self,
        name: ContentName,
        offset: u64,
        bytes: &'b [u8],
    ) -> Result<Unsynced<'b>, ContentError> {
        let opened = if offset == 0 {
            self.create(name)
        } else {
            self.open_to_write(name, offset)
        };
        let file = match opened {
            Ok(file) => file,
            Err(error) => return Err(fault_of(error)),
        };
        match write_unsynced(file, name, offset, bytes) {
            Ok(unsynced) => Ok(unsynced),
            Err(error) => {
                self.cut_behind(name, offset);
                Err(ContentError::Io(error))
            }
        }
    }

    fn sync<'b>(&self, written: Unsynced<'b>) -> Result<Written<'b>, ContentError> {
        let (name, offset) = (written.name(), written.offset());
        match written.sync() {
            Ok(synced) => Ok(synced),
            Err(error) => {
                self.cut_behind(name, offset);
                Err(ContentError::Io(error))
            }
        }
    }

    fn cut_behind(&self, name: ContentName, len: u64) {
        let _ = self.cut(name, len);
    }

    fn read(&self, name: ContentName, offset: u64, out: &mut [u8]) -> Result<(), ContentError> {
        let mut file = match self.open_to_read(name) {
            Ok(file) => file,
            Err(error) => return Err(fault_of(error)),
        };
        file.seek(SeekFrom::Start(offset))?;
        match file.read_exact(out) {
            Ok(()) => Ok(()),
            Err(error) => Err(fault_of(error)),
        }
    }
}

/// The files of a folder, which have the contents already, as when a log is replayed.
///
/// A write compares the bytes with those in the file (`read_back`). No file is changed.
#[derive(Drop)]
pub struct WrittenFiles<'f, 'r> {
    folder: &'f ContentFolder<'r>,
    /// Why the last write failed that did, until it is taken.
    error: Mutex<Option<ContentError>>,
}

impl<'f, 'r> WrittenFiles<'f, 'r> {
    /// Returns why a write failed, if one did since the last call.
    pub fn take_error(&self) -> Option<ContentError> {
        let mut place = self.error.try_lock()?;
        place.take()
    }

    /// Keeps why a write failed.
    fn keep_error(&self, error: ContentError) {
        if let Some(mut place) = self.error.try_lock() {
            *place = Some(error);
        }
    }

    /// Compares bytes with those in a file at an offset.
    fn compare<'b>(
        &self,
        name: ContentName,
        offset: u64,
        bytes: &'b [u8],
    ) -> Result<Unsynced<'b>, ContentError>
        requires { offset + length bytes.now ≤ 18446744073709551615 }
        ensures { IfOk result (λ w. w ≡ placed name offset bytes.now) }
    {
        let file = match self.folder.open_to_read(name) {
            Ok(file) => file,
            Err(error) => return Err(fault_of(error)),
        };
        match read_back(file, name, offset, bytes)? {
            Some(unsynced) => Ok(unsynced),
            None => Err(ContentError::Fault),
        }
    }
}

impl<'f, 'r> ContentStore for WrittenFiles<'f, 'r> {
    ghost on_disk = { true };

    fn is_on_disk(&self) -> bool {
        true
    }

    fn hashes_sha512(&self) -> bool {
        self.folder.sha512
    }

    fn write<'b>(
        &self,
        name: ContentName,
        offset: u64,
        bytes: &'b [u8],
    ) -> Result<Unsynced<'b>, ContentError> {
        match self.compare(name, offset, bytes) {
            Ok(unsynced) => Ok(unsynced),
            Err(error) => {
                self.keep_error(error);
                Err(error)
            }
        }
    }

    fn sync<'b>(&self, written: Unsynced<'b>) -> Result<Written<'b>, ContentError> {
        match written.sync() {
            Ok(synced) => Ok(synced),
            Err(error) => {
                let error = ContentError::Io(error);
                self.keep_error(error);
                Err(error)
            }
        }
    }

    fn cut_behind(&self, _name: ContentName, _len: u64) {}

    fn read(&self, name: ContentName, offset: u64, out: &mut [u8]) -> Result<(), ContentError> {
        self.folder.read(name, offset, out)
    }
}
