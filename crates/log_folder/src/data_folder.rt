//! The folder of a log: its lock and its files.

use crate::error::FolderError;
use crate::ownership::{Ownership, is_owner, take_folder};
use log_frames::header_bytes;
use std::fs::{self, DirBuilder, File, TryLockError};
use std::io::{self, ErrorKind, Read, Write};
use std::os::unix::fs::{DirBuilderExt, OpenOptionsExt};
use std::path::Path;
use std::thread;
use std::time::Duration;
use store_replay::FolderFile;

/// The permissions of a new folder: its user may list and change it, and nobody else may.
pub const FOLDER_MODE: u32 = 0o700;

/// The permissions of a new file: its user may read and write it, and nobody else may.
const FILE_MODE: u32 = 0o600;

/// How often the lock is tried.
const TRIES: u32 = 100;

/// The pause between two tries, in milliseconds.
const PAUSE_MILLIS: u64 = 50;

/// The folder of a log. While the value exists, no other process has the folder, if the file system keeps its lock. If it does not, a
/// process that has the folder later is its owner, and this one is not ([`DataFolder::is_lost`]).
#[derive(Drop)]
pub struct DataFolder<'w> {
    /// The path of the folder.
    pub path: &'w str,
    /// The owner that this process is.
    pub ownership: Ownership,
    /// Whether this start may go on with what is left of a damaged log: the file `accept-loss` was in the folder.
    pub accepts_loss: bool,
    lock: File,
}

/// The name of the file by which the operator accepts the loss of what is damaged.
const ACCEPT_LOSS: &str = "accept-loss";

/// Returns whether the operator accepts a loss at this start. Removes the file that says so.
fn takes_acceptance(rt: &HostRuntime, folder: &str) -> io::Result<bool> {
    let path = format!(in rt.alloc(); "{folder}/{ACCEPT_LOSS}")?;
    match fs::remove_file(rt, path.as_str()) {
        Ok(()) => Ok(true),
        Err(error) => match error.kind() {
            ErrorKind::NotFound => Ok(false),
            _ => Err(error),
        },
    }
}

/// Returns the path of the folder that contains this one.
fn parent_of(folder: &str) -> &str {
    match Path::new(folder).parent() {
        Some(parent) if !parent.as_str().is_empty() => parent.as_str(),
        _ => ".",
    }
}

/// Syncs the entries of a folder, so that a crash leaves them.
pub fn sync_folder(rt: &HostRuntime, folder: &str) -> io::Result<()> {
    File::open(rt, folder)?.sync_all()
}

/// Gives a file of a folder the name of another one, so that a crash leaves it. Replaces the other one if it exists.
pub fn rename_synced(
    rt: &HostRuntime,
    folder: &str,
    from: FolderFile,
    to: FolderFile,
) -> io::Result<()> {
    let from = from.path(rt.alloc(), folder)?;
    let to = to.path(rt.alloc(), folder)?;
    fs::rename(rt, from.as_str(), to.as_str())?;
    sync_folder(rt, folder)
}

/// Removes a file of a folder. Returns whether it existed.
pub fn remove(rt: &HostRuntime, folder: &str, file: FolderFile) -> io::Result<bool> {
    let path = file.path(rt.alloc(), folder)?;
    match fs::remove_file(rt, path.as_str()) {
        Ok(()) => Ok(true),
        Err(error) => match error.kind() {
            ErrorKind::NotFound => Ok(false),
            _ => Err(error),
        },
    }
}

/// Makes an empty file in a folder, in place of an old one. It can be read and written, by this user alone. An empty file stays as it is, so
/// that room which is held for it on the disk stays held.
pub fn create(rt: &HostRuntime, folder: &str, file: FolderFile) -> io::Result<File> {
    let path = file.path(rt.alloc(), folder)?;
    let file = File::options()
        .read(true)
        .write(true)
        .create(true)
        .mode(FILE_MODE)
        .open(rt, path.as_str())?;
    if file.metadata()?.len() > 0 {
        file.set_len(0)?;
    }
    Ok(file)
}

/// Opens a file of a folder to read and write it.
pub fn open(rt: &HostRuntime, folder: &str, file: FolderFile) -> io::Result<File> {
    let path = file.path(rt.alloc(), folder)?;
    File::options()
        .read(true)
        .write(true)
        .open(rt, path.as_str())
}

/// Makes a log without frames, with this id, so that a crash leaves it. Only the owner can.
pub fn create_log(
    rt: &HostRuntime,
    folder: &str,
    owner: u64,
    file: FolderFile,
    id: u64,
) -> io::Result<()> {
    let mut new = create(rt, folder, FolderFile::NewLog(owner))?;
    new.write_all(&header_bytes(id))?;
    new.sync_all()?;
    rename_synced(rt, folder, FolderFile::NewLog(owner), file)
}

/// Creates a folder, if it does not exist, so that it survives a crash. This user alone may use it. Its parent must exist. A folder that exists may be
/// that of a process which crashed before the parent was synced. So the parent is synced then too, if it can be opened.
fn create_folder(rt: &HostRuntime, folder: &str) -> io::Result<()> {
    match DirBuilder::new().mode(FOLDER_MODE).create(rt, folder) {
        Ok(()) => sync_folder(rt, parent_of(folder)),
        Err(error) => match error.kind() {
            ErrorKind::AlreadyExists => match File::open(rt, parent_of(folder)) {
                Ok(parent) => parent.sync_all(),
                Err(_) => Ok(()),
            },
            _ => Err(error),
        },
    }
}

/// Locks a file. Returns `false` if another process holds the lock for five seconds.
fn lock_soon(rt: &HostRuntime, lock: &File) -> io::Result<bool> {
    for _ in 0..TRIES {
        match lock.try_lock() {
            Ok(()) => return Ok(true),
            Err(TryLockError::WouldBlock) => {
                thread::sleep(rt, Duration::from_millis(PAUSE_MILLIS));
            }
            Err(TryLockError::Error(error)) => return Err(error),
        }
    }
    Ok(false)
}

/// Returns a random number.
pub fn random_id(rt: &HostRuntime) -> io::Result<u64> {
    let mut bytes = [0u8; 8];
    File::open(rt, "/dev/urandom")?.read_exact(&mut bytes)?;
    Ok(u64::from_le_bytes(bytes))
}

impl<'w> DataFolder<'w> {
    /// Creates a folder, if it does not exist, locks it, becomes its owner, and removes the files that were being made.
    ///
    /// # Errors
    ///
    /// - `File`, if the folder or its lock cannot be used.
    /// - `Held`, if another process has the folder for five seconds, or has become the owner meanwhile.
    /// - `Memory`
    pub fn lock(rt: &HostRuntime, folder: &'w str) -> Result<DataFolder<'w>, FolderError> {
        if let Err(error) = create_folder(rt, folder) {
            return Err(FolderError::of_file("create", FolderFile::Folder, error));
        }
        let path = FolderFile::Lock.path(rt.alloc(), folder)?;
        let lock = match File::options()
            .write(true)
            .create(true)
            .mode(FILE_MODE)
            .open(rt, path.as_str())
        {
            Ok(lock) => lock,
            Err(error) => return Err(FolderError::of_file("open", FolderFile::Lock, error)),
        };
        match lock_soon(rt, &lock) {
            Ok(true) => {}
            Ok(false) => return Err(FolderError::Held),
            Err(error) => return Err(FolderError::of_file("lock", FolderFile::Lock, error)),
        }
        let accepts_loss = match takes_acceptance(rt, folder) {
            Ok(accepts) => accepts,
            Err(error) => return Err(FolderError::of_file("use", FolderFile::Folder, error)),
        };
        let ownership = take_folder(rt, folder)?;
        let opened = DataFolder {
            path: folder,
            ownership,
            accepts_loss,
            lock,
        };
        opened.remove_one(rt, FolderFile::EarlierNewLog)?;
        opened.remove_one(rt, FolderFile::EarlierNewBase)?;
        Ok(opened)
    }

    /// Returns whether another process has become the owner of the folder. If that is not known, it is not.
    pub fn is_lost(&self, rt: &HostRuntime) -> bool {
        matches!(is_owner(rt, self.path, self.ownership.owner), Ok(false))
    }

    /// Removes a file, if it exists.
    fn remove_one(&self, rt: &HostRuntime, file: FolderFile) -> Result<(), FolderError> {
        match remove(rt, self.path, file) {
            Ok(_) => Ok(()),
            Err(error) => Err(FolderError::of_file("remove", file, error)),
        }
    }

    /// Removes files.
    ///
    /// # Errors
    ///
    /// - `File`, for the first one that cannot be removed. The later ones are kept.
    /// - `Memory`
    pub fn remove_all(&self, rt: &HostRuntime, files: &[FolderFile]) -> Result<(), FolderError> {
        for file in files {
            self.remove_one(rt, *file)?;
        }
        Ok(())
    }

    /// Syncs the folder, so that a crash leaves its files.
    ///
    /// # Errors
    ///
    /// - `File`
    /// - `Memory`
    pub fn sync(&self, rt: &HostRuntime) -> Result<(), FolderError> {
        match sync_folder(rt, self.path) {
            Ok(()) => Ok(()),
            Err(error) => Err(FolderError::of_file("sync", FolderFile::Folder, error)),
        }
    }
}
