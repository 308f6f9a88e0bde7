//! Which process owns the folder of a log.
//!
//! The owner has a folder in it, `owner-N`. A process becomes the owner when it has made its own one and removed those of all others. Each
//! file of the log gets its name by a rename out of the owner's folder. So a process that is not the owner any more can give a name
//! to no file: the folder from which it would rename is gone.

use crate::data_folder::{FOLDER_MODE, random_id, sync_folder};
use crate::error::FolderError;
use crate::listing::Listing;
use log_disk::DiskError;
use std::fs::{self, DirBuilder, File};
use std::io::{self, ErrorKind};
use std::os::unix::fs::DirBuilderExt;
use store_replay::FolderFile;

/// How often the folders of other owners are looked for, in case one of them makes a file in its folder meanwhile.
const LOOKS: u32 = 100;

/// The owner that a process has become.
#[derive(Clone, Copy)]
pub struct Ownership {
    /// The number of the owner, which is random and below 2^63.
    pub owner: u64,
    /// Whether the folder had another owner before.
    pub has_earlier: bool,
}

/// Removes the folder of an owner, with the files that it was making.
fn remove_owner(rt: &HostRuntime, folder: &str, owner: u64) -> io::Result<()> {
    let path = FolderFile::Owner(owner).path(rt.alloc(), folder)?;
    match fs::remove_dir_all(rt, path.as_str()) {
        Ok(()) => Ok(()),
        Err(error) => match error.kind() {
            ErrorKind::NotFound | ErrorKind::DirectoryNotEmpty => Ok(()),
            _ => Err(error),
        },
    }
}

/// Removes the folders of all owners but one. Returns whether there were any.
fn remove_others(rt: &HostRuntime, folder: &str, owner: u64) -> io::Result<bool> {
    let mut has_others = false;
    for other in Listing::read(rt, folder)?.owners.iter() {
        if *other != owner {
            has_others = true;
            remove_owner(rt, folder, *other)?;
        }
    }
    Ok(has_others)
}

/// Removes the folders of all owners but one, until there are none. Returns whether there were any.
fn remove_all_others(rt: &HostRuntime, folder: &str, owner: u64) -> io::Result<bool> {
    let mut has_earlier = false;
    for _ in 0..LOOKS {
        if !remove_others(rt, folder, owner)? {
            return Ok(has_earlier);
        }
        has_earlier = true;
    }
    Err(io::Error::from(ErrorKind::DirectoryNotEmpty))
}

/// Makes the folder of an owner.
fn make_own(rt: &HostRuntime, folder: &str, owner: u64) -> io::Result<()> {
    let path = FolderFile::Owner(owner).path(rt.alloc(), folder)?;
    DirBuilder::new()
        .mode(FOLDER_MODE)
        .create(rt, path.as_str())
}

/// Makes the folder of an owner. If the disk is full, those of the others are removed before, which gives back their room.
fn make_own_with_room(rt: &HostRuntime, folder: &str, owner: u64) -> io::Result<bool> {
    match make_own(rt, folder, owner) {
        Ok(()) => Ok(false),
        Err(error) => match error.kind() {
            ErrorKind::StorageFull | ErrorKind::QuotaExceeded => {
                let has_earlier = remove_all_others(rt, folder, owner)?;
                make_own(rt, folder, owner)?;
                Ok(has_earlier)
            }
            _ => Err(error),
        },
    }
}

/// Makes the folder of this owner, removes those of all others, and syncs that.
fn take(rt: &HostRuntime, folder: &str) -> io::Result<Ownership> {
    let owner = random_id(rt)? / 2; // A listing reads numbers below 2^63.
    let had_earlier = make_own_with_room(rt, folder, owner)?;
    let has_earlier = remove_all_others(rt, folder, owner)?;
    sync_folder(rt, folder)?;
    Ok(Ownership {
        owner,
        has_earlier: had_earlier || has_earlier,
    })
}

/// Returns whether an owner still owns a folder: its own one exists.
///
/// The folder is opened and not only looked for, so that a file system over a network asks its server.
///
/// # Errors
///
/// The error of the operating system, also if the whole folder is gone.
pub fn is_owner(rt: &HostRuntime, folder: &str, owner: u64) -> io::Result<bool> {
    let path = FolderFile::Owner(owner).path(rt.alloc(), folder)?;
    match File::open(rt, path.as_str()) {
        Ok(_) => Ok(true),
        Err(error) => match error.kind() {
            ErrorKind::NotFound | ErrorKind::StaleNetworkFileHandle => {
                let _ = File::open(rt, folder)?;
                Ok(false)
            }
            _ => Err(error),
        },
    }
}

/// Checks that an owner still owns a folder.
///
/// # Errors
///
/// - `Content`, if another process owns it.
/// - `Io`, if that is not known.
pub fn check_owner(rt: &HostRuntime, folder: &str, owner: u64) -> Result<(), DiskError> {
    match is_owner(rt, folder, owner) {
        Ok(true) => Ok(()),
        Ok(false) => Err(DiskError::Content),
        Err(error) => Err(DiskError::Io(error)),
    }
}

/// Makes this process the owner of a folder. All processes that were its owners before are not from then on.
///
/// # Errors
///
/// - `File`, if the folder cannot be used.
/// - `Held`, if another process has become the owner meanwhile.
/// - `Memory`
pub fn take_folder(rt: &HostRuntime, folder: &str) -> Result<Ownership, FolderError> {
    let taken = match take(rt, folder) {
        Ok(taken) => taken,
        Err(error) => return Err(FolderError::of_file("own", FolderFile::Folder, error)),
    };
    match is_owner(rt, folder, taken.owner) {
        Ok(true) => Ok(taken),
        Ok(false) => Err(FolderError::Held),
        Err(error) => Err(FolderError::of_file("own", FolderFile::Folder, error)),
    }
}
