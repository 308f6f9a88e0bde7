//! The last file of a log, which is written on in a copy.

use crate::cutting::mend;
use crate::data_folder::{DataFolder, open, remove, rename_synced};
use crate::error::FolderError;
use crate::segment::Segment;
use std::fs::{self, File};
use std::io::{self, ErrorKind, Seek, SeekFrom};
use store_replay::FolderFile;

/// The length up to which the last file of a log of an earlier version is copied, in bytes. This version makes no longer ones, but for one
/// write.
const LONG: u64 = 67_108_864;

/// Copies the last file of a log into `log.new` of the owner, and opens it.
fn copy_last(
    rt: &HostRuntime,
    folder: &DataFolder<'_>,
    name: FolderFile,
) -> io::Result<(File, u64)> {
    let new = FolderFile::NewLog(folder.ownership.owner);
    let from = name.path(rt.alloc(), folder.path)?;
    let to = new.path(rt.alloc(), folder.path)?;
    let _ = fs::copy(rt, from.as_str(), to.as_str())?;
    let mut file = open(rt, folder.path, new)?;
    let length = file.seek(SeekFrom::End(0))?;
    Ok((file, length))
}

/// Returns whether the last file of a log is copied before it is written on. A process that was the owner before may write to the file
/// that it has open, and the copy is another one. A process of an earlier version was no owner: its long file is not copied.
fn is_copied(folder: &DataFolder<'_>, last: &Segment) -> bool {
    folder.ownership.has_earlier || last.length <= LONG
}

/// Puts a copy in the place of the last file of a log, which is opened. Returns whether there is one. If the disk is full, there is none,
/// and it is printed.
fn replace_last(
    rt: &HostRuntime,
    folder: &DataFolder<'_>,
    last: &mut Segment,
) -> Result<bool, FolderError> {
    if !is_copied(folder, last) {
        return Ok(false);
    }
    let name = last.name;
    match copy_last(rt, folder, name) {
        Ok((file, length)) => {
            last.file = file;
            last.length = length;
            Ok(true)
        }
        Err(error) => match error.kind() {
            ErrorKind::StorageFull | ErrorKind::QuotaExceeded => {
                let path = folder.path;
                // The begin of a copy would take room.
                let _ = remove(rt, path, FolderFile::NewLog(folder.ownership.owner));
                let _ = eprint!(rt;
                    "blobd: {path}{name} is not copied: {error}: only the lock keeps an earlier process from it\n"
                );
                Ok(false)
            }
            _ => Err(FolderError::of_file("copy", name, error)),
        },
    }
}

/// Gives the copy of the last file its name, so that a crash leaves it. Only the owner can.
fn publish_copy(
    rt: &HostRuntime,
    folder: &DataFolder<'_>,
    copy: &Segment,
) -> Result<(), FolderError> {
    let new = FolderFile::NewLog(folder.ownership.owner);
    if let Err(error) = copy.file.sync_all() {
        return Err(FolderError::of_file("sync", new, error));
    }
    match rename_synced(rt, folder.path, new, copy.name) {
        Ok(()) => Ok(()),
        Err(error) => Err(FolderError::of_file("replace", copy.name, error)),
    }
}

/// Mends the last file of a log, in a copy that takes its place.
pub(crate) fn mend_last(
    rt: &HostRuntime,
    folder: &DataFolder<'_>,
    last: &mut Segment,
    buffer: &mut Vec<u8>,
) -> Result<(), FolderError> {
    let has_copy = replace_last(rt, folder, last)?;
    mend(rt, folder.path, last, buffer, true)?;
    if has_copy {
        publish_copy(rt, folder, last)?;
    }
    Ok(())
}
