//! Opens the log of a folder.

use crate::cutting::mend;
use crate::data_folder::{DataFolder, create_log, random_id, rename_synced};
use crate::error::FolderError;
use crate::last_file::mend_last;
use crate::listing::{Listing, list_error};
use crate::segment::Segment;
use log_frames::HEADER_LENGTH;
use std::io::{self, ErrorKind};
use store_replay::{Damage, FolderFile, LogPlace};

/// The files of a log, in order, without a torn end. Only the last one is written, and it is no base.
#[derive(Drop)]
pub struct OpenLog {
    /// All files but the last.
    pub closed: Vec<Segment>,
    /// The last file.
    pub last: Segment,
    /// The number of the last file.
    pub number: u64,
}

impl OpenLog {
    /// Returns whether the log has no frame.
    pub fn is_empty(&self) -> bool {
        self.closed.is_empty() && self.last.length <= HEADER_LENGTH
    }
}

/// Returns the files of the log of a folder. If there is none, it is made, so that a crash leaves it: `log.1`, or the file of an
/// earlier version with this name.
fn listed(rt: &HostRuntime, folder: &str, owner: u64) -> io::Result<Listing> {
    let listing = Listing::read(rt, folder)?;
    if !listing.is_empty() {
        return Ok(listing);
    }
    if listing.has_earlier {
        rename_synced(rt, folder, FolderFile::EarlierLog, FolderFile::Log(1))?;
    } else {
        create_log(rt, folder, owner, FolderFile::Log(1), random_id(rt)?)?;
    }
    Listing::read(rt, folder)
}

/// Returns the error for a log of an earlier version beside a log of segments: nobody can tell which one is meant.
fn second_log() -> FolderError {
    let place = LogPlace {
        file: FolderFile::EarlierLog,
        place: 0,
        offset: 0,
    };
    FolderError::Damaged(place, Damage::Second)
}

/// Opens a file of a log whose name is in order. The files before it have `before` bytes.
fn open_listed(
    rt: &HostRuntime,
    folder: &str,
    name: FolderFile,
    before: u64,
) -> Result<Segment, FolderError> {
    match Segment::open(rt, folder, name, before) {
        Err(FolderError::File { error, .. }) if matches!(error.kind(), ErrorKind::NotFound) => {
            let place = LogPlace {
                file: name,
                place: 0,
                offset: before,
            };
            Err(FolderError::Damaged(place, Damage::Missing))
        }
        done => done,
    }
}

/// Opens the next file of a log, which follows `previous`.
///
/// # Errors
///
/// - `File`, if it cannot be opened or read.
/// - `Damaged`, if it is missing, does not begin as a log of this version, or has not the id that follows.
/// - `Memory`
pub(crate) fn open_following(
    rt: &HostRuntime,
    folder: &str,
    name: FolderFile,
    previous: Option<&Segment>,
) -> Result<Segment, FolderError> {
    let before = match previous {
        Some(previous) => previous.end(),
        None => 0,
    };
    let segment = open_listed(rt, folder, name, before)?;
    if let Some(previous) = previous {
        if segment.id != previous.id.wrapping_add(1) {
            return Err(FolderError::Damaged(segment.place(0), Damage::Foreign));
        }
    }
    Ok(segment)
}

/// Opens the files of a log, and mends the last one.
fn open_files(
    rt: &HostRuntime,
    folder: &DataFolder<'_>,
    files: &[FolderFile],
) -> Result<Vec<Segment>, FolderError> {
    let mut segments: Vec<Segment> = Vec::new(rt.alloc());
    let mut buffer = Vec::new(rt.alloc()); // One for all files, so that memory does not grow with their number.
    for (place, name) in files.iter().enumerate() {
        let is_last = place + 1 == files.len() && !matches!(name, FolderFile::Base(_));
        let mut next = open_following(rt, folder.path, *name, segments.last())?;
        if is_last {
            mend_last(rt, folder, &mut next, &mut buffer)?;
        } else {
            mend(rt, folder.path, &mut next, &mut buffer, false)?;
        }
        if segments.push(next).is_err() {
            return Err(FolderError::Memory);
        }
    }
    Ok(segments)
}

/// Makes the first segment after a base, which was the last file of a log.
fn add_segment(
    rt: &HostRuntime,
    folder: &DataFolder<'_>,
    base: Segment,
    number: u64,
    closed: Vec<Segment>,
) -> Result<OpenLog, FolderError> {
    let mut closed = closed;
    let name = FolderFile::Log(number);
    let (path, owner) = (folder.path, folder.ownership.owner);
    if let Err(error) = create_log(rt, path, owner, name, base.id.wrapping_add(1)) {
        return Err(FolderError::of_file("create", name, error));
    }
    let last = Segment::open(rt, path, name, base.end())?;
    if closed.push(base).is_err() {
        return Err(FolderError::Memory);
    }
    Ok(OpenLog {
        closed,
        last,
        number,
    })
}

/// Opens the log of a folder, and makes it before if there is none. A torn end is cut off: writes that a crash interrupted. Removes
/// the files that a base has replaced.
///
/// The last file is a copy that this process has made. So nothing that a process which was the owner before still writes into the file that it
/// has open is in the log.
///
/// # Errors
///
/// - `File`, if the log cannot be made, opened, read or cut.
/// - `Damaged`, if it is no log of this version, is damaged, or is there twice.
/// - `Memory`
pub fn open_log(rt: &HostRuntime, folder: &DataFolder<'_>) -> Result<OpenLog, FolderError> {
    let path = folder.path;
    let listing = listed(rt, path, folder.ownership.owner).map_err(list_error)?;
    if listing.has_earlier {
        return Err(second_log());
    }
    let files = listing.files(rt.alloc()).map_err(list_error)?;
    folder.sync(rt)?; // A process that made a file may have crashed before it synced the folder.
    let mut closed = open_files(rt, folder, files.as_slice())?;
    let Some(last) = closed.pop() else {
        return Err(FolderError::of_file(
            "open",
            FolderFile::Log(1),
            io::Error::from(ErrorKind::NotFound),
        ));
    };
    let replaced = listing.replaced(rt.alloc()).map_err(list_error)?;
    folder.remove_all(rt, replaced.as_slice())?;
    let number = listing.last();
    if matches!(last.name, FolderFile::Base(_)) {
        return add_segment(rt, folder, last, number.saturating_add(1), closed);
    }
    Ok(OpenLog {
        closed,
        last,
        number,
    })
}
