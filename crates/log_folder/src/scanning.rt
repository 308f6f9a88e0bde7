//! Scans the files of a log, and finds what is wrong with them.

use crate::error::FolderError;
use crate::noting::Noting;
use crate::segment::Segment;
use log_frames::{Ending, FramesRead, HEADER_LENGTH, start_of};
use std::fs::File;
use std::io::{self, BufReader, ErrorKind, Seek, SeekFrom};
use store_replay::{Cause, Damage, FolderFile, Scan, scan_log};

/// The length of a frame without payload, in bytes.
pub(crate) const MARK_LENGTH: u64 = 40;

/// Returns a reader of the frames of a segment.
pub(crate) fn frames_of<'f>(
    rt: &HostRuntime,
    segment: &'f mut Segment,
) -> Result<BufReader<Noting<&'f File>>, FolderError> {
    if let Err(error) = segment.file.seek(SeekFrom::Start(HEADER_LENGTH)) {
        return Err(FolderError::of_file("read", segment.name, error));
    }
    match BufReader::new(rt.alloc(), Noting::new(&segment.file)) {
        Ok(input) => Ok(input),
        Err(_) => Err(FolderError::Memory),
    }
}

/// Returns whether the last frame is a mark, as at the end of a file that was closed.
fn is_marked(read: FramesRead) -> bool {
    read.synced.saturating_add(MARK_LENGTH) == read.cursor.place
}

/// Returns what is wrong with a segment that was scanned. Returns `None` if it is closed and whole, or if it is the last one, which may
/// end in the middle of a write.
fn damage_of<I>(
    name: FolderFile,
    input: &Noting<I>,
    scan: &mut Scan,
    is_last: bool,
) -> Result<Option<Damage>, FolderError> {
    match scan.read.ending {
        Ending::End | Ending::Torn if is_last => Ok(None),
        Ending::End if scan.left_over == 0 && is_marked(scan.read) => Ok(None),
        Ending::End | Ending::Torn => Ok(Some(Damage::CutOff)),
        Ending::Damaged(later) => Ok(Some(Damage::NoFrame(later))),
        Ending::Refused => match scan.fault.take() {
            Some(fault) => match fault.cause {
                Cause::Memory => Err(FolderError::Memory),
                cause => Ok(Some(Damage::Record(cause))),
            },
            None => Ok(Some(Damage::Record(Cause::Malformed))),
        },
        Ending::Failed(kind) => Err(FolderError::of_file("read", name, input.error(kind))),
        Ending::Memory => Err(FolderError::Memory),
        Ending::TooLong => {
            let error = io::Error::from(ErrorKind::FileTooLarge);
            Err(FolderError::of_file("read", name, error))
        }
    }
}

/// Scans a segment.
///
/// # Errors
///
/// - `File`, if it cannot be read.
/// - `Damaged`, if it is damaged, or not closed and whole although it is not the last one.
/// - `Memory`
pub(crate) fn scan_sound(
    rt: &HostRuntime,
    segment: &mut Segment,
    buffer: &mut Vec<u8>,
    is_last: bool,
) -> Result<Scan, FolderError> {
    let (name, id) = (segment.name, segment.id);
    let mut input = frames_of(rt, segment)?;
    let mut scan = scan_log(&mut input, buffer, id, start_of(id));
    let damage = damage_of(name, input.get_ref(), &mut scan, is_last)?;
    drop(input);
    match damage {
        Some(damage) => {
            let place = segment.place(scan.read.cursor.place);
            Err(FolderError::Damaged(place, damage))
        }
        None => Ok(scan),
    }
}

/// Checks that closed segments are whole: each has records that this version knows, and a mark at its end.
///
/// # Errors
///
/// Those of `scan_sound`, for the first segment that has one.
pub(crate) fn check_closed(rt: &HostRuntime, segments: &mut [Segment]) -> Result<(), FolderError> {
    let mut buffer = Vec::new(rt.alloc()); // One for all files, so that memory does not grow with their number.
    for segment in segments {
        scan_sound(rt, segment, &mut buffer, false)?;
    }
    Ok(())
}
