//! Cuts the files of a log: after the last whole write, and at a loss that was accepted.

use crate::data_folder::DataFolder;
use crate::error::FolderError;
use crate::listing::{Listing, list_error};
use crate::scanning::{MARK_LENGTH, frames_of, scan_sound};
use crate::segment::Segment;
use log_frames::{
    Cursor, Ending, FramesRead, HEADER_LENGTH, MAX_PAYLOAD, read_frames, start_of, write_frame,
};
use std::fs::File;
use std::io::{self, ErrorKind, Seek, SeekFrom};
use store_replay::{FolderFile, LogPlace, PrefixSink, Scan};

/// What has to be done with a segment before it is replayed.
enum Repair {
    /// Nothing.
    Nothing,
    /// The file is cut at this offset.
    Cut(u64),
    /// The segment is cut after this number of bytes of records.
    CutRecords(u64),
}

/// Returns the repair of a segment whose frames end at a place: it is cut there, or after its last whole record.
fn cut_of(place: u64, scan: &Scan) -> Repair {
    if scan.left_over == 0 {
        Repair::Cut(place)
    } else {
        Repair::CutRecords(scan.whole)
    }
}

/// Cuts a file, and syncs it.
fn cut(file: &File, place: u64) -> io::Result<()> {
    file.set_len(place)?;
    file.sync_all()
}

/// Adds a frame at the end of a log whose file was synced, and syncs it.
fn add_frame(file: &mut File, id: u64, cursor: Cursor, payload: &[u8]) -> io::Result<()> {
    let length = payload.len() as u64;
    if length > MAX_PAYLOAD || cursor.place > u64::MAX - MARK_LENGTH - length {
        return Err(io::Error::from(ErrorKind::FileTooLarge));
    }
    let _ = file.seek(SeekFrom::End(0))?;
    let _ = write_frame(file, id, cursor, cursor.place, payload)?;
    file.sync_all()
}

/// Reads the frames of a segment up to a number of bytes of records.
fn read_prefix(
    rt: &HostRuntime,
    segment: &mut Segment,
    buffer: &mut Vec<u8>,
    sink: &mut PrefixSink,
) -> Result<FramesRead, FolderError> {
    let id = segment.id;
    let mut input = frames_of(rt, segment)?;
    Ok(read_frames(sink, &mut input, buffer, id, start_of(id)))
}

/// Cuts a segment after a number of bytes of records. Returns the offset of the frame that was cut.
fn cut_records(
    rt: &HostRuntime,
    segment: &mut Segment,
    buffer: &mut Vec<u8>,
    whole: u64,
) -> Result<u64, FolderError> {
    let mut sink = PrefixSink::new(rt.alloc(), whole);
    let read = read_prefix(rt, segment, buffer, &mut sink)?;
    let name = segment.name;
    if let Ending::Failed(kind) = read.ending {
        return Err(FolderError::of_file("read", name, io::Error::from(kind)));
    }
    let Some(part) = sink.part() else {
        return Err(FolderError::Memory);
    };
    let place = read.cursor.place;
    if let Err(error) = cut(&segment.file, place) {
        return Err(FolderError::of_file("cut", name, error));
    }
    if !part.is_empty() {
        if let Err(error) = add_frame(&mut segment.file, segment.id, read.cursor, part) {
            return Err(FolderError::of_file("cut", name, error));
        }
    }
    Ok(place)
}

/// Cuts off the end of a segment, as far as it is to be, and notes its length.
fn cut_off(
    rt: &HostRuntime,
    folder: &str,
    segment: &mut Segment,
    buffer: &mut Vec<u8>,
    repair: Repair,
) -> Result<(), FolderError> {
    let name = segment.name;
    let place = match repair {
        Repair::Nothing => return Ok(()),
        Repair::Cut(place) => {
            if let Err(error) = cut(&segment.file, place) {
                return Err(FolderError::of_file("cut", name, error));
            }
            place
        }
        Repair::CutRecords(whole) => cut_records(rt, segment, buffer, whole)?,
    };
    match segment.file.seek(SeekFrom::End(0)) {
        Ok(length) => segment.length = length,
        Err(error) => return Err(FolderError::of_file("cut", name, error)),
    }
    let _ = eprint!(rt;
        "blobd: {folder}{name} was cut at byte {place}, after the last whole write\n"
    );
    Ok(())
}

/// Scans a segment, and cuts off a torn end if it is the last one.
pub(crate) fn mend(
    rt: &HostRuntime,
    folder: &str,
    segment: &mut Segment,
    buffer: &mut Vec<u8>,
    is_last: bool,
) -> Result<(), FolderError> {
    let scan = scan_sound(rt, segment, buffer, is_last)?;
    let place = scan.read.cursor.place;
    let repair = match scan.read.ending {
        Ending::End if scan.left_over == 0 => Repair::Nothing,
        _ => cut_of(place, &scan),
    };
    cut_off(rt, folder, segment, buffer, repair)
}

/// Cuts a file of a log, and ends it with a mark.
fn cut_and_mark(rt: &HostRuntime, segment: &mut Segment, place: u64) -> Result<(), FolderError> {
    let (name, id) = (segment.name, segment.id);
    if let Err(error) = cut(&segment.file, place) {
        return Err(FolderError::of_file("cut", name, error));
    }
    let mut buffer = Vec::new(rt.alloc());
    let mut sink = PrefixSink::new(rt.alloc(), u64::MAX);
    let read = read_prefix(rt, segment, &mut buffer, &mut sink)?;
    match add_frame(&mut segment.file, id, read.cursor, b"") {
        Ok(()) => Ok(()),
        Err(error) => Err(FolderError::of_file("cut", name, error)),
    }
}

/// Cuts a log at a place, and removes the files after it, the last one first. The loss was accepted. A file that is cut in its
/// header is removed too.
///
/// # Errors
///
/// - `File`
/// - `Memory`
pub fn accept_loss(
    rt: &HostRuntime,
    folder: &DataFolder<'_>,
    place: LogPlace,
) -> Result<(), FolderError> {
    let is_gone = place.place < HEADER_LENGTH;
    let first = match place.file {
        FolderFile::Log(number) if is_gone => number,
        FolderFile::Log(number) | FolderFile::Base(number) => number.saturating_add(1),
        _ => return Ok(()),
    };
    let listing = Listing::read(rt, folder.path).map_err(list_error)?;
    let later = listing.from_last(rt.alloc(), first).map_err(list_error)?;
    folder.remove_all(rt, later.as_slice())?;
    folder.sync(rt)?;
    if is_gone {
        return Ok(());
    }
    let mut segment = Segment::open(rt, folder.path, place.file, 0)?;
    cut_and_mark(rt, &mut segment, place.place)
}
