//! Rewrites the closed segments of a log into a base.

use crate::data_folder::{create, remove, rename_synced};
use crate::error::FolderError;
use crate::fault::RewriteFault;
use crate::noting::Noting;
use crate::progress::{Progress, Work};
use crate::room::{base_length, room_for_base};
use crate::segment::Segment;
use log_frames::{Cursor, header_bytes, write_frame};
use log_rewriting::{
    Filter, Inventory, LogRewriting, Receiver, RewriteError, Survey, give_changes,
};
use log_state::{Bytes, LogReading, ReadingError};
use std::alloc::{AllocError, Global};
use std::fs::File;
use std::io::{self, BufReader, BufWriter, Seek, SeekFrom, Write};
use store_replay::FolderFile;

/// Segments of at most this length in all are not rewritten, in bytes.
const SMALL: u64 = 1_048_576;

/// When segments are rewritten.
#[derive(Clone, Copy, PartialEq, Eq)]
pub enum When {
    /// If they are longer than a MiB and less than half of them is needed.
    Wasteful,
    /// In any case.
    Always,
}

/// What became of segments.
#[derive(Clone, Copy, Debug, PartialEq, Eq)]
pub enum Outcome {
    /// They stay as they are. This number of bytes of records is needed.
    Kept(u64),
    /// There is a base in place of them, which has this length in bytes.
    Rewritten(u64),
}

/// Returns the length of all segments, in bytes.
pub fn length_of(segments: &[Segment]) -> u64 {
    match segments.last() {
        Some(last) => last.end(),
        None => 0,
    }
}

/// Returns the fault of a file that was read. It has the error with which a read failed.
fn fault_of(
    file: FolderFile,
    input: &BufReader<Progress<'_, HostRuntime, Noting<&File>>>,
    error: RewriteError,
) -> RewriteFault {
    match error {
        RewriteError::Read(error) => {
            let error = input.get_ref().input().error(error.kind());
            RewriteFault::of_file(file, RewriteError::Read(error))
        }
        error => RewriteFault::of_file(file, error),
    }
}

/// Gives the changes of segments to a receiver, which it returns. A verb names this work.
fn give_all<C: Receiver>(
    rt: &HostRuntime,
    folder: &str,
    verb: &'static str,
    segments: &mut [Segment],
    buffer: &mut Vec<u8>,
    receiver: C,
) -> Result<C, RewriteFault> {
    let work = Work::begin(rt, verb, length_of(segments));
    let mut given = (receiver, 0);
    for segment in segments {
        let (name, id) = (segment.name, segment.id);
        let mut input = match segment.frames(rt, folder, work) {
            Ok(input) => input,
            Err(error) => return Err(RewriteFault::of_file(name, RewriteError::of_read(error))),
        };
        let (receiver, offset) = given;
        given = match give_changes(rt.alloc(), receiver, offset, &mut input, buffer, id) {
            Ok(given) => given,
            Err(error) => return Err(fault_of(name, &input, error)),
        };
    }
    Ok(given.0)
}

/// Returns how many bytes of the records of segments are needed at least, if a survey finds that no inventory can find less than half
/// of them needed.
///
/// It finds at least three quarters of them, so that segments grow by half before they are looked at again.
fn surely_needed(
    rt: &HostRuntime,
    folder: &str,
    segments: &mut [Segment],
    buffer: &mut Vec<u8>,
) -> Result<Option<u64>, RewriteFault> {
    let survey = give_all(
        rt,
        folder,
        "surveying",
        segments,
        buffer,
        Survey::new(rt.alloc()),
    )?;
    let total = survey.total();
    let needed = survey.needed();
    if needed >= total - total / 4 {
        Ok(Some(needed))
    } else {
        Ok(None)
    }
}

/// Returns the inventory of segments.
fn inventory_of(
    rt: &HostRuntime,
    folder: &str,
    segments: &mut [Segment],
    buffer: &mut Vec<u8>,
) -> Result<Inventory, RewriteFault> {
    give_all(
        rt,
        folder,
        "examining",
        segments,
        buffer,
        Inventory::new(rt.alloc()),
    )
}

/// Syncs a log, and writes a last frame which states that it was synced up to there.
pub(crate) fn sync_and_mark(file: &mut File, id: u64, end: Cursor) -> io::Result<()> {
    file.sync_all()?;
    let _ = file.seek(SeekFrom::End(0))?;
    if end.place <= u64::MAX - 40 {
        let _ = write_frame(file, id, end, end.place, b"")?;
    }
    file.sync_all()
}

/// Writes what is needed of segments behind the header of a log with this id. Returns the cursor after the last frame.
fn write_needed(
    rt: &HostRuntime,
    folder: &str,
    filter: &Filter,
    segments: &mut [Segment],
    buffer: &mut Vec<u8>,
    file: &File,
    id: u64,
) -> Result<Cursor, RewriteFault> {
    let Ok(output) = BufWriter::new(rt.alloc(), file) else {
        return Err(RewriteFault::from(RewriteError::Memory));
    };
    let work = Work::begin(rt, "rewriting", length_of(segments));
    let mut rewriting = LogRewriting::new(rt.alloc(), filter, output, id);
    for segment in segments {
        let (name, old) = (segment.name, segment.id);
        let mut input = match segment.frames(rt, folder, work) {
            Ok(input) => input,
            Err(error) => return Err(RewriteFault::of_file(name, RewriteError::of_read(error))),
        };
        rewriting = match rewriting.rewrite(&mut input, buffer, old) {
            Ok(rewriting) => rewriting,
            Err(error) => return Err(fault_of(name, &input, error)),
        };
    }
    Ok(rewriting.finish()?)
}

/// Makes `base.new` of an owner, a log with this id and without frames.
pub(crate) fn begin_base(rt: &HostRuntime, folder: &str, owner: u64, id: u64) -> io::Result<File> {
    let mut file = create(rt, folder, FolderFile::NewBase(owner))?;
    file.write_all(&header_bytes(id))?;
    Ok(file)
}

/// Writes what is needed of segments into `base.new` with this id, and syncs it.
fn write_base(
    rt: &HostRuntime,
    folder: &str,
    owner: u64,
    filter: &Filter,
    segments: &mut [Segment],
    buffer: &mut Vec<u8>,
    id: u64,
) -> Result<Segment, RewriteFault> {
    let mut file = match begin_base(rt, folder, owner, id) {
        Ok(file) => file,
        Err(error) => return Err(RewriteFault::from(RewriteError::of_write(error))),
    };
    let end = write_needed(rt, folder, filter, segments, buffer, &file, id)?;
    if let Err(error) = sync_and_mark(&mut file, id, end) {
        return Err(RewriteFault::from(RewriteError::of_write(error)));
    }
    match file.seek(SeekFrom::End(0)) {
        Ok(length) => Ok(Segment {
            name: FolderFile::NewBase(owner),
            file,
            id,
            length,
            before: 0,
        }),
        Err(error) => Err(RewriteFault::from(RewriteError::of_write(error))),
    }
}

/// Returns the names of tenants as a reading takes them.
fn names_in_bytes(alloc: Global, tenants: &[String]) -> Result<Vec<Bytes>, AllocError> {
    let mut names = Vec::new(alloc);
    for tenant in tenants {
        names.push(Bytes::copy(alloc, tenant.as_bytes())?)?;
    }
    Ok(names)
}

/// Returns the fault of a file whose records were not taken. It has the error with which a read failed.
fn reading_fault(
    file: FolderFile,
    input: &BufReader<Progress<'_, HostRuntime, Noting<&File>>>,
    error: ReadingError,
) -> RewriteFault {
    match error {
        ReadingError::Failed(kind) => {
            let error = input.get_ref().input().error(kind);
            RewriteFault::of_file(file, RewriteError::of_read(error))
        }
        error => RewriteFault::of_reading(file, error),
    }
}

/// Reads the records of segments. The store's tenants have these names, in their order.
fn reading_of<'t>(
    rt: &HostRuntime,
    folder: &str,
    tenants: &'t [Bytes],
    segments: &mut [Segment],
    buffer: &mut Vec<u8>,
) -> Result<LogReading<'t>, RewriteFault> {
    let work = Work::begin(rt, "comparing", length_of(segments));
    let mut reading = LogReading::new(rt.alloc(), tenants)?;
    for segment in segments {
        let (name, id) = (segment.name, segment.id);
        let mut input = match segment.frames(rt, folder, work) {
            Ok(input) => input,
            Err(error) => return Err(RewriteFault::of_file(name, RewriteError::of_read(error))),
        };
        reading = match reading.read(&mut input, buffer, id) {
            Ok(reading) => reading,
            Err(error) => return Err(reading_fault(name, &input, error)),
        };
    }
    Ok(reading)
}

/// Returns whether segments and a base leave the same state in a store with these tenants, but for contents without a link.
fn leave_same_state(
    rt: &HostRuntime,
    folder: &str,
    tenants: &[String],
    segments: &mut [Segment],
    base: &mut [Segment],
    buffer: &mut Vec<u8>,
) -> Result<bool, RewriteFault> {
    let names = names_in_bytes(rt.alloc(), tenants)?;
    let old = reading_of(rt, folder, names.as_slice(), segments, buffer)?;
    let new = reading_of(rt, folder, names.as_slice(), base, buffer)?;
    Ok(old.leaves_same_state(&new))
}

/// Returns whether a base with this number of bytes of records may be written. Prints how much it needs if not.
fn has_room(rt: &HostRuntime, folder: &str, records: u64) -> bool {
    let (needed, room) = (base_length(records), room_for_base(rt, folder));
    if needed <= room {
        return true;
    }
    let _ = eprint!(rt;
        "blobd: the log in {folder} was not rewritten: it needs {needed} bytes on the disk, and may take {room}\n"
    );
    false
}

/// Writes what is needed of segments into `base.new`, and compares the states that both leave. Does nothing if it is not the time to.
fn rewrite(
    rt: &HostRuntime,
    folder: &str,
    owner: u64,
    tenants: &[String],
    segments: &mut [Segment],
    when: When,
) -> Result<Outcome, RewriteFault> {
    let (was, id) = match segments.last() {
        Some(last) => (last.end(), last.id),
        None => return Ok(Outcome::Kept(0)),
    };
    if when == When::Wasteful && was <= SMALL {
        return Ok(Outcome::Kept(was));
    }
    let mut buffer = Vec::new(rt.alloc()); // One for all files, so that memory does not grow with their number.
    if when == When::Wasteful {
        if let Some(needed) = surely_needed(rt, folder, segments, &mut buffer)? {
            return Ok(Outcome::Kept(needed));
        }
    }
    let inventory = inventory_of(rt, folder, segments, &mut buffer)?;
    let live = inventory.live();
    if when == When::Wasteful && live >= inventory.total() / 2 {
        return Ok(Outcome::Kept(live));
    }
    if !has_room(rt, folder, live) {
        return Ok(Outcome::Kept(was));
    }
    let filter = inventory.filter()?;
    drop(inventory);
    let mut base = [write_base(rt, folder, owner, &filter, segments, &mut buffer, id)?];
    drop(filter); // So that memory has either what is needed of the segments, or the states that are compared.
    if !leave_same_state(rt, folder, tenants, segments, &mut base, &mut buffer)? {
        return Err(RewriteFault::from(RewriteError::Differs));
    }
    let [base] = base;
    Ok(Outcome::Rewritten(base.length))
}

/// Makes `base.new` the base up to this number, so that a crash leaves it, and removes the segments that it was written from.
pub(crate) fn replace(
    rt: &HostRuntime,
    folder: &str,
    owner: u64,
    segments: &[Segment],
    number: u64,
) -> Result<(), FolderError> {
    let base = FolderFile::Base(number);
    if let Err(error) = rename_synced(rt, folder, FolderFile::NewBase(owner), base) {
        return Err(FolderError::of_file("create", base, error));
    }
    for segment in segments {
        if segment.name == base {
            continue; // The new base has its name.
        }
        if let Err(error) = remove(rt, folder, segment.name) {
            return Err(FolderError::of_file("remove", segment.name, error));
        }
    }
    Ok(())
}

/// Rewrites the segments up to the one with this number, which are closed, into a base, if it is the time to, as this owner. Prints both lengths. If
/// the base cannot be written, or needs more room than it may take, prints why, and the segments stay as they are.
///
/// The base is synced, and leaves the same state as the segments in a store with these tenants, before it takes their place. A crash
/// leaves either. If a session is of another tenant, the segments stay as they are.
///
/// # Errors
///
/// Then the base may have taken the place of the segments, and nothing may be added to the last one of them.
///
/// - `File`, if the base cannot get its name, or a file that it replaces cannot be removed.
/// - `Memory`
pub fn compact(
    rt: &HostRuntime,
    folder: &str,
    owner: u64,
    tenants: &[String],
    segments: &mut [Segment],
    number: u64,
    when: When,
) -> Result<Outcome, FolderError> {
    let was = length_of(segments);
    let outcome = match rewrite(rt, folder, owner, tenants, segments, when) {
        Ok(outcome) => outcome,
        Err(error) => {
            let _ = eprint!(rt;
                "blobd: {folder}{} was not written: {error}\n",
                FolderFile::Base(number)
            );
            let _ = remove(rt, folder, FolderFile::NewBase(owner));
            return Ok(Outcome::Kept(was));
        }
    };
    let Outcome::Rewritten(is) = outcome else {
        return Ok(outcome);
    };
    replace(rt, folder, owner, segments, number)?;
    let base = FolderFile::Base(number);
    let _ = eprint!(rt; "blobd: {folder}{base} was written: {is} of {was} bytes are left\n");
    Ok(outcome)
}
