//! Replays the log of a store whose contents lie in files, and continues it.
ghost use Rattle.std.specs.Prelude.{◌≡◌, [], IfOk};
ghost use Rattle.segmented_disk.specs.Views.{starting};

use crate::contents::{Contents, copied};
use crate::serve_fault::{ReplayFault, ServeFault};
use blob_store::{Desk, Naming, StartedLog, Store};
use durable_log::{CommitError, IdleDevice};
use locked_book::{Step, StoreLog};
use log_disk::{DiskError, FileDisk, ReplayedDisk};
use log_folder::{
    ContentsObserver, LeftOpen, NextSegments, Noting, OpenContent, OpenLog, Segment, Work,
    find_left_open,
};
use log_frames::Ending;
use segmented_disk::SegmentedDisk;
use std::alloc::{AllocError, Global};
use std::io::{self, ErrorKind};
use std::sync::Wait;
use store_replay::{
    Cause, ChangeSink, ContinueError, Fault, FolderFile, LogPlace, Replay, Replayed,
    continue_on_file, replay_log,
};

/// The disk of a log in a folder.
pub type FolderDisk = SegmentedDisk<FileDisk, NextSegments>;

/// The log of a store in a folder, after its start.
pub type FolderLog<S> = StartedLog<S, FolderDisk>;

/// Returns the fault if the read of a file ended by itself, and not at a record.
fn read_fault<I>(file: FolderFile, input: &Noting<I>, ending: Ending) -> Option<ReplayFault> {
    match ending {
        Ending::Failed(kind) => Some(ReplayFault::Read(file, input.error(kind))),
        Ending::Memory => Some(ReplayFault::Memory),
        Ending::TooLong => {
            let error = io::Error::from(ErrorKind::FileTooLarge);
            Some(ReplayFault::Read(file, error))
        }
        Ending::End | Ending::Torn | Ending::Damaged(_) | Ending::Refused => None,
    }
}

/// Returns the fault for a record that was not replayed.
fn record_fault(place: LogPlace, fault: Option<Fault>) -> ReplayFault {
    match fault {
        Some(fault) => match fault.cause {
            Cause::Memory => ReplayFault::Memory,
            cause => ReplayFault::Record { place, cause },
        },
        None => ReplayFault::Record {
            place,
            cause: Cause::Malformed,
        },
    }
}

/// Returns why one of the log's files was not replayed to its end.
fn fault_of<I, W: Wait, S: Naming, O: ChangeSink>(
    start: LogPlace,
    input: &Noting<I>,
    replayed: Replayed<'_, W, S, O>,
) -> ReplayFault {
    let read = replayed.read();
    let fault = replayed.into_replay().into_fault();
    let place = LogPlace {
        file: start.file,
        place: read.cursor.place,
        offset: start.offset.saturating_add(read.cursor.place),
    };
    match read_fault(start.file, input, read.ending) {
        Some(fault) => fault,
        None => record_fault(place, fault),
    }
}

/// Replays a file of a log in a folder.
fn replay_file<'s, W: Wait, S: Naming, O: ChangeSink>(
    host: &HostRuntime,
    folder: &str,
    work: Work,
    replay: Replay<'s, W, S, O>,
    buffer: &mut Vec<u8>,
    segment: &mut Segment,
) -> Result<Replayed<'s, W, S, O>, ReplayFault>
    ensures { IfOk result (λ r. r.id ≡ segment.old.id) }
{
    let (name, id, start) = (segment.name, segment.id, segment.place(0));
    let mut input = match segment.frames(host, folder, work) {
        Ok(input) => input,
        Err(error) => return Err(ReplayFault::of_read(name, error)),
    };
    let replayed = replay_log(replay, &mut input, buffer, id)?;
    if !replayed.is_whole() {
        return Err(fault_of(start, input.get_ref().input(), replayed));
    }
    Ok(replayed)
}

/// Replays files of a log in a folder, one after another.
fn replay_files<'s, W: Wait, S: Naming, O: ChangeSink>(
    host: &HostRuntime,
    folder: &str,
    work: Work,
    replay: Replay<'s, W, S, O>,
    buffer: &mut Vec<u8>,
    segments: &mut [Segment],
) -> Result<Replay<'s, W, S, O>, ReplayFault> {
    let mut replay = replay;
    for segment in segments {
        let replayed = replay_file(host, folder, work, replay, buffer, segment)?;
        replay = replayed.into_replay();
    }
    Ok(replay)
}

/// The contents that earlier processes left: those of open sessions, and the greatest number of a session of each tenant.
#[derive(Drop)]
pub struct LeftContents {
    /// The contents of open sessions.
    pub open: Vec<OpenContent>,
    /// The greatest number of a session that was opened of each tenant.
    pub last_numbers: Vec<u32>,
}

/// An observer of the changes of a log that knows which sessions the log leaves open.
///
/// The replay is generic over it: the type of an observer that borrows the folder of contents would name lifetimes, which the borrow
/// checker does not follow through a replay.
trait KnowsOpen: ChangeSink {
    /// Returns the sessions that the log leaves open.
    fn known_open(&self) -> &LeftOpen;
}

impl<'f, 'r> KnowsOpen for ContentsObserver<'f, 'r> {
    fn known_open(&self) -> &LeftOpen {
        self.open()
    }
}

/// Returns the contents that a log leaves.
fn left_by(open: &LeftOpen) -> Result<LeftContents, AllocError> {
    Ok(LeftContents {
        open: open.contents()?,
        last_numbers: open.last_numbers()?,
    })
}

/// Returns the sessions that a log leaves open. The log stays as it is.
fn open_sessions(
    host: &HostRuntime,
    folder: &str,
    log: &mut OpenLog,
    contents: &Contents<'_>,
) -> Result<LeftOpen, ServeFault>
    ensures { log.new.last.id ≡ log.old.last.id }
{
    let id = log.last.id;
    let tenants = copied(host.alloc(), contents.files.tenants())?;
    let open = find_left_open(host, folder, log, tenants);
    log.last.id = id; // It is the same, but no contract of the call states that.
    match open {
        Ok(open) => Ok(open),
        Err(error) => Err(ServeFault::Folder(error)),
    }
}

/// Replays the log of a folder at a desk, and continues it after its last file. Returns the log of the start, and the contents that
/// earlier processes left.
fn replay_with_desk<W: Wait, S: Naming, O: KnowsOpen>(
    rt: &W,
    host: &HostRuntime,
    folder: &str,
    alloc: Global,
    store: &Store<S>,
    desk: Desk<S>,
    device: IdleDevice<Step, StoreLog<S>, ReplayedDisk>,
    log: OpenLog,
    next: NextSegments,
    observer: O,
) -> Result<(FolderLog<S>, LeftContents), ReplayFault>
    requires written { device.written ≡ [] }
    requires durable { device.durable ≡ [] }
    requires folder { next ≡ starting log.last.id }
{
    let OpenLog {
        mut closed,
        mut last,
        number: _,
    } = log;
    let work = Work::begin(host, "replaying", last.end());
    let mut buffer = Vec::new(alloc);
    let replay = Replay::new(rt, store, alloc, desk, device, observer);
    let replay = replay_files(
        host,
        folder,
        work,
        replay,
        &mut buffer,
        closed.as_mut_slice(),
    )?;
    let replayed = replay_file(host, folder, work, replay, &mut buffer, &mut last)?;
    let left = left_by(replayed.replay().observer().known_open())?;
    let Segment {
        name,
        file,
        id: _,
        length: _,
        before,
    } = last;
    match continue_on_file(alloc, replayed, file, next, before) {
        Ok(started) => Ok((started, left)),
        Err(ContinueError::Disk(DiskError::Memory)) => Err(ReplayFault::Memory),
        Err(ContinueError::Disk(error)) => Err(ReplayFault::Log(CommitError::Disk(error))),
        Err(ContinueError::Unfinished) => {
            let error = io::Error::from(ErrorKind::UnexpectedEof);
            Err(ReplayFault::Read(name, error))
        }
        Err(ContinueError::Differs) => Err(ReplayFault::Log(CommitError::Closed)),
    }
}

/// Replays the log of a folder into a new store, and continues it after its last file. Contents of open sessions are read from their
/// files. Returns the log of the start, and the contents that earlier processes left.
///
/// # Errors
///
/// - `Memory`
/// - `Read`, `Folder`: a file cannot be read.
/// - `Record`, if a record cannot be replayed.
/// - `Log`, if the log cannot be written.
pub fn replay_contents<W: Wait, S: Naming>(
    rt: &W,
    host: &HostRuntime,
    folder: &str,
    store: &Store<S>,
    device: IdleDevice<Step, StoreLog<S>, ReplayedDisk>,
    log: OpenLog,
    next: NextSegments,
    contents: &Contents<'_>,
) -> Result<(FolderLog<S>, LeftContents), ServeFault>
    requires written { device.written ≡ [] }
    requires durable { device.durable ≡ [] }
    requires folder { next ≡ starting log.last.id }
{
    let alloc = host.alloc();
    let mut log = log;
    let open = open_sessions(host, folder, &mut log, contents)?;
    let observer = ContentsObserver::new(
        host,
        contents.files.folder(),
        open,
        contents.accepts_loss,
    );
    let Ok(mut desks) = store.desks(rt, 1) else {
        return Err(ServeFault::Memory);
    };
    let Some(desk) = desks.pop() else {
        unreachable!()
    };
    let started = replay_with_desk(
        rt, host, folder, alloc, store, desk, device, log, next, observer,
    );
    store.settle(rt, desks);
    match started {
        Ok(started) => Ok(started),
        Err(fault) => Err(ServeFault::from(fault)),
    }
}
