//! Replays a log, and continues it.

ghost use Rattle.std.specs.Prelude.{◌≡◌, ◌≤◌, ◌+◌, ◌++◌, ◌∷◌, [], false, true, IfErr, IfOk, OnErr, OnOk, length};
ghost use Rattle.log_frames.specs.Frames.{AreFrames, end_of, payloads};
ghost use Rattle.log_frames.specs.Headers.{log_bytes, start_of};
ghost use Rattle.log_frames.specs.Reads.{frame_in, payload_in};
ghost use Rattle.log_frames.specs.declared.reading.Ending.TheVariants.{End, Refused};
ghost use Rattle.blob_store.specs.Starts.{StartsFrom};
ghost use Rattle.segmented_disk.specs.Views.{all_attempted, starting};
ghost use Rattle.store_replay.specs.Replays.{EndsWithReplayOf, HasDurable, IsReadAs, IsReplayOf, ReplaysFrame, ReplaysNoFrame, TakesPayload, total};

use crate::observer::ChangeSink;
use crate::replay::Replay;
use crate::trail::FrameTrail;
use blob_store::{Desk, Naming, StartedLog, Store};
use durable_log::IdleDevice;
use framed_disk::{FramedDisk, FramesName};
use locked_book::{Step, StoreLog};
use log_disk::{BytesName, Disk, DiskError, FileDisk};
use log_frames::{
    Cursor, Ending, FrameHead, FrameSink, FramesRead, NextFrame, ReadFault, judge_rest,
    read_next_frame, start_of,
};
use segmented_disk::{SegmentFolder, SegmentedDisk};
use std::alloc::{AllocError, Global};
use std::fs::File;
use std::io::Read;
use std::marker::{Brand, Model};
use std::sync::Wait;
use thiserror::Error;

/// A log that was read and replayed, perhaps only up to a fault.
///
/// Contracts see the frames that were read, the reason why there were no more, and the replay. While there is no fault, the
/// bytes that were replayed and those that are left over end with the payloads of these frames. In front of these payloads
/// are those of the logs that were replayed before.
#[derive(Drop)]
pub struct Replayed<'s, W: Wait, S: Naming, O: ChangeSink> {
    replay: Replay<'s, W, S, O>,
    read: FramesRead,
    id: u64,
    trail: FrameTrail,
}

impl<'s, W: Wait, S: Naming, O: ChangeSink> Model for Replayed<'s, W, S, O> {
    ghost use Rattle.blob_store.specs.Starts.{StartsFrom};
    ghost use Rattle.store_replay.specs.Replays.{EndsWithReplayOf, ReplayedView};

    ghost Value = { ReplayedView };

    ghost view = { λ r. record {
      id = r.id;
      frames = r.trail;
      cursor = r.read.cursor;
      ending = r.read.ending;
      replay = r.replay;
    } };

    ghost invariant = { λ r. EndsWithReplayOf r.id r.trail r.read.cursor r.replay };
}

/// The reason why a log cannot be continued.
#[derive(Clone, Copy, Debug, Error)]
pub enum ContinueError {
    /// The log was not replayed to its end, or it ends within a record.
    #[error("the log is not replayed to its end")]
    Unfinished,
    /// The store's history has other records than the log that was replayed.
    #[error("the store has other records than the log")]
    Differs,
    /// A call on the disk failed.
    #[error("{0}")]
    Disk(#[from] DiskError),
}

/// Replays the frame that a buffer begins with, which has this head.
fn replay_frame<W: Wait, S: Naming, O: ChangeSink>(
    replay: &mut Replay<'_, W, S, O>,
    trail: &mut FrameTrail,
    buffer: &[u8],
    head: FrameHead,
) -> Result<(), Ending>
    requires { head.length + 40 ≤ length buffer.now }
    ensures taken { OnOk result (TakesPayload replay.old (payload_in head buffer.now) replay.new) }
    ensures added { OnOk result (trail.new ≡ trail.old ++ frame_in head buffer.now ∷ []) }
    ensures stops { OnErr result (replay.new.goes_on ≡ false) }
    ensures kept { OnErr result (trail.new ≡ trail.old) }
    ensures refused { IfErr result (λ e. e ≡ Refused) }
{
    let (_, behind) = buffer.split_at(32);
    let (payload, _) = behind.split_at(head.length as usize);
    match replay.take(payload) {
        Ok(()) => {
            trail.add(head.synced, payload);
            Ok(())
        }
        Err(()) => Err(Ending::Refused),
    }
}

/// Reads a frame and replays it. Returns the offset up to which it states that the file was synced, and the cursor after
/// it.
fn replay_next_frame<R: Read, W: Wait, S: Naming, O: ChangeSink>(
    replay: &mut Replay<'_, W, S, O>,
    trail: &mut FrameTrail,
    input: &mut R,
    buffer: &mut Vec<u8>,
    id: u64,
    cursor: Cursor,
) -> Result<(u64, Cursor), Ending>
    ensures replayed { IfOk result (λ r. ReplaysFrame id cursor r.1 (R.remaining input.old)
        (R.remaining input.new) trail.old trail.new replay.old replay.new) }
    ensures ended { IfErr result (λ e. ReplaysNoFrame id cursor (R.remaining input.old) e trail.old
        trail.new
        replay.old replay.new) }
{
    match read_next_frame(input, buffer, id, cursor) {
        Ok(NextFrame::Frame(head, next)) => {
            match replay_frame(replay, trail, buffer.as_slice(), head) {
                Ok(()) => Ok((head.synced, next)),
                Err(ending) => Err(ending),
            }
        }
        Ok(NextFrame::End) => Err(Ending::End),
        Ok(NextFrame::NoFrame(count)) => Err(judge_rest(input, buffer, count, id, cursor.place)),
        Err(ReadFault::Failed(kind)) => Err(Ending::Failed(kind)),
        Err(ReadFault::Memory) => Err(Ending::Memory),
        Err(ReadFault::TooLong) => Err(Ending::TooLong),
    }
}

/// Reads the frames of a log with this id, from the end of its header on, and replays them.
fn replay_frames<R: Read, W: Wait, S: Naming, O: ChangeSink>(
    replay: &mut Replay<'_, W, S, O>,
    trail: &mut FrameTrail,
    input: &mut R,
    buffer: &mut Vec<u8>,
    id: u64,
) -> FramesRead
    requires { trail.old ≡ [] }
    ensures of { IsReplayOf id (total replay.old) trail.new result.cursor replay.new }
    ensures read { IsReadAs id (R.remaining input.old) trail.new result.cursor result.ending }
{
    let mut cursor = start_of(id);
    let mut synced: u64 = 0;
    for _turn in 0..u64::MAX {
        match replay_next_frame(replay, trail, input, buffer, id, cursor) {
            Ok((stated, next)) => {
                synced = synced.max(stated);
                cursor = next;
            }
            Err(ending) => {
                return FramesRead {
                    cursor,
                    synced,
                    ending,
                };
            }
        }
    }
    FramesRead {
        cursor,
        synced,
        ending: Ending::TooLong,
    }
}

/// Reads the frames of a log with this id, from the end of its header on, and replays them. The buffer grows with the
/// longest frame, as for `read_frames`.
///
/// The replay goes on from the logs that it has taken before. A record may begin in one of them and end in this one.
///
/// # Errors
///
/// - if memory for the replay runs out. A fault of the replay is no error: `Replayed` has it.
pub fn replay_log<'s, R: Read, W: Wait, S: Naming, O: ChangeSink>(
    replay: Replay<'s, W, S, O>,
    input: &mut R,
    buffer: &mut Vec<u8>,
    id: u64,
) -> Result<Replayed<'s, W, S, O>, AllocError>
    ensures id { IfOk result (λ r. r.id ≡ id) }
    ensures of { IfOk result (λ r. IsReplayOf id (total replay.entry) r.frames r.cursor r.replay) }
    ensures read { IfOk result (λ r. IsReadAs id (R.remaining input.old) r.frames r.cursor
        r.ending) }
{
    let mut replay = replay;
    let mut trail = FrameTrail::new(replay.allocator())?;
    let read = replay_frames(&mut replay, &mut trail, input, buffer, id);
    Ok(Replayed {
        replay,
        read,
        id,
        trail,
    })
}

impl<'s, W: Wait, S: Naming, O: ChangeSink> Replayed<'s, W, S, O> {
    /// Returns the replay.
    pub fn replay(&self) -> &Replay<'s, W, S, O>
        ensures { result.now ≡ self.now.replay }
    {
        &self.replay
    }

    /// Returns the replay, which can go on with the next log.
    pub fn into_replay(self) -> Replay<'s, W, S, O>
        ensures { result ≡ self.entry.replay }
    {
        let Replayed {
            replay,
            read: _,
            id: _,
            trail: _,
        } = self;
        replay
    }

    /// Returns what is known of the frames that were read: the cursor after them, and the reason why there was no more.
    pub fn read(&self) -> FramesRead
        ensures cursor { result.cursor ≡ self.now.cursor }
        ensures ending { result.ending ≡ self.now.ending }
    {
        self.read
    }

    /// Returns whether the log was replayed up to its end: it ends in order, and there was no fault. Its last record may end in
    /// the next log.
    pub fn is_at_end(&self) -> bool
        ensures { result ≡ true → (self.now.ending ≡ End) × (self.now.replay.goes_on ≡ true) }
    {
        matches!(self.read.ending, Ending::End) && self.replay.goes_on()
    }

    /// Returns whether the log was replayed up to its end, and nothing is left over.
    pub fn is_whole(&self) -> bool
        ensures ended { result ≡ true → (self.now.ending ≡ End) × (self.now.replay.goes_on ≡ true) }
        ensures left { result ≡ true → self.now.replay.left ≡ [] }
    {
        self.is_at_end() && self.replay.left_over() == 0
    }
}

/// Opens the last log of a start on a disk that holds it: a log with this id and the frames that `F` names. `B` names the payloads
/// of the logs before, whose files have this length. Writes a mark and syncs the disk.
///
/// # Errors
///
/// - The error of a call on the disk.
/// - `Memory`
fn marked_disk<F: FramesName, B: BytesName, D: Disk, G: SegmentFolder<D>>(
    alloc: Global,
    raw: D,
    id: u64,
    cursor: Cursor,
    folder: G,
    closed_length: u64,
) -> Result<SegmentedDisk<D, G>, DiskError>
    requires frames { AreFrames id (start_of id) F.frames }
    requires cursor { cursor ≡ end_of id (start_of id) F.frames }
    requires written { D.written raw ≡ log_bytes id F.frames }
    requires synced { D.synced raw ≡ D.written raw }
    requires folder { G.published folder ≡ starting id }
    ensures written { IfOk result (λ d. all_attempted d ≡ B.bytes ++ payloads F.frames) }
    ensures synced { IfOk result (λ d. d.synced ≡ B.bytes ++ payloads F.frames) }
{
    let segment = FramedDisk::open::<F>(alloc, raw, id, cursor)?;
    let mut disk = SegmentedDisk::new::<B>(alloc, folder, segment, closed_length, cursor.place)?;
    disk.mark()?;
    disk.sync()?;
    Ok(disk)
}

/// Continues the last log of a replay on a disk that holds it: a log with this id and the frames that `F` names. `B` names the
/// payloads of the logs that were replayed before, whose files have this length. Writes a mark and syncs the disk. Returns
/// the desk of the replay, and the device of the store's log, which writes to that disk from then on, and later to those that
/// the folder makes.
///
/// # Errors
///
/// - The error of a call on the disk.
/// - `Memory`
pub fn continue_on<
    's,
    F: FramesName,
    B: BytesName,
    D: Disk,
    G: SegmentFolder<D>,
    W: Wait,
    S: Naming,
    O: ChangeSink,
>(
    alloc: Global,
    replay: Replay<'s, W, S, O>,
    raw: D,
    id: u64,
    cursor: Cursor,
    folder: G,
    closed_length: u64,
) -> Result<(Desk<S>, IdleDevice<Step, StoreLog<S>, SegmentedDisk<D, G>>), DiskError>
    requires frames { AreFrames id (start_of id) F.frames }
    requires cursor { cursor ≡ end_of id (start_of id) F.frames }
    requires written { D.written raw ≡ log_bytes id F.frames }
    requires synced { D.synced raw ≡ D.written raw }
    requires goes_on { replay.goes_on ≡ true }
    requires replayed { replay.replayed ≡ B.bytes ++ payloads F.frames }
    requires folder { G.published folder ≡ starting id }
    ensures { IfOk result (λ r. HasDurable replay.entry.replayed r.1) }
{
    match marked_disk::<F, B, D, G>(alloc, raw, id, cursor, folder, closed_length) {
        Ok(disk) => Ok(replay.finish(disk)),
        Err(error) => Err(error),
    }
}

/// Continues the last log of a replay on the file that it was read from. The frames, the bytes of the file and the payloads of
/// the logs before are picked in the proof alone.
fn continue_on_file_as<
    's,
    F: FramesName,
    B: BytesName,
    C: BytesName,
    G: SegmentFolder<FileDisk>,
    W: Wait,
    S: Naming,
    O: ChangeSink,
>(
    alloc: Global,
    replay: Replay<'s, W, S, O>,
    trail: &FrameTrail,
    id: u64,
    cursor: Cursor,
    file: File,
    folder: G,
    closed_length: u64,
) -> Result<
    (
        Desk<S>,
        IdleDevice<Step, StoreLog<S>, SegmentedDisk<FileDisk, G>>,
    ),
    DiskError,
>
    requires named { F.frames ≡ trail.now }
    requires bytes { B.bytes ≡ log_bytes id trail.now }
    requires closed { replay.replayed ≡ C.bytes ++ payloads trail.now }
    requires of { EndsWithReplayOf id trail.now cursor replay }
    requires goes_on { replay.goes_on ≡ true }
    requires folder { G.published folder ≡ starting id }
    ensures { IfOk result (λ r. HasDurable replay.entry.replayed r.1) }
{
    let _ = trail;
    let raw = FileDisk::new::<B>(alloc, file, cursor.place)?;
    continue_on::<F, C, FileDisk, G, W, S, O>(alloc, replay, raw, id, cursor, folder, closed_length)
}

/// Makes the log of a start from the desk and the device of a replay.
#[tactic(auto, using(crate::proofs::Restarts::starts_on))]
fn start_log<D: Disk, W: Wait, S: Naming>(
    rt: &W,
    store: &Store<S>,
    desk: Desk<S>,
    device: IdleDevice<Step, StoreLog<S>, D>,
) -> Result<StartedLog<S, D>, ContinueError>
    requires { device.durable ≡ device.written }
    ensures { IfOk result (λ l. StartsFrom S.names device.written l.desk.trace l.device) }
{
    match store.start_log(rt, desk, device) {
        Some(log) => {
            log.reveal_start();
            Ok(log)
        }
        None => Err(ContinueError::Differs),
    }
}

/// Continues the last log of a replay on the file that it was read from, if it was replayed as a whole. Returns the desk of the
/// replay, and the device of the store's log.
#[tactic(auto, using(crate::proofs::Taking::whole))]
fn continue_whole<'s, G: SegmentFolder<FileDisk>, W: Wait, S: Naming, O: ChangeSink>(
    alloc: Global,
    replayed: Replayed<'s, W, S, O>,
    file: File,
    folder: G,
    closed_length: u64,
) -> Result<
    (
        Desk<S>,
        IdleDevice<Step, StoreLog<S>, SegmentedDisk<FileDisk, G>>,
    ),
    ContinueError,
>
    requires { G.published folder ≡ starting replayed.id }
    ensures { IfOk result (λ r. HasDurable replayed.entry.replay.replayed r.1) }
{
    if !replayed.is_whole() {
        return Err(ContinueError::Unfinished);
    }
    let Replayed {
        replay,
        read,
        id,
        trail,
    } = replayed;
    let done = continue_on_file_as::<Brand, Brand, Brand, G, W, S, O>(
        alloc,
        replay,
        &trail,
        id,
        read.cursor,
        file,
        folder,
        closed_length,
    );
    match done {
        Ok(continued) => Ok(continued),
        Err(error) => Err(ContinueError::Disk(error)),
    }
}

/// Continues the last log of a replay on the file that it was read from. Syncs the file, writes a mark and syncs it again.
/// `closed_length` is the length of the files of the logs that were replayed before, in bytes.
///
/// Returns the log of the store's start. The store's history has exactly the records that were replayed: the payloads that
/// were read. They are on the device's disk, all of them durable. The device writes to that file from then on, and later to
/// those that the folder makes.
///
/// The premise of `FileDisk` is that the file holds the header and the frames that were read. The folder has published nothing
/// since it was made, and that log is its last segment.
///
/// # Errors
///
/// - `Unfinished` if the log was not replayed as a whole.
/// - `Disk`: the file cannot be sought, written or synced, it has another length than the log that was read, or memory ran
///   out.
/// - `Differs` if the store has other records, of steps that the replay did not make.
#[tactic(auto, using(crate::proofs::Restarts::starts_from, crate::proofs::Restarts::all_durable))]
pub fn continue_on_file<'s, G: SegmentFolder<FileDisk>, W: Wait, S: Naming, O: ChangeSink>(
    alloc: Global,
    replayed: Replayed<'s, W, S, O>,
    file: File,
    folder: G,
    closed_length: u64,
) -> Result<StartedLog<S, SegmentedDisk<FileDisk, G>>, ContinueError>
    requires { G.published folder ≡ starting replayed.id }
    ensures { IfOk result (λ l. StartsFrom S.names replayed.entry.replay.replayed l.desk.trace
        l.device) }
{
    let (rt, store) = replayed.replay().store();
    match continue_whole(alloc, replayed, file, folder, closed_length) {
        Ok((desk, device)) => start_log(rt, store, desk, device),
        Err(error) => Err(error),
    }
}
