//! A disk of segments.

ghost use Rattle.std.specs.Prelude.{◌≡◌, ◌<◌, ◌≤◌, ◌++◌, [], IfOk, OnOk, OnErr, true, false};
ghost use Rattle.log_disk.specs.Torn.{IsTorn};
ghost use Rattle.framed_disk.specs.Survivors.{AreHarmless, IsReadable, IsUnforged, LeavesCut, MayBeLeft};
ghost use Rattle.framed_disk.specs.Views.{EndsInOrder, IsMarked, attempted};
ghost use Rattle.segmented_disk.specs.Invariants.{IsPublished};
ghost use Rattle.segmented_disk.specs.Survivors.{PreservesAll};
ghost use Rattle.segmented_disk.specs.Views.{AddsPayload, FailsAfterFailure, IsDurable, IsNewLog, KeepsPayloads, StartsNext, after_confirm, after_publish, all_attempted, all_durable, length_limit, segmented, starting, with_failure};

use crate::bytes_cell::BytesCell;
use crate::folder::SegmentFolder;
use framed_disk::FramedDisk;
use log_disk::{BytesName, Disk, DiskError, FileBacked, FileDisk, PlainFile};
use log_frames::HEADER_LENGTH;
use std::alloc::Global;
use std::marker::{Brand, Model};

/// The length of a frame without its payload, in bytes.
const FRAME_LENGTH: u64 = 40;

/// The least limit of a segment's length, in bytes.
const LEAST_LIMIT: u64 = 1_048_576;

/// The greatest limit of a segment's length, in bytes.
const GREATEST_LIMIT: u64 = 67_108_864;

/// A disk that writes each payload as one frame on the disk of the last segment. Each segment is a log of its own.
///
/// As a `Disk`, contracts see the payloads of all segments, one after another: those whose write was attempted, and those
/// that are synced, which the folder has confirmed after they were durable. If the last segment is long when a payload is written, or the folder wants the next one, the segment is
/// closed before: it ends in order, and the folder has published the next one, into which the payload goes. After a call
/// has failed, nothing more is written.
#[derive(Drop)]
pub struct SegmentedDisk<D: Disk, F: SegmentFolder<D>> {
    alloc: Global,
    folder: F,
    /// The last segment.
    segment: FramedDisk<D>,
    /// The length of all closed segments, in bytes, up to 2^64 - 1.
    closed_length: u64,
    /// The length of the last segment, in bytes, up to 2^64 - 1.
    length: u64,
    /// The error of the call that failed.
    failure: Option<DiskError>,
    /// The payloads of the segments that were closed before this disk was made.
    before: BytesCell,
}

impl<D: Disk, F: SegmentFolder<D>> Model for SegmentedDisk<D, F> {
    ghost use Rattle.std.specs.Prelude.{is_some};
    ghost use Rattle.segmented_disk.specs.Invariants.{IsPublished};
    ghost use Rattle.segmented_disk.specs.Views.{SegmentedView, segmented};

    ghost Value = { SegmentedView };

    ghost view = { λ d. segmented d.before (F.published d.folder) d.segment (is_some d.failure) };

    ghost invariant = { λ d. IsPublished (segmented d.before (F.published d.folder) d.segment
        (is_some d.failure)) };
}

/// Returns the length up to which the last segment is written, in bytes.
fn limit(closed_length: u64) -> u64
    ensures { result ≡ length_limit closed_length }
{
    (closed_length / 16).min(GREATEST_LIMIT).max(LEAST_LIMIT)
}

/// Returns whether the last segment is so long that it is closed before the next payload is written.
fn is_long(closed_length: u64, length: u64) -> bool
    ensures yes { result ≡ true → length_limit closed_length < length }
    ensures no { result ≡ false → length ≤ length_limit closed_length }
{
    limit(closed_length) < length
}

/// Makes the next segment, and publishes it after the last one, which has ended.
///
/// # Errors
///
/// - The error of a call on the folder or on the new disk.
/// - `Memory`
fn make_segment<D: Disk, F: SegmentFolder<D>>(
    alloc: Global,
    folder: &mut F,
    ended: &FramedDisk<D>,
) -> Result<FramedDisk<D>, DiskError>
    requires ended { EndsInOrder ended.now }
    requires last { (ended.now).id ≡ (F.published folder.old).last_id }
    ensures next { IfOk result IsNewLog }
    ensures published { IfOk result (λ next. F.published folder.new ≡
        after_publish (F.published folder.old) (attempted ended.now) next.id) }
    ensures kept { OnErr result (F.published folder.new ≡ F.published folder.old) }
{
    let (raw, id) = folder.create()?;
    let next = FramedDisk::create(alloc, raw, id)?;
    folder.publish(ended, &next)?;
    Ok(next)
}

impl<D: Disk, F: SegmentFolder<D>> SegmentedDisk<D, F> {
    /// Continues a log in segments, all of which are durable. `B` names the payloads of the closed ones, and `closed_length`
    /// is their length. The last segment has this length, and the folder makes those after it. Lengths are in bytes.
    ///
    /// # Errors
    ///
    /// - The error of the folder, if it does not confirm that this process owns it.
    /// - `Memory`
    pub fn new<B: BytesName>(
        alloc: Global,
        mut folder: F,
        segment: FramedDisk<D>,
        closed_length: u64,
        length: u64,
    ) -> Result<SegmentedDisk<D, F>, DiskError>
        requires durable { IsDurable segment }
        requires folder { F.published folder ≡ starting segment.id }
        ensures { IfOk result (λ d. d ≡ segmented B.bytes
            (after_confirm (starting segment.id) (attempted segment)) segment false) }
    {
        let Ok(before) = BytesCell::new::<B>(alloc) else {
            return Err(DiskError::Memory);
        };
        folder.confirm(&segment)?;
        Ok(SegmentedDisk {
            alloc,
            folder,
            segment,
            closed_length,
            length,
            failure: None,
            before,
        })
    }

    /// Returns the last segment.
    pub fn segment(&self) -> &FramedDisk<D>
        ensures { result.now ≡ (self.now).segment }
    {
        &self.segment
    }

    /// Returns the folder that makes the segments.
    pub fn folder(&self) -> &F
        ensures { F.published result.now ≡ (self.now).folder }
    {
        &self.folder
    }

    /// Writes a frame without a payload on the last segment, if more is synced than its last frame states.
    ///
    /// If nothing is written after it, no damage in front of it can be taken for a write that was cut off.
    ///
    /// # Errors
    ///
    /// - The error of the call that has failed, now or before.
    pub fn mark(&mut self) -> Result<(), DiskError>
        ensures payloads { KeepsPayloads self.old self.new }
        ensures marked { OnOk result (IsMarked (self.new).segment) }
        ensures stuck { FailsAfterFailure result self.old self.new }
        ensures failed { OnErr result ((self.new).failed ≡ true) }
    {
        if let Some(failure) = self.failure {
            return Err(failure);
        }
        if let Err(cause) = self.segment.mark() {
            return Err(self.fail(cause));
        }
        self.length = self.length.saturating_add(FRAME_LENGTH);
        Ok(())
    }

    /// Does nothing at run time: it gives the caller the invariant as facts.
    ///
    /// All payloads that are synced are durable: they are those of the closed segments and durable ones of the last segment,
    /// or the first of these. The last segment is the one that the folder has published last.
    pub fn reveal_invariant(&self)
        ensures { IsPublished self.now }
    {
        let _ = &self.segment;
    }

    /// Does nothing at run time: whatever a crash leaves of the last segment's disk can be read as a log. With the payloads of
    /// the closed segments in front, the payloads that are read contain all that are synced, and are a prefix of those that were
    /// written. The log is not damaged, if no payload contains a forged head.
    pub fn reveal_survivors(&self, left: &[u8])
        requires { MayBeLeft (self.now).segment left.now }
        ensures readable { IsReadable (self.now).segment.id left.now }
        ensures preserved { PreservesAll self.now left.now }
        ensures cut { IsUnforged (self.now).segment → LeavesCut (self.now).segment.id left.now }
    {
        self.segment.reveal_survivors(left);
    }

    /// Does nothing at run time: the same if other bytes, as zeros or garbage, are behind those that a crash leaves and complete
    /// nothing.
    pub fn reveal_survivors_before(&self, left: &[u8], behind: &[u8])
        requires left { MayBeLeft (self.now).segment left.now }
        requires behind { AreHarmless (self.now).segment.id left.now behind.now }
        ensures readable { IsReadable (self.now).segment.id (left.now ++ behind.now) }
        ensures preserved { PreservesAll self.now (left.now ++ behind.now) }
        ensures cut { LeavesCut (self.now).segment.id (left.now ++ behind.now) }
    {
        self.segment.reveal_survivors_before(left, behind);
    }

    /// Notes that a call has failed, and returns why: that this process does not own the folder any more, or this cause.
    fn fail(&mut self, cause: DiskError) -> DiskError
        ensures { self.new ≡ with_failure self.old }
    {
        let cause = self.folder.cause_of(cause);
        self.failure = Some(cause);
        cause
    }

    /// Syncs the last segment, and then has the folder confirm that this process still owns it.
    ///
    /// # Errors
    ///
    /// - The error of a call on the disk or on the folder.
    #[tactic(auto, using(crate::proofs::Segments::all_confirmed))]
    fn sync_last(&mut self) -> Result<(), DiskError>
        ensures same { all_attempted self.new ≡ all_attempted self.old }
        ensures ok { OnOk result ((self.new).synced ≡ all_attempted self.old) }
        ensures err { OnErr result ((self.new).synced ≡ (self.old).synced) }
        ensures durable { OnOk result (all_durable self.new ≡ all_attempted self.new) }
        ensures failed { (self.new).failed ≡ (self.old).failed }
        ensures confirmed { OnOk result ((self.new).folder
            ≡ after_confirm (self.old).folder (attempted (self.new).segment)) }
    {
        self.segment.reveal_invariant();
        self.segment.sync()?;
        self.folder.confirm(&self.segment)?;
        Ok(())
    }

    /// Returns whether the last segment is closed before the next payload is written.
    fn is_due(&self) -> bool {
        is_long(self.closed_length, self.length) || self.folder.wants_next()
    }

    /// Closes the last segment, and goes on with a new one.
    ///
    /// # Errors
    ///
    /// - The error of a call on the folder or on a disk.
    /// - `Memory`
    fn start_next(&mut self) -> Result<(), DiskError>
        ensures payloads { KeepsPayloads self.old self.new }
        ensures next { OnOk result (StartsNext self.old self.new) }
        ensures failed { (self.new).failed ≡ (self.old).failed }
    {
        self.segment.end()?;
        let next = make_segment(self.alloc, &mut self.folder, &self.segment)?;
        self.segment = next;
        self.closed_length = self.closed_length.saturating_add(self.length);
        self.length = HEADER_LENGTH;
        Ok(())
    }

    /// Writes a payload on the last segment, or on a new one if the last one is long or the folder wants the next one.
    ///
    /// # Errors
    ///
    /// - The error of a call on the folder or on a disk.
    /// - `FileTooLarge` if a log has no room for the frame.
    /// - `Memory`
    fn write_payload(&mut self, payload: &[u8]) -> Result<(), DiskError>
        ensures ok { OnOk result (all_attempted self.new ≡ all_attempted self.old ++ payload.now) }
        ensures err { OnErr result (IsTorn (all_attempted self.old) payload.now
            (all_attempted self.new)) }
        ensures kept { (self.new).synced ≡ (self.old).synced }
        ensures frame { OnOk result (AddsPayload self.old payload.now self.new) }
    {
        if self.is_due() {
            self.start_next()?;
        }
        self.length = self.length.saturating_add(payload.len() as u64);
        self.length = self.length.saturating_add(FRAME_LENGTH);
        self.segment.write(payload)
    }
}

impl<D: Disk, F: SegmentFolder<D>> Disk for SegmentedDisk<D, F> {
    ghost use Rattle.segmented_disk.specs.Views.{all_attempted};

    ghost written = { all_attempted };

    ghost synced = { λ v. v.synced };

    /// Writes a frame with these bytes as its payload, on the last segment or on a new one.
    ///
    /// # Errors
    ///
    /// - The error of the call that has failed, now or before.
    /// - `FileTooLarge` if a log has no room for the frame.
    /// - `Memory`
    fn write(&mut self, bytes: &[u8]) -> Result<(), DiskError>
        ensures ok { OnOk result (all_attempted self.new ≡ all_attempted self.old ++ bytes.now) }
        ensures err { OnErr result (IsTorn (all_attempted self.old) bytes.now
            (all_attempted self.new)) }
        ensures kept { (self.new).synced ≡ (self.old).synced }
        ensures frame { OnOk result (AddsPayload self.old bytes.now self.new) }
        ensures stuck { FailsAfterFailure result self.old self.new }
        ensures failed { OnErr result ((self.new).failed ≡ true) }
    {
        if let Some(failure) = self.failure {
            return Err(failure);
        }
        if let Err(cause) = self.write_payload(bytes) {
            return Err(self.fail(cause));
        }
        Ok(())
    }

    /// Waits until all frames are durable. Then the folder confirms that this process still owns it.
    ///
    /// # Errors
    ///
    /// - The error of the call that has failed, now or before. It is `Content` if another process owns the folder.
    fn sync(&mut self) -> Result<(), DiskError>
        ensures same { all_attempted self.new ≡ all_attempted self.old }
        ensures ok { OnOk result ((self.new).synced ≡ all_attempted self.old) }
        ensures err { OnErr result ((self.new).synced ≡ (self.old).synced) }
        ensures durable { OnOk result (all_durable self.new ≡ all_attempted self.new) }
        ensures confirmed { OnOk result ((self.new).folder
            ≡ after_confirm (self.old).folder (attempted (self.new).segment)) }
        ensures stuck { FailsAfterFailure result self.old self.new }
        ensures failed { OnErr result ((self.new).failed ≡ true) }
    {
        if let Some(failure) = self.failure {
            return Err(failure);
        }
        if let Err(cause) = self.sync_last() {
            return Err(self.fail(cause));
        }
        Ok(())
    }
}

impl<D: PlainFile, F: SegmentFolder<D>> FileBacked for SegmentedDisk<D, F> {
    ghost use Rattle.segmented_disk.specs.Survivors.{IsReadAs};

    ghost file_written = { λ v. v.segment.written };

    ghost file_synced = { λ v. v.segment.synced };

    ghost reads_as = { IsReadAs };

    /// Returns the file of the last segment.
    fn file(&self) -> &FileDisk {
        self.segment.file()
    }

    /// Does nothing at run time: whatever a crash leaves of the last segment's file is read as a log. The payloads of the closed
    /// segments, and then those of the log, have all that are synced, and are a prefix of those that were written.
    #[tactic(auto, using(crate::proofs::Segments::has_content))]
    fn reveal_kept(&self, left: &[u8]) {
        self.reveal_survivors(left);
    }
}
