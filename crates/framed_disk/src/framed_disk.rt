//! A disk of frames.

ghost use Rattle.std.specs.Prelude.{◌≡◌, ◌⊎◌, ◌++◌, [], IfOk, OnOk, OnErr, true, false};
ghost use Rattle.log_disk.specs.Torn.{IsTorn};
ghost use Rattle.log_frames.specs.Frames.{AreFrames, IsHead, end_of, head_of};
ghost use Rattle.log_frames.specs.Headers.{log_bytes, start_of};
ghost use Rattle.framed_disk.specs.Invariants.{IsInOrder};
ghost use Rattle.framed_disk.specs.Survivors.{AreHarmless, IsReadable, IsUnforged, LeavesCut, MayBeLeft, Preserves};
ghost use Rattle.framed_disk.specs.Views.{AddsFrame, EndsInOrder, FailsAfterFailure, FailsOrHasNoRoom, IsMarked, KeepsDurable, KeepsFrames, KeepsPayloads, attempted, durable, opened};

use crate::deed::{FrameDeed, FramesName, NoFrames, Syncs, add_frame, add_named};
use crate::put::{TOGETHER, write_frame};
use ghost_log::{SharedLog, Writer};
use log_disk::{Disk, DiskError, FileBacked, FileDisk, PlainFile};
use log_frames::{Cursor, MAX_PAYLOAD, header_bytes, start_of};
use std::alloc::Global;
use std::io::{self, ErrorKind};
use std::marker::Model;

/// A disk that writes each payload as one frame on another disk.
///
/// As a `Disk`, contracts see the payloads, one after another: those whose write was attempted, and those that are synced.
/// Each frame states how far the other disk is known to be synced. After a call has failed, nothing more is written.
#[derive(Drop)]
pub struct FramedDisk<D: Disk> {
    raw: D,
    id: u64,
    /// The cursor after the last frame.
    cursor: Cursor,
    /// The other disk is synced up to this offset.
    synced: u64,
    /// The last frame states this offset. It is 0 if this disk has written no frame.
    stated: u64,
    /// The error of the call that failed.
    failure: Option<DiskError>,
    /// Has room for a frame that is written by one call.
    buffer: Vec<u8>,
    deeds: SharedLog<FrameDeed>,
    writer: Writer<FrameDeed>,
}

impl<D: Disk> Model for FramedDisk<D> {
    ghost use Rattle.std.specs.Prelude.{◌≡◌, ◌≤◌, [], is_some, vec_capacity};
    ghost use Rattle.framed_disk.specs.Deeds.{after_deeds};
    ghost use Rattle.framed_disk.specs.Invariants.{IsFramed};
    ghost use Rattle.framed_disk.specs.Views.{FramedView, framed};

    ghost Value = { FramedView };

    ghost view = { λ d. framed d.id (after_deeds ([], []) d.deeds.entries) (D.written d.raw)
        (D.synced d.raw) (is_some d.failure) };

    ghost invariant = { λ d. (d.writer.name ≡ d.deeds.name) × (65536 ≤ vec_capacity d.buffer) ×
        IsFramed (framed d.id (after_deeds ([], []) d.deeds.entries) (D.written d.raw)
        (D.synced d.raw) (is_some d.failure)) d.cursor d.synced d.stated };
}

/// Returns whether a frame of this length has room in a log.
fn has_room(cursor: Cursor, synced: u64, length: u64) -> bool
    ensures yes { result ≡ true → IsHead (head_of cursor synced length) }
    ensures no { result ≡ false → IsHead (head_of cursor synced length) → ⊥ }
{
    length <= MAX_PAYLOAD && synced <= cursor.place && cursor.place <= u64::MAX - 40 - length
}

impl<D: Disk> FramedDisk<D> {
    /// Creates a log with this id on a disk that is empty, and syncs it.
    ///
    /// # Errors
    ///
    /// - The error of a call on the disk.
    /// - `Memory`
    pub fn create(alloc: Global, mut raw: D, id: u64) -> Result<FramedDisk<D>, DiskError>
        requires { D.written raw ≡ [] }
        ensures { IfOk result (λ d. d ≡ opened id []) }
    {
        raw.write(&header_bytes(id))?;
        raw.sync()?;
        FramedDisk::open::<NoFrames>(alloc, raw, id, start_of(id))
    }

    /// Continues a log with this id on a disk that holds the frames which `P` names, and whose content is synced.
    ///
    /// # Errors
    ///
    /// - `Memory`
    pub fn open<P: FramesName>(
        alloc: Global,
        raw: D,
        id: u64,
        cursor: Cursor,
    ) -> Result<FramedDisk<D>, DiskError>
        requires frames { AreFrames id (start_of id) P.frames }
        requires cursor { cursor ≡ end_of id (start_of id) P.frames }
        requires written { D.written raw ≡ log_bytes id P.frames }
        requires synced { D.synced raw ≡ D.written raw }
        ensures { IfOk result (λ d. d ≡ opened id P.frames) }
    {
        let Ok(buffer) = Vec::with_capacity(alloc, TOGETHER) else {
            return Err(DiskError::Memory);
        };
        let Ok(mut deeds) = SharedLog::new(alloc) else {
            return Err(DiskError::Memory);
        };
        let mut writer = deeds.writer();
        add_named::<P>(&mut deeds, &mut writer);
        deeds.append::<Syncs>(&mut writer);
        Ok(FramedDisk {
            raw,
            id,
            cursor,
            synced: cursor.place,
            stated: 0,
            failure: None,
            buffer,
            deeds,
            writer,
        })
    }

    /// Returns the disk on which the frames are.
    pub fn raw(&self) -> &D
        ensures written { D.written result.now ≡ (self.now).written }
        ensures synced { D.synced result.now ≡ (self.now).synced }
    {
        &self.raw
    }

    /// Returns the log's id.
    pub fn id(&self) -> u64
        ensures { result ≡ (self.now).id }
    {
        self.id
    }

    /// Writes a frame without a payload if more is synced than the last frame states.
    ///
    /// If nothing is written after it, no damage in front of it can be taken for a write that was cut off.
    ///
    /// # Errors
    ///
    /// - The error of the call that has failed, now or before.
    pub fn mark(&mut self) -> Result<(), DiskError>
        ensures payloads { KeepsPayloads self.old self.new }
        ensures marked { OnOk result (IsMarked self.new) }
        ensures stuck { FailsAfterFailure result self.old self.new }
        ensures cause { FailsOrHasNoRoom result self.old [] self.new }
    {
        if self.failure.is_none() && self.stated == self.synced {
            return Ok(());
        }
        self.write_payload(b"")
    }

    /// Ends the log in order: syncs it, writes a mark, which states that, and syncs it again.
    ///
    /// # Errors
    ///
    /// - The error of the call that has failed, now or before.
    /// - `FileTooLarge` if a log has no room for the mark.
    #[tactic(auto, using(crate::proofs::Endings::keeps_synced, crate::proofs::Endings::keeps_marked, crate::proofs::Endings::ends_in_order))]
    pub fn end(&mut self) -> Result<(), DiskError>
        ensures kept { KeepsDurable self.old self.new }
        ensures ended { OnOk result (EndsInOrder self.new) }
    {
        self.reveal_invariant();
        self.sync()?;
        self.write_payload(&[])?;
        self.sync()
    }

    /// Does nothing at run time: it gives the caller the invariant as facts.
    ///
    /// What was written is a prefix of the log, and all of it unless a call has failed. What is synced are the synced frames, and
    /// no frame states that more is synced.
    pub fn reveal_invariant(&self)
        ensures { IsInOrder self.now }
    {
        let _ = &self.raw;
    }

    /// Does nothing at run time: whatever a crash leaves of the other disk can be read as a log. The payloads that are read contain
    /// all that are synced, and are a prefix of those that were written. The log is not damaged, if no payload contains a forged
    /// head.
    pub fn reveal_survivors(&self, left: &[u8])
        requires { MayBeLeft self.now left.now }
        ensures readable { IsReadable (self.now).id left.now }
        ensures preserved { Preserves self.now left.now }
        ensures cut { IsUnforged self.now → LeavesCut (self.now).id left.now }
    {
        let _ = left;
        let _ = &self.raw;
    }

    /// Does nothing at run time: the same if other bytes, as zeros or garbage, are behind those that a crash leaves and complete
    /// nothing.
    pub fn reveal_survivors_before(&self, left: &[u8], behind: &[u8])
        requires left { MayBeLeft self.now left.now }
        requires behind { AreHarmless (self.now).id left.now behind.now }
        ensures readable { IsReadable (self.now).id (left.now ++ behind.now) }
        ensures preserved { Preserves self.now (left.now ++ behind.now) }
        ensures cut { LeavesCut (self.now).id (left.now ++ behind.now) }
    {
        let _ = left;
        let _ = behind;
        let _ = &self.raw;
    }

    /// Writes a frame with this payload.
    ///
    /// # Errors
    ///
    /// - The error of the call that has failed, now or before.
    /// - `FileTooLarge` if a log has no room for the frame. Then nothing is written.
    fn write_payload(&mut self, payload: &[u8]) -> Result<(), DiskError>
        ensures ok { OnOk result (AddsFrame self.old payload.now self.new) }
        ensures err { OnErr result (AddsFrame self.old payload.now self.new ⊎ (self.new
            ≡ self.old)) }
        ensures stuck { FailsAfterFailure result self.old self.new }
        ensures cause { FailsOrHasNoRoom result self.old payload.now self.new }
    {
        if let Some(error) = self.failure {
            return Err(error);
        }
        if !has_room(self.cursor, self.synced, payload.len() as u64) {
            return Err(DiskError::Io(io::Error::from(ErrorKind::FileTooLarge)));
        }
        add_frame(&mut self.deeds, &mut self.writer, self.synced, payload);
        let written = write_frame(
            &mut self.raw,
            &mut self.buffer,
            self.id,
            self.cursor,
            self.synced,
            payload,
        );
        match written {
            Ok(cursor) => {
                self.cursor = cursor;
                self.stated = self.synced;
                Ok(())
            }
            Err(error) => {
                self.failure = Some(error);
                Err(error)
            }
        }
    }
}

impl<D: Disk> Disk for FramedDisk<D> {
    ghost use Rattle.framed_disk.specs.Views.{attempted, durable};

    ghost written = { attempted };

    ghost synced = { durable };

    /// Writes a frame with these bytes as its payload. It states how far the log is synced.
    ///
    /// # Errors
    ///
    /// - The error of the call that has failed, now or before.
    /// - `FileTooLarge` if a log has no room for the frame. Then nothing is written.
    fn write(&mut self, bytes: &[u8]) -> Result<(), DiskError>
        ensures ok { OnOk result (attempted self.new ≡ attempted self.old ++ bytes.now) }
        ensures err { OnErr result (IsTorn (attempted self.old) bytes.now (attempted self.new)) }
        ensures kept { durable self.new ≡ durable self.old }
        ensures frame { OnOk result (AddsFrame self.old bytes.now self.new) }
        ensures id { (self.new).id ≡ (self.old).id }
        ensures stuck { FailsAfterFailure result self.old self.new }
        ensures cause { FailsOrHasNoRoom result self.old bytes.now self.new }
    {
        self.write_payload(bytes)
    }

    /// Waits until all frames are durable.
    ///
    /// # Errors
    ///
    /// - The error of the call that has failed, now or before.
    fn sync(&mut self) -> Result<(), DiskError>
        ensures same { attempted self.new ≡ attempted self.old }
        ensures ok { OnOk result (durable self.new ≡ attempted self.old) }
        ensures err { OnErr result (durable self.new ≡ durable self.old) }
        ensures frames { OnOk result ((self.new).synced_frames ≡ (self.new).frames) }
        ensures unwritten { KeepsFrames self.old self.new }
        ensures stuck { FailsAfterFailure result self.old self.new }
        ensures cause { OnErr result ((self.new).failed ≡ true) }
    {
        if let Some(failure) = self.failure {
            return Err(failure);
        }
        if let Err(cause) = self.raw.sync() {
            self.failure = Some(cause);
            return Err(cause);
        }
        self.deeds.append::<Syncs>(&mut self.writer);
        self.synced = self.cursor.place;
        Ok(())
    }
}

impl<D: PlainFile> FileBacked for FramedDisk<D> {
    ghost use Rattle.framed_disk.specs.Survivors.{IsReadAs};

    ghost file_written = { λ v. v.written };

    ghost file_synced = { λ v. v.synced };

    ghost reads_as = { λ v. IsReadAs v.id };

    fn file(&self) -> &FileDisk {
        self.raw.as_file()
    }

    /// Does nothing at run time: whatever a crash leaves of the file is read as a log. Its payloads have all that are synced,
    /// and are a prefix of those that were written.
    #[tactic(auto, using(crate::proofs::Endings::has_content))]
    fn reveal_kept(&self, left: &[u8]) {
        self.reveal_survivors(left);
    }
}
