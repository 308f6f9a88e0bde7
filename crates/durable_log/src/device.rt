//! The device: what it took over of the history, and what of that is on its disk.

ghost use Rattle.std.specs.Prelude.{◌≡◌, ◌++◌, [], length, true, false, Decides, IfErr, IfOk, OnOk, OnErr};
ghost use Rattle.ghost_log.specs.Entries.{IsPrefix};
ghost use Rattle.durable_log.specs.Encoding.{encode};
ghost use Rattle.durable_log.specs.declared.commit_error.CommitError.TheVariants.{Closed};
ghost use Rattle.durable_log.specs.Invariants.{IsInOrder, IsWhole};
ghost use Rattle.durable_log.specs.Views.{Confirms, IsReady, IsSynced, KeepsDisk, KeepsHistory, KeepsPending, StaysOpen, TakesAll, Waits};

use crate::backlog::Backlog;
use crate::commit_error::CommitError;
use crate::mark::{HistoryMark, mark_all, mark_last};
use crate::names::Naming;
use crate::segments::Segments;
use crate::writer::LogWriter;
use ghost_log::Writer;
use log_disk::{Disk, DiskError};
use std::marker::{Model, PhantomData};

/// The device of a log, which writes and syncs the history while no lock of the log is held.
///
/// Contracts see the prefix of the history that it took over, its bytes that are not written yet, the bytes on the disk,
/// those of them that are durable, and whether a call on the disk has failed.
#[derive(Drop)]
pub struct LogDevice<E, N: Naming<E>, D: Disk> {
    pub(crate) disk: D,
    /// The marker of what the device took over.
    pub(crate) taker: Writer<HistoryMark<E>>,
    /// The number of bytes that the device took over.
    pub(crate) given: u64,
    /// Those of them that are not written yet.
    pub(crate) buffer: Segments,
    /// The first marker of what is durable. The marks of the others depend on its marks.
    pub(crate) marker: Writer<HistoryMark<E>>,
    /// Whether a call on the disk has failed. After it nothing is written.
    pub(crate) failed: bool,
    /// The error of that call. It has no meaning before.
    pub(crate) failure: DiskError,
    pub(crate) of: PhantomData<N>,
}

impl<E, N: Naming<E>, D: Disk> Model for LogDevice<E, N, D> {
    ghost use Rattle.std.specs.Prelude.{[]};
    ghost use Rattle.durable_log.specs.Invariants.{HoldsDevice};
    ghost use Rattle.durable_log.specs.Views.{DeviceView, last_of};

    ghost Value = { DeviceView E };

    ghost view = { λ d. record {
      taken = last_of [] d.taker.own;
      buffer = d.buffer.bytes;
      written = D.written d.disk;
      durable = D.synced d.disk;
      failed = d.failed;
    } };

    ghost invariant = { λ d. HoldsDevice N.names N.bytes d.taker d.marker d.given d.buffer.bytes
        (D.written d.disk) (D.synced d.disk) d.failed };
}

impl<E, N: Naming<E>, D: Disk> LogDevice<E, N, D> {
    /// Fails if a call on the disk has failed.
    ///
    /// # Errors
    ///
    /// The error of that call.
    pub fn check(&self) -> Result<(), DiskError>
        ensures ok { OnOk result (self.now.failed ≡ false) }
        ensures err { OnErr result (self.now.failed ≡ true) }
    {
        if self.failed {
            return Err(self.failure);
        }
        Ok(())
    }

    /// Returns whether exactly these bytes were taken over and are not written yet.
    ///
    /// # Cost
    ///
    /// Linear in the number of bytes. None is copied.
    pub fn has_buffer(&self, bytes: &[u8]) -> bool
        ensures { Decides result (self.now.buffer ≡ bytes.now) }
    {
        self.buffer.has_bytes(bytes)
    }

    /// Takes over the pending bytes, if the log records. Returns whether it does.
    ///
    /// # Cost
    ///
    /// Constant: no byte is copied.
    pub fn take_over(&mut self, backlog: &mut Backlog<E, N>) -> bool
        requires { IsReady self.old }
        ensures recording { result ≡ backlog.old.pending.recording }
        ensures history { KeepsHistory backlog.old backlog.new }
        ensures open { StaysOpen backlog.old backlog.new }
        ensures synced { backlog.new.synced ≡ backlog.old.synced }
        ensures disk { KeepsDisk self.old self.new × (self.new.failed ≡ false) }
        ensures taken { result ≡ true → TakesAll backlog.old self.new backlog.new }
        ensures kept { result ≡ false → (self.new ≡ self.old) × (backlog.new ≡ backlog.old) }
    {
        let Some(position) = backlog.pending.position() else {
            return false;
        };
        mark_all(&mut backlog.taken_marks, &mut self.taker, &backlog.history);
        backlog.pending.move_into(&mut self.buffer);
        self.given = position;
        true
    }

    /// Returns whether all that the writer has seen is durable. If not, takes over the pending bytes, and shows the writer
    /// the whole history.
    ///
    /// # Errors
    ///
    /// `Closed` if the log does not record.
    pub fn confirm_or_take(
        &mut self,
        backlog: &mut Backlog<E, N>,
        writer: &mut LogWriter<E, N>,
    ) -> Result<bool, CommitError>
        requires { IsReady self.old }
        ensures waits { Waits writer.old writer.new }
        ensures sees { OnOk result (writer.new.seen ≡ backlog.old.history) }
        ensures sound { self.new.failed ≡ false }
        ensures history { KeepsHistory backlog.old backlog.new }
        ensures confirmed { IfOk result (λ done. done ≡ true →
            Confirms N.promises writer.old writer.new) }
        ensures idle { IfOk result (λ done. done ≡ true → self.new.buffer ≡ []) }
        ensures taken { IfOk result (λ done. done ≡ false → self.new.taken ≡ writer.new.seen) }
        ensures durable { IfOk result (λ done. done ≡ false →
            writer.new.durable ≡ writer.old.durable) }
        ensures closed { IfErr result (λ e. (e ≡ Closed) ×
            (backlog.old.pending.recording ≡ false)) }
        ensures err { OnErr result ((writer.new ≡ writer.old) × (self.new ≡ self.old)) }
    {
        if backlog.confirm(writer) {
            return Ok(true);
        }
        if !self.take_over(backlog) {
            return Err(CommitError::Closed);
        }
        backlog.catch_up(writer);
        Ok(false)
    }

    /// Writes what was taken over.
    ///
    /// # Errors
    ///
    /// That of the disk. Nothing is written after it.
    pub fn write(&mut self) -> Result<(), DiskError>
        requires { self.old.failed ≡ false }
        ensures same { (self.new.taken ≡ self.old.taken) × (self.new.durable ≡ self.old.durable) }
        ensures buffer { self.new.buffer ≡ [] }
        ensures ok { OnOk result (self.new.failed ≡ false) }
        ensures written { OnOk result (self.new.written ≡ self.old.written ++ self.old.buffer) }
        ensures err { OnErr result (self.new.failed ≡ true) }
    {
        match self.buffer.write_to(&mut self.disk) {
            Ok(()) => {
                self.buffer.clear();
                Ok(())
            }
            Err(error) => {
                self.buffer.clear();
                self.failed = true; // The disk may have any prefix of the buffer.
                self.failure = error;
                Err(error)
            }
        }
    }

    /// Waits until all that was taken over is durable.
    ///
    /// # Errors
    ///
    /// That of the disk. Nothing is written after it.
    pub fn sync(&mut self) -> Result<(), DiskError>
        requires { IsReady self.old }
        ensures same { (self.new.taken ≡ self.old.taken) × (self.new.written ≡ self.old.written) }
        ensures buffer { self.new.buffer ≡ [] }
        ensures ok { OnOk result (self.new.failed ≡ false) }
        ensures synced { OnOk result (IsSynced N.bytes N.names.base self.new) }
        ensures all { OnOk result (self.new.durable ≡ self.new.written) }
        ensures err { OnErr result (self.new.failed ≡ true) }
        ensures kept { OnErr result (self.new.durable ≡ self.old.durable) }
    {
        match self.disk.sync() {
            Ok(()) => Ok(()),
            Err(error) => {
                self.failed = true; // The disk may have lost what was written since the last sync.
                self.failure = error;
                Err(error)
            }
        }
    }

    /// Writes what was taken over, and waits until it is durable.
    ///
    /// # Errors
    ///
    /// That of the disk. Nothing is written after it.
    pub fn write_and_sync(&mut self) -> Result<(), DiskError>
        requires { self.old.failed ≡ false }
        ensures same { self.new.taken ≡ self.old.taken }
        ensures buffer { self.new.buffer ≡ [] }
        ensures ok { OnOk result (self.new.failed ≡ false) }
        ensures written { OnOk result (self.new.written ≡ self.old.written ++ self.old.buffer) }
        ensures synced { OnOk result (IsSynced N.bytes N.names.base self.new) }
        ensures all { OnOk result (self.new.durable ≡ self.new.written) }
        ensures err { OnErr result (self.new.failed ≡ true) }
    {
        self.write()?;
        self.sync()
    }

    /// Drops what was taken over and is not written, and ends the device with this error, as after a failed write.
    pub fn fail(&mut self, error: DiskError)
        ensures taken { self.new.taken ≡ self.old.taken }
        ensures disk { KeepsDisk self.old self.new }
        ensures buffer { self.new.buffer ≡ [] }
        ensures failed { self.new.failed ≡ true }
    {
        self.buffer.clear();
        self.failed = true; // As after a failed write.
        self.failure = error;
    }

    /// Gives the backlog the number of bytes that are durable.
    fn publish_synced(&mut self, backlog: &mut Backlog<E, N>)
        requires { IsSynced N.bytes N.names.base self.old }
        ensures device { self.new ≡ self.old }
        ensures history { KeepsHistory backlog.old backlog.new }
        ensures pending { KeepsPending backlog.old backlog.new }
        ensures synced { backlog.new.synced ≡ length (encode N.bytes self.old.taken) }
    {
        backlog.taken_marks.catch_up(&mut self.taker);
        mark_last(&mut backlog.durable_marks, &mut self.marker, &self.taker);
        backlog.synced = self.given;
        backlog.syncs = backlog.syncs.wrapping_add(1);
    }

    /// Makes known that all that the device took over is durable: to the backlog, and to a writer that has seen no more.
    pub fn publish(&mut self, backlog: &mut Backlog<E, N>, writer: &mut LogWriter<E, N>)
        requires synced { IsSynced N.bytes N.names.base self.old }
        requires seen { writer.old.seen ≡ self.old.taken }
        ensures device { self.new ≡ self.old }
        ensures history { KeepsHistory backlog.old backlog.new }
        ensures pending { KeepsPending backlog.old backlog.new }
        ensures waits { Waits writer.old writer.new }
        ensures sees { writer.new.seen ≡ backlog.old.history }
        ensures durable { Confirms N.promises writer.old writer.new }
    {
        self.publish_synced(backlog);
        backlog.mark_durable(writer);
    }

    /// Does nothing at run time: it states that what a writer knows to be durable is durable on the disk.
    pub fn reveal_durable(&mut self, backlog: &mut Backlog<E, N>, writer: &mut LogWriter<E, N>)
        ensures same { (self.new ≡ self.old) × (backlog.new ≡ backlog.old) ×
            (writer.new ≡ writer.old) }
        ensures history { IsPrefix writer.old.durable backlog.old.history }
        ensures durable { IsPrefix (N.names.base
            ++ encode N.bytes writer.old.durable) self.old.durable }
    {
        backlog.durable_marks.catch_up(&mut writer.marker);
        backlog.durable_marks.catch_up(&mut self.marker);
    }

    /// Does nothing at run time: it states the order of the bytes on the disk, in the buffer and in the backlog.
    pub fn reveal_order(&mut self, backlog: &mut Backlog<E, N>)
        ensures same { (self.new ≡ self.old) × (backlog.new ≡ backlog.old) }
        ensures whole { IsWhole N.bytes N.names.base self.old backlog.old }
    {
        backlog.taken_marks.catch_up(&mut self.taker);
    }

    /// Does nothing at run time: it states what a crash leaves.
    ///
    /// `left` is what the disk has after a crash: a prefix of what was written, with all that was synced. It has all that
    /// the writer knows to be durable, and it is a prefix of the log's base with the bytes of the history.
    pub fn reveal_survivors(
        &mut self,
        backlog: &mut Backlog<E, N>,
        writer: &mut LogWriter<E, N>,
        left: &[u8],
    )
        requires synced { IsPrefix self.old.durable left.now }
        requires written { IsPrefix left.now self.old.written }
        ensures same { (self.new ≡ self.old) × (backlog.new ≡ backlog.old) ×
            (writer.new ≡ writer.old) }
        ensures history { IsPrefix writer.old.durable backlog.old.history }
        ensures durable { IsPrefix (N.names.base ++ encode N.bytes writer.old.durable) left.now }
        ensures in_order { IsPrefix left.now (N.names.base ++ encode N.bytes backlog.old.history) }
    {
        let _ = left;
        self.reveal_durable(backlog, writer);
        self.reveal_order(backlog);
    }

    /// Does nothing at run time: it gives the caller the invariant of devices as a fact.
    pub fn reveal_invariant(&self)
        ensures { IsInOrder N.bytes N.names.base self.now }
    {
        let _ = &self.disk;
    }

    /// Replaces the disk by another one that has the same bytes, of which the same are durable. The old one is dropped.
    pub fn replace_disk<D2: Disk>(self, disk: D2) -> LogDevice<E, N, D2>
        requires written { D2.written disk ≡ self.written }
        requires synced { D2.synced disk ≡ self.durable }
        ensures { result ≡ self }
    {
        let LogDevice {
            disk: _,
            taker,
            given,
            buffer,
            marker,
            failed,
            failure,
            of: _,
        } = self;
        LogDevice {
            disk,
            taker,
            given,
            buffer,
            marker,
            failed, // Another disk does not undo a failure.
            failure,
            of: PhantomData,
        }
    }

    /// Returns the disk.
    pub fn disk(&self) -> &D
        ensures written { D.written result.now ≡ (self.now).written }
        ensures synced { D.synced result.now ≡ (self.now).durable }
    {
        &self.disk
    }

    /// Returns the disk.
    pub fn into_disk(self) -> D
        ensures { (D.written result ≡ self.written) × (D.synced result ≡ self.durable) }
    {
        let LogDevice {
            disk,
            taker: _,
            given: _,
            buffer: _,
            marker: _,
            failed: _,
            failure: _,
            of: _,
        } = self;
        disk
    }
}
