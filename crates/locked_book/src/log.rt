//! What is durable of the history, and the parts of a commit.

ghost use Rattle.std.specs.Prelude.{◌≡◌, [], length, IfOk, IfSome, OnErr, OnOk, true, false};
ghost use Rattle.ghost_log.specs.Entries.{IsPrefix};
ghost use Rattle.durable_log.specs.Views.{IsReady, IsSynced, IsUnconfirmed, KeepsDisk};
ghost use Rattle.locked_book.specs.Durability.{IsDurable, LearnsDurable, OnlyLearns, Survives, log_trace};
ghost use Rattle.locked_book.specs.History.{LogLeadsTo, state_of};
ghost use Rattle.locked_book.specs.Restoring.{SeesStoreHistory, records_of};
ghost use Rattle.locked_book.specs.Logging.{promises, recorded_bytes};

use crate::desk::Desk;
use crate::kept::Kept;
use crate::names::{Naming, StoreLog};
use crate::step::Step;
use durable_log::{CommitError, LogDevice};
use log_disk::Disk;

impl<S: Naming> Desk<S> {
    /// Returns whether all own steps that the store promises to be durable are known to be so.
    pub fn is_durable(&self) -> bool
        ensures durable { result ≡ true → IsDurable S.names self.now.trace }
        ensures waits { result ≡ false → IsDurable S.names self.now.trace → ⊥ }
        ensures unconfirmed { result ≡ false →
            IsUnconfirmed (promises S.names.policy) (log_trace self.now.trace) }
    {
        self.writer.writer.is_committed()
    }

    /// Returns the number of bytes of the records of what the desk has seen, or `None` if the log did not record.
    pub fn log_position(&self) -> Option<u64>
        ensures { IfSome result (λ n. n ≡ length (records_of S.names self.now.trace.seen)) }
    {
        self.writer.writer.position()
    }
}

impl<S: Naming> Kept<S> {
    /// Returns whether all that the desk has seen is durable. If so, the desk then knows it.
    pub fn confirm(&mut self, desk: &mut Desk<S>) -> bool
        ensures same { self.new ≡ self.old }
        ensures learns { OnlyLearns desk.old desk.new }
        ensures durable { result ≡ true → LearnsDurable S.names desk.old desk.new }
        ensures kept { result ≡ false → desk.new ≡ desk.old }
    {
        self.history.confirm(&mut desk.writer)
    }

    /// Returns whether all that the desk has seen is durable. If not, gives the device the records that wait for it, and
    /// shows the desk the whole history.
    ///
    /// # Errors
    ///
    /// `Closed` if the log does not record.
    ///
    /// # Cost
    ///
    /// Constant: no byte is copied.
    pub fn confirm_or_take<D: Disk>(
        &mut self,
        device: &mut LogDevice<Step, StoreLog<S>, D>,
        desk: &mut Desk<S>,
    ) -> Result<bool, CommitError>
        requires { IsReady device.old }
        ensures same { self.new ≡ self.old }
        ensures learns { OnlyLearns desk.old desk.new }
        ensures sound { device.new.failed ≡ false }
        ensures confirmed { IfOk result (λ done. done ≡ true →
            LearnsDurable S.names desk.old desk.new) }
        ensures idle { IfOk result (λ done. done ≡ true → device.new.buffer ≡ []) }
        ensures taken { IfOk result (λ done. done ≡ false →
            device.new.taken ≡ desk.new.trace.seen) }
        ensures durable { IfOk result (λ done. done ≡ false →
            desk.new.trace.durable ≡ desk.old.trace.durable) }
        ensures err { OnErr result ((desk.new ≡ desk.old) × (device.new ≡ device.old)) }
    {
        self.history.confirm_or_take(device, &mut desk.writer)
    }

    /// Makes known that all that the device took over is durable: to the history, and to a desk that has seen no more.
    pub fn publish<D: Disk>(
        &mut self,
        device: &mut LogDevice<Step, StoreLog<S>, D>,
        desk: &mut Desk<S>,
    )
        requires synced { IsSynced (recorded_bytes S.names.policy S.names.longest)
            S.names.log.base device.old }
        requires seen { desk.old.trace.seen ≡ device.old.taken }
        ensures same { self.new ≡ self.old }
        ensures device { device.new ≡ device.old }
        ensures learns { OnlyLearns desk.old desk.new }
        ensures durable { LearnsDurable S.names desk.old desk.new }
    {
        self.history.publish(device, &mut desk.writer);
    }

    /// Gives the device the records that wait for it, and shows the desk the whole history, if the log records. Returns
    /// whether it does.
    ///
    /// # Cost
    ///
    /// Constant: no byte is copied.
    pub fn take_over_at<D: Disk>(
        &mut self,
        device: &mut LogDevice<Step, StoreLog<S>, D>,
        desk: &mut Desk<S>,
    ) -> bool
        requires { IsReady device.old }
        ensures same { self.new ≡ self.old }
        ensures learns { OnlyLearns desk.old desk.new }
        ensures sound { device.new.failed ≡ false }
        ensures disk { KeepsDisk device.old device.new }
        ensures taken { result ≡ true → device.new.taken ≡ desk.new.trace.seen }
        ensures kept { result ≡ false → (desk.new ≡ desk.old) × (device.new ≡ device.old) }
    {
        self.history.take_over_at(device, &mut desk.writer)
    }

    /// Gives the device the records that wait for it, if the log records. Returns whether it does.
    pub fn take_over<D: Disk>(&mut self, device: &mut LogDevice<Step, StoreLog<S>, D>) -> bool
        requires { IsReady device.old }
        ensures same { self.new ≡ self.old }
        ensures sound { device.new.failed ≡ false }
        ensures durable { device.new.durable ≡ device.old.durable }
        ensures kept { result ≡ false → device.new ≡ device.old }
    {
        device.take_over(&mut self.history.backlog)
    }

    /// Shows a desk the whole history, and states what a crash leaves of it.
    ///
    /// `left` is what the disk has after a crash: a prefix of what was written, with all that was synced.
    pub fn reveal_survivors<D: Disk>(
        &mut self,
        device: &mut LogDevice<Step, StoreLog<S>, D>,
        desk: &mut Desk<S>,
        left: &[u8],
    )
        requires synced { IsPrefix device.old.durable left.now }
        requires written { IsPrefix left.now device.old.written }
        ensures same { (self.new ≡ self.old) × (device.new ≡ device.old) }
        ensures sees { SeesStoreHistory S.names desk.old desk.new }
        ensures leads { LogLeadsTo S.names.opening desk.new.trace.seen (state_of self.new) }
        ensures survives { Survives S.names desk.new.trace left.now }
    {
        self.history.reveal_restored(&mut desk.writer);
        self.history
            .reveal_survivors(device, &mut desk.writer, left);
    }

    /// Returns the number of bytes of records that the device has not taken over.
    pub fn pending_len(&self) -> u64 {
        self.history.backlog.pending_len()
    }

    /// Returns how often the log was synced by a commit. No contract describes this number.
    pub fn sync_count(&self) -> u64 {
        self.history.backlog.sync_count()
    }

    /// Ends the recording, after the disk has failed. No step is durable after it that is not durable yet.
    pub fn close_log(&mut self)
        ensures same { self.new ≡ self.old }
    {
        self.history.backlog.close();
    }
}
