//! Commits: a thread waits until the steps of its desk are durable.

ghost use Rattle.std.specs.Prelude.{◌≡◌, [], false, OnOk};
ghost use Rattle.blob_store.specs.Commits.{WritesAll};
ghost use Rattle.locked_book.specs.Durability.{LearnsDurable, OnlyLearns};

use crate::store::Store;
use durable_log::{CommitError, IdleDevice, LeaderCell, LogDevice};
use locked_book::{Desk, Naming, Step, StoreLog};
use log_disk::Disk;
use std::sync::Wait;

/// The device of a store's log, which one thread at a time takes out to write and sync.
pub type SharedLogDevice<S, D> = LeaderCell<IdleDevice<Step, StoreLog<S>, D>>;

impl<S: Naming> Store<S> {
    /// Returns once all that the desk has seen is durable, all its own steps included.
    ///
    /// A thread that finds the device in its cell is the leader: it takes the device out, and writes and syncs for all
    /// threads. The other threads wait until the device is put back, and look again. No lock is held while the disk is
    /// written or synced.
    ///
    /// # Errors
    ///
    /// - `Disk`: a call on the disk fails or has failed. No step is durable after it that is not durable yet.
    /// - `Closed`: the log does not record.
    ///
    /// # Cost
    ///
    /// One sync for all threads that commit at the same time. The book's lock is taken at most three times, and no byte is
    /// copied under it.
    pub fn commit<D: Disk>(
        &self,
        rt: &impl Wait,
        device: &SharedLogDevice<S, D>,
        desk: &mut Desk<S>,
    ) -> Result<(), CommitError>
        ensures learns { OnlyLearns desk.old desk.new }
        ensures ok { OnOk result (LearnsDurable S.names desk.old desk.new) }
    {
        for _ in rt.forever() {
            if self.locked(rt).confirm(desk) {
                return Ok(());
            }
            if let Some(idle) = device.take_or_wait(rt) {
                let (idle, done) = self.lead(rt, idle, desk);
                device.put_back(rt, idle);
                return done;
            }
        }
        Err(CommitError::Closed)
    }

    /// Commits with the device, as the leader.
    fn lead<D: Disk>(
        &self,
        rt: &impl Wait,
        idle: IdleDevice<Step, StoreLog<S>, D>,
        desk: &mut Desk<S>,
    ) -> (IdleDevice<Step, StoreLog<S>, D>, Result<(), CommitError>)
        ensures learns { OnlyLearns desk.old desk.new }
        ensures ok { OnOk (result.1) (LearnsDurable S.names desk.old desk.new) }
    {
        let mut device = idle.into_device();
        let done = self.commit_by(rt, &mut device, desk);
        (IdleDevice::new(device), done)
    }

    /// Gives the device the records that wait for it, writes and syncs them, and makes known that they are durable.
    #[tactic(auto, using(crate::proofs::Commits::learns_nothing, crate::proofs::Commits::learns_on, crate::proofs::Commits::durable_before))]
    fn commit_by<D: Disk>(
        &self,
        rt: &impl Wait,
        device: &mut LogDevice<Step, StoreLog<S>, D>,
        desk: &mut Desk<S>,
    ) -> Result<(), CommitError>
        requires { device.old.buffer ≡ [] }
        ensures buffer { device.new.buffer ≡ [] }
        ensures learns { OnlyLearns desk.old desk.new }
        ensures ok { OnOk result (LearnsDurable S.names desk.old desk.new) }
    {
        if let Err(error) = device.check() {
            return Err(CommitError::Disk(error));
        }
        let confirmed = self.locked(rt).confirm_or_take(device, desk)?;
        if confirmed {
            return Ok(());
        }
        self.write_and_publish(rt, device, desk)?;
        Ok(())
    }

    /// Writes and syncs what the device took over, and makes known that it is durable.
    pub(crate) fn write_and_publish<D: Disk>(
        &self,
        rt: &impl Wait,
        device: &mut LogDevice<Step, StoreLog<S>, D>,
        desk: &mut Desk<S>,
    ) -> Result<(), CommitError>
        requires sound { device.old.failed ≡ false }
        requires seen { desk.old.trace.seen ≡ device.old.taken }
        ensures buffer { device.new.buffer ≡ [] }
        ensures learns { OnlyLearns desk.old desk.new }
        ensures ok { OnOk result (LearnsDurable S.names desk.old desk.new) }
        ensures written { OnOk result (WritesAll device.old device.new) }
    {
        if let Err(error) = device.write_and_sync() {
            self.locked(rt).close_log();
            return Err(CommitError::Disk(error));
        }
        self.locked(rt).publish(device, desk);
        Ok(())
    }

    /// Writes the records that wait for the device, without a sync. No desk then knows more to be durable.
    ///
    /// # Errors
    ///
    /// - `Disk`: a call on the disk fails or has failed. No step is durable after it that is not durable yet.
    /// - `Closed`: the log does not record.
    pub fn flush<D: Disk>(
        &self,
        rt: &impl Wait,
        device: &SharedLogDevice<S, D>,
    ) -> Result<(), CommitError> {
        for _ in rt.forever() {
            let Some(idle) = device.take_at_once_or_wait(rt) else {
                continue;
            };
            let mut taken = idle.into_device();
            let done = self.flush_by(rt, &mut taken);
            device.put_back(rt, IdleDevice::new(taken));
            return done;
        }
        Err(CommitError::Closed)
    }

    /// Gives the device the records that wait for it, and writes them.
    fn flush_by<D: Disk>(
        &self,
        rt: &impl Wait,
        device: &mut LogDevice<Step, StoreLog<S>, D>,
    ) -> Result<(), CommitError>
        requires { device.old.buffer ≡ [] }
        ensures buffer { device.new.buffer ≡ [] }
        ensures durable { device.new.durable ≡ device.old.durable }
        ensures ok { OnOk result (device.new.failed ≡ false) }
    {
        if let Err(error) = device.check() {
            return Err(CommitError::Disk(error));
        }
        let taken = self.locked(rt).take_over(device);
        if !taken {
            return Err(CommitError::Closed);
        }
        if let Err(error) = device.write() {
            self.locked(rt).close_log();
            return Err(CommitError::Disk(error));
        }
        Ok(())
    }
}
