//! What a replay of a log needs: commits of known bytes, and what a crash leaves.

ghost use Rattle.std.specs.Prelude.{◌≡◌, [], false, true, IfOk};
ghost use Rattle.ghost_log.specs.Entries.{IsPrefix};
ghost use Rattle.durable_log.specs.Views.{KeepsDisk};
ghost use Rattle.locked_book.specs.Durability.{LearnsDurable, OnlyLearns, Survives};
ghost use Rattle.locked_book.specs.Restoring.{SeesStoreHistory};
ghost use Rattle.blob_store.specs.Commits.{AppendsDurably};

use crate::store::Store;
use durable_log::{CommitError, IdleDevice, LogDevice};
use locked_book::{Desk, Naming, Step, StoreLog};
use log_disk::{Disk, DiskError};
use std::sync::Wait;

impl<S: Naming> Store<S> {
    /// Commits if the records that wait for the device are exactly these bytes. Returns whether they are.
    ///
    /// If they are not, nothing is written, and the log is closed: later commits fail.
    ///
    /// # Errors
    ///
    /// - `Disk`: a call on the disk fails or has failed. No step is durable after it that is not durable yet.
    /// - `Closed`: the log does not record.
    ///
    /// # Cost
    ///
    /// Linear in the number of bytes, and one sync.
    pub fn commit_exactly<D: Disk>(
        &self,
        rt: &impl Wait,
        idle: IdleDevice<Step, StoreLog<S>, D>,
        desk: &mut Desk<S>,
        bytes: &[u8],
    ) -> (IdleDevice<Step, StoreLog<S>, D>, Result<bool, CommitError>)
        ensures learns { OnlyLearns desk.old desk.new }
        ensures exact { IfOk (result.1) (λ same. same ≡ true →
            AppendsDurably idle bytes.now (result.0)) }
        ensures durable { IfOk (result.1) (λ same. same ≡ true →
            LearnsDurable S.names desk.old desk.new) }
        ensures differs { IfOk (result.1) (λ same. same ≡ false → KeepsDisk idle (result.0)) }
    {
        let mut device = idle.into_device();
        let done = self.commit_exactly_by(rt, &mut device, desk, bytes);
        (IdleDevice::new(device), done)
    }

    /// Gives the device the records that wait for it, and writes and syncs them if they are exactly these bytes.
    #[tactic(auto, using(crate::proofs::Commits::learns_nothing, crate::proofs::Commits::learns_on, crate::proofs::Commits::durable_before, crate::proofs::Commits::appends_durably))]
    fn commit_exactly_by<D: Disk>(
        &self,
        rt: &impl Wait,
        device: &mut LogDevice<Step, StoreLog<S>, D>,
        desk: &mut Desk<S>,
        bytes: &[u8],
    ) -> Result<bool, CommitError>
        requires { device.old.buffer ≡ [] }
        ensures buffer { device.new.buffer ≡ [] }
        ensures learns { OnlyLearns desk.old desk.new }
        ensures exact { IfOk result (λ same. same ≡ true →
            AppendsDurably device.old bytes.now device.new) }
        ensures durable { IfOk result (λ same. same ≡ true →
            LearnsDurable S.names desk.old desk.new) }
        ensures differs { IfOk result (λ same. same ≡ false → KeepsDisk device.old device.new) }
    {
        if let Err(error) = device.check() {
            return Err(CommitError::Disk(error));
        }
        let taken = self.locked(rt).take_over_at(device, desk);
        if !taken {
            return Err(CommitError::Closed);
        }
        let same = device.has_buffer(bytes);
        if !same {
            device.fail(DiskError::Content);
            self.locked(rt).close_log();
            return Ok(false);
        }
        self.write_and_publish(rt, device, desk)?;
        Ok(true)
    }

    /// Lets a desk see the store's whole history, and states what a crash leaves of it. Returns the device unchanged.
    ///
    /// `left` is what the disk has after a crash: a prefix of what was written, with all that was synced. It has the
    /// records of all that the desk knows to be durable, and it is a prefix of the records of the history.
    pub fn reveal_survivors<D: Disk>(
        &self,
        rt: &impl Wait,
        idle: IdleDevice<Step, StoreLog<S>, D>,
        desk: &mut Desk<S>,
        left: &[u8],
    ) -> IdleDevice<Step, StoreLog<S>, D>
        requires synced { IsPrefix idle.durable left.now }
        requires written { IsPrefix left.now idle.written }
        ensures same { result ≡ idle }
        ensures sees { SeesStoreHistory S.names desk.old desk.new }
        ensures survives { Survives S.names desk.new.trace left.now }
    {
        let mut device = idle.into_device();
        self.locked(rt).reveal_survivors(&mut device, desk, left);
        IdleDevice::new(device)
    }
}
