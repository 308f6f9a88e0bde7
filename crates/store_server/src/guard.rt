//! The guard of the replies of a connection: a reply is written only if the changes that it reports are durable.
ghost use Rattle.std.specs.Prelude.{◌≡◌, ◌≢◌, is_ok, true};
ghost use Rattle.locked_book.specs.Durability.{IsDurable, OnlyLearns};
ghost use Rattle.locked_book.specs.declared.policy.LogPolicy.TheVariants.{NoLog};

use blob_store::{Desk, LogPolicy, Naming, SharedLogDevice, Store, StoreBackend};
use content_files::ContentStore;
use durable_log::CommitError;
use log_disk::FileBacked;
use std::sync::Wait;
use wire_server::ReplyGuard;

/// The number of bytes of records, and of chunks that they note, that may wait until the records are written.
const MAX_WAITING: u64 = 1_048_576;

/// The guard of the replies of a connection to a store.
///
/// It commits the connection's desk before a reply if the store promises more than the desk knows to be durable. Records that
/// need not be durable are written without a sync: before each reply if the policy is `Never`, else before the reply to a chunk
/// if more than 1 MiB of records waits, or the connection has received 1 MiB since it wrote them last.
#[derive(Drop)]
pub struct StoreGuard<'g, S: Naming, D: FileBacked> {
    /// The device of the store's log, whose disk's content is kept by a file. `None` for a store in memory.
    device: Option<&'g SharedLogDevice<S, D>>,
    policy: LogPolicy,
    /// The position in the history up to which this guard has written the records.
    written: u64,
    /// The bytes that the desk had received then.
    received: u64,
    /// The error of the commit or flush that failed.
    failure: Option<CommitError>,
    ghost named: { policy ≡ S.names.policy },
}

impl<'g, S: Naming, D: FileBacked> StoreGuard<'g, S, D> {
    /// Makes the guard of a connection to a store with this device of its log.
    pub fn new(
        store: &Store<S>,
        device: Option<&'g SharedLogDevice<S, D>>,
    ) -> StoreGuard<'g, S, D> {
        StoreGuard {
            device,
            policy: store.policy(),
            written: 0,
            received: 0,
            failure: None,
        }
    }

    /// Returns the error of the commit or flush that failed.
    pub fn failure(&self) -> Option<CommitError> {
        self.failure
    }

    /// Returns whether records have to be written before a reply although they need not be durable.
    fn is_due(&self, desk: &Desk<S>) -> bool
        ensures { result ≡ true → S.names.policy ≢ NoLog }
    {
        let most = match self.policy {
            LogPolicy::NoLog => return false,
            LogPolicy::Never => 0,
            LogPolicy::Closes | LogPolicy::Each => {
                let received = desk.received().saturating_sub(self.received);
                if received == 0 {
                    return false;
                }
                if received >= MAX_WAITING {
                    return true;
                }
                MAX_WAITING
            }
        };
        match desk.log_position() {
            Some(position) => position.saturating_sub(self.written) > most,
            None => true,
        }
    }

    /// Keeps the error of a call on the log, or that the records of all that the desk has seen are written. Returns whether
    /// the call succeeded.
    fn note(&mut self, done: Result<(), CommitError>, desk: &Desk<S>) -> bool
        ensures { result ≡ is_ok done }
    {
        match done {
            Ok(()) => {
                self.written = desk.log_position().unwrap_or(self.written);
                self.received = desk.received();
                true
            }
            Err(error) => {
                self.failure = Some(error);
                false
            }
        }
    }

    /// Commits the desk. Returns `false` if the log failed.
    fn commit_desk<'s, W: Wait, F: ContentStore>(
        &mut self,
        device: &SharedLogDevice<S, D>,
        backend: &mut StoreBackend<'s, W, S, F>,
    ) -> bool
        ensures learns { OnlyLearns backend.old.desk backend.new.desk }
        ensures durable { result ≡ true → IsDurable S.names backend.new.desk.trace }
    {
        let done = backend.store.commit(backend.rt, device, &mut backend.desk);
        self.note(done, &backend.desk)
    }
}

impl<'g, 's, W: Wait, S: Naming, D: FileBacked, F: ContentStore> ReplyGuard<
    StoreBackend<'s, W, S, F>,
> for StoreGuard<'g, S, D> {
    ghost use Rattle.std.specs.Prelude.{◌≢◌};
    ghost use Rattle.locked_book.specs.Durability.{IsDurable};
    ghost use Rattle.locked_book.specs.declared.policy.LogPolicy.TheVariants.{NoLog};

    ghost durable = { λ backend. IsDurable S.names backend.desk.trace };

    ghost log_failed = { λ _. S.names.policy ≢ NoLog };

    fn commit(&mut self, backend: &mut StoreBackend<'s, W, S, F>) -> bool {
        let is_durable = backend.desk.is_durable();
        let Some(device) = self.device else {
            return is_durable;
        };
        if !is_durable {
            return self.commit_desk(device, backend);
        }
        if self.is_due(&backend.desk) {
            let done = backend.store.flush(backend.rt, device);
            return self.note(done, &backend.desk);
        }
        true
    }
}
