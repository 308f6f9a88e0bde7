//! What the log of a store restores.

ghost use Rattle.std.specs.Prelude.{◌≡◌, [], true};
ghost use Rattle.locked_book.specs.History.{LogLeadsTo, state_of};
ghost use Rattle.locked_book.specs.Restoring.{IsOnDisk, IsWholeOnDisk, SeesStoreHistory};

use crate::desk::Desk;
use crate::kept::Kept;
use crate::names::{Naming, StoreLog};
use crate::step::Step;
use durable_log::LogDevice;
use log_disk::Disk;

impl<S: Naming> Kept<S> {
    /// Shows a desk the whole history, and states that the history leads to the book and that its log restores the store.
    ///
    /// The log has the records of the changes that the history makes. The durable state after these changes agrees
    /// with each catalog to which the history leads. The history meets the premises of `store_model::laws::durability` and
    /// `recovery`, which state what the first records restore after a crash.
    pub fn reveal_durable_state(&mut self, desk: &mut Desk<S>)
        ensures same { self.new ≡ self.old }
        ensures sees { SeesStoreHistory S.names desk.old desk.new }
        ensures leads { LogLeadsTo S.names.opening desk.new.trace.seen (state_of self.new) }
    {
        self.history.reveal_restored(&mut desk.writer);
    }

    /// Shows a desk the whole history, and states that the disk has first bytes of its log, after those that it had before.
    pub fn reveal_disk<D: Disk>(
        &mut self,
        device: &mut LogDevice<Step, StoreLog<S>, D>,
        desk: &mut Desk<S>,
    )
        ensures same { (self.new ≡ self.old) × (device.new ≡ device.old) }
        ensures sees { SeesStoreHistory S.names desk.old desk.new }
        ensures leads { LogLeadsTo S.names.opening desk.new.trace.seen (state_of self.new) }
        ensures disk { IsOnDisk S.names desk.new.trace.seen device.old }
    {
        self.history.reveal_restored(&mut desk.writer);
        self.history.reveal_disk(device);
    }

    /// Shows a desk the whole history, and returns whether the disk has the whole log of it and no more: the log records, no
    /// record waits, and no call on the disk has failed.
    pub fn is_on_disk<D: Disk>(
        &mut self,
        device: &mut LogDevice<Step, StoreLog<S>, D>,
        desk: &mut Desk<S>,
    ) -> bool
        requires { device.old.buffer ≡ [] }
        ensures same { (self.new ≡ self.old) × (device.new ≡ device.old) }
        ensures sees { SeesStoreHistory S.names desk.old desk.new }
        ensures leads { LogLeadsTo S.names.opening desk.new.trace.seen (state_of self.new) }
        ensures whole { result ≡ true → IsWholeOnDisk S.names desk.new.trace.seen device.old }
    {
        self.history.reveal_restored(&mut desk.writer);
        self.history.is_on_disk(device)
    }
}
