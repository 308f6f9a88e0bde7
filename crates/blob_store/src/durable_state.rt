//! What the log of a store restores.

ghost use Rattle.std.specs.Prelude.{◌≡◌, true};
ghost use Rattle.locked_book.specs.Restoring.{IsOnDisk, IsWholeOnDisk, SeesStoreHistory};

use crate::store::Store;
use durable_log::IdleDevice;
use locked_book::{Desk, Naming, Step, StoreLog};
use log_disk::Disk;
use std::sync::Wait;

impl<S: Naming> Store<S> {
    /// Lets a desk see the store's whole history, and states that the log of this history restores the store, as
    /// `Kept::reveal_durable_state` does.
    ///
    /// No step is made, and nothing is counted. `compare` states that the histories of all desks are one.
    pub fn reveal_durable_state(&self, rt: &impl Wait, desk: &mut Desk<S>)
        ensures { SeesStoreHistory S.names desk.old desk.new }
    {
        self.locked(rt).reveal_durable_state(desk);
    }

    /// Lets a desk see the store's whole history, and states what the disk of the log has of it, as `Kept::reveal_disk`
    /// does. Returns the device unchanged.
    pub fn reveal_disk<D: Disk>(
        &self,
        rt: &impl Wait,
        idle: IdleDevice<Step, StoreLog<S>, D>,
        desk: &mut Desk<S>,
    ) -> IdleDevice<Step, StoreLog<S>, D>
        ensures same { result ≡ idle }
        ensures sees { SeesStoreHistory S.names desk.old desk.new }
        ensures disk { IsOnDisk S.names desk.new.trace.seen idle }
    {
        let mut device = idle.into_device();
        self.locked(rt).reveal_disk(&mut device, desk);
        IdleDevice::new(device)
    }

    /// Lets a desk see the store's whole history. Returns the device unchanged, and whether its disk has the whole log of
    /// this history and no more, as `Kept::is_on_disk` does.
    ///
    /// A start asks this after a replay: the store's history then has the records on the disk, and no others.
    pub fn is_on_disk<D: Disk>(
        &self,
        rt: &impl Wait,
        idle: IdleDevice<Step, StoreLog<S>, D>,
        desk: &mut Desk<S>,
    ) -> (IdleDevice<Step, StoreLog<S>, D>, bool)
        ensures same { result.0 ≡ idle }
        ensures sees { SeesStoreHistory S.names desk.old desk.new }
        ensures whole { result.1 ≡ true → IsWholeOnDisk S.names desk.new.trace.seen idle }
    {
        let mut device = idle.into_device();
        let whole = self.locked(rt).is_on_disk(&mut device, desk);
        (IdleDevice::new(device), whole)
    }
}
