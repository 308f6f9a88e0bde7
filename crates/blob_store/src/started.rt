//! The log of a store after its start.

ghost use Rattle.std.specs.Prelude.{◌≡◌, IfSome};
ghost use Rattle.locked_book.specs.Restoring.{SeesStoreHistory};
ghost use Rattle.blob_store.specs.Starts.{IsStarted};

use crate::store::Store;
use durable_log::IdleDevice;
use locked_book::{Desk, DroppableDesk, Naming, Step, StoreLog};
use log_disk::Disk;
use std::marker::Model;
use std::sync::Wait;

/// The log of a store after its start: a desk that has seen the store's whole history, and the device that continues the log.
///
/// The device's disk has the records of this history and no others, all of them durable. `Store::start_log` makes it, and
/// nothing else does.
#[derive(Drop)]
pub struct StartedLog<S: Naming, D: Disk> {
    desk: DroppableDesk<S>,
    device: IdleDevice<Step, StoreLog<S>, D>,
}

impl<S: Naming, D: Disk> Model for StartedLog<S, D> {
    ghost use Rattle.blob_store.specs.Starts.{IsStarted, StartedView};

    ghost Value = { StartedView };

    ghost view = { λ l. record { desk = l.desk; device = l.device } };

    ghost invariant = { λ l. IsStarted S.names (record { desk = l.desk; device = l.device }) };
}

impl<S: Naming> Store<S> {
    /// Lets a desk see the store's whole history. Returns the log of the start if the device's disk has the records of this
    /// history and no others.
    ///
    /// A start calls this after a replay, before any other desk is made.
    pub fn start_log<D: Disk>(
        &self,
        rt: &impl Wait,
        desk: Desk<S>,
        device: IdleDevice<Step, StoreLog<S>, D>,
    ) -> Option<StartedLog<S, D>>
        requires { device.durable ≡ device.written }
        ensures device { IfSome result (λ l. l.device ≡ device) }
        ensures sees { IfSome result (λ l. SeesStoreHistory S.names desk l.desk) }
    {
        let mut desk = desk;
        let (device, whole) = self.is_on_disk(rt, device, &mut desk);
        let desk = desk.into_droppable();
        if !whole {
            return None;
        }
        Some(StartedLog { desk, device })
    }
}

impl<S: Naming, D: Disk> StartedLog<S, D> {
    /// Does nothing at run time: it gives the caller the invariant as a fact.
    ///
    /// The records of the history that the desk has seen are the bytes on the device's disk. All of these are durable.
    pub fn reveal_start(&self)
        ensures { IsStarted S.names self.now }
    {
        let _ = &self.desk;
    }

    /// Returns the desk and the device.
    pub fn into_parts(self) -> (Desk<S>, IdleDevice<Step, StoreLog<S>, D>)
        ensures desk { result.0 ≡ self.desk }
        ensures device { result.1 ≡ self.device }
    {
        let StartedLog { desk, device } = self;
        (desk.into_desk(), device)
    }
}
