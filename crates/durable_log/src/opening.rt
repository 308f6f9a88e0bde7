//! The opening of a log's device.

ghost use Rattle.std.specs.Prelude.{◌≡◌, ◌++◌, [], true, false, length};
ghost use Rattle.durable_log.specs.Encoding.{encode};
ghost use Rattle.durable_log.specs.Views.{IsReady, KeepsHistory};

use crate::backlog::Backlog;
use crate::device::LogDevice;
use crate::mark::{HistoryMark, mark_all};
use crate::names::Naming;
use crate::segments::Segments;
use ghost_log::Writer;
use log_disk::{Disk, DiskError};
use std::alloc::Global;
use std::marker::{Model, PhantomData};

/// The right to open the device of a log, once.
#[derive(Drop)]
pub struct UnopenedDevice<E, N: Naming<E>> {
    pub(crate) marker: Writer<HistoryMark<E>>,
    pub(crate) taker: Writer<HistoryMark<E>>,
    pub(crate) of: PhantomData<N>,
}

impl<E, N: Naming<E>> Model for UnopenedDevice<E, N> {
    ghost use Rattle.durable_log.specs.Invariants.{HoldsUnopened};

    ghost Value = { Unit {0} };

    ghost view = { λ _. tt };

    ghost invariant = { λ d. HoldsUnopened N.names d.marker d.taker };
}

impl<E, N: Naming<E>> UnopenedDevice<E, N> {
    /// Opens the device over a disk on which the whole history is durable, after the log's base. The log then records.
    ///
    /// `position` is the number of bytes of the history. The history may have events, and writers that made them.
    pub fn open<D: Disk>(
        self,
        alloc: Global,
        backlog: &mut Backlog<E, N>,
        disk: D,
        position: u64,
    ) -> LogDevice<E, N, D>
        requires written { D.written disk ≡ N.names.base ++ encode N.bytes backlog.old.history }
        requires synced { D.synced disk ≡ N.names.base ++ encode N.bytes backlog.old.history }
        requires position { length (encode N.bytes backlog.old.history) ≡ position }
        ensures history { KeepsHistory backlog.old backlog.new }
        ensures recording { backlog.new.pending.recording ≡ true }
        ensures pending { backlog.new.pending.segments.bytes ≡ [] }
        ensures durable { (backlog.new.taken ≡ backlog.old.history) ×
            (backlog.new.synced ≡ position) }
        ensures taken { result.taken ≡ backlog.old.history }
        ensures ready { IsReady result }
        ensures disk { (result.written ≡ D.written disk) × (result.durable ≡ D.synced disk) }
    {
        let UnopenedDevice {
            mut marker,
            mut taker,
            of: _,
        } = self;
        mark_all(&mut backlog.durable_marks, &mut marker, &backlog.history);
        mark_all(&mut backlog.taken_marks, &mut taker, &backlog.history);
        backlog.pending.start(position);
        backlog.synced = position;
        LogDevice {
            disk,
            taker,
            given: position,
            buffer: Segments::new(alloc),
            marker,
            failed: false,
            failure: DiskError::Memory,
            of: PhantomData,
        }
    }
}
