//! The value under the lock: the table of leases and its history.

ghost use Rattle.std.specs.Prelude.{◌≡◌, ◌^◌, ◌<◌, ◌≤◌, [], IfErr, IfOk, IfSome};
ghost use Rattle.std.specs.FinMap as fmap;
ghost use Rattle.blob_digest.specs.declared.refusal.Refusal.TheVariants.{Memory};
ghost use Rattle.wire_server.specs.LeaseEvents.{IsExtentOf};
ghost use Rattle.lease_table.specs.Histories.{AddsEvent, AddsReadEvent, SeesOneHistory};
ghost use Rattle.lease_table.specs.Tables.{RemovesLease, AddsLease, ReadsLease, give_back_event, keep_event, lease_view_of};

use crate::call::Call;
use crate::event::LeaseEvent;
use crate::history::{LeaseHistory, LeaseWriter};
use crate::naming::LeaseNaming;
use crate::table::LeaseTable;
use blob_digest::{Digest, Refusal};
use ghost_log::SharedLog;
use std::alloc::Global;
use std::marker::Model;
use std::snapshot::Snapshot;
use store_api::Extent;
use store_book::{Lease, PinsName};

/// A table of leases with its history, which leads from the empty table to this one. Contracts see the table. The value
/// must be spent by `end`, which gives its leases back.
pub struct LockedLeaseTable<'p, N: PinsName, L: LeaseNaming> {
    table: LeaseTable<'p, N>,
    history: LeaseHistory<L>,
}

impl<'p, N: PinsName, L: LeaseNaming> Model for LockedLeaseTable<'p, N, L> {
    ghost use Rattle.lease_table.specs.Histories.{LogLeadsTo};
    ghost use Rattle.lease_table.specs.Tables.{LeaseMap, coded_lease_map};

    ghost Value = { LeaseMap };

    ghost coded = { coded_lease_map };

    ghost view = { λ t. t.table };

    ghost invariant = { λ t. LogLeadsTo t.history t.table };
}

impl<'p, N: PinsName, L: LeaseNaming> LockedLeaseTable<'p, N, L> {
    /// Makes a table without leases and with an empty history.
    pub fn new(alloc: Global, log: SharedLog<LeaseEvent>) -> LockedLeaseTable<'p, N, L>
        requires name { log.name ≡ L.log }
        requires empty { log.entries ≡ [] }
        ensures { result ≡ fmap.empty }
    {
        LockedLeaseTable {
            table: LeaseTable::new(alloc),
            history: LeaseHistory::new(log),
        }
    }

    /// Makes a writer with a new number, which has added nothing.
    pub fn writer(&mut self) -> LeaseWriter<L>
        ensures same { self.new ≡ self.old }
        ensures own { result.own ≡ [] }
    {
        self.history.writer()
    }

    /// Shows the whole history to two writers. So the parts that any two writers of a table have seen are prefixes of one
    /// history.
    pub fn meet(&mut self, one: &mut LeaseWriter<L>, other: &mut LeaseWriter<L>)
        ensures same { self.new ≡ self.old }
        ensures meets { SeesOneHistory one.old other.old one.new other.new }
    {
        self.history.catch_up(one);
        self.history.catch_up(other);
    }

    /// Keeps a lease and returns its number, which no other lease has. If allocation fails, it gives the lease back and
    /// returns `None`.
    ///
    /// # Cost
    ///
    /// Logarithmic in the number of leases, if the next number is free. Otherwise it tries at most one number more than
    /// there are leases. It may allocate nodes of the table.
    pub fn keep(&mut self, writer: &mut LeaseWriter<L>, lease: Lease<'p, N>) -> Option<u32>
        ensures does { AddsLease self.old lease.entry result self.new }
        ensures history { AddsEvent writer.old (keep_event (lease_view_of lease.entry) result)
            writer.new }
    {
        let given = Snapshot::of(&lease);
        let number = self.table.keep(lease);
        self.history.add(writer, Call::Keep(given, number));
        number
    }

    /// Returns the extent of the blob that is leased under `number`, if the blob has the digest: from `start` to `end`, both
    /// included, or to the end of the blob. Returns `None` if there is no such lease. It reads nothing.
    ///
    /// # Errors
    ///
    /// `Memory`, if the blob's reference count is exhausted. Then nothing changes.
    ///
    /// # Cost
    ///
    /// Logarithmic in the number of leases.
    pub fn extent(
        &mut self,
        writer: &mut LeaseWriter<L>,
        number: u32,
        digest: &Digest,
        start: u64,
        end: u64,
    ) -> Result<Option<Extent>, Refusal>
        requires ordered { start ≤ end }
        requires small { end < 2 ^ 63 }
        ensures content { IfOk result (λ o. IfSome o (IsExtentOf digest.now start end)) }
        ensures does { IfOk result (ReadsLease self.old number digest.now start end) }
        ensures same { self.new ≡ self.old }
        ensures history { IfOk result (AddsReadEvent writer.old number digest.now start end
            writer.new) }
        ensures refused { IfErr result (λ e. (e ≡ Memory) × (writer.new ≡ writer.old)) }
    {
        let extent = self.table.extent(number, digest, start, end)?;
        self.history
            .add::<N>(writer, Call::Read(number, digest, start, end, &extent));
        Ok(extent)
    }

    /// Gives the lease of a number back, and returns whether there was one.
    ///
    /// # Cost
    ///
    /// Logarithmic in the number of leases.
    ///
    /// # Memory
    ///
    /// It does not allocate.
    pub fn give_back(&mut self, writer: &mut LeaseWriter<L>, number: u32) -> bool
        ensures does { RemovesLease self.old number result self.new }
        ensures history { AddsEvent writer.old (give_back_event number result) writer.new }
    {
        let found = self.table.give_back(number);
        self.history.add::<N>(writer, Call::GiveBack(number, found));
        found
    }

    /// Gives all leases back and ends the table. The cost grows linearly with the leases.
    pub fn end(self) {
        let LockedLeaseTable { table, history: _ } = self;
        table.end();
    }
}
