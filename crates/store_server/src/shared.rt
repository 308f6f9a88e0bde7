//! The table of leases that all connections share.
ghost use Rattle.std.specs.Prelude.{◌≡◌};

use blob_digest::{Digest, Refusal};
use blob_store::{Lease, Naming, StoreBackend};
use content_files::ContentStore;
use lease_table::{LeaseNaming, LeaseWriter, LockedLeaseTable};
use locked_book::StorePins;
use std::sync::{Mutex, Wait};
use store_api::Extent;
use wire_server::LeaseStore;

/// A connection's access to the table of leases that all connections share: the lock, and the connection's writer of the
/// table's history. Contracts see the events that the connection adds.
#[derive(Drop)]
pub struct SharedLeases<'l, 's, W: Wait, S: Naming, L: LeaseNaming> {
    /// The runtime whose `Wait` the lock uses.
    pub rt: &'l W,
    /// The table under its lock.
    pub table: &'l Mutex<LockedLeaseTable<'s, StorePins<S>, L>>,
    /// The connection's writer.
    pub writer: LeaseWriter<L>,
}

impl<'l, 's, W: Wait, S: Naming, L: LeaseNaming, F: ContentStore> LeaseStore<
    StoreBackend<'s, W, S, F>,
> for SharedLeases<'l, 's, W, S, L> {
    ghost use Rattle.lease_table.specs.Histories.{AddsEvent};

    ghost does = { λ old event new. AddsEvent old.writer event new.writer };

    fn keep(&mut self, lease: Lease<'s, S>) -> Option<u32> {
        self.table.lock(self.rt).keep(&mut self.writer, lease)
    }

    fn extent(
        &mut self,
        number: u32,
        digest: &Digest,
        start: u64,
        end: u64,
    ) -> Result<Option<Extent>, Refusal> {
        self.table
            .lock(self.rt)
            .extent(&mut self.writer, number, digest, start, end)
    }

    fn give_back(&mut self, number: u32) -> bool {
        self.table.lock(self.rt).give_back(&mut self.writer, number)
    }
}
