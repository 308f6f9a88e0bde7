//! The trait of a table of leases.
ghost use Rattle.std.specs.Prelude.{◌≡◌, ◌⊎◌, ◌^◌, ◌<◌, ◌≤◌, IfOk, IfSome, IsTrue, false, true};
ghost use Rattle.wire_server.specs.LeaseEvents.{TableEvent as Event, ExtentStep, LeaseGivenBack, IsExtentOf, KeepStep, LeaseNotGivenBack};

use blob_digest::{Digest, Refusal};
use store_api::{Backend, Extent};

/// A table of leases by their numbers, which all connections share. Any connection may read or give back a lease that
/// another one has taken.
pub trait LeaseStore<B: Backend> {
    // The table may go from one state to another by an event.
    ghost does: { Self → Event → Self → Type 0 };

    /// Keeps a lease and returns its number. If memory runs out, it gives the lease back and returns `None`.
    fn keep(&mut self, lease: B::Lease) -> Option<u32>
        ensures { KeepStep does self.old (B.lent lease) result self.new };

    /// Returns the extent of the blob that is leased under `number`, if the blob has the digest: from `start` to `end`, both
    /// included, or to the end of the blob. Returns `None` if there is no such lease. It reads nothing.
    ///
    /// # Errors
    ///
    /// `Memory`. Then nothing changes.
    fn extent(
        &mut self,
        number: u32,
        digest: &Digest,
        start: u64,
        end: u64,
    ) -> Result<Option<Extent>, Refusal>
        requires ordered { start ≤ end }
        requires small { end < 2 ^ 63 }
        ensures content { IfOk result (λ o. IfSome o (IsExtentOf digest.now start end)) }
        ensures does { ExtentStep does self.old number digest.now start end result self.new };

    /// Gives the lease of a number back, and returns whether there was one.
    fn give_back(&mut self, number: u32) -> bool
        ensures given { result ≡ true → does self.old (LeaseGivenBack number) self.new }
        ensures none { result ≡ false → does self.old (LeaseNotGivenBack number) self.new };
}
