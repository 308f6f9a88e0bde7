//! The leases of a store's blobs.

ghost use Rattle.std.specs.Prelude.{◌≡◌, ◌<◌, IfOk, true};
ghost use Rattle.blob_digest.specs.Vouched.{has_digest};
ghost use Rattle.store_book.specs.SlotSteps.{HasPin};
ghost use Rattle.locked_book.specs.Found.{InSomeBook};
ghost use Rattle.blob_store.specs.StoreCalls.{IsFullLease, LeasesBlob};

use crate::store::Store;
use blob_digest::{Digest, Refusal, RepoName};
use locked_book::{Desk, Naming, StorePins};
use std::sync::Wait;

/// A lease of a blob of the store with these names. `Store::lease` returns it, and `Store::verify` checks its slot.
pub type Lease<'s, S> = store_book::Lease<'s, StorePins<S>>;

impl<S: Naming> Store<S> {
    /// Leases a blob that a repository has. No sweep frees the blob's slot before the lease is given back.
    pub fn lease(
        &self,
        rt: &impl Wait,
        desk: &mut Desk<S>,
        repo: &RepoName,
        digest: &Digest,
    ) -> Result<Lease<'_, S>, Refusal>
        ensures makes { LeasesBlob S.names repo.now digest.now result desk.old desk.new }
        ensures leased { IfOk result (λ l. IsFullLease digest.now l) }
    {
        let (pin, blob) = self.locked(rt).lease(&self.pins, desk, repo, digest)?;
        Ok(Lease::new(&self.pins, pin, blob))
    }

    /// Checks a lease against the book, and returns it unchanged. Under the lock, its slot is in use, in the lease's
    /// generation and with its digest, which the lease's content has (`has_digest`).
    ///
    /// # Memory
    ///
    /// Allocates nothing.
    pub fn verify<'s>(&'s self, rt: &impl Wait, lease: Lease<'s, S>) -> Lease<'s, S>
        ensures same { result ≡ lease.entry }
        ensures kept { InSomeBook S.names (HasPin lease.entry.hold) }
        ensures content { has_digest lease.entry.hold.digest lease.entry.bytes ≡ true }
    {
        let _ = lease.digest();
        let (pin, blob) = lease.into_parts();
        let pin = self.locked(rt).verify(&self.pins, pin);
        Lease::new(&self.pins, pin, blob)
    }

    /// Returns the word of a slot: its generation, its state, and the sum of the weights of its leases.
    ///
    /// # Memory
    ///
    /// Allocates nothing.
    pub fn word(&self, rt: &impl Wait, slot: u32) -> u64
        requires { slot < S.names.slots }
    {
        self.locked(rt).word(&self.pins, slot)
    }
}
