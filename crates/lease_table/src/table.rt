//! A table of leases by their numbers.

ghost use Rattle.std.specs.Prelude.{◌≡◌, ◌≢◌, ◌^◌, ◌<◌, ◌≤◌, IfErr, IfOk, IfSome, None};
ghost use Rattle.std.specs.BTreeMap as tree;
ghost use Rattle.std.specs.FinMap as fmap;
ghost use Rattle.std.specs.Ordering.{nat_cmp};
ghost use Rattle.blob_digest.specs.declared.refusal.Refusal.TheVariants.{Memory};
ghost use Rattle.wire_server.specs.LeaseEvents.{IsExtentOf};
ghost use Rattle.lease_table.specs.Tables.{RemovesLease, AddsLease, ReadsLease, lease_map_of};

use blob_digest::{Digest, Refusal};
use std::alloc::{AllocFailed, Global};
use std::collections::BTreeMap;
use std::marker::Model;
use store_api::Extent;
use store_book::{Lease, PinsName};

/// The tree of leases by their numbers.
type Leases<'p, N> = BTreeMap<u32, Lease<'p, N>>;

/// A table of leases by their numbers, which begin at 1. Contracts see a finite map from numbers to leases. The table must
/// be spent by `end`, which gives its leases back.
pub struct LeaseTable<'p, N: PinsName> {
    leases: Leases<'p, N>,
    /// The number that is tried first.
    next: u32,
}

impl<'p, N: PinsName> Model for LeaseTable<'p, N> {
    ghost use Rattle.lease_table.specs.Tables.{LeaseMap, coded_lease_map, lease_map_of};

    ghost Value = { LeaseMap };

    ghost coded = { coded_lease_map };

    ghost view = { λ t. lease_map_of t.leases };
}

/// Finds a number that no lease has, from `next` on, and moves `next` past it. So the number of a lease that was given
/// back is not used again soon. It tries two numbers more than there are leases, and skips 0.
fn free_number<'p, N: PinsName>(leases: &Leases<'p, N>, next: &mut u32) -> Option<u32>
    ensures { IfSome result (λ n. (n ≢ 0) × (tree.get nat_cmp leases.now n ≡ None)) }
{
    for _ in 0..leases.len() + 2 {
        let number = *next;
        *next = number.wrapping_add(1);
        if number != 0 && !leases.contains_key(&number) {
            return Some(number);
        }
    }
    None
}

/// Keeps a lease under a number that no other lease has. If allocation fails, it gives the lease back.
fn keep_under<'p, N: PinsName>(
    leases: &mut Leases<'p, N>,
    number: u32,
    lease: Lease<'p, N>,
) -> Option<u32>
    requires positive { number ≢ 0 }
    requires free { tree.get nat_cmp leases.old number ≡ None }
    ensures { AddsLease (lease_map_of leases.old) lease.entry result (lease_map_of leases.new) }
{
    match leases.insert(number, lease) {
        Ok(None) => Some(number),
        Ok(Some(other)) => {
            other.give_back();
            unreachable!()
        }
        Err(failed) => {
            let AllocFailed { value } = failed;
            let (_, lease) = value;
            lease.give_back();
            None
        }
    }
}

/// Returns the extent of the blob that is leased under a number, if the blob has the digest.
fn extent_in<'p, N: PinsName>(
    leases: &Leases<'p, N>,
    number: u32,
    digest: &Digest,
    start: u64,
    end: u64,
) -> Result<Option<Extent>, Refusal>
    requires ordered { start ≤ end }
    requires small { end < 2 ^ 63 }
    ensures content { IfOk result (λ o. IfSome o (IsExtentOf digest.now start end)) }
    ensures does { IfOk result (ReadsLease (lease_map_of leases.now) number digest.now start end) }
    ensures refused { IfErr result (λ e. e ≡ Memory) }
{
    let Some(lease) = leases.get(&number) else {
        return Ok(None);
    };
    if lease.digest() != *digest {
        return Ok(None);
    }
    Ok(Some(Extent::new(lease.blob().clone()?, start, end)))
}

/// Gives the lease of a number back, and returns whether there was one.
fn give_back_in<'p, N: PinsName>(leases: &mut Leases<'p, N>, number: u32) -> bool
    ensures { RemovesLease (lease_map_of leases.old) number result (lease_map_of leases.new) }
{
    match leases.remove(&number) {
        Some(lease) => {
            lease.give_back();
            true
        }
        None => false,
    }
}

impl<'p, N: PinsName> LeaseTable<'p, N> {
    /// Makes a table without leases.
    pub fn new(alloc: Global) -> LeaseTable<'p, N>
        ensures { result ≡ fmap.empty }
    {
        LeaseTable {
            leases: BTreeMap::new(alloc),
            next: 1,
        }
    }

    /// Keeps a lease and returns its number, which no other lease has. If allocation fails, it gives the lease back and
    /// returns `None`.
    pub fn keep(&mut self, lease: Lease<'p, N>) -> Option<u32>
        ensures { AddsLease self.old lease.entry result self.new }
    {
        let Some(number) = free_number(&self.leases, &mut self.next) else {
            lease.give_back();
            return None;
        };
        keep_under(&mut self.leases, number, lease)
    }

    /// Returns the extent of the blob that is leased under `number`, if the blob has the digest: from `start` to `end`, both
    /// included, or to the end of the blob. Returns `None` if there is no such lease. It reads nothing.
    ///
    /// # Errors
    ///
    /// `Memory`, if the blob's reference count is exhausted.
    pub fn extent(
        &self,
        number: u32,
        digest: &Digest,
        start: u64,
        end: u64,
    ) -> Result<Option<Extent>, Refusal>
        requires ordered { start ≤ end }
        requires small { end < 2 ^ 63 }
        ensures content { IfOk result (λ o. IfSome o (IsExtentOf digest.now start end)) }
        ensures does { IfOk result (ReadsLease self.now number digest.now start end) }
        ensures refused { IfErr result (λ e. e ≡ Memory) }
    {
        extent_in(&self.leases, number, digest, start, end)
    }

    /// Gives the lease of a number back, and returns whether there was one. It does not allocate.
    pub fn give_back(&mut self, number: u32) -> bool
        ensures { RemovesLease self.old number result self.new }
    {
        give_back_in(&mut self.leases, number)
    }

    /// Gives all leases back and ends the table.
    pub fn end(self) {
        let LeaseTable {
            mut leases,
            next: _,
        } = self;
        while let Some((_, lease)) = leases.pop_first() {
            lease.give_back();
        }
        leases.destroy_empty();
    }
}
