//! The leases that the lanes of a script hold.
ghost use Rattle.std.specs.Prelude.{◌≡◌, ◌∷◌, Some, None, [], IsSome, IfErr, OnOk};
ghost use Rattle.std.specs.Option.{option_map};
ghost use Rattle.std.specs.FinMap as fmap;
ghost use Rattle.std.specs.BTreeMap as tree;
ghost use Rattle.script_player.specs.LeaseCalls.{AddsLease, AddsLeaseIn, ReturnsLease, ReturnsLeaseIn, SharesLease, SharesLeaseIn, VerifiesNamed, VerifiesNamedIn};
ghost use Rattle.script_player.specs.Leases.{name_cmp, no_leases};
ghost use Rattle.script_player.specs.LeaseTables.{HasRow, HoldsButRoom, HoldsEach, KeepsRows, PutsLease, lease_in, leases_in};

use crate::lease_name::LeaseName;
use blob_digest::{Digest, Refusal, RepoName};
use std::alloc::{AllocFailed, Global};
use std::collections::BTreeMap;
use std::marker::Model;
use std::mem;
use store_api::{Backend, Reply};

/// A row for each name: a lease, or room for one.
type Table<L> = BTreeMap<LeaseName, Option<L>>;

/// The leases that the lanes hold, by lane and name.
///
/// The table cannot be dropped: `end` gives the leases back. Between two calls every row holds a lease.
/// Contracts see a finite map from lane and name to a lease's bytes and weight.
pub struct Leases<B: Backend> {
    table: Table<B::Lease>,
}

impl<B: Backend> Model for Leases<B> {
    ghost use Rattle.std.specs.BTreeMap as tree;
    ghost use Rattle.script_player.specs.Leases.{Leases as LeasesView, coded_leases, name_cmp};
    ghost use Rattle.script_player.specs.LeaseTables.{HoldsEach, leases_in};

    ghost Value = { LeasesView };

    ghost coded = { coded_leases };

    ghost view = { λ a. leases_in B.lent a.table };

    ghost invariant = { λ a. tree.IsOrdered name_cmp a.table × HoldsEach a.table };
}

/// Gives back the lease of a row, if it has one.
fn release<B: Backend>(room: Option<B::Lease>) {
    match room {
        Some(held) => B::give_back(held),
        None => {}
    }
}

/// Makes room under a name that has no lease. Its only error is `Memory`.
fn reserve<B: Backend>(table: &mut Table<B::Lease>, name: LeaseName) -> Result<(), Refusal>
    requires free { lease_in B.lent table.old name ≡ None }
    requires held { HoldsEach table.old }
    ensures same { leases_in B.lent table.new ≡ leases_in B.lent table.old }
    ensures there { OnOk result (HasRow table.new name) }
    ensures held { HoldsButRoom result name table.new }
    ensures rows { KeepsRows table.old table.new }
    ensures ordered { tree.IsOrdered name_cmp table.new }
    ensures refused { IfErr result (λ e. e ≡ Refusal.Memory) }
{
    match table.insert(name, None) {
        Ok(Some(old)) => {
            release::<B>(old);
            Ok(())
        }
        Ok(None) => Ok(()),
        Err(failed) => {
            let AllocFailed { value } = failed;
            let (_, room) = value;
            release::<B>(room);
            Err(Refusal::Memory)
        }
    }
}

/// Replaces the content of a name's row by a lease, or by room for one, and returns the old content.
fn exchange<B: Backend>(
    table: &mut Table<B::Lease>,
    name: LeaseName,
    room: Option<B::Lease>,
) -> Option<B::Lease>
    requires there { HasRow table.old name }
    ensures was { option_map B.lent result ≡ lease_in B.lent table.old name }
    ensures puts { PutsLease B.lent table.old table.new name room }
    ensures updates { tree.Updates name_cmp table.old table.new name (Some room) }
    ensures rows { KeepsRows table.old table.new }
    ensures ordered { tree.IsOrdered name_cmp table.new }
{
    match table.get_mut(&name) {
        Some(row) => mem::replace(row, room),
        None => {
            release::<B>(room);
            unreachable!()
        }
    }
}

/// Returns the lease under a name.
fn find_lease<B: Backend>(table: &Table<B::Lease>, name: LeaseName) -> Option<&B::Lease>
    requires ordered { tree.IsOrdered name_cmp table.now }
    ensures lease { option_map (λ l. B.lent l.now) result ≡ lease_in B.lent table.now name }
    ensures row { IsSome result → HasRow table.now name }
{
    match table.get(&name) {
        Some(Some(held)) => Some(held),
        Some(None) => None,
        None => None,
    }
}

/// Removes a name's row, and returns the lease that it held.
fn take<B: Backend>(table: &mut Table<B::Lease>, name: LeaseName) -> Option<B::Lease>
    requires ordered { tree.IsOrdered name_cmp table.old }
    ensures was { option_map B.lent result ≡ lease_in B.lent table.old name }
    ensures takes { leases_in B.lent table.new ≡ fmap.remove (leases_in B.lent table.old) name }
    ensures gone { ¬ (HasRow table.new name) }
    ensures updates { tree.Updates name_cmp table.old table.new name None }
    ensures ordered { tree.IsOrdered name_cmp table.new }
{
    match table.remove(&name) {
        Some(room) => room,
        None => None,
    }
}

/// Asks a backend for a lease, and puts it under a name that has none.
/// Room is made first, so that running out of memory changes nothing.
fn add_lease_in<B: Backend>(
    backend: &mut B,
    table: &mut Table<B::Lease>,
    name: LeaseName,
    repo: &RepoName,
    digest: &Digest,
) -> Result<u64, Refusal>
    requires free { lease_in B.lent table.old name ≡ None }
    requires held { HoldsEach table.old }
    ensures lends { AddsLeaseIn B.lent B.acts backend.old table.old name repo.now digest.now result
        backend.new table.new }
    ensures ordered { tree.IsOrdered name_cmp table.new }
    ensures held { HoldsEach table.new }
{
    reserve::<B>(table, name)?;
    match backend.lease(repo, digest) {
        Ok(held) => {
            let size = B::size(&held);
            release::<B>(exchange::<B>(table, name, Some(held)));
            Ok(size)
        }
        Err(refusal) => {
            release::<B>(take::<B>(table, name));
            Err(refusal)
        }
    }
}

/// Splits a lease into two. Room for the second is made first, so that running out of memory changes nothing.
fn share_in<B: Backend>(
    table: &mut Table<B::Lease>,
    name: LeaseName,
    second: LeaseName,
) -> Result<Reply, Refusal>
    requires ordered { tree.IsOrdered name_cmp table.old }
    requires held { HoldsEach table.old }
    ensures shares { SharesLeaseIn B.lent table.old name second result table.new }
    ensures ordered { tree.IsOrdered name_cmp table.new }
    ensures held { HoldsEach table.new }
{
    if find_lease::<B>(table, name).is_none() {
        return Ok(Reply::NoLease);
    }
    if find_lease::<B>(table, second).is_some() {
        return Ok(Reply::NameTaken);
    }
    reserve::<B>(table, second)?;
    let Some(held) = exchange::<B>(table, name, None) else {
        unreachable!()
    };
    match B::share(held) {
        Ok((one, other)) => {
            release::<B>(exchange::<B>(table, name, Some(one)));
            release::<B>(exchange::<B>(table, second, Some(other)));
            Ok(Reply::Shared)
        }
        Err((refusal, held)) => {
            release::<B>(exchange::<B>(table, name, Some(held)));
            release::<B>(take::<B>(table, second));
            Err(refusal)
        }
    }
}

/// Asks a backend to verify the lease under a name, or returns `NoLease`.
fn verify_in<B: Backend>(backend: &mut B, table: &mut Table<B::Lease>, name: LeaseName) -> Reply
    requires ordered { tree.IsOrdered name_cmp table.old }
    requires held { HoldsEach table.old }
    ensures looks { VerifiesNamedIn B.lent B.acts table.old name backend.old result backend.new }
    ensures same { leases_in B.lent table.new ≡ leases_in B.lent table.old }
    ensures ordered { tree.IsOrdered name_cmp table.new }
    ensures held { HoldsEach table.new }
{
    if find_lease::<B>(table, name).is_none() {
        return Reply::NoLease;
    }
    let Some(held) = exchange::<B>(table, name, None) else {
        unreachable!()
    };
    let held = backend.verify(held);
    let size = B::size(&held);
    release::<B>(exchange::<B>(table, name, Some(held)));
    Reply::Verified(size)
}

/// Gives back the lease under a name, or returns `NoLease`.
fn give_back_in<B: Backend>(table: &mut Table<B::Lease>, name: LeaseName) -> Reply
    requires ordered { tree.IsOrdered name_cmp table.old }
    requires held { HoldsEach table.old }
    ensures returns { ReturnsLeaseIn B.lent table.old name result table.new }
    ensures ordered { tree.IsOrdered name_cmp table.new }
    ensures held { HoldsEach table.new }
{
    match take::<B>(table, name) {
        Some(held) => {
            B::give_back(held);
            Reply::GivenBack
        }
        None => Reply::NoLease,
    }
}

/// Leases a blob under a name that has no lease, and returns the blob's size in bytes.
///
/// # Errors
/// - `Memory` if no row can be allocated; the backend is not asked.
/// - The error of `Backend::lease`; the leases are unchanged.
///
/// # Cost
/// One call of `Backend::lease`, one insertion into a `BTreeMap` and one look-up or removal.
pub fn lend<B: Backend>(
    backend: &mut B,
    leases: &mut Leases<B>,
    name: LeaseName,
    repo: &RepoName,
    digest: &Digest,
) -> Result<u64, Refusal>
    requires free { fmap.get leases.old name ≡ None }
    ensures { AddsLease B.acts backend.old leases.old name repo.now digest.now result backend.new
        leases.new }
{
    add_lease_in(backend, &mut leases.table, name, repo, digest)
}

/// Asks a backend to verify the lease under a name, or returns `NoLease`. The leases are unchanged.
pub fn verify<B: Backend>(backend: &mut B, leases: &mut Leases<B>, name: LeaseName) -> Reply
    ensures looks { VerifiesNamed B.acts leases.old name backend.old result backend.new }
    ensures same { leases.new ≡ leases.old }
{
    verify_in(backend, &mut leases.table, name)
}

impl<B: Backend> Leases<B> {
    /// Creates an empty table.
    pub fn new(alloc: Global) -> Leases<B>
        ensures { result ≡ no_leases }
    {
        Leases {
            table: BTreeMap::new(alloc),
        }
    }

    /// Returns the lease under a name.
    pub fn get(&self, name: LeaseName) -> Option<&B::Lease>
        ensures { option_map (λ l. B.lent l.now) result ≡ fmap.get self.now name }
    {
        find_lease::<B>(&self.table, name)
    }

    /// Splits the lease under `name` into two of half its weight, and puts one of them under `second`.
    ///
    /// Returns `NoLease` if `name` has no lease, and `NameTaken` if `second` has one.
    ///
    /// # Errors
    /// - `Memory` if allocation fails.
    /// - `WeightSpent` if the lease's weight is 1.
    ///
    /// The leases are unchanged then.
    pub fn share(&mut self, name: LeaseName, second: LeaseName) -> Result<Reply, Refusal>
        ensures { SharesLease self.old name second result self.new }
    {
        share_in::<B>(&mut self.table, name, second)
    }

    /// Gives back the lease under a name, or returns `NoLease`.
    pub fn give_back(&mut self, name: LeaseName) -> Reply
        ensures { ReturnsLease self.old name result self.new }
    {
        give_back_in::<B>(&mut self.table, name)
    }

    /// Gives all leases back, and frees the table.
    pub fn end(self) {
        let Leases { mut table } = self;
        while let Some((_, room)) = table.pop_first() {
            release::<B>(room);
        }
        table.destroy_empty();
    }
}
