//! The number of a tenant's repositories that contain each digest.

ghost use Rattle.std.specs.Prelude.{◌≡◌, ◌+◌, ◌-◌, ◌<◌, ◌^◌, OnOk, OnErr, IfOk, IfErr, nat_lt};
ghost use Rattle.std.specs.FinMap as fmap;
ghost use Rattle.spec_lib.specs.Texts.{Text};
ghost use Rattle.blob_digest.specs.declared.refusal.Refusal.TheVariants.{Memory};
ghost use Rattle.link_table.specs.Holders.{count_in, AreEmptyMaps, CountsOneLess, CountsOneMore, HasNoZero};

use blob_digest::{Digest, Refusal};
use std::alloc::Global;
use std::collections::BTreeMap;
use std::collections::btree_map::Entry;
use std::marker::Model;

/// The number of a tenant's repositories that contain a digest, for each digest that at least one contains.
///
/// No entry has the count 0, so there are as many entries as digests in the tenant's repositories.
#[derive(Drop)]
pub struct Holders {
    counts: BTreeMap<Digest, u64>,
}

impl Model for Holders {
    ghost use Rattle.std.specs.Prelude.{ℕ};
    ghost use Rattle.std.specs.Coded.{coded_ℕ};
    ghost use Rattle.std.specs.FinMap as fmap;
    ghost use Rattle.spec_lib.specs.Texts.{text_cmp, coded_text};
    ghost use Rattle.spec_lib.specs.Trees.{map_of};
    ghost use Rattle.link_table.specs.Holders.{HasNoZero};

    ghost Value = { fmap.FinMap text_cmp ℕ };

    ghost coded = { fmap.code coded_text coded_ℕ };

    ghost view = { λ a. map_of a.counts };

    ghost invariant = { λ a. HasNoZero (map_of a.counts) };
}

impl Holders {
    /// Returns an empty map. Allocates nothing.
    fn new(alloc: Global) -> Holders
        ensures { result ≡ fmap.empty }
    {
        Holders {
            counts: BTreeMap::new(alloc),
        }
    }
}

/// Returns `count` empty maps.
pub fn no_holders(alloc: Global, count: usize) -> Result<Vec<Holders>, Refusal>
    ensures ok { IfOk result (λ v. AreEmptyMaps count v.items) }
    ensures refused { IfErr result (λ e. e ≡ Memory) }
{
    let mut holders = Vec::with_capacity(alloc, count)?;
    for _ in 0..count {
        holders.push(Holders::new(alloc))?;
    }
    Ok(holders)
}

/// Returns the number of a tenant's repositories that contain a digest.
pub fn holders_of(holders: &Holders, digest: &Digest) -> u64
    ensures { result ≡ count_in holders.now digest.now }
{
    holders.counts.get(digest).copied().unwrap_or(0)
}

/// Returns the number of digests that at least one of a tenant's repositories contains. Constant time.
pub fn digest_count(holders: &Holders) -> usize
    ensures count { result ≡ fmap.len holders.now }
    ensures no_zero { HasNoZero holders.now }
{
    holders.counts.len()
}

/// Counts one more repository for a digest, and returns the new count.
///
/// # Errors
///
/// - `Memory`: out of memory. Nothing changes.
pub fn increment(holders: &mut Holders, digest: &Digest) -> Result<u64, Refusal>
    requires { count_in holders.old digest.now + 1 < 2 ^ 64 }
    ensures count { IfOk result (λ n. n ≡ count_in holders.old digest.now + 1) }
    ensures ok { OnOk result (CountsOneMore holders.old holders.new digest.now) }
    ensures err { OnErr result ((d : Text) → count_in holders.new d ≡ count_in holders.old d) }
    ensures refused { IfErr result (λ e. e ≡ Memory) }
{
    let count = holders.counts.entry(*digest)?.or_insert(0);
    *count += 1;
    Ok(*count)
}

/// Counts one repository less for a digest, and returns whether others remain. Allocates nothing.
pub fn decrement(holders: &mut Holders, digest: &Digest) -> bool
    requires { 0 < count_in holders.old digest.now }
    ensures held { result ≡ nat_lt 0 (count_in holders.new digest.now) }
    ensures count { CountsOneLess holders.old holders.new digest.now }
{
    match holders.counts.entry(*digest) {
        Ok(Entry::Occupied(mut entry)) => {
            let others = *entry.get() - 1;
            if others == 0 {
                entry.remove();
                return false;
            }
            entry.insert(others);
            true
        }
        Ok(Entry::Vacant(_)) => unreachable!(),
        Err(_) => unreachable!(),
    }
}
