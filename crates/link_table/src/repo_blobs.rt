//! The blobs of one repository.

ghost use Rattle.std.specs.Prelude.{◌≡◌, not, IfOk, OnOk, OnErr, IfErr};
ghost use Rattle.std.specs.List.{find};
ghost use Rattle.std.specs.FinMap as fmap;
ghost use Rattle.blob_digest.specs.declared.refusal.Refusal.TheVariants.{Memory};
ghost use Rattle.link_table.specs.Rows.{lacks_blob};

use blob_digest::{Digest, Refusal};
use std::alloc::Global;
use std::collections::BTreeMap;
use std::collections::btree_map::Iter;
use std::marker::Model;

/// Returns the first of these digests that is no key of the tree.
fn first_missing(sizes: &BTreeMap<Digest, u64>, digests: &[Digest]) -> Option<Digest>
    ensures { result ≡ find (lacks_blob sizes.now) digests.now }
{
    digests
        .iter()
        .copied()
        .find(|digest| !sizes.contains_key(digest))
}

/// The blobs of a repository, by digest, each with its size in bytes.
///
/// # Cost
///
/// Each call is logarithmic in the number of blobs. `first_missing` is so for each digest.
#[derive(Drop)]
pub struct RepoBlobs {
    sizes: BTreeMap<Digest, u64>,
}

impl Model for RepoBlobs {
    ghost use Rattle.std.specs.Coded.{coded_ℕ};
    ghost use Rattle.std.specs.FinMap as fmap;
    ghost use Rattle.spec_lib.specs.Texts.{coded_text};
    ghost use Rattle.spec_lib.specs.Trees.{map_of};
    ghost use Rattle.link_table.specs.Rows.{Sizes};

    ghost Value = { Sizes };

    ghost coded = { fmap.code coded_text coded_ℕ };

    ghost view = { λ a. map_of a.sizes };
}

impl RepoBlobs {
    /// Returns a repository without blobs. Allocates nothing.
    pub fn new(alloc: Global) -> RepoBlobs
        ensures { result ≡ fmap.empty }
    {
        RepoBlobs {
            sizes: BTreeMap::new(alloc),
        }
    }

    /// Adds a blob, and returns whether the repository had no blob of this digest.
    ///
    /// # Errors
    ///
    /// - `Memory`: out of memory. Nothing changes.
    pub fn insert(&mut self, digest: &Digest, size: u64) -> Result<bool, Refusal>
        ensures new { IfOk result (λ b. b ≡ not (fmap.contains_key self.old digest.now)) }
        ensures ok { OnOk result (self.new ≡ fmap.insert self.old digest.now size) }
        ensures err { OnErr result (self.new ≡ self.old) }
        ensures refused { IfErr result (λ e. e ≡ Memory) }
    {
        let old = self.sizes.insert(*digest, size)?;
        Ok(old.is_none())
    }

    /// Removes a blob, and returns its size if it was there. Allocates nothing.
    pub fn remove(&mut self, digest: &Digest) -> Option<u64>
        ensures value { result ≡ fmap.get self.old digest.now }
        ensures gone { self.new ≡ fmap.remove self.old digest.now }
    {
        self.sizes.remove(digest)
    }

    /// Returns whether the repository contains a blob.
    pub fn contains(&self, digest: &Digest) -> bool
        ensures { result ≡ fmap.contains_key self.now digest.now }
    {
        self.sizes.contains_key(digest)
    }

    /// Returns the first of these digests whose blob the repository does not contain.
    pub fn first_missing(&self, digests: &[Digest]) -> Option<Digest>
        ensures { result ≡ find (λ d. not (fmap.contains_key self.now d)) digests.now }
    {
        first_missing(&self.sizes, digests)
    }

    /// Returns the blobs, in the order of their digests.
    pub fn iter(&self) -> Iter<'_, Digest, u64>
        ensures { result ≡ fmap.entries self.now }
    {
        self.sizes.iter()
    }
}
