//! The manifests of one repository.

ghost use Rattle.std.specs.Prelude.{◌≡◌, false, OnOk, OnErr, IfErr, Option, Some};
ghost use Rattle.std.specs.BTreeSet.{contains};
ghost use Rattle.std.specs.FinMap as fmap;
ghost use Rattle.spec_lib.specs.Texts.{Text};
ghost use Rattle.blob_digest.specs.Outcomes.{Does};
ghost use Rattle.blob_digest.specs.declared.refusal.Refusal.TheVariants.{Memory};
ghost use Rattle.link_table.specs.Manifests.{found_bytes, put_in, referrer_in, refer_cmp, shared_bytes, AddsPairs, HasSamePairs, RemovesPairs};

use blob_digest::{Digest, Refusal};
use oci_manifest::Manifest;
use std::alloc::Global;
use std::collections::btree_map::Iter;
use std::collections::{BTreeMap, BTreeSet};
use std::marker::Model;
use std::sync::Arc;

/// Pairs of a digest and of a manifest that refers to it.
///
/// `None` is below every manifest, so a search for the first manifest of a digest starts there.
type Referrers = BTreeSet<(Digest, Option<Digest>)>;

/// Removes the references of a manifest to these digests. Allocates nothing.
fn forget(referrers: &mut Referrers, refs: &[Digest], manifest: &Digest)
    ensures { RemovesPairs referrers.old referrers.new refs.now manifest.now }
{
    for digest in refs {
        referrers.remove(&(*digest, Some(*manifest)));
    }
}

/// Adds the references to these digests of a manifest that has none so far.
///
/// # Errors
///
/// - `Memory`: out of memory. Nothing changes.
fn refer(referrers: &mut Referrers, refs: &[Digest], manifest: &Digest) -> Result<(), Refusal>
    requires { (d : Text) → contains refer_cmp referrers.old (d, Some manifest.now) ≡ false }
    ensures ok { OnOk result (AddsPairs referrers.old referrers.new refs.now manifest.now) }
    ensures err { OnErr result (HasSamePairs referrers.old referrers.new) }
    ensures refused { IfErr result (λ e. e ≡ Memory) }
{
    for i in 0..refs.len() {
        let Ok(_) = referrers.insert((refs[i], Some(*manifest))) else {
            forget(referrers, &refs[..i], manifest);
            return Err(Refusal::Memory);
        };
    }
    Ok(())
}

/// The manifests of a repository, by digest. Contracts see the bytes of each.
///
/// # Cost
///
/// Finding a manifest is logarithmic in the number of manifests. Finding the first that refers to a digest is
/// logarithmic in the number of all references. Adding or removing one takes the former once, and the latter for each
/// of its references.
#[derive(Drop)]
pub struct RepoManifests {
    rows: BTreeMap<Digest, Arc<Manifest, Global>>,
    referrers: Referrers,
}

impl Model for RepoManifests {
    ghost use Rattle.std.specs.Prelude.{ℕ};
    ghost use Rattle.std.specs.FinMap as fmap;
    ghost use Rattle.spec_lib.specs.Texts.{Text, text_cmp, coded_text};
    ghost use Rattle.link_table.specs.Manifests.{RepoManifestBytes, stored_manifests, IsReferrerIndex};

    ghost Value = { RepoManifestBytes };

    ghost coded = { fmap.code coded_text coded_text };

    ghost view = { λ a. stored_manifests a.rows };

    ghost invariant = { λ a. IsReferrerIndex (stored_manifests a.rows) a.referrers };
}

impl RepoManifests {
    /// Returns an empty table. Allocates nothing.
    pub fn new(alloc: Global) -> RepoManifests
        ensures { result ≡ fmap.empty }
    {
        RepoManifests {
            rows: BTreeMap::new(alloc),
            referrers: BTreeSet::new(alloc),
        }
    }

    /// Stores a manifest under its digest. A manifest that is already there stays. `limit` is the maximum number of
    /// manifests.
    ///
    /// # Errors
    ///
    /// - `LimitReached`: there are `limit` manifests or more, and this is none of them.
    /// - `Memory`: out of memory. Nothing changes.
    pub fn put(&mut self, manifest: Arc<Manifest, Global>, limit: u32) -> Result<(), Refusal>
        ensures { Does (λ u. u) result self.old self.new (put_in limit self.old manifest.value) }
    {
        let digest = manifest.digest();
        if self.rows.contains_key(&digest) {
            return Ok(());
        }
        if self.rows.len() >= limit as usize {
            return Err(Refusal::LimitReached);
        }
        refer(&mut self.referrers, manifest.refs(), &digest)?;
        match self.rows.insert(digest, manifest) {
            Ok(_) => Ok(()),
            Err(full) => {
                forget(&mut self.referrers, full.value.1.refs(), &digest);
                Err(Refusal::Memory)
            }
        }
    }

    /// Removes the manifest of a digest, if there is one. Allocates nothing.
    pub fn remove(&mut self, digest: &Digest)
        ensures { self.new ≡ fmap.remove self.old digest.now }
    {
        if let Some(manifest) = self.rows.remove(digest) {
            forget(&mut self.referrers, manifest.refs(), digest);
        }
    }

    /// Returns the manifest of a digest.
    pub fn get(&self, digest: &Digest) -> Option<&Arc<Manifest, Global>>
        ensures { found_bytes result ≡ fmap.get self.now digest.now }
    {
        self.rows.get(digest)
    }

    /// Returns the least digest of a manifest that refers to a digest.
    pub fn referrer(&self, digest: &Digest) -> Option<Digest>
        ensures { result ≡ referrer_in self.now digest.now }
    {
        let (referred, manifest) = self.referrers.range((*digest, None)..).next()?;
        if *referred == *digest {
            *manifest
        } else {
            None
        }
    }

    /// Returns the manifests, in the order of their digests.
    pub fn iter(&self) -> Iter<'_, Digest, Arc<Manifest, Global>>
        ensures { shared_bytes result ≡ fmap.entries self.now }
    {
        self.rows.iter()
    }
}
