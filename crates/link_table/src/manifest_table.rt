//! The manifests of all repositories.

ghost use Rattle.std.specs.Prelude.{◌≡◌, None};
ghost use Rattle.std.specs.BTreeMap as tree;
ghost use Rattle.std.specs.FinMap as fmap;
ghost use Rattle.spec_lib.specs.Texts.{Text};
ghost use Rattle.link_table.specs.ManifestTable.{put_on, referrer_on, manifests_on, Fulfils};
ghost use Rattle.link_table.specs.Manifests.{found_bytes};

use crate::manifests::Manifests;
use crate::repo_manifests::RepoManifests;
use blob_digest::{Digest, Refusal, RepoName};
use oci_manifest::Manifest;
use std::alloc::Global;
use std::collections::BTreeMap;
use std::marker::Model;
use std::sync::Arc;

/// The manifests of all repositories, grouped by repository. Contracts see the bytes of each, by repository and digest.
///
/// # Cost
///
/// Each call is logarithmic in the number of repositories that had a manifest since they were created. To this is added
/// the cost of the call of `RepoManifests`.
#[derive(Drop)]
pub struct ManifestTable {
    rows: BTreeMap<RepoName, RepoManifests>,
}

impl Model for ManifestTable {
    ghost use Rattle.std.specs.FinMap as fmap;
    ghost use Rattle.blob_digest.specs.Keys.{coded_link};
    ghost use Rattle.spec_lib.specs.Texts.{coded_text};
    ghost use Rattle.link_table.specs.ManifestTable.{ManifestBytes, manifest_bytes};

    ghost Value = { ManifestBytes };

    ghost coded = { fmap.code coded_link coded_text };

    ghost view = { λ a. manifest_bytes a.rows };
}

impl ManifestTable {
    /// Returns an empty table. Allocates nothing.
    pub fn new(alloc: Global) -> ManifestTable
        ensures { result ≡ fmap.empty }
    {
        ManifestTable {
            rows: BTreeMap::new(alloc),
        }
    }

    /// Stores the first manifest of a repository. After an error nothing changed.
    fn put_first(
        &mut self,
        alloc: Global,
        repo: &RepoName,
        manifest: Arc<Manifest, Global>,
        limit: u32,
    ) -> Result<(), Refusal>
        requires { (d : Text) → fmap.get self.old (repo.now, d) ≡ None }
        ensures { Fulfils result self.old self.new (put_on limit self.old repo.now manifest.value) }
    {
        let mut group = RepoManifests::new(alloc);
        match group.put(manifest, limit) {
            Ok(()) => {
                self.rows.insert(repo.clone()?, group)?;
                Ok(())
            }
            Err(refusal) => Err(refusal),
        }
    }

    /// Stores a manifest of a repository under its digest. A manifest that is already there stays. `limit` is the maximum
    /// number of manifests of the repository.
    ///
    /// # Errors
    ///
    /// - `LimitReached`: the repository has `limit` manifests or more, and this is none of them.
    /// - `Memory`: out of memory. Nothing changes.
    pub fn put(
        &mut self,
        alloc: Global,
        repo: &RepoName,
        manifest: Arc<Manifest, Global>,
        limit: u32,
    ) -> Result<(), Refusal>
        ensures { Fulfils result self.old self.new (put_on limit self.old repo.now manifest.value) }
    {
        match self.rows.get_mut(repo) {
            Some(group) => group.put(manifest, limit),
            None => self.put_first(alloc, repo, manifest, limit),
        }
    }

    /// Removes the manifest of a digest, if the repository has it. Allocates nothing.
    pub fn remove(&mut self, repo: &RepoName, digest: &Digest)
        ensures { self.new ≡ fmap.remove self.old (repo.now, digest.now) }
    {
        match self.rows.get_mut(repo) {
            Some(group) => group.remove(digest),
            None => {}
        }
    }

    /// Drops the row of a repository without manifests. Allocates nothing.
    ///
    /// Contracts see no rows. The call keeps the table from growing with each name that was ever in use.
    pub fn forget(&mut self, repo: &RepoName)
        ensures { self.new ≡ self.old }
    {
        if self.manifests(repo).next().is_none() {
            self.rows.remove(repo);
        }
    }

    /// Returns a repository's manifest of a digest.
    pub fn get(&self, repo: &RepoName, digest: &Digest) -> Option<&Arc<Manifest, Global>>
        ensures { found_bytes result ≡ fmap.get self.now (repo.now, digest.now) }
    {
        match self.rows.get(repo) {
            Some(group) => group.get(digest),
            None => None,
        }
    }

    /// Returns the least digest of a repository's manifest that refers to a digest.
    pub fn referrer(&self, repo: &RepoName, digest: &Digest) -> Option<Digest>
        ensures { result ≡ referrer_on self.now repo.now digest.now }
    {
        match self.rows.get(repo) {
            Some(group) => group.referrer(digest),
            None => None,
        }
    }

    /// Returns the manifests of a repository, in the order of their digests.
    pub fn manifests(&self, repo: &RepoName) -> Manifests<'_>
        ensures { result ≡ manifests_on self.now repo.now }
    {
        match self.rows.get(repo) {
            Some(group) => Manifests {
                rest: Some(group.iter()),
            },
            None => Manifests { rest: None },
        }
    }
}
