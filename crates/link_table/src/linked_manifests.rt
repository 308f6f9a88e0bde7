//! The calls on manifests.

ghost use Rattle.std.specs.Prelude.{◌≡◌, ◌<◌, length, slice_get};
ghost use Rattle.std.specs.FinMap as fmap;
ghost use Rattle.link_table.specs.Linked.{drop_manifest, put_manifest};
ghost use Rattle.link_table.specs.ManifestTable.{manifests_on, referrer_on, Fulfils};
ghost use Rattle.link_table.specs.Manifests.{found_bytes, found_manifest};

use crate::links::Links;
use crate::manifests::Manifests;
use blob_digest::{Digest, Refusal, RepoName};
use oci_manifest::Manifest;
use std::alloc::Global;
use std::sync::Arc;

impl Links {
    /// Stores a manifest of a tenant's repository under its digest, and shares its bytes.
    ///
    /// A manifest that is already there stays, and is accepted even if the repository is full.
    ///
    /// # Errors
    ///
    /// - `LimitReached`: the repository has as many manifests as the tenant's limit, and this is none of them.
    /// - `Memory`: out of memory. Nothing changes.
    ///
    /// # Cost
    ///
    /// Logarithmic in the number of repositories that had a manifest since they were created, and in the number of the repository's
    /// manifests. Each reference is logarithmic in the number of the repository's references.
    pub fn put_manifest(
        &mut self,
        tenant: u16,
        repo: &RepoName,
        manifest: Arc<Manifest, Global>,
    ) -> Result<(), Refusal>
        requires { tenant < length self.old.tenants }
        ensures { Fulfils result self.old self.new
            (put_manifest self.old tenant repo.now manifest.value) }
    {
        let limit = self.limits(tenant).manifests;
        self.manifests.put(self.alloc, repo, manifest, limit)
    }

    /// Removes the manifest of a digest, if the repository has it.
    ///
    /// # Cost
    ///
    /// As `put_manifest`.
    ///
    /// # Memory
    ///
    /// Allocates nothing.
    pub fn drop_manifest(&mut self, repo: &RepoName, digest: &Digest)
        ensures { self.new ≡ drop_manifest self.old repo.now digest.now }
    {
        self.manifests.remove(repo, digest);
    }

    /// Returns a repository's manifest of a digest.
    ///
    /// # Cost
    ///
    /// Logarithmic in the number of repositories that had a manifest since they were created, and in the number of the repository's
    /// manifests. Copies no bytes.
    pub fn manifest(&self, repo: &RepoName, digest: &Digest) -> Option<&Arc<Manifest, Global>>
        ensures { found_bytes result ≡ fmap.get self.now.manifests (repo.now, digest.now) }
    {
        self.manifests.get(repo, digest)
    }

    /// Returns the least digest of a repository's manifest that refers to a digest.
    ///
    /// # Cost
    ///
    /// Logarithmic in the number of repositories that had a manifest since they were created, and in the number of the repository's
    /// references.
    pub fn referrer(&self, repo: &RepoName, digest: &Digest) -> Option<Digest>
        ensures { result ≡ referrer_on self.now.manifests repo.now digest.now }
    {
        self.manifests.referrer(repo, digest)
    }

    /// Returns the manifests of a repository, in the order of their digests, each with its digest.
    ///
    /// # Cost
    ///
    /// Finds the repository. Each item takes one step.
    pub fn manifests(&self, repo: &RepoName) -> Manifests<'_>
        ensures { result ≡ manifests_on self.now.manifests repo.now }
    {
        self.manifests.manifests(repo)
    }

    /// Returns the manifest of a repository at index `i`, with its digest.
    ///
    /// # Cost
    ///
    /// Takes `i` steps. Use `manifests` to read all of them.
    pub fn manifest_at(&self, repo: &RepoName, i: usize) -> Option<(Digest, &Manifest)>
        ensures { found_manifest result ≡ slice_get (manifests_on self.now.manifests repo.now) i }
    {
        self.manifests(repo).nth(i)
    }
}
