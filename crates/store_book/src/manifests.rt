//! The manifests of a repository: the check of their references, and the book's commands on them.

ghost use Rattle.std.specs.Prelude.{◌≡◌, ◌<◌, length, true};
ghost use Rattle.std.specs.Arc.{arc_value};
ghost use Rattle.blob_digest.specs.Outcomes.{Answers};
ghost use Rattle.link_table.specs.Linked.{is_repo_of_tenant};
ghost use Rattle.store_book.specs.BookCalls.{DeletesManifest, KeepsSlots, PutsManifest};
ghost use Rattle.store_book.specs.Internal.Storing.{check_held, AddsManifest, IsUnlinkedIfAbsent};
ghost use Rattle.store_model.specs.Commands.{check_tenant, get_manifest};

use crate::book::Book;
use blob_digest::{Digest, Refusal, RepoName};
use link_table::Links;
use oci_manifest::{Manifest, read};
use std::alloc::Global;
use std::sync::Arc;

/// Fails with `ManifestBlobUnknown` for the first of these digests that is not linked in a tenant's repository. The
/// repository is found once.
pub(crate) fn check_linked(
    links: &Links,
    tenant: u16,
    repo: &RepoName,
    digests: &[Digest],
) -> Result<(), Refusal>
    requires there { tenant < length links.now.tenants }
    requires own { is_repo_of_tenant links.now.tenants tenant repo.now ≡ true }
    ensures { result ≡ check_held links.now repo.now digests.now }
{
    match links.first_unlinked(tenant, repo, digests) {
        Some(digest) => Err(Refusal::ManifestBlobUnknown { digest }),
        None => Ok(()),
    }
}

/// Adds a manifest to a repository under the digest of its bytes. If the repository is new, the call creates it.
///
/// Any error removes a new repository again.
///
/// # Errors
/// - `LimitReached` if the repository is new and the tenant has as many as its limit, or the repository has as many
///   manifests as the tenant's limit.
/// - `Memory` if out of memory.
pub(crate) fn add_manifest(
    links: &mut Links,
    tenant: u16,
    repo: &RepoName,
    manifest: Arc<Manifest, Global>,
) -> Result<(), Refusal>
    requires there { tenant < length links.old.tenants }
    requires own { is_repo_of_tenant links.old.tenants tenant repo.now ≡ true }
    requires unlinked { IsUnlinkedIfAbsent links.old repo.now }
    ensures { AddsManifest result links.old links.new tenant repo.now manifest.value }
{
    let is_new = links.appear(tenant, repo)?;
    match links.put_manifest(tenant, repo, manifest) {
        Ok(()) => Ok(()),
        Err(refusal) => {
            if is_new {
                links.vanish(tenant, repo);
            }
            Err(refusal)
        }
    }
}

impl Book {
    /// Checks that the tenant of a repository exists, as every command does first. Tenants never change.
    ///
    /// # Errors
    /// - `NameUnknown` if the tenant does not exist.
    ///
    /// # Cost
    /// Logarithmic in the number of tenants.
    ///
    /// # Memory
    /// None is allocated.
    pub fn check_tenant(&self, repo: &RepoName) -> Result<(), Refusal>
        ensures { result ≡ check_tenant self.now.catalog repo.now }
    {
        let _ = self.links.tenant(repo)?;
        Ok(())
    }

    /// Stores a manifest under the SHA-256 digest of its bytes, and returns that digest (OCI Distribution
    /// Specification 1.1, "Pushing Manifests").
    ///
    /// If the repository is new, the call creates it. A manifest that the repository has is unchanged. No tenant is
    /// charged for manifests.
    ///
    /// # Errors
    /// - `NameUnknown` if the tenant does not exist.
    /// - `SizeInvalid` if there are more than 4,194,304 bytes.
    /// - `ManifestInvalid` if the bytes are not a manifest.
    /// - The errors of `keep_manifest` after the first.
    ///
    /// A failed call creates no repository.
    ///
    /// # Cost
    /// The bytes are parsed, hashed and copied once. The rest is `keep_manifest`.
    pub fn put_manifest(&mut self, repo: &RepoName, bytes: &[u8]) -> Result<Digest, Refusal>
        ensures does { PutsManifest result self.old self.new repo.now bytes.now }
        ensures slots { KeepsSlots self.old self.new }
    {
        self.check_tenant(repo)?;
        let manifest = read(self.alloc, bytes)?;
        self.keep_manifest(repo, manifest)
    }

    /// Stores a manifest that was read already. It is the last part of `put_manifest`.
    ///
    /// # Errors
    /// - `NameUnknown` if the tenant does not exist.
    /// - `ManifestBlobUnknown` with the first reference that is not linked in the repository.
    /// - `LimitReached` if the manifest is new, and its repository is new and the tenant has as many as its limit.
    /// - `LimitReached` if the manifest is new and the repository has as many as the tenant's limit.
    /// - `Memory` if out of memory.
    ///
    /// A failed call creates no repository.
    ///
    /// # Cost
    /// For each reference, logarithmic in the number of the repository's blobs. If the manifest is new, it is also
    /// logarithmic in the number of references of the repository's manifests. No byte is hashed or copied.
    pub fn keep_manifest(&mut self, repo: &RepoName, manifest: Manifest) -> Result<Digest, Refusal>
        ensures does { PutsManifest result self.old self.new repo.now manifest }
        ensures slots { KeepsSlots self.old self.new }
    {
        let tenant = self.links.tenant(repo)?;
        check_linked(&self.links, tenant, repo, manifest.refs())?;
        let digest = manifest.digest();
        if self.links.manifest(repo, &digest).is_some() {
            return Ok(digest);
        }
        let manifest = Arc::new(self.alloc, manifest)?;
        add_manifest(&mut self.links, tenant, repo, manifest)?;
        Ok(digest)
    }

    /// Returns the manifest that a repository has under a digest (OCI Distribution Specification 1.1, "Pulling
    /// manifests").
    ///
    /// Manifests are stored under SHA-256 digests only.
    ///
    /// # Errors
    /// - `NameUnknown` if the tenant does not exist.
    /// - `ManifestUnknown` if the repository has no manifest under the digest.
    /// - `Memory` if out of memory.
    ///
    /// # Cost
    /// Logarithmic in the number of manifests. The bytes are shared, not copied.
    pub fn get_manifest(
        &self,
        repo: &RepoName,
        digest: &Digest,
    ) -> Result<Arc<Manifest, Global>, Refusal>
        ensures { Answers arc_value result (get_manifest self.now.catalog repo.now digest.now) }
    {
        let _ = self.links.tenant(repo)?;
        let Some(manifest) = self.links.manifest(repo, digest) else {
            return Err(Refusal::ManifestUnknown);
        };
        Ok(manifest.clone()?)
    }

    /// Removes a manifest from a repository (OCI Distribution Specification 1.1, "Deleting Manifests").
    ///
    /// A manifest that `get_manifest` returned stays valid.
    ///
    /// # Errors
    /// - `NameUnknown` if the tenant does not exist.
    /// - `ManifestUnknown` if the repository has no manifest under the digest.
    ///
    /// # Memory
    /// None is allocated.
    pub fn delete_manifest(&mut self, repo: &RepoName, digest: &Digest) -> Result<(), Refusal>
        ensures does { DeletesManifest result self.old self.new repo.now digest.now }
        ensures slots { KeepsSlots self.old self.new }
    {
        let _ = self.links.tenant(repo)?;
        let Some(_) = self.links.manifest(repo, digest) else {
            return Err(Refusal::ManifestUnknown);
        };
        self.links.drop_manifest(repo, digest);
        Ok(())
    }
}
