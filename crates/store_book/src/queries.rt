//! Queries of a book: the sizes of blobs and manifests, what a tenant uses, and the number of free slots. They allocate
//! no memory, and no total counts them.

ghost use Rattle.std.specs.Prelude.{◌≡◌, count_by};
ghost use Rattle.store_book.specs.FreeSlots.{is_free};
ghost use Rattle.store_model.specs.Queries.{stat, stat_manifest, usage, slot_use, repo_count, free_slots};

use crate::book::Book;
use crate::keep::{find_linked, held_len};
use blob_digest::{Digest, Refusal, RepoName};
use store_model::{SlotUse, Usage};

impl Book {
    /// Returns the size in bytes of a blob that is linked in a repository (OCI Distribution Specification 1.1,
    /// "Checking if content exists in the registry").
    ///
    /// No lease is taken.
    ///
    /// # Errors
    /// - `NameUnknown` if the tenant does not exist.
    /// - `BlobUnknown` if the digest is not linked in the repository.
    ///
    /// # Cost
    /// Finding the blob, as in `lease`.
    pub fn stat(&self, repo: &RepoName, digest: &Digest) -> Result<u64, Refusal>
        ensures { result ≡ stat self.now.catalog repo.now digest.now }
    {
        let tenant = self.links.tenant(repo)?;
        let slots = self.slots.table();
        match find_linked(&self.links, slots, tenant, repo, digest) {
            Some(slot) => Ok(held_len(slots, slot)),
            None => Err(Refusal::BlobUnknown),
        }
    }

    /// Returns the size in bytes of the manifest that a repository has under a digest (OCI Distribution Specification
    /// 1.1, "Checking if content exists in the registry").
    ///
    /// # Errors
    /// - `NameUnknown` if the tenant does not exist.
    /// - `ManifestUnknown` if the repository has no manifest under the digest.
    ///
    /// # Cost
    /// As `get_manifest`.
    pub fn stat_manifest(&self, repo: &RepoName, digest: &Digest) -> Result<u64, Refusal>
        ensures { result ≡ stat_manifest self.now.catalog repo.now digest.now }
    {
        let _ = self.links.tenant(repo)?;
        match self.links.manifest(repo, digest) {
            Some(manifest) => Ok(manifest.bytes().len() as u64),
            None => Err(Refusal::ManifestUnknown),
        }
    }

    /// Returns the use and the quota of a repository's tenant.
    ///
    /// The repository need not exist: a tenant's own name is the name of one of its repositories.
    ///
    /// # Errors
    /// - `NameUnknown` if the tenant does not exist.
    ///
    /// # Cost
    /// Only that of finding the tenant: both numbers are stored.
    pub fn usage(&self, repo: &RepoName) -> Result<Usage, Refusal>
        ensures { result ≡ usage self.now.catalog repo.now }
    {
        let tenant = self.links.tenant(repo)?;
        Ok(Usage {
            used: self.links.used(tenant),
            quota: self.links.quota(tenant),
        })
    }

    /// Returns the number of the distinct blobs of a repository's tenant, and its share.
    ///
    /// # Errors
    /// - `NameUnknown` if the tenant does not exist.
    ///
    /// # Cost
    /// As `usage`.
    pub fn slot_use(&self, repo: &RepoName) -> Result<SlotUse, Refusal>
        ensures { result ≡ slot_use self.now.catalog repo.now }
    {
        let tenant = self.links.tenant(repo)?;
        Ok(SlotUse {
            blobs: self.links.blob_count(tenant),
            share: self.links.share(tenant),
        })
    }

    /// Returns the number of the repositories of a repository's tenant.
    ///
    /// # Errors
    /// - `NameUnknown` if the tenant does not exist.
    ///
    /// # Cost
    /// As `usage`.
    pub fn repo_count(&self, repo: &RepoName) -> Result<u64, Refusal>
        ensures { result ≡ repo_count self.now.catalog repo.now }
    {
        let tenant = self.links.tenant(repo)?;
        Ok(self.links.repo_count(tenant))
    }

    /// Returns how many slots are free: before the next sweep, that many blobs with new digests can be closed.
    ///
    /// A slot with a condemned blob is not free, and neither is a retired one.
    ///
    /// # Cost
    /// Constant: the number is stored.
    pub fn free_slots(&self) -> u32
        ensures seen { result ≡ count_by is_free self.now.slots }
        ensures left { result ≡ free_slots self.now.catalog }
    {
        self.slots.table().free_count()
    }
}
