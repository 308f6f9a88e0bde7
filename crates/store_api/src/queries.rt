//! The queries of a backend.
ghost use Rattle.store_model.specs.Catalog.{Catalog};
ghost use Rattle.store_api.specs.Queries.{IsQueryResult};
ghost use Rattle.store_model.specs.Queries.{free_slots, repo_count, slot_use, stat, stat_manifest, usage};

use blob_digest::{Digest, Refusal, RepoName};
use store_model::{SlotUse, Usage};

/// The queries of a backend, which change nothing.
///
/// Each result is that of some catalog that the backend finds: its own, or one that a shared store has during the
/// call.
pub trait Queries {
    // A catalog that the backend may find.
    ghost finds: { Self → Catalog → Type 0 };

    /// Returns the size in bytes of a blob that is linked in a repository.
    fn stat(&self, repo: &RepoName, digest: &Digest) -> Result<u64, Refusal>
        ensures { IsQueryResult finds self.now (λ c. stat c repo.now digest.now) result };

    /// Returns the size in bytes of a manifest of a repository.
    fn stat_manifest(&self, repo: &RepoName, digest: &Digest) -> Result<u64, Refusal>
        ensures { IsQueryResult finds self.now (λ c. stat_manifest c repo.now digest.now) result };

    /// Returns the usage and the quota of a repository's tenant.
    fn usage(&self, repo: &RepoName) -> Result<Usage, Refusal>
        ensures { IsQueryResult finds self.now (λ c. usage c repo.now) result };

    /// Returns the number of the distinct blobs of a repository's tenant, and its share of the slots.
    fn slot_use(&self, repo: &RepoName) -> Result<SlotUse, Refusal>
        ensures { IsQueryResult finds self.now (λ c. slot_use c repo.now) result };

    /// Returns the number of the repositories of a repository's tenant.
    fn repo_count(&self, repo: &RepoName) -> Result<u64, Refusal>
        ensures { IsQueryResult finds self.now (λ c. repo_count c repo.now) result };

    /// Returns how often the log was synced, for those who watch the store. No contract describes this number.
    fn sync_count(&self) -> u64;

    /// Returns the number of free slots.
    fn free_slots(&self) -> u32
        ensures { IsQueryResult finds self.now free_slots result };
}
