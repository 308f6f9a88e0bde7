//! Queries of a store that are not commands.

ghost use Rattle.std.specs.Prelude.{◌≡◌, IfSome};
ghost use Rattle.std.specs.Arc.{arc_value};
ghost use Rattle.store_book.specs.BookCalls.{IsStoredBlob};
ghost use Rattle.store_model.specs.Queries.{stat, stat_manifest, usage, slot_use, repo_count, free_slots};
ghost use Rattle.blob_store.specs.StoreCalls.{InSomeCatalog};

use crate::store::Store;
use blob_digest::{Blob, Digest, Refusal, RepoName};
use locked_book::Naming;
use std::alloc::Global;
use std::sync::{Arc, Wait};
use store_book::{SlotUse, Usage};

/// Queries: they use no desk, are no steps of the history and are counted nowhere. Each takes the lock for one look-up,
/// changes nothing, copies nothing and allocates nothing. Its result is that of some book of this store: of the one
/// that it finds under the lock.
impl<S: Naming> Store<S> {
    /// Returns the size in bytes of a blob that is linked in a repository (OCI Distribution Specification 1.1,
    /// "Checking if content exists in the registry"). No lease is taken.
    ///
    /// # Errors
    ///
    /// Those of `store_book::Book::stat`.
    pub fn stat(&self, rt: &impl Wait, repo: &RepoName, digest: &Digest) -> Result<u64, Refusal>
        ensures { InSomeCatalog S.names (λ c. result ≡ stat c repo.now digest.now) }
    {
        self.locked(rt).book().stat(repo, digest)
    }

    /// Returns a share of the blob of a slot, if the slot has one. Fails only if out of memory. No lease is taken.
    pub fn blob_in(&self, rt: &impl Wait, slot: u32) -> Option<Arc<Blob, Global>>
        ensures { InSomeCatalog S.names (λ c. IfSome result (λ b. IsStoredBlob c (arc_value b))) }
    {
        self.locked(rt).book().blob_in(slot)
    }

    /// Returns the size in bytes of the manifest that a repository has under a digest (OCI Distribution Specification
    /// 1.1, "Checking if content exists in the registry").
    ///
    /// # Errors
    ///
    /// Those of `store_book::Book::stat_manifest`.
    pub fn stat_manifest(
        &self,
        rt: &impl Wait,
        repo: &RepoName,
        digest: &Digest,
    ) -> Result<u64, Refusal>
        ensures { InSomeCatalog S.names (λ c. result ≡ stat_manifest c repo.now digest.now) }
    {
        self.locked(rt).book().stat_manifest(repo, digest)
    }

    /// Returns the use and the quota of the tenant of a repository. The repository need not exist: a tenant's own name
    /// is the name of one of its repositories.
    ///
    /// # Errors
    ///
    /// Those of `store_book::Book::usage`.
    pub fn usage(&self, rt: &impl Wait, repo: &RepoName) -> Result<Usage, Refusal>
        ensures { InSomeCatalog S.names (λ c. result ≡ usage c repo.now) }
    {
        self.locked(rt).book().usage(repo)
    }

    /// Returns the number of the distinct blobs of a repository's tenant, and its share of the slots.
    ///
    /// # Errors
    ///
    /// Those of `store_book::Book::slot_use`.
    pub fn slot_use(&self, rt: &impl Wait, repo: &RepoName) -> Result<SlotUse, Refusal>
        ensures { InSomeCatalog S.names (λ c. result ≡ slot_use c repo.now) }
    {
        self.locked(rt).book().slot_use(repo)
    }

    /// Returns the number of the repositories of a repository's tenant.
    ///
    /// # Errors
    ///
    /// Those of `store_book::Book::repo_count`.
    pub fn repo_count(&self, rt: &impl Wait, repo: &RepoName) -> Result<u64, Refusal>
        ensures { InSomeCatalog S.names (λ c. result ≡ repo_count c repo.now) }
    {
        self.locked(rt).book().repo_count(repo)
    }

    /// Returns how often the log of the store was synced since the store was made. It is 0 for a store in memory. No contract
    /// describes this number.
    pub fn sync_count(&self, rt: &impl Wait) -> u64 {
        self.locked(rt).sync_count()
    }

    /// Returns how many slots are free: neither in use, by a live or a condemned blob, nor retired.
    pub fn free_slots(&self, rt: &impl Wait) -> u32
        ensures { InSomeCatalog S.names (λ c. result ≡ free_slots c) }
    {
        self.locked(rt).book().free_slots()
    }
}
