//! The backend handle of a worker: the shared store and the worker's desk.
ghost use Rattle.std.specs.Prelude.{◌≡◌};

use crate::lease::Lease;
use crate::store::Store;
use blob_digest::{ByteRange, Digest, Refusal, RepoName};
use content_files::ContentStore;
use locked_book::{Desk, Naming};
use oci_manifest::Manifest;
use std::alloc::Global;
use std::sync::{Arc, Wait};
use store_api::{Backend, Extent, Queries};
use store_book::{Mount, SlotUse, Swept, Usage};
use upload_table::Hashing;

/// A store with a worker's desk, on which rows are played. Each request is the store's call of its name. Contracts see
/// how the desk's amounts grow, and the steps that the desk makes.
pub struct StoreBackend<'s, W: Wait, S: Naming, F: ContentStore> {
    /// The runtime by which the calls wait.
    pub rt: &'s W,
    /// The store, which other workers use too.
    pub store: &'s Store<S>,
    /// The files that contents are written to.
    pub files: &'s F,
    /// The worker's desk.
    pub desk: Desk<S>,
}

impl<'s, W: Wait, S: Naming, F: ContentStore> Backend for StoreBackend<'s, W, S, F> {
    type Lease = Lease<'s, S>;

    ghost use Rattle.blob_store.specs.StoreBackends.{DeskActs};
    ghost use Rattle.store_api.specs.LeaseViews.{LeaseView};

    ghost acts = { λ old request answer new. DeskActs S.names old.desk request answer new.desk };

    ghost lent = { λ l. record { bytes = l.bytes; weight = l.hold.weight } };

    fn start(&mut self, repo: &RepoName) -> Result<u32, Refusal> {
        self.store.start(self.rt, &mut self.desk, repo)
    }

    fn status(&mut self, repo: &RepoName, number: u32) -> Result<u64, Refusal> {
        self.store.status(self.rt, &mut self.desk, repo, number)
    }

    fn append(
        &mut self,
        repo: &RepoName,
        number: u32,
        range: Option<ByteRange>,
        bytes: &[u8],
    ) -> Result<u64, Refusal> {
        let (files, hashing) = (self.files, Hashing::Open);
        self.store.append_by(
            self.rt,
            files,
            &mut self.desk,
            repo,
            number,
            range,
            bytes,
            hashing,
        )
    }

    fn close(
        &mut self,
        repo: &RepoName,
        number: u32,
        digest: &Digest,
        range: Option<ByteRange>,
        bytes: &[u8],
    ) -> Result<u64, Refusal> {
        let hashing = Hashing::Last(digest.algorithm());
        self.store.close_by(
            self.rt,
            self.files,
            &mut self.desk,
            repo,
            number,
            digest,
            range,
            bytes,
            hashing,
        )
    }

    fn abandon(&mut self, repo: &RepoName, number: u32) -> Result<u64, Refusal> {
        self.store.abandon(self.rt, &mut self.desk, repo, number)
    }

    fn mount(
        &mut self,
        repo: &RepoName,
        digest: &Digest,
        from: Option<&RepoName>,
    ) -> Result<Mount, Refusal> {
        self.store
            .mount(self.rt, &mut self.desk, repo, digest, from)
    }

    fn delete(&mut self, repo: &RepoName, digest: &Digest) -> Result<(), Refusal> {
        self.store.delete(self.rt, &mut self.desk, repo, digest)
    }

    fn put_manifest(&mut self, repo: &RepoName, bytes: &[u8]) -> Result<Digest, Refusal> {
        self.store
            .put_manifest(self.rt, &mut self.desk, repo, bytes)
    }

    fn get_manifest(
        &mut self,
        repo: &RepoName,
        digest: &Digest,
    ) -> Result<Arc<Manifest, Global>, Refusal> {
        self.store
            .get_manifest(self.rt, &mut self.desk, repo, digest)
    }

    fn delete_manifest(&mut self, repo: &RepoName, digest: &Digest) -> Result<(), Refusal> {
        self.store
            .delete_manifest(self.rt, &mut self.desk, repo, digest)
    }

    fn remove_repo(&mut self, repo: &RepoName) -> Result<(), Refusal> {
        self.store.remove_repo(self.rt, &mut self.desk, repo)
    }

    fn lease(&mut self, repo: &RepoName, digest: &Digest) -> Result<Lease<'s, S>, Refusal> {
        let store = self.store;
        store.lease(self.rt, &mut self.desk, repo, digest)
    }

    fn verify(&mut self, lease: Lease<'s, S>) -> Lease<'s, S> {
        let store = self.store;
        store.verify(self.rt, lease)
    }

    fn sweep(&mut self) -> Swept {
        self.store.sweep_at(self.rt, &mut self.desk)
    }

    fn sweep_in_parts(&mut self) -> Swept {
        self.store.sweep_in_parts(self.rt, &mut self.desk)
    }

    fn size(lease: &Lease<'s, S>) -> u64 {
        lease.len()
    }

    fn extent(lease: &Lease<'s, S>, start: u64, end: u64) -> Result<Extent, Refusal> {
        Ok(Extent::new(lease.blob().clone()?, start, end))
    }

    fn share(lease: Lease<'s, S>) -> Result<(Lease<'s, S>, Lease<'s, S>), (Refusal, Lease<'s, S>)> {
        lease.share()
    }

    fn give_back(lease: Lease<'s, S>) {
        lease.give_back()
    }
}

impl<'s, W: Wait, S: Naming, F: ContentStore> Queries for StoreBackend<'s, W, S, F> {
    ghost use Rattle.blob_store.specs.StoreBackends.{IsFound};

    ghost finds = { λ _ catalog. IsFound S.names catalog };

    fn stat(&self, repo: &RepoName, digest: &Digest) -> Result<u64, Refusal> {
        self.store.stat(self.rt, repo, digest)
    }

    fn stat_manifest(&self, repo: &RepoName, digest: &Digest) -> Result<u64, Refusal> {
        self.store.stat_manifest(self.rt, repo, digest)
    }

    fn usage(&self, repo: &RepoName) -> Result<Usage, Refusal> {
        self.store.usage(self.rt, repo)
    }

    fn slot_use(&self, repo: &RepoName) -> Result<SlotUse, Refusal> {
        self.store.slot_use(self.rt, repo)
    }

    fn repo_count(&self, repo: &RepoName) -> Result<u64, Refusal> {
        self.store.repo_count(self.rt, repo)
    }

    fn sync_count(&self) -> u64 {
        self.store.sync_count(self.rt)
    }

    fn free_slots(&self) -> u32 {
        self.store.free_slots(self.rt)
    }
}
