//! A book with its pins as a backend of rows.
ghost use Rattle.std.specs.Prelude.{◌≡◌};

use blob_digest::{ByteRange, Digest, Refusal, RepoName};
use oci_manifest::Manifest;
use pin_table::Pins;
use std::alloc::Global;
use std::marker::PhantomData;
use std::sync::Arc;
use store_api::{Backend, Extent};
use store_book::{Book, Lease, Mount, PinsName, Swept};

/// A book with its pins, on which rows are played.
#[derive(Drop)]
pub struct PinnedBook<'p, N: PinsName> {
    pub book: Book,
    pub pins: &'p Pins,
    pub table: PhantomData<N>,
    pub ghost here: { book.table ≡ N.table },
    pub ghost there: { pins.now ≡ N.table },
}

impl<'p, N: PinsName> Backend for PinnedBook<'p, N> {
    type Lease = Lease<'p, N>;

    ghost use Rattle.blobctl.specs.Played.{BookActs};
    ghost use Rattle.store_api.specs.LeaseViews.{LeaseView};

    ghost acts = { λ old request answer new. BookActs old.book request answer new.book };

    ghost lent = { λ l. record { bytes = l.bytes; weight = l.hold.weight } };

    fn start(&mut self, repo: &RepoName) -> Result<u32, Refusal> {
        self.book.start(repo)
    }

    fn status(&mut self, repo: &RepoName, number: u32) -> Result<u64, Refusal> {
        self.book.status(repo, number)
    }

    fn append(
        &mut self,
        repo: &RepoName,
        number: u32,
        range: Option<ByteRange>,
        bytes: &[u8],
    ) -> Result<u64, Refusal> {
        self.book.append(repo, number, range, bytes)
    }

    fn close(
        &mut self,
        repo: &RepoName,
        number: u32,
        digest: &Digest,
        range: Option<ByteRange>,
        bytes: &[u8],
    ) -> Result<u64, Refusal> {
        self.book
            .close(self.pins, repo, number, digest, range, bytes)
    }

    fn abandon(&mut self, repo: &RepoName, number: u32) -> Result<u64, Refusal> {
        self.book.abandon(repo, number)
    }

    fn mount(
        &mut self,
        repo: &RepoName,
        digest: &Digest,
        from: Option<&RepoName>,
    ) -> Result<Mount, Refusal> {
        self.book.mount(repo, digest, from)
    }

    fn delete(&mut self, repo: &RepoName, digest: &Digest) -> Result<(), Refusal> {
        self.book.delete(repo, digest)
    }

    fn put_manifest(&mut self, repo: &RepoName, bytes: &[u8]) -> Result<Digest, Refusal> {
        self.book.put_manifest(repo, bytes)
    }

    fn get_manifest(
        &mut self,
        repo: &RepoName,
        digest: &Digest,
    ) -> Result<Arc<Manifest, Global>, Refusal> {
        self.book.get_manifest(repo, digest)
    }

    fn delete_manifest(&mut self, repo: &RepoName, digest: &Digest) -> Result<(), Refusal> {
        self.book.delete_manifest(repo, digest)
    }

    fn remove_repo(&mut self, repo: &RepoName) -> Result<(), Refusal> {
        self.book.remove_repo(repo)
    }

    fn lease(&mut self, repo: &RepoName, digest: &Digest) -> Result<Lease<'p, N>, Refusal> {
        let pins = self.pins;
        let (pin, blob) = self.book.lease(pins, repo, digest)?;
        Ok(Lease::new(pins, pin, blob))
    }

    fn verify(&mut self, lease: Lease<'p, N>) -> Lease<'p, N> {
        let (pin, blob) = lease.into_parts();
        let pin = self.book.verify(self.pins, pin);
        Lease::new(self.pins, pin, blob)
    }

    fn sweep(&mut self) -> Swept {
        self.book.sweep(self.pins)
    }

    fn sweep_in_parts(&mut self) -> Swept {
        self.book.sweep(self.pins)
    }

    fn size(lease: &Lease<'p, N>) -> u64 {
        lease.len()
    }

    fn extent(lease: &Lease<'p, N>, start: u64, end: u64) -> Result<Extent, Refusal> {
        Ok(Extent::new(lease.blob().clone()?, start, end))
    }

    fn share(lease: Lease<'p, N>) -> Result<(Lease<'p, N>, Lease<'p, N>), (Refusal, Lease<'p, N>)> {
        lease.share()
    }

    fn give_back(lease: Lease<'p, N>) {
        lease.give_back()
    }
}
