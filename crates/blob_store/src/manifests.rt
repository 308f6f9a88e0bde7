//! The commands of a store on manifests.

ghost use Rattle.std.specs.Prelude.{◌≡◌, ◌<◌, Err, IfErr, IfOk, IsSome, length};
ghost use Rattle.std.specs.Arc.{arc_value};
ghost use Rattle.blob_digest.specs.Digests.{sha256_text};
ghost use Rattle.oci_manifest.specs.Manifests.{max_manifest, refs_of};
ghost use Rattle.locked_book.specs.History.{IsUnread};
ghost use Rattle.locked_book.specs.Logging.{manifest_bytes};
ghost use Rattle.blob_store.specs.StoreCalls.{DeletesManifest, GetsManifest, PutsManifest};
ghost use Rattle.blob_store.specs.StoreCalls.{FailsWith, IsLengthRefusal, IsNoManifest, RefusesNonManifest};
ghost use Rattle.blob_digest.specs.declared.refusal.Refusal.TheVariants.{ManifestInvalid, SizeInvalid};

use crate::store::Store;
use blob_digest::{Digest, Refusal, RepoName};
use locked_book::{Desk, Naming, manifest_record};
use oci_manifest::{Manifest, read};
use std::alloc::Global;
use std::sync::{Arc, Wait};

impl<S: Naming> Store<S> {
    /// Parses a manifest, and makes the record of its put.
    fn read_manifest(&self, repo: &RepoName, bytes: &[u8]) -> Result<(Manifest, Vec<u8>), Refusal>
        ensures value { IfOk result (λ r. r.0 ≡ bytes.now) }
        ensures accepted { IfOk result (λ _. IsSome (refs_of bytes.now)) }
        ensures made { IfOk result (λ r. (r.1).items
            ≡ manifest_bytes S.names.policy repo.now bytes.now) }
        ensures too_long { max_manifest < length bytes.now → result ≡ Err SizeInvalid }
        ensures unread { IfErr result (IsUnread bytes.now) }
    {
        let manifest = read(self.alloc, bytes)?;
        let record = manifest_record(self.alloc, self.policy, repo, bytes)?;
        Ok((manifest, record))
    }

    /// Stores a manifest under the SHA-256 digest of its bytes, and returns that digest (OCI Distribution Specification
    /// 1.1, "Pushing Manifests"). The repository appears with its first manifest.
    ///
    /// # Cost
    ///
    /// Parses, hashes and copies the bytes, without the lock. The lock is taken at most twice: to check the tenant, and
    /// to add the manifest or the failed step.
    pub fn put_manifest(
        &self,
        rt: &impl Wait,
        desk: &mut Desk<S>,
        repo: &RepoName,
        bytes: &[u8],
    ) -> Result<Digest, Refusal>
        ensures makes { PutsManifest S.names repo.now bytes.now result desk.old desk.new }
        ensures digest { IfOk result (λ d. d ≡ sha256_text bytes.now) }
        ensures too_long { max_manifest < length bytes.now → FailsWith IsLengthRefusal result }
        ensures size { IfErr result (λ e. e ≡ SizeInvalid → max_manifest < length bytes.now) }
        ensures no_manifest { RefusesNonManifest bytes.now result }
        ensures invalid { IfErr result (λ e. e ≡ ManifestInvalid → IsNoManifest bytes.now) }
    {
        self.locked(rt).check_tenant(desk, repo, bytes)?;
        match self.read_manifest(repo, bytes) {
            Ok((manifest, record)) => self.locked(rt).keep_manifest(desk, repo, manifest, record),
            Err(unread) => Err(self.locked(rt).refuse_manifest(desk, repo, bytes, unread)),
        }
    }

    /// Returns the manifest that a repository has under a digest (OCI Distribution Specification 1.1, "Pulling
    /// manifests"). Its bytes are shared, not copied.
    pub fn get_manifest(
        &self,
        rt: &impl Wait,
        desk: &mut Desk<S>,
        repo: &RepoName,
        digest: &Digest,
    ) -> Result<Arc<Manifest, Global>, Refusal>
        ensures makes { GetsManifest S.names repo.now digest.now result desk.old desk.new }
        ensures digest { IfOk result (λ m. sha256_text (arc_value m) ≡ digest.now) }
    {
        self.locked(rt).get_manifest(desk, repo, digest)
    }

    /// Removes a manifest from a repository (OCI Distribution Specification 1.1, "Deleting Manifests").
    ///
    /// # Memory
    ///
    /// Allocates nothing.
    pub fn delete_manifest(
        &self,
        rt: &impl Wait,
        desk: &mut Desk<S>,
        repo: &RepoName,
        digest: &Digest,
    ) -> Result<(), Refusal>
        ensures { DeletesManifest S.names repo.now digest.now result desk.old desk.new }
    {
        self.locked(rt).delete_manifest(desk, repo, digest)
    }
}
