//! The backends of a store.
ghost use Rattle.std.specs.Prelude.{◌≡◌, ◌^◌, ◌<◌, ◌≤◌, length};
ghost use Rattle.store_api.specs.Answers.{Answer, Swept as SweptAnswer};
ghost use Rattle.store_api.specs.Backend.{Abandons, Appends, Closes, ConfirmsLease, DeletesLink, DeletesManifest, GetsManifest, GivesExtent, LeasesBlob, Mounts, PerformsCommand, PutsManifest, RemovesRepo, ReportsStatus, SplitsLease, Starts};
ghost use Rattle.store_api.specs.CommandViews.{command_view};
ghost use Rattle.store_api.specs.Commands.{StoreRequest, Sweeps, SweepsInParts};
ghost use Rattle.store_api.specs.LeaseViews.{LeaseView};

use crate::command::Command;
use crate::extent::Extent;
use crate::reply::{Reply, mount_reply};
use blob_digest::{ByteRange, Digest, Refusal, RepoName};
use oci_manifest::Manifest as OciManifest;
use std::alloc::Global;
use std::sync::Arc;
use store_model::{Mount, Swept};

/// A backend of a store: a store that the program alone uses, or a worker's handle on a shared store.
///
/// Each implementation chooses the relation `acts`, which states the result and the effect of each method.
pub trait Backend {
    /// A lease of a blob of this backend. Each lease must be passed to `share` or `give_back`.
    type Lease;

    // The steps: state before, request, answer, state after. The answer to a lease is the bytes of its blob.
    ghost acts: { Self → StoreRequest → Answer → Self → Type 0 };

    // A lease as contracts see it: the bytes of its blob, and its weight.
    ghost lent: { Self.Lease → LeaseView };

    /// Opens an upload session, and returns its number.
    fn start(&mut self, repo: &RepoName) -> Result<u32, Refusal>
        ensures { Starts acts self.old repo.now result self.new };

    /// Returns the number of bytes that a session has received.
    fn status(&mut self, repo: &RepoName, number: u32) -> Result<u64, Refusal>
        ensures { ReportsStatus acts self.old repo.now number result self.new };

    /// Adds a chunk to a session, and returns the session's length.
    fn append(
        &mut self,
        repo: &RepoName,
        number: u32,
        range: Option<ByteRange>,
        bytes: &[u8],
    ) -> Result<u64, Refusal>
        ensures { Appends acts self.old repo.now number range bytes.now result self.new };

    /// Closes a session with its last chunk, and returns the blob's size.
    fn close(
        &mut self,
        repo: &RepoName,
        number: u32,
        digest: &Digest,
        range: Option<ByteRange>,
        bytes: &[u8],
    ) -> Result<u64, Refusal>
        ensures { Closes acts self.old repo.now number digest.now range bytes.now result self.new };

    /// Abandons a session, and returns the number of bytes that it had received.
    fn abandon(&mut self, repo: &RepoName, number: u32) -> Result<u64, Refusal>
        ensures { Abandons acts self.old repo.now number result self.new };

    /// Links a blob from the source repository or, without a source, from any repository of the tenant.
    ///
    /// If the tenant has no such blob, it opens an upload session.
    fn mount(
        &mut self,
        repo: &RepoName,
        digest: &Digest,
        from: Option<&RepoName>,
    ) -> Result<Mount, Refusal>
        ensures { Mounts acts self.old repo.now digest.now from.entry result self.new };

    /// Removes the link between a repository and a blob.
    fn delete(&mut self, repo: &RepoName, digest: &Digest) -> Result<(), Refusal>
        ensures { DeletesLink acts self.old repo.now digest.now result self.new };

    /// Stores a manifest in a repository, and returns its digest.
    fn put_manifest(&mut self, repo: &RepoName, bytes: &[u8]) -> Result<Digest, Refusal>
        ensures { PutsManifest acts self.old repo.now bytes.now result self.new };

    /// Returns a manifest of a repository, without a copy.
    fn get_manifest(
        &mut self,
        repo: &RepoName,
        digest: &Digest,
    ) -> Result<Arc<OciManifest, Global>, Refusal>
        ensures { GetsManifest acts self.old repo.now digest.now result self.new };

    /// Removes a manifest from a repository.
    fn delete_manifest(&mut self, repo: &RepoName, digest: &Digest) -> Result<(), Refusal>
        ensures { DeletesManifest acts self.old repo.now digest.now result self.new };

    /// Removes a repository that has no link, no manifest and no session.
    fn remove_repo(&mut self, repo: &RepoName) -> Result<(), Refusal>
        ensures { RemovesRepo acts self.old repo.now result self.new };

    /// Returns a new lease, of weight 1,024, of a blob that is linked in a repository.
    fn lease(&mut self, repo: &RepoName, digest: &Digest) -> Result<Self::Lease, Refusal>
        ensures { LeasesBlob acts lent self.old repo.now digest.now result self.new };

    /// Confirms that the slot of a lease is still the lease's own, and returns the lease unchanged.
    fn verify(&mut self, lease: Self::Lease) -> Self::Lease
        ensures same { lent result ≡ lent lease }
        ensures acts { ConfirmsLease acts self.old (lent lease) self.new };

    /// Frees the slots of blobs that have neither links nor leases, and returns the counts of the sweep.
    fn sweep(&mut self) -> Swept
        ensures { acts self.old Sweeps (SweptAnswer result) self.new };

    /// Frees slots as `sweep` does, but in parts, between which the requests of others may come. Returns the sums of their
    /// counts.
    fn sweep_in_parts(&mut self) -> Swept
        ensures { acts self.old SweepsInParts (SweptAnswer result) self.new };

    /// Returns the size of a lease's blob in bytes.
    fn size(lease: &Self::Lease) -> u64
        ensures { result ≡ length (lent lease.now).bytes };

    /// Returns the extent of a lease's blob from `start` to `end`, both included, or to the blob's end. Reads nothing.
    ///
    /// # Errors
    /// - `Memory` if memory runs out.
    fn extent(lease: &Self::Lease, start: u64, end: u64) -> Result<Extent, Refusal>
        requires ordered { start ≤ end }
        requires small { end < 2 ^ 63 }
        ensures { GivesExtent (lent lease.now).bytes start end result };

    /// Splits a lease into two of half its weight.
    ///
    /// # Errors
    /// - `Memory` if memory runs out.
    /// - `WeightSpent` if the lease's weight is 1.
    ///
    /// Each error returns the lease unchanged.
    fn share(lease: Self::Lease) -> Result<(Self::Lease, Self::Lease), (Refusal, Self::Lease)>
        ensures { SplitsLease lent lease result };

    /// Gives a lease back.
    fn give_back(lease: Self::Lease);
}

/// Executes a command, and returns its reply.
///
/// # Errors
/// - The error of the backend's method.
///
/// # Cost
/// One call of the backend. It allocates nothing itself.
pub fn perform<B: Backend>(backend: &mut B, command: &Command<'_>) -> Result<Reply, Refusal>
    ensures { PerformsCommand B.acts backend.old (command_view command.now) result backend.new }
{
    match command {
        Command::Start { repo } => Ok(Reply::Session(backend.start(repo)?)),
        Command::Status { repo, number } => Ok(Reply::Received(backend.status(repo, *number)?)),
        Command::Append {
            repo,
            number,
            range,
            bytes,
        } => Ok(Reply::Received(backend.append(repo, *number, *range, bytes)?)),
        Command::Close {
            repo,
            number,
            digest,
            range,
            bytes,
        } => Ok(Reply::Stored(backend.close(repo, *number, digest, *range, bytes)?)),
        Command::Abandon { repo, number } => {
            backend.abandon(repo, *number)?;
            Ok(Reply::Abandoned)
        }
        Command::Mount { repo, digest, from } => {
            Ok(mount_reply(backend.mount(repo, digest, from.as_ref())?))
        }
        Command::Delete { repo, digest } => {
            backend.delete(repo, digest)?;
            Ok(Reply::Deleted)
        }
        Command::PutManifest { repo, bytes } => {
            Ok(Reply::Manifest(backend.put_manifest(repo, bytes)?))
        }
        Command::GetManifest { repo, digest } => {
            Ok(Reply::Body(backend.get_manifest(repo, digest)?))
        }
        Command::DeleteManifest { repo, digest } => {
            backend.delete_manifest(repo, digest)?;
            Ok(Reply::Deleted)
        }
        Command::RemoveRepo { repo } => {
            backend.remove_repo(repo)?;
            Ok(Reply::Deleted)
        }
    }
}
