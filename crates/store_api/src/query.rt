//! Queries of a store.

use blob_digest::{Digest, RepoName};

/// A query of a store, with its arguments. It changes nothing.
#[derive(Drop)]
pub enum Query {
    /// Reads the size of a blob that is linked in a repository.
    Stat { repo: RepoName, digest: Digest },
    /// Reads the size of a manifest of a repository.
    StatManifest { repo: RepoName, digest: Digest },
    /// Reads the number of free slots.
    FreeSlots,
    /// Reads the usage and the quota of a repository's tenant.
    Usage { repo: RepoName },
    /// Reads the number of the distinct blobs of a repository's tenant, and its share of the slots.
    SlotUse { repo: RepoName },
    /// Reads the number of the repositories of a repository's tenant.
    RepoCount { repo: RepoName },
    /// Reads how often the log was synced.
    SyncCount,
}
