//! The changes that records describe.

/// A change of a store. The crate does not examine names and digests: both are texts.
#[derive(Clone, Copy, Debug)]
pub enum Change<'a> {
    /// A repository was added.
    RepoAdded {
        /// The name of the repository.
        repo: &'a [u8],
    },
    /// An upload session was opened.
    SessionOpened {
        /// The name of the repository.
        repo: &'a [u8],
        /// The number of the session among its tenant's.
        number: u64,
    },
    /// A session received a chunk.
    ChunkReceived {
        /// The name of the tenant.
        tenant: &'a [u8],
        /// The number of the session.
        number: u64,
        /// The chunk.
        bytes: &'a [u8],
    },
    /// A session received its last bytes and became a blob, which was linked.
    SessionSealed {
        /// The name of the tenant.
        tenant: &'a [u8],
        /// The number of the session.
        number: u64,
        /// The text of the blob's digest.
        digest: &'a [u8],
        /// The last bytes of the blob.
        last: &'a [u8],
    },
    /// A session was abandoned.
    SessionDropped {
        /// The name of the tenant.
        tenant: &'a [u8],
        /// The number of the session.
        number: u64,
    },
    /// A blob was linked into a repository.
    BlobLinked {
        /// The name of the repository.
        repo: &'a [u8],
        /// The text of the blob's digest.
        digest: &'a [u8],
    },
    /// The link of a blob was removed.
    BlobUnlinked {
        /// The name of the repository.
        repo: &'a [u8],
        /// The text of the blob's digest.
        digest: &'a [u8],
    },
    /// A manifest was stored in a repository.
    ManifestPut {
        /// The name of the repository.
        repo: &'a [u8],
        /// The manifest.
        bytes: &'a [u8],
    },
    /// A manifest was deleted.
    ManifestDeleted {
        /// The name of the repository.
        repo: &'a [u8],
        /// The text of the manifest's digest.
        digest: &'a [u8],
    },
    /// The next session of a tenant has this number. Only a rewritten log has this record.
    NumberSet {
        /// The name of the tenant.
        tenant: &'a [u8],
        /// The number.
        number: u64,
    },
    /// A blob was stored. Only a rewritten log has this record.
    BlobStored {
        /// The text of the blob's digest.
        digest: &'a [u8],
        /// The blob.
        bytes: &'a [u8],
    },
    /// A repository was removed.
    RepoRemoved {
        /// The name of the repository.
        repo: &'a [u8],
    },
    /// A session whose content lies in a file received a chunk.
    ChunkNoted {
        /// The name of the tenant.
        tenant: &'a [u8],
        /// The number of the session.
        number: u64,
        /// The notes of the chunk's pieces: of each its length and its sum, of eight bytes each, the lowest first.
        notes: &'a [u8],
    },
    /// A session whose content lies in a file received its last bytes and became a blob, which was linked.
    SealNoted {
        /// The name of the tenant.
        tenant: &'a [u8],
        /// The number of the session.
        number: u64,
        /// The text of the blob's digest.
        digest: &'a [u8],
        /// The notes of the last bytes' pieces.
        notes: &'a [u8],
    },
    /// A blob was stored, whose content lies in the file of a session. Only a rewritten log has this record.
    BlobNoted {
        /// The name of the session's tenant.
        tenant: &'a [u8],
        /// The number of the session.
        number: u64,
        /// The text of the blob's digest.
        digest: &'a [u8],
        /// The notes of the blob's pieces.
        notes: &'a [u8],
    },
}
