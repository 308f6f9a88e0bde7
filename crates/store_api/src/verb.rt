//! The kinds of requests to a store.

/// A kind of request to a store: a command, a request about a lease, or a sweep.
#[derive(Clone, Copy, Debug, PartialEq, Eq)]
pub enum Verb {
    /// Opens an upload session.
    Start,
    /// Reads the number of bytes that a session has received.
    Status,
    /// Adds a chunk to a session.
    Append,
    /// Closes a session, and links its blob.
    Close,
    /// Abandons a session.
    Abandon,
    /// Links a blob of another repository of the tenant.
    Mount,
    /// Removes the link between a repository and a blob.
    Delete,
    /// Stores a manifest in a repository.
    PutManifest,
    /// Reads the bytes of a manifest.
    GetManifest,
    /// Removes a manifest from a repository.
    DeleteManifest,
    /// Removes a repository that is not in use.
    RemoveRepo,
    /// Leases a blob under a name.
    Lease,
    /// Reads a piece of a leased blob.
    Read,
    /// Splits a lease into two.
    Share,
    /// Verifies the slot of a lease.
    Verify,
    /// Gives a lease back.
    GiveBack,
    /// Frees the slots of blobs that have neither links nor leases.
    Sweep,
}
