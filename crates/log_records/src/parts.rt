//! The parts of a record: its kind, and the fields that the kind uses.
ghost use Rattle.std.specs.Prelude.{◌≡◌, length};
ghost use Rattle.log_records.specs.Changes.{change_of, change_view, parts_of, parts_view};
ghost use Rattle.log_records.specs.Records.{parts_in, payload_len};

use crate::change::Change;
use crate::head::Head;
use crate::kind::Kind;

/// The parts of a record. A field that the kind does not use is empty or 0.
#[derive(Clone, Copy, Debug)]
pub struct Parts<'a> {
    /// The kind.
    pub kind: Kind,
    /// The name of a repository or of a tenant.
    pub name: &'a [u8],
    /// The text of a digest.
    pub digest: &'a [u8],
    /// The number of a session.
    pub number: u64,
    /// The bytes of a chunk, a manifest or a blob, or the notes of pieces.
    pub body: &'a [u8],
}

/// Returns the parts of a change's record.
pub fn parts_of<'a>(change: &Change<'a>) -> Parts<'a>
    ensures { parts_view result ≡ parts_of (change_view change.now) }
{
    let (kind, name, digest, number, body): (Kind, &'a [u8], &'a [u8], u64, &'a [u8]) =
        match *change {
            Change::RepoAdded { repo } => (Kind::RepoAdded, repo, b"", 0, b""),
            Change::SessionOpened { repo, number } => (Kind::SessionOpened, repo, b"", number, b""),
            Change::ChunkReceived {
                tenant,
                number,
                bytes,
            } => (Kind::ChunkReceived, tenant, b"", number, bytes),
            Change::SessionSealed {
                tenant,
                number,
                digest,
                last,
            } => (Kind::SessionSealed, tenant, digest, number, last),
            Change::SessionDropped { tenant, number } => {
                (Kind::SessionDropped, tenant, b"", number, b"")
            }
            Change::BlobLinked { repo, digest } => (Kind::BlobLinked, repo, digest, 0, b""),
            Change::BlobUnlinked { repo, digest } => (Kind::BlobUnlinked, repo, digest, 0, b""),
            Change::ManifestPut { repo, bytes } => (Kind::ManifestPut, repo, b"", 0, bytes),
            Change::ManifestDeleted { repo, digest } => {
                (Kind::ManifestDeleted, repo, digest, 0, b"")
            }
            Change::NumberSet { tenant, number } => (Kind::NumberSet, tenant, b"", number, b""),
            Change::BlobStored { digest, bytes } => (Kind::BlobStored, b"", digest, 0, bytes),
            Change::RepoRemoved { repo } => (Kind::RepoRemoved, repo, b"", 0, b""),
            Change::ChunkNoted {
                tenant,
                number,
                notes,
            } => (Kind::ChunkNoted, tenant, b"", number, notes),
            Change::SealNoted {
                tenant,
                number,
                digest,
                notes,
            } => (Kind::SealNoted, tenant, digest, number, notes),
            Change::BlobNoted {
                tenant,
                number,
                digest,
                notes,
            } => (Kind::BlobNoted, tenant, digest, number, notes),
        };
    Parts {
        kind,
        name,
        digest,
        number,
        body,
    }
}

/// Returns the change that parts describe. It ignores a field that the kind does not use.
pub fn change_of<'a>(parts: &Parts<'a>) -> Change<'a>
    ensures { change_view result ≡ change_of (parts_view parts.now) }
{
    let Parts {
        kind,
        name,
        digest,
        number,
        body,
    } = *parts;
    match kind {
        Kind::RepoAdded => Change::RepoAdded { repo: name },
        Kind::SessionOpened => Change::SessionOpened { repo: name, number },
        Kind::ChunkReceived => Change::ChunkReceived {
            tenant: name,
            number,
            bytes: body,
        },
        Kind::SessionSealed => Change::SessionSealed {
            tenant: name,
            number,
            digest,
            last: body,
        },
        Kind::SessionDropped => Change::SessionDropped {
            tenant: name,
            number,
        },
        Kind::BlobLinked => Change::BlobLinked { repo: name, digest },
        Kind::BlobUnlinked => Change::BlobUnlinked { repo: name, digest },
        Kind::ManifestPut => Change::ManifestPut {
            repo: name,
            bytes: body,
        },
        Kind::ManifestDeleted => Change::ManifestDeleted { repo: name, digest },
        Kind::NumberSet => Change::NumberSet {
            tenant: name,
            number,
        },
        Kind::BlobStored => Change::BlobStored {
            digest,
            bytes: body,
        },
        Kind::RepoRemoved => Change::RepoRemoved { repo: name },
        Kind::ChunkNoted => Change::ChunkNoted {
            tenant: name,
            number,
            notes: body,
        },
        Kind::SealNoted => Change::SealNoted {
            tenant: name,
            number,
            digest,
            notes: body,
        },
        Kind::BlobNoted => Change::BlobNoted {
            tenant: name,
            number,
            digest,
            notes: body,
        },
    }
}

/// Divides the bytes after a head by the head's lengths.
pub fn parts_in<'a>(kind: Kind, head: &Head, payload: &'a [u8]) -> Parts<'a>
    requires { length payload.now ≡ payload_len head.now }
    ensures { parts_view result ≡ parts_in kind head.now payload.now }
{
    let (name, rest) = payload.split_at(usize::from(head.name_len));
    let (digest, body) = rest.split_at(usize::from(head.digest_len));
    Parts {
        kind,
        name,
        digest,
        number: head.number,
        body,
    }
}
