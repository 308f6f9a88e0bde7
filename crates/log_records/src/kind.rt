//! The kinds of records.
ghost use Rattle.std.specs.Prelude.{◌≡◌, IfSome, IsNone};
ghost use Rattle.log_records.specs.Kinds.{IsUnknown, kind_number, uses_body, uses_digest, uses_name, uses_number};

/// The kind of a record: which change it describes.
#[derive(Clone, Copy, Debug, PartialEq, Eq)]
pub enum Kind {
    /// A repository was added.
    RepoAdded,
    /// An upload session was opened.
    SessionOpened,
    /// A session received a chunk.
    ChunkReceived,
    /// A session became a blob.
    SessionSealed,
    /// A session was abandoned.
    SessionDropped,
    /// A blob was linked.
    BlobLinked,
    /// The link of a blob was removed.
    BlobUnlinked,
    /// A manifest was stored.
    ManifestPut,
    /// A manifest was deleted.
    ManifestDeleted,
    /// The next session of a tenant has this number.
    NumberSet,
    /// A blob was stored.
    BlobStored,
    /// A repository was removed.
    RepoRemoved,
    /// A session whose content lies in a file received a chunk.
    ChunkNoted,
    /// A session whose content lies in a file became a blob.
    SealNoted,
    /// A blob was stored, whose content lies in the file of a session.
    BlobNoted,
}

impl Kind {
    /// Returns the kind with this number, or `None` if no kind has it.
    pub fn from_number(number: u32) -> Option<Kind>
        ensures known { IfSome result (λ k. kind_number k ≡ number) }
        ensures unknown { IsNone result → IsUnknown number }
    {
        match number {
            1 => Some(Kind::RepoAdded),
            2 => Some(Kind::SessionOpened),
            3 => Some(Kind::ChunkReceived),
            4 => Some(Kind::SessionSealed),
            5 => Some(Kind::SessionDropped),
            6 => Some(Kind::BlobLinked),
            7 => Some(Kind::BlobUnlinked),
            8 => Some(Kind::ManifestPut),
            9 => Some(Kind::ManifestDeleted),
            10 => Some(Kind::NumberSet),
            11 => Some(Kind::BlobStored),
            12 => Some(Kind::RepoRemoved),
            13 => Some(Kind::ChunkNoted),
            14 => Some(Kind::SealNoted),
            15 => Some(Kind::BlobNoted),
            _ => None,
        }
    }

    /// Returns the number of the kind.
    pub fn number(self) -> u32
        ensures { result ≡ kind_number self }
    {
        match self {
            Kind::RepoAdded => 1,
            Kind::SessionOpened => 2,
            Kind::ChunkReceived => 3,
            Kind::SessionSealed => 4,
            Kind::SessionDropped => 5,
            Kind::BlobLinked => 6,
            Kind::BlobUnlinked => 7,
            Kind::ManifestPut => 8,
            Kind::ManifestDeleted => 9,
            Kind::NumberSet => 10,
            Kind::BlobStored => 11,
            Kind::RepoRemoved => 12,
            Kind::ChunkNoted => 13,
            Kind::SealNoted => 14,
            Kind::BlobNoted => 15,
        }
    }

    /// Returns whether records of the kind have a name.
    pub fn uses_name(self) -> bool
        ensures { result ≡ uses_name self }
    {
        match self {
            Kind::BlobStored => false,
            _ => true,
        }
    }

    /// Returns whether records of the kind have a digest.
    pub fn uses_digest(self) -> bool
        ensures { result ≡ uses_digest self }
    {
        match self {
            Kind::SessionSealed
            | Kind::BlobLinked
            | Kind::BlobUnlinked
            | Kind::ManifestDeleted
            | Kind::BlobStored
            | Kind::SealNoted
            | Kind::BlobNoted => true,
            _ => false,
        }
    }

    /// Returns whether records of the kind have a number.
    pub fn uses_number(self) -> bool
        ensures { result ≡ uses_number self }
    {
        match self {
            Kind::SessionOpened
            | Kind::ChunkReceived
            | Kind::SessionSealed
            | Kind::SessionDropped
            | Kind::NumberSet
            | Kind::ChunkNoted
            | Kind::SealNoted
            | Kind::BlobNoted => true,
            _ => false,
        }
    }

    /// Returns whether records of the kind have a body.
    pub fn uses_body(self) -> bool
        ensures { result ≡ uses_body self }
    {
        match self {
            Kind::ChunkReceived
            | Kind::SessionSealed
            | Kind::ManifestPut
            | Kind::BlobStored
            | Kind::ChunkNoted
            | Kind::SealNoted
            | Kind::BlobNoted => true,
            _ => false,
        }
    }
}
