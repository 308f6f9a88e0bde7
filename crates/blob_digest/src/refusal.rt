//! The enum of refusals.
ghost use Rattle.std.specs.Prelude.{◌≡◌, Some};
ghost use Rattle.blob_digest.specs.declared.refusal.Refusal.TheVariants.{Memory};
ghost use Rattle.blob_digest.specs.Refusals.{refusal_text};

use crate::digest::Digest;
use std::alloc::{AllocError, AllocFailed};
use std::fmt;
use thiserror::Error;

/// The reason why a call fails. One enum serves every layer.
///
/// Each call documents which of these errors it returns and in which order it checks for them. A failed call changes
/// nothing, with these exceptions:
///
/// - A call that is given a `Hand` consumes it. A failed `finish` checks the session in, as it was before it was
///   checked out, unless the error is `UploadUnknown`.
/// - A failed `lease` may lower the keeper's bound on the readers of a slot.
/// - If several workers play a script and it fails with `Memory`, the rows accepted before the failure keep their
///   effect.
///
/// A refusal is printed as its [`text`](Refusal::text). A variant for which the OCI Distribution Specification 1.1, "Error
/// Codes", has a code gives the code in parentheses.
#[derive(Clone, Copy, Debug, PartialEq, Eq, Drop, Error)]
#[error("{}", self.text())]
pub enum Refusal {
    /// The text is not the name of a repository or tenant (`NAME_INVALID`).
    NameInvalid,
    /// The text is not a digest, or the content does not have the digest (`DIGEST_INVALID`).
    DigestInvalid,
    /// The tenant does not exist, or a repository that is to be removed does not (`NAME_UNKNOWN`).
    NameUnknown,
    /// The tenant has no such session, or the session belongs to another repository (`BLOB_UPLOAD_UNKNOWN`).
    UploadUnknown,
    /// The text is not a range, the range's length differs from the number of bytes, or a size limit is exceeded
    /// (`SIZE_INVALID`).
    SizeInvalid,
    /// The range does not start at the length that the session has received (status 416).
    RangeInvalid {
        /// The length that the session has received, in bytes.
        received: u64,
    },
    /// The repository has no link to the digest (`BLOB_UNKNOWN`).
    BlobUnknown,
    /// The bytes are not a manifest that the store supports (`MANIFEST_INVALID`).
    ManifestInvalid,
    /// The repository has no such manifest (`MANIFEST_UNKNOWN`).
    ManifestUnknown,
    /// The manifest refers to a blob that the repository has no link to (`MANIFEST_BLOB_UNKNOWN`).
    ManifestBlobUnknown {
        /// The digest of the first such blob, in the order of the manifest.
        digest: Digest,
    },
    /// The tenant's use before the call plus the chunk exceeds its quota (`DENIED`).
    Quota {
        /// The tenant's use before the call, in bytes.
        used: u64,
        /// The quota of the tenant, in bytes.
        quota: u64,
    },
    /// A manifest refers to the blob (`DENIED`).
    Referenced {
        /// The digest of that manifest, the least if there are several.
        manifest: Digest,
    },
    /// No slot holds the digest, and no slot is free.
    StoreFull,
    /// One more lease would exceed the weight that a slot's word can hold.
    TooManyReaders,
    /// A limit on numbers or counts is reached.
    LimitReached,
    /// A lease of weight 1 cannot be shared.
    WeightSpent,
    /// Memory allocation failed.
    Memory,
    /// The session is checked out: a chunk is being added to it.
    Busy,
    /// The repository has a link, a manifest or a session.
    RepoInUse,
}

/// The text of a refusal: its name, followed by its fields, numbers in decimal and digests as their texts.
#[derive(Clone, Copy, Drop)]
pub struct RefusalText {
    /// The refusal.
    pub refusal: Refusal,
}

impl Refusal {
    /// Returns the text of the refusal, which prints the bytes that replies have by contract.
    pub fn text(&self) -> RefusalText
        ensures { result.refusal ≡ self.now }
    {
        RefusalText { refusal: *self }
    }
}

impl fmt::Display for RefusalText {
    ghost output = { λ text. Some (refusal_text text.refusal) };

    fn fmt<W: fmt::Write>(&self, f: &mut fmt::Formatter<W>) -> fmt::Result {
        match &self.refusal {
            Refusal::NameInvalid => f.write_str("NameInvalid"),
            Refusal::DigestInvalid => f.write_str("DigestInvalid"),
            Refusal::NameUnknown => f.write_str("NameUnknown"),
            Refusal::UploadUnknown => f.write_str("UploadUnknown"),
            Refusal::SizeInvalid => f.write_str("SizeInvalid"),
            Refusal::RangeInvalid { received } => write!(f, "RangeInvalid received {received}"),
            Refusal::BlobUnknown => f.write_str("BlobUnknown"),
            Refusal::ManifestInvalid => f.write_str("ManifestInvalid"),
            Refusal::ManifestUnknown => f.write_str("ManifestUnknown"),
            Refusal::ManifestBlobUnknown { digest } => write!(f, "ManifestBlobUnknown {digest}"),
            Refusal::Quota { used, quota } => write!(f, "Quota used {used} quota {quota}"),
            Refusal::Referenced { manifest } => write!(f, "Referenced {manifest}"),
            Refusal::StoreFull => f.write_str("StoreFull"),
            Refusal::TooManyReaders => f.write_str("TooManyReaders"),
            Refusal::LimitReached => f.write_str("LimitReached"),
            Refusal::WeightSpent => f.write_str("WeightSpent"),
            Refusal::Memory => f.write_str("Memory"),
            Refusal::Busy => f.write_str("Busy"),
            Refusal::RepoInUse => f.write_str("RepoInUse"),
        }
    }
}

impl From<AllocError> for Refusal {
    ghost from_gives = { λ _ e. e ≡ Memory };

    fn from(_error: AllocError) -> Refusal {
        Refusal::Memory
    }
}

impl<T: Drop> From<AllocFailed<T>> for Refusal {
    ghost from_gives = { λ _ e. e ≡ Memory };

    fn from(_error: AllocFailed<T>) -> Refusal {
        Refusal::Memory
    }
}
