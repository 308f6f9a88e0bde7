//! The errors of an inventory.
ghost use Rattle.std.specs.Prelude.{◌≡◌};
ghost use Rattle.log_rewriting.specs.declared.error.InventoryError.TheVariants.{Memory};

use std::alloc::{AllocError, AllocFailed};
use thiserror::Error;

/// The reason why a log is not rewritten.
///
/// Except for `Memory`, the log breaks the rules by which a store writes one.
#[derive(Clone, Copy, Debug, PartialEq, Eq, Drop, Error)]
pub enum InventoryError {
    /// Memory allocation failed.
    #[error("out of memory")]
    Memory,
    /// A text is not the name of a repository.
    #[error("the name of a repository is invalid")]
    NameInvalid,
    /// A text is not a digest.
    #[error("a digest is invalid")]
    DigestInvalid,
    /// A session has not the next number of its tenant.
    #[error("a session has not the next number")]
    NumberInvalid,
    /// The tenant has no open session of this number.
    #[error("a session is not open")]
    SessionUnknown,
    /// The tenant does not hold the blob, or the repository has no link to it.
    #[error("a blob is not linked")]
    BlobUnknown,
    /// The repository has no such manifest.
    #[error("a manifest does not exist")]
    ManifestUnknown,
    /// A repository that is removed does not exist.
    #[error("a repository does not exist")]
    RepoUnknown,
    /// A repository that is removed has a link, a manifest or a session.
    #[error("a repository is in use")]
    RepoInUse,
    /// The kind of the record does not occur in the log of a store.
    #[error("a record is of an unexpected kind")]
    KindUnexpected,
}

impl From<AllocError> for InventoryError {
    ghost from_gives = { λ _ e. e ≡ Memory };

    fn from(_error: AllocError) -> InventoryError {
        InventoryError::Memory
    }
}

impl<T: Drop> From<AllocFailed<T>> for InventoryError {
    ghost from_gives = { λ _ e. e ≡ Memory };

    fn from(_error: AllocFailed<T>) -> InventoryError {
        InventoryError::Memory
    }
}
