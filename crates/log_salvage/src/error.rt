//! The reasons why nothing is written in place of a damaged log.
ghost use Rattle.std.specs.Prelude.{◌≡◌};
ghost use Rattle.log_salvage.specs.declared.error.SalvageError.TheVariants.{Memory};

use log_rewriting::RewriteError;
use std::alloc::{AllocError, AllocFailed};
use thiserror::Error;

/// The reason why nothing is written in place of a damaged log.
#[derive(Clone, Copy, Debug, Drop, Error)]
pub enum SalvageError {
    /// Memory allocation failed.
    #[error("out of memory")]
    Memory,
    /// A record is of this kind, which a later version knows.
    #[error("a record is of kind {0}, which only a later version knows")]
    LaterKind(u32),
    /// The new log cannot be written.
    #[error("{0}")]
    Write(RewriteError),
}

impl From<AllocError> for SalvageError {
    ghost from_gives = { λ _ e. e ≡ Memory };

    fn from(_error: AllocError) -> SalvageError {
        SalvageError::Memory
    }
}

impl<T: Drop> From<AllocFailed<T>> for SalvageError {
    ghost from_gives = { λ _ e. e ≡ Memory };

    fn from(_error: AllocFailed<T>) -> SalvageError {
        SalvageError::Memory
    }
}

impl From<RewriteError> for SalvageError {
    fn from(error: RewriteError) -> SalvageError {
        match error {
            RewriteError::Memory => SalvageError::Memory,
            error => SalvageError::Write(error),
        }
    }
}
