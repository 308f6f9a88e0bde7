//! Why a change is not taken.
ghost use Rattle.std.specs.Prelude.{◌≡◌};
ghost use Rattle.log_state.specs.declared.error.StateError.TheVariants.{Memory};

use std::alloc::{AllocError, AllocFailed};
use thiserror::Error;

/// The reason why a change is not taken.
#[derive(Clone, Copy, Debug, PartialEq, Eq, Drop, Error)]
pub enum StateError {
    /// A store does not write records of this kind.
    #[error("a record of a kind that a store does not write")]
    KindUnexpected,
    /// The text is no name of a repository.
    #[error("a text that is no name of a repository")]
    NameInvalid,
    /// The text is no digest.
    #[error("a text that is no digest")]
    DigestInvalid,
    /// The store has no such tenant.
    #[error("a tenant that the store does not have")]
    TenantUnknown,
    /// The session is not open.
    #[error("a session that is not open")]
    SessionUnknown,
    /// The number of the session is too great.
    #[error("a number of a session that is too great")]
    NumberInvalid,
    /// Out of memory.
    #[error("out of memory")]
    Memory,
}

impl From<AllocError> for StateError {
    ghost from_gives = { λ _ e. e ≡ Memory };

    fn from(_error: AllocError) -> StateError {
        StateError::Memory
    }
}

impl<T: Drop> From<AllocFailed<T>> for StateError {
    ghost from_gives = { λ _ e. e ≡ Memory };

    fn from(_error: AllocFailed<T>) -> StateError {
        StateError::Memory
    }
}
