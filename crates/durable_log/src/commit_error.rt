//! Why a commit failed.

ghost use Rattle.std.specs.Prelude.{◌≡◌};
ghost use Rattle.durable_log.specs.declared.commit_error.CommitError.TheVariants.{Disk};

use log_disk::DiskError;
use thiserror::Error;

/// Why a commit failed.
#[derive(Clone, Copy, Debug, Error)]
pub enum CommitError {
    /// A call on the disk failed. Nothing is written after it.
    #[error("{0}")]
    Disk(DiskError),
    /// The log records nothing more: memory ran out, or it became too long.
    #[error("the log is closed")]
    Closed,
}

impl From<DiskError> for CommitError {
    ghost from_gives = { λ error e. e ≡ Disk error };

    fn from(error: DiskError) -> CommitError {
        CommitError::Disk(error)
    }
}
