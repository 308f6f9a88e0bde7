//! The reasons why a log is not rewritten.
ghost use Rattle.std.specs.Prelude.{◌≡◌};
ghost use Rattle.log_rewriting.specs.declared.failure.RewriteError.TheVariants.{Memory};

use crate::error::InventoryError;
use std::alloc::{AllocError, AllocFailed};
use std::io::{self, ErrorKind};
use thiserror::Error;

/// The reason why a log is not rewritten.
#[derive(Clone, Copy, Debug, Drop, Error)]
pub enum RewriteError {
    /// Memory allocation failed.
    #[error("out of memory")]
    Memory,
    /// The log cannot be read.
    #[error("cannot read it: {0}")]
    Read(io::Error),
    /// The rewritten log cannot be written.
    #[error("cannot write the new log: {0}")]
    Write(io::Error),
    /// The frames of a segment end at this byte of it, and no whole record ends there, or the segment does not.
    #[error("no whole record ends at byte {0}, or no frame begins there")]
    NotWhole(u64),
    /// The bytes at an offset in the joined payloads of the log are no record.
    #[error("there is no record at byte {0} of the records")]
    NoRecord(u64),
    /// The record at an offset in the joined payloads of the log breaks the rules by which a store writes one.
    #[error("byte {0} of the records: {1}")]
    Broken(u64, InventoryError),
    /// A record does not fit into a log.
    #[error("a record is too long")]
    TooLong,
    /// The rewritten log leaves another state.
    #[error("the new log has another state")]
    Differs,
}

impl RewriteError {
    /// Returns the error for an output that cannot be written.
    pub fn of_write(error: io::Error) -> RewriteError {
        match error.kind() {
            ErrorKind::OutOfMemory => RewriteError::Memory,
            _ => RewriteError::Write(error),
        }
    }

    /// Returns the error for an input that cannot be read.
    pub fn of_read(error: io::Error) -> RewriteError {
        match error.kind() {
            ErrorKind::OutOfMemory => RewriteError::Memory,
            _ => RewriteError::Read(error),
        }
    }
}

impl From<AllocError> for RewriteError {
    ghost from_gives = { λ _ e. e ≡ Memory };

    fn from(_error: AllocError) -> RewriteError {
        RewriteError::Memory
    }
}

impl<T: Drop> From<AllocFailed<T>> for RewriteError {
    ghost from_gives = { λ _ e. e ≡ Memory };

    fn from(_error: AllocFailed<T>) -> RewriteError {
        RewriteError::Memory
    }
}
