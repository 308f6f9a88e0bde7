//! The reasons why segments are not rewritten.

use log_rewriting::RewriteError;
use log_state::ReadingError;
use std::alloc::AllocError;
use std::fmt;
use store_replay::FolderFile;
use thiserror::Error;

/// The reason why segments are not rewritten.
#[derive(Clone, Copy, Debug, Drop, Error)]
enum Reason {
    /// The base was not written, or leaves another state.
    #[error("{0}")]
    Rewriting(RewriteError),
    /// The records were not taken, so that the states were not compared.
    #[error("{0}")]
    Comparing(ReadingError),
}

/// The reason why segments are not rewritten, and the file that has it.
#[derive(Clone, Copy, Debug, Drop)]
pub struct RewriteFault {
    file: Option<FolderFile>,
    reason: Reason,
}

impl RewriteFault {
    /// Returns the fault of a file.
    pub fn of_file(file: FolderFile, error: RewriteError) -> RewriteFault {
        RewriteFault {
            file: Some(file),
            reason: Reason::Rewriting(error),
        }
    }

    /// Returns the fault of a file whose records were not taken.
    pub fn of_reading(file: FolderFile, error: ReadingError) -> RewriteFault {
        RewriteFault {
            file: Some(file),
            reason: Reason::Comparing(error),
        }
    }
}

impl From<RewriteError> for RewriteFault {
    fn from(error: RewriteError) -> RewriteFault {
        RewriteFault {
            file: None,
            reason: Reason::Rewriting(error),
        }
    }
}

impl From<AllocError> for RewriteFault {
    fn from(error: AllocError) -> RewriteFault {
        RewriteFault {
            file: None,
            reason: Reason::Rewriting(RewriteError::from(error)),
        }
    }
}

impl fmt::Display for RewriteFault {
    fn fmt<W: fmt::Write>(&self, f: &mut fmt::Formatter<W>) -> fmt::Result {
        match self.file {
            Some(file) => write!(f, "{file}: {}", self.reason),
            None => write!(f, "{}", self.reason),
        }
    }
}
