//! The reasons why the log of a folder cannot be used.

use std::alloc::AllocError;
use std::io::{self, ErrorKind};
use store_replay::{Damage, FolderFile, LogPlace};
use thiserror::Error;

/// The reason why the log of a folder cannot be used. Its message has the names of files in the folder.
#[derive(Debug, Drop, Error)]
pub enum FolderError {
    /// Memory ran out.
    #[error("out of memory")]
    Memory,
    /// Something cannot be done with a file.
    #[error("cannot {action} {file}: {error}")]
    File {
        /// What cannot be done, as a verb.
        action: &'static str,
        /// The file.
        file: FolderFile,
        /// The error of the operating system.
        error: io::Error,
    },
    /// Another process has the folder.
    #[error("another process has the folder")]
    Held,
    /// The log is damaged, or is no log of this version.
    #[error("{file} is damaged at byte {place}: {damage}", file = .0.file, place = .0.place, damage = .1)]
    Damaged(LogPlace, Damage),
}

impl FolderError {
    /// Returns the error for something that cannot be done with a file.
    pub fn of_file(action: &'static str, file: FolderFile, error: io::Error) -> FolderError {
        match error.kind() {
            ErrorKind::OutOfMemory => FolderError::Memory,
            _ => FolderError::File {
                action,
                file,
                error,
            },
        }
    }
}

impl From<AllocError> for FolderError {
    fn from(_error: AllocError) -> FolderError {
        FolderError::Memory
    }
}
