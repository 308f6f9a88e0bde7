//! What becomes of a log that is converted.

use crate::error::FolderError;
use std::alloc::AllocError;
use std::io;
use thiserror::Error;

/// What became of a log that was converted.
#[derive(Clone, Copy, Debug, PartialEq, Eq)]
pub struct Conversion {
    /// The length of the base that took the place of the log, in bytes.
    pub length: u64,
    /// Whether no content of the log is left to convert. If not, a replay of the base fails at a record that names another tenant
    /// than those of the store, or no session of one. This record and all after it are as they were.
    pub is_whole: bool,
}

/// The reason why a log was not converted.
#[derive(Debug, Drop, Error)]
pub enum ConvertError {
    /// A file of the log cannot be used, or memory ran out.
    #[error("{0}")]
    Folder(#[from] FolderError),
    /// The file of a content cannot be written.
    #[error("cannot write {path}: {error}")]
    Content {
        /// The path of the file.
        path: String,
        /// The error of the operating system.
        error: io::Error,
    },
}

impl From<AllocError> for ConvertError {
    fn from(_error: AllocError) -> ConvertError {
        ConvertError::Folder(FolderError::Memory)
    }
}
