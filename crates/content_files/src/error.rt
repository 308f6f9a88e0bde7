//! Why a call on a content failed.

use std::alloc::{AllocError, AllocFailed};
use std::io;
use thiserror::Error;

/// Why a call on a content failed.
#[derive(Clone, Copy, Debug, Error)]
pub enum ContentError {
    /// The operating system returned this error.
    #[error("{0}")]
    Io(#[from] io::Error),
    /// The file has other bytes than those that were written, or too few.
    #[error("its content differs")]
    Fault,
    /// Memory ran out.
    #[error("out of memory")]
    Memory,
    /// The store keeps no files.
    #[error("the store keeps no files")]
    NoFiles,
    /// The content was cut within a piece and can no more grow, or `Content::complete` was given bytes of another content.
    #[error("it was cut within a piece")]
    Cut,
    /// These are not the notes of a chunk.
    #[error("it has no notes of a chunk")]
    Notes,
}

impl From<AllocError> for ContentError {
    fn from(_error: AllocError) -> ContentError {
        ContentError::Memory
    }
}

impl<T: Drop> From<AllocFailed<T>> for ContentError {
    fn from(_error: AllocFailed<T>) -> ContentError {
        ContentError::Memory
    }
}
