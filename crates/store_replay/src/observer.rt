//! Observers of the changes that are replayed.

use content_files::{ContentError, ContentName, ContentStore, NoFiles};
use log_records::Change;
use std::alloc::AllocError;

/// An observer of the changes of a log, in the order of their records.
pub trait ChangeSink: Drop {
    /// The files in which contents lie.
    type Files: ContentStore;

    /// Returns the files in which contents lie. A write to them writes nothing: it succeeds if the file has the bytes already.
    fn files(&self) -> &Self::Files;

    /// Returns the name of the content of a session that is still open at the end of the log. Its chunks are read from its file
    /// and hashed, so that it can go on. Those of other sessions are not read.
    fn left_open(&self, tenant: &[u8], number: u32) -> Option<ContentName>;

    /// Returns why a write to these files failed, if one did since the last call.
    fn take_error(&self) -> Option<ContentError>;

    /// Returns whether the replay goes on without the bytes of a session that is still open at the end of the log, although a chunk
    /// cannot be read for this reason. If so, its chunks are added by their notes, and it cannot be closed any more.
    fn gives_up(&mut self, tenant: &str, number: u32, error: &ContentError) -> bool;

    /// Notes a change that the store has made again. Its record begins at this offset in the joined payloads of the log.
    ///
    /// # Errors
    ///
    /// - if memory runs out. Then the replay ends with a fault.
    fn note(&mut self, change: &Change<'_>, offset: u64) -> Result<(), AllocError>;
}

/// An observer that notes nothing, and knows no files.
#[derive(Drop)]
pub struct NoSink;

impl ChangeSink for NoSink {
    type Files = NoFiles;

    fn files(&self) -> &NoFiles {
        &NoFiles
    }

    fn left_open(&self, tenant: &[u8], number: u32) -> Option<ContentName> {
        let _ = tenant;
        let _ = number;
        None
    }

    fn take_error(&self) -> Option<ContentError> {
        None
    }

    fn gives_up(&mut self, tenant: &str, number: u32, error: &ContentError) -> bool {
        let _ = tenant;
        let _ = number;
        let _ = error;
        false
    }

    fn note(&mut self, change: &Change<'_>, offset: u64) -> Result<(), AllocError> {
        let _ = change;
        let _ = offset;
        Ok(())
    }
}
