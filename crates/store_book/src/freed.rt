//! Contents that were freed.

use blob_digest::Blob;
use content_files::ContentName;
use std::alloc::Global;
use std::sync::Arc;

/// Contents in files that were freed. What may still be read has a share of its blob.
#[derive(Drop)]
pub struct Freed {
    /// Blobs whose slot was freed, or whose content was replaced.
    pub blobs: Vec<Arc<Blob, Global>>,
    /// The names of sessions that were dropped. Not each of them has a file.
    pub dropped: Vec<ContentName>,
}
