//! The request to close the last segment.

use std::alloc::{AllocError, Global};
use std::sync::Arc;
use std::sync::atomic::{AtomicBool, Ordering};

/// A handle on the request to close the last segment of a log before the next frame is written. Each thread has its own.
#[derive(Drop)]
pub struct CloseRequest {
    is_made: Arc<AtomicBool, Global>,
}

impl CloseRequest {
    /// Returns a handle on a request that is not made.
    pub fn new(alloc: Global) -> Result<CloseRequest, AllocError> {
        let is_made = Arc::new(alloc, AtomicBool::new(false))?;
        Ok(CloseRequest { is_made })
    }

    /// Returns a handle for another thread.
    pub fn share(&self) -> Result<CloseRequest, AllocError> {
        let is_made = Arc::try_clone(&self.is_made)?;
        Ok(CloseRequest { is_made })
    }

    /// Makes the request, or takes it back.
    pub(crate) fn set(&self, is_made: bool) {
        self.is_made.store(is_made, Ordering::SeqCst);
    }

    /// Returns whether the request is made.
    pub(crate) fn is_made(&self) -> bool {
        self.is_made.load(Ordering::SeqCst)
    }
}
