//! The end of the service, for which the main thread waits.

use durable_log::CommitError;
use std::sync::{Condvar, Mutex, Wait};

/// How the service ends.
#[derive(Clone, Copy)]
pub enum ServiceEnd {
    /// The log failed with this error.
    Failed(CommitError),
    /// The service ended with this exit status, and has printed why.
    Ended(u8),
}

/// The end of the service: set by the first thread that ends it, while another thread waits for it.
#[derive(Drop)]
pub struct EndCell {
    end: Mutex<Option<ServiceEnd>>,
    set: Condvar,
}

impl EndCell {
    /// Makes the cell of a service that has not ended.
    pub fn new() -> EndCell {
        EndCell {
            end: Mutex::new(None),
            set: Condvar::new(),
        }
    }

    /// Sets how the service ends, unless it is set.
    pub fn end(&self, rt: &impl Wait, end: ServiceEnd) {
        let mut place = self.end.lock(rt);
        if place.is_none() {
            *place = Some(end);
        }
        drop(place);
        self.set.notify_all();
    }

    /// Waits until it is set how the service ends.
    pub fn wait(&self, rt: &impl Wait) -> ServiceEnd {
        let mut place = self.end.lock(rt);
        for _ in rt.forever() {
            if let Some(end) = *place {
                return end;
            }
            place = self.set.wait(rt, place);
        }
        unreachable!()
    }
}
