//! The reasons why a log was not replayed, and why connections were not served.

use durable_log::CommitError;
use log_folder::FolderError;
use std::alloc::{AllocError, AllocFailed};
use std::io::{self, ErrorKind};
use store_replay::{Cause, FolderFile, LogPlace};

/// The reason why a log was not replayed and continued.
///
/// It is a type of its own, because `FolderError` has a name of static life: the borrow checker does not follow a call whose result has such a
/// one and whose type arguments name lifetimes, as that of an observer does.
#[derive(Drop)]
pub enum ReplayFault {
    /// Memory ran out.
    Memory,
    /// A read of this file failed.
    Read(FolderFile, io::Error),
    /// The frame at a place has a record that cannot be replayed.
    Record {
        /// The place of the frame.
        place: LogPlace,
        /// The reason.
        cause: Cause,
    },
    /// The log cannot be written.
    Log(CommitError),
}

impl From<AllocError> for ReplayFault {
    fn from(_error: AllocError) -> ReplayFault {
        ReplayFault::Memory
    }
}

impl ReplayFault {
    /// Returns the fault for a file that cannot be read.
    pub fn of_read(file: FolderFile, error: io::Error) -> ReplayFault {
        match error.kind() {
            ErrorKind::OutOfMemory => ReplayFault::Memory,
            _ => ReplayFault::Read(file, error),
        }
    }
}

/// The reason why connections were not served, or the log could not be written at the end.
#[derive(Drop)]
pub enum ServeFault {
    /// Memory ran out.
    Memory,
    /// A read of this file failed.
    Read(FolderFile, io::Error),
    /// The folder cannot be used.
    Folder(FolderError),
    /// The frame at a place has a record that cannot be replayed.
    Record {
        /// The place of the frame.
        place: LogPlace,
        /// The reason.
        cause: Cause,
    },
    /// The files of this number of contents are missing.
    Missing(u64),
    /// The log cannot be written.
    Log(CommitError),
}

impl From<AllocError> for ServeFault {
    fn from(_error: AllocError) -> ServeFault {
        ServeFault::Memory
    }
}

impl<T: Drop> From<AllocFailed<T>> for ServeFault {
    fn from(_error: AllocFailed<T>) -> ServeFault {
        ServeFault::Memory
    }
}

impl From<ReplayFault> for ServeFault {
    fn from(fault: ReplayFault) -> ServeFault {
        match fault {
            ReplayFault::Memory => ServeFault::Memory,
            ReplayFault::Read(file, error) => ServeFault::Read(file, error),
            ReplayFault::Record { place, cause } => ServeFault::Record { place, cause },
            ReplayFault::Log(error) => ServeFault::Log(error),
        }
    }
}

impl ServeFault {
    /// Returns the fault for a file that cannot be read.
    pub fn of_read(file: FolderFile, error: io::Error) -> ServeFault {
        ServeFault::from(ReplayFault::of_read(file, error))
    }
}
