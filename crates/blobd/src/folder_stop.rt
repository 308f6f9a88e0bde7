//! The stop for a folder whose log cannot be used.

use durable_log::CommitError;
use log_disk::DiskError;
use log_folder::{DataFolder, FolderError};
use server_cli::Stop;

/// Returns the stop for a folder whose log cannot be used.
pub fn folder_stop(folder: &str, error: FolderError) -> Stop<'_> {
    match error {
        FolderError::Memory => Stop::Memory,
        FolderError::Held => Stop::Held { folder },
        FolderError::Damaged(place, damage) => Stop::Damaged {
            folder,
            place,
            damage,
        },
        FolderError::File {
            action,
            file,
            error,
        } => Stop::Folder {
            action,
            folder,
            file,
            error,
        },
    }
}

/// Returns the stop for a log that cannot be written any more. Another process may own its folder.
pub fn log_stop(folder: &str, error: CommitError) -> Stop<'_> {
    match error {
        CommitError::Disk(DiskError::Content) => Stop::Lost { folder },
        error => Stop::LogFailed { folder, error },
    }
}

/// Returns the stop for a folder that was to be used. If another process has become its owner meanwhile, that is the reason.
pub fn owner_stop<'w>(rt: &HostRuntime, folder: &DataFolder<'w>, stop: Stop<'w>) -> Stop<'w> {
    if folder.is_lost(rt) {
        Stop::Lost {
            folder: folder.path,
        }
    } else {
        stop
    }
}
