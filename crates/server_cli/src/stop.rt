//! The reasons why the program stops before it serves all connections.
ghost use Rattle.std.specs.Prelude.{◌≡◌};
ghost use Rattle.server_cli.specs.Stops.{is_settings, stop_status, stop_text, tenant_stop};
ghost use Rattle.server_cli.specs.declared.stop.Stop.TheVariants.{Memory};

use crate::need::Need;
use durable_log::CommitError;
use std::alloc::AllocError;
use std::{fmt, io};
use store_replay::{Damage, FolderFile, LogPlace};
use tenant_args::TenantFault;
use thiserror::Error;

/// The reason why the program stops before it serves all connections.
#[derive(Debug, Drop, Error)]
#[error("{}", self.text())]
pub enum Stop<'w> {
    /// The arguments are wrong.
    Usage,
    /// A connection's file cannot be opened.
    File {
        /// The file's path.
        path: &'w str,
        /// The error of the operating system.
        error: io::Error,
    },
    /// Memory ran out.
    Memory,
    /// The folder of the log or a file in it cannot be used.
    Folder {
        /// What cannot be done, as a verb.
        action: &'static str,
        /// The folder.
        folder: &'w str,
        /// The file in it, or the folder.
        file: FolderFile,
        /// The error of the operating system.
        error: io::Error,
    },
    /// Another process has the folder of the log.
    Held {
        /// The folder.
        folder: &'w str,
    },
    /// Another process has become the owner of the folder of the log.
    Lost {
        /// The folder.
        folder: &'w str,
    },
    /// The log is damaged, or is no log of this version.
    Damaged {
        /// The folder of the log.
        folder: &'w str,
        /// The place in the log.
        place: LogPlace,
        /// What is wrong there.
        damage: Damage,
    },
    /// Files of contents are missing.
    Missing {
        /// The folder of the log.
        folder: &'w str,
        /// The number of these contents.
        count: u64,
    },
    /// The log cannot be written any more.
    LogFailed {
        /// The folder of the log.
        folder: &'w str,
        /// The reason.
        error: CommitError,
    },
    /// The store that wrote the log had other settings.
    Settings {
        /// The folder of the log.
        folder: &'w str,
        /// The place of the first frame that needs other settings.
        place: LogPlace,
        /// The name of the repository or tenant whose change was refused.
        name: String,
        /// The setting that it needs.
        need: Need,
    },
}

impl From<AllocError> for Stop<'_> {
    ghost from_gives = { λ _ e. e ≡ Memory };

    fn from(_error: AllocError) -> Self {
        Stop::Memory
    }
}

impl From<TenantFault> for Stop<'_> {
    ghost from_gives = { λ fault e. e ≡ tenant_stop fault };

    fn from(fault: TenantFault) -> Self {
        match fault {
            TenantFault::BadTenant => Stop::Usage,
            TenantFault::Memory => Stop::Memory,
        }
    }
}

impl<'w> Stop<'w> {
    /// Returns whether the store that wrote the log had other settings.
    pub fn is_of_settings(&self) -> bool
        ensures { result ≡ is_settings self.now }
    {
        matches!(self, Stop::Settings { .. })
    }

    /// Returns the text that the program prints.
    pub fn text(&self) -> StopText<'_, 'w>
        ensures { result.stop.now ≡ self.now }
    {
        StopText { stop: self }
    }

    /// Returns the exit status, 2 to 10. `docs/OPERATIONS.md` lists them.
    pub fn status(&self) -> u8
        ensures { result ≡ stop_status self.now }
    {
        match self {
            Stop::Usage => 2,
            Stop::File { .. } => 3,
            Stop::Memory => 5,
            Stop::Folder { .. } => 6,
            Stop::Held { .. } => 7,
            Stop::Lost { .. } => 7,
            Stop::Damaged { .. } => 8,
            Stop::Missing { .. } => 8,
            Stop::LogFailed { .. } => 9,
            Stop::Settings { .. } => 10,
        }
    }
}

/// The text that the program prints, with its line feed.
#[derive(Drop)]
pub struct StopText<'s, 'w> {
    /// The reason.
    pub stop: &'s Stop<'w>,
}

impl fmt::Display for StopText<'_, '_> {
    ghost output = { λ text. stop_text text.stop.now };

    fn fmt<W: fmt::Write>(&self, f: &mut fmt::Formatter<W>) -> fmt::Result {
        match self.stop {
            Stop::Usage => f.write_str(
                "usage: blobd [--data DIR [--sync closes|each|never] [--accept-loss-after BYTE] [--sha512]] SLOTS MAX_BLOB TENANT=QUOTA[,BLOBS[,REPOS,MANIFESTS,UPLOADS]].. [-- IN OUT [IN OUT]..]\n",
            ),
            Stop::File { path, error } => write!(f, "blobd: cannot open {path}: {error}\n"),
            Stop::Memory => f.write_str("blobd: out of memory\n"),
            Stop::Folder {
                action,
                folder,
                file,
                error,
            } => write!(f, "blobd: cannot {action} {folder}{file}: {error}\n"),
            Stop::Held { folder } => write!(f, "blobd: another process has {folder}/lock\n"),
            Stop::Lost { folder } => {
                write!(f, "blobd: another process has taken over {folder}\n")
            }
            Stop::Damaged {
                folder,
                place,
                damage,
            } => write!(
                f,
                "blobd: {folder}{} is damaged at byte {}, byte {} of the log: {damage}\n",
                place.file, place.place, place.offset
            ),
            Stop::Missing { folder, count } => {
                write!(
                    f,
                    "blobd: {folder}/contents lacks the files of {count} contents\n"
                )
            }
            Stop::LogFailed { folder, error } => {
                write!(f, "blobd: cannot write the log in {folder}: {error}\n")
            }
            Stop::Settings {
                folder,
                place,
                name,
                need,
            } => write!(
                f,
                "blobd: {folder}{} needs other settings at byte {}: {name}: {need}\n",
                place.file, place.place
            ),
        }
    }
}
