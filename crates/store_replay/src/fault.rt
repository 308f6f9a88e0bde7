//! The reasons why a log cannot be replayed.

use blob_digest::Refusal;
use content_files::ContentError;
use std::alloc::{AllocError, Global};
use thiserror::Error;

/// The reason why a record cannot be replayed.
#[derive(Debug, Drop, Error)]
pub enum Cause {
    /// The record is of a kind that this version does not know.
    #[error("unknown kind {0}")]
    UnknownKind(u32),
    /// No store writes such a record: its head is malformed, or a name, a digest or a session's number is not one.
    #[error("malformed")]
    Malformed,
    /// The record occurs only in a log that was rewritten. This version does not read such logs.
    #[error("a kind that only a rewritten log has")]
    Rewritten,
    /// The store refuses the change. It has other settings than the store that wrote the log.
    #[error("{name}: {refusal}")]
    Refused {
        /// The name of the repository, or of the tenant if the record names no repository.
        name: String,
        /// The store's reason.
        refusal: Refusal,
    },
    /// A chunk of a session that is still open cannot be read from the file of its content.
    #[error("the content of session {number} of {tenant}: {error}")]
    Content {
        /// The name of the tenant.
        tenant: String,
        /// The number of the session.
        number: u32,
        /// The reason.
        error: ContentError,
    },
    /// The store made another change than the log describes. The record is the first one of its frame.
    #[error("the store made another change")]
    Differs,
    /// Memory ran out.
    #[error("out of memory")]
    Memory,
}

/// The reason why a log cannot be replayed, and the record.
#[derive(Debug, Drop, Error)]
#[error("record at byte {offset}: {cause}")]
pub struct Fault {
    /// The offset of the record in the joined payloads of the log, in bytes.
    pub offset: u64,
    /// The reason.
    pub cause: Cause,
}

impl Cause {
    /// Returns the fault of this cause in the record at an offset.
    pub(crate) fn at(self, offset: u64) -> Fault {
        Fault {
            offset,
            cause: self,
        }
    }

    /// Returns the cause for a change of this name that the store refused.
    pub(crate) fn refused(alloc: Global, name: &str, refusal: Refusal) -> Cause {
        if matches!(refusal, Refusal::Memory) {
            return Cause::Memory;
        }
        match String::from_str(alloc, name) {
            Ok(name) => Cause::Refused { name, refusal },
            Err(_) => Cause::Memory,
        }
    }
}

impl Cause {
    /// Returns the cause for a chunk of a session that cannot be read.
    pub(crate) fn unread(alloc: Global, tenant: &str, number: u32, error: ContentError) -> Cause {
        match error {
            ContentError::Memory => Cause::Memory,
            ContentError::Notes => Cause::Malformed,
            _ => match String::from_str(alloc, tenant) {
                Ok(tenant) => Cause::Content {
                    tenant,
                    number,
                    error,
                },
                Err(_) => Cause::Memory,
            },
        }
    }
}

impl From<AllocError> for Cause {
    fn from(_error: AllocError) -> Cause {
        Cause::Memory
    }
}
