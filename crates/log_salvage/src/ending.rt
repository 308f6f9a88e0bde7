//! What is lost at the end, and the ends of sessions whose changes may be lost.

use crate::loss::Loss;
use crate::repos::Repo;
use crate::sessions::Tenant;
use log_records::Change;
use log_rewriting::{RecordWriter, RewriteError};
use std::alloc::Global;
use std::io::Write;

/// Adds what a repository has lost.
pub fn add_losses(
    alloc: Global,
    losses: &mut Vec<Loss>,
    name: &str,
    repo: &Repo,
) -> Result<(), RewriteError> {
    for digest in repo.lost_manifests.iter() {
        losses.push(Loss::Manifest {
            repo: String::from_str(alloc, name)?,
            digest: *digest,
        })?;
    }
    for digest in repo.lost_blobs.iter() {
        losses.push(Loss::Blob {
            repo: String::from_str(alloc, name)?,
            digest: *digest,
        })?;
    }
    Ok(())
}

/// Ends the sessions of a tenant whose changes may be lost, and adds what the tenant has lost.
pub fn end_sessions<W: Write + Drop>(
    alloc: Global,
    losses: &mut Vec<Loss>,
    records: &mut RecordWriter<W>,
    name: &str,
    tenant: &Tenant,
) -> Result<(), RewriteError> {
    for digest in tenant.lost.iter() {
        losses.push(Loss::BlobOfTenant {
            tenant: String::from_str(alloc, name)?,
            digest: *digest,
        })?;
    }
    for (number, session) in tenant.sessions.iter() {
        if !session.is_doubtful {
            continue;
        }
        records.add(&Change::SessionDropped {
            tenant: name.as_bytes(),
            number: *number,
        })?;
        losses.push(Loss::Upload {
            repo: String::from_str(alloc, session.repo.as_str())?,
            number: *number,
        })?;
    }
    Ok(())
}
