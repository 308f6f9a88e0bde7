//! The lengths of records.

use blob_digest::{Algorithm, Digest};
use log_records::Change;

/// The length of a record's head, in bytes.
const HEAD_LEN: u64 = 24;

/// Returns the length of a record with these texts and this body, in bytes, or the greatest number if it is greater.
pub fn record_len(name: usize, digest: usize, body: usize) -> u64 {
    HEAD_LEN
        .saturating_add(name as u64)
        .saturating_add(digest as u64)
        .saturating_add(body as u64)
}

/// Returns the length of a change's record, in bytes, or the greatest number if it is greater.
pub fn change_len(change: &Change<'_>) -> u64 {
    match *change {
        Change::RepoAdded { repo } => record_len(repo.len(), 0, 0),
        Change::SessionOpened { repo, .. } => record_len(repo.len(), 0, 0),
        Change::ChunkReceived { tenant, bytes, .. } => record_len(tenant.len(), 0, bytes.len()),
        Change::SessionSealed {
            tenant,
            digest,
            last,
            ..
        } => record_len(tenant.len(), digest.len(), last.len()),
        Change::SessionDropped { tenant, .. } => record_len(tenant.len(), 0, 0),
        Change::BlobLinked { repo, digest } => record_len(repo.len(), digest.len(), 0),
        Change::BlobUnlinked { repo, digest } => record_len(repo.len(), digest.len(), 0),
        Change::ManifestPut { repo, bytes } => record_len(repo.len(), 0, bytes.len()),
        Change::ManifestDeleted { repo, digest } => record_len(repo.len(), digest.len(), 0),
        Change::NumberSet { tenant, .. } => record_len(tenant.len(), 0, 0),
        Change::BlobStored { digest, bytes } => record_len(0, digest.len(), bytes.len()),
        Change::RepoRemoved { repo } => record_len(repo.len(), 0, 0),
        Change::ChunkNoted { tenant, notes, .. } => record_len(tenant.len(), 0, notes.len()),
        Change::SealNoted {
            tenant,
            digest,
            notes,
            ..
        }
        | Change::BlobNoted {
            tenant,
            digest,
            notes,
            ..
        } => record_len(tenant.len(), digest.len(), notes.len()),
    }
}

/// Returns the length of a digest's text, in bytes.
pub fn digest_len(digest: &Digest) -> usize {
    match digest.algorithm() {
        Algorithm::Sha256 => 71,
        Algorithm::Sha512 => 135,
    }
}
