//! A look at a log that costs less than an inventory: how many bytes of it are needed at least.

use crate::failure::RewriteError;
use crate::joining::Receiver;
use crate::lengths::change_len;
use crate::names::tenant_text;
use log_frames::{BASIS, sum_words};
use log_records::Change;
use std::alloc::{AllocError, Global};
use std::collections::BTreeMap;

/// An open session.
#[derive(Clone, Copy, Debug)]
struct OpenSession {
    /// The bytes of the record that opened it.
    opened: u64,
    /// The bytes of its records so far.
    bytes: u64,
}

/// Records that made something. Of the same thing, those with fewer bytes come first.
#[derive(Clone, Copy, Debug, PartialEq, Eq, PartialOrd, Ord)]
struct Made {
    /// The sum of what they made: of the digest of a content, or of a manifest and the name of its repository.
    sum: u64,
    /// The bytes of the records.
    bytes: u64,
}

/// A lower bound of the bytes of a log that are still needed.
///
/// An inventory knows what exists, by the texts of names and digests. A survey takes their sums, and supposes that each removal removed as
/// much as it can have removed. If nothing was removed or made twice, and no content was linked without a session, the bound is exact.
/// Different texts with equal sums make it lower.
///
/// # Memory
///
/// 16 bytes for each seal and manifest of the log, 8 for each removal of a link, and what the open sessions need.
#[derive(Drop)]
pub struct Survey {
    /// Each open session, by the sum of its tenant's name and its number.
    sessions: BTreeMap<(u64, u64), OpenSession>,
    /// The records of the sessions that became contents.
    contents: Vec<Made>,
    /// The sums of the digests whose links were removed.
    unlinked: Vec<u64>,
    /// The records of manifests.
    manifests: Vec<Made>,
    /// The number of records that deleted a manifest.
    deletes: usize,
    /// The bytes of two records of each session that was abandoned: it is opened, and it is abandoned.
    pairs: u64,
    total: u64,
}

/// Returns the sum of a text.
fn sum_of(text: &[u8]) -> u64 {
    sum_words(BASIS, text)
}

/// Keeps of each thing the records with the fewest bytes.
fn keep_least(made: &mut Vec<Made>) {
    made.sort_unstable();
    made.dedup_by_key(|records| records.sum);
}

/// Returns the bytes of the records of contents of which no link was removed.
fn bytes_of_contents(contents: &[Made], unlinked: &[u64]) -> u64 {
    let mut bytes: u64 = 0;
    for content in contents {
        if unlinked.binary_search(&content.sum).is_err() {
            bytes = bytes.saturating_add(content.bytes);
        }
    }
    bytes
}

/// Returns the bytes of the first records of manifests.
fn bytes_of_first(manifests: &[Made], count: usize) -> u64 {
    let mut bytes: u64 = 0;
    for manifest in manifests.iter().take(count) {
        bytes = bytes.saturating_add(manifest.bytes);
    }
    bytes
}

/// Returns the bytes of the records of open sessions.
fn bytes_of_sessions(sessions: &BTreeMap<(u64, u64), OpenSession>) -> u64 {
    let mut bytes: u64 = 0;
    for session in sessions.values() {
        bytes = bytes.saturating_add(session.bytes);
    }
    bytes
}

impl Survey {
    /// Returns the survey of an empty log. Allocates nothing.
    pub fn new(alloc: Global) -> Survey {
        Survey {
            sessions: BTreeMap::new(alloc),
            contents: Vec::new(alloc),
            unlinked: Vec::new(alloc),
            manifests: Vec::new(alloc),
            deletes: 0,
            pairs: 0,
            total: 0,
        }
    }

    /// Notes the next change of the log.
    ///
    /// # Errors
    ///
    /// - if memory runs out.
    ///
    /// # Cost
    ///
    /// A search among the open sessions. A manifest is read.
    pub fn note(&mut self, change: &Change<'_>) -> Result<(), AllocError> {
        let len = change_len(change);
        self.total = self.total.saturating_add(len);
        match *change {
            Change::SessionOpened { repo, number } => {
                let session = OpenSession {
                    opened: len,
                    bytes: len,
                };
                self.sessions
                    .insert((sum_of(tenant_text(repo)), number), session)?;
            }
            Change::ChunkReceived { tenant, number, .. }
            | Change::ChunkNoted { tenant, number, .. } => self.note_chunk(tenant, number, len),
            Change::SessionSealed {
                tenant,
                number,
                digest,
                ..
            }
            | Change::SealNoted {
                tenant,
                number,
                digest,
                ..
            } => self.note_sealed(tenant, number, digest, len)?,
            Change::SessionDropped { tenant, number } => self.note_dropped(tenant, number, len),
            Change::BlobUnlinked { digest, .. } => self.unlinked.push(sum_of(digest))?,
            Change::ManifestPut { repo, bytes } => {
                let sum = sum_words(sum_of(repo), bytes);
                self.manifests.push(Made { sum, bytes: len })?;
            }
            Change::ManifestDeleted { .. } => self.deletes = self.deletes.saturating_add(1),
            _ => {}
        }
        Ok(())
    }

    /// Returns the bytes of the records that were noted, or the greatest number if there are more.
    pub fn total(&self) -> u64 {
        self.total
    }

    /// Returns a number of bytes that the records of the rewritten log have at least, if the log is one of a store.
    ///
    /// # Cost
    ///
    /// Linear in the seals, manifests and removals of the log, times a logarithm. Does not allocate.
    pub fn needed(self) -> u64 {
        let Survey {
            sessions,
            mut contents,
            mut unlinked,
            mut manifests,
            deletes,
            pairs,
            total: _,
        } = self;
        keep_least(&mut contents);
        unlinked.sort_unstable();
        keep_least(&mut manifests);
        manifests.sort_unstable_by_key(|manifest| manifest.bytes); // The longest ones may be the deleted ones.
        let kept = manifests.len().saturating_sub(deletes);
        pairs
            .saturating_add(bytes_of_sessions(&sessions))
            .saturating_add(bytes_of_contents(contents.as_slice(), unlinked.as_slice()))
            .saturating_add(bytes_of_first(manifests.as_slice(), kept))
    }

    /// Notes a chunk.
    fn note_chunk(&mut self, tenant: &[u8], number: u64, len: u64) {
        if let Some(session) = self.sessions.get_mut(&(sum_of(tenant), number)) {
            session.bytes = session.bytes.saturating_add(len);
        }
    }

    /// Notes a session that became a content.
    fn note_sealed(
        &mut self,
        tenant: &[u8],
        number: u64,
        digest: &[u8],
        len: u64,
    ) -> Result<(), AllocError> {
        if let Some(session) = self.sessions.remove(&(sum_of(tenant), number)) {
            self.contents.push(Made {
                sum: sum_of(digest),
                bytes: session.bytes.saturating_add(len),
            })?;
        }
        Ok(())
    }

    /// Notes a session that was abandoned.
    fn note_dropped(&mut self, tenant: &[u8], number: u64, len: u64) {
        if let Some(session) = self.sessions.remove(&(sum_of(tenant), number)) {
            let pair = session.opened.saturating_add(len);
            self.pairs = self.pairs.saturating_add(pair);
        }
    }
}

impl Receiver for Survey {
    fn receive(&mut self, change: &Change<'_>, offset: u64) -> Result<(), RewriteError> {
        let _ = offset;
        self.note(change)?;
        Ok(())
    }
}
