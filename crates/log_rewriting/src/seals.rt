//! The last seals of digests by notes. A content in a file is that of the last one.

use crate::blobs::{Blob, Session, first_link};

/// A seal: how a session ended.
#[derive(Clone, Copy, Debug)]
pub struct Seal {
    /// The number of the session.
    pub number: u64,
    /// The session, with the bytes of the seal's record.
    pub session: Session,
    /// Offset of the record.
    pub offset: u64,
    /// Whether the record has notes in place of bytes.
    pub is_noted: bool,
}

/// The last seal by notes of a digest. A tenant holds the blob since a seal by notes.
#[derive(Clone, Copy, Debug)]
pub struct LastSeal {
    /// Number of the session's tenant.
    pub tenant: usize,
    /// The seal.
    pub seal: Seal,
    /// The number of tenants that hold the blob since a seal by notes.
    pub holders: u64,
}

/// What a seal that is kept, and that did not make the tenant's blob, does to the link of its repository in the rewritten log.
#[derive(Clone, Copy, Debug, PartialEq, Eq)]
pub enum SealedLink {
    /// The link is there already.
    There,
    /// The seal makes the link, which is one of the rewritten log.
    Made,
    /// The seal makes the link, which is none of the rewritten log. It is removed at once.
    Extra,
}

impl LastSeal {
    /// Returns what the seal does to the link of its repository. The tenant may hold the blob at the end.
    pub fn link(&self, held: Option<&Blob>) -> SealedLink {
        let Some(blob) = held else {
            return SealedLink::Extra;
        };
        let (repo, offset) = (self.seal.session.repo, self.seal.offset);
        if has_link_before(blob, repo, offset) {
            SealedLink::There
        } else if is_linked_by(blob, repo, offset) {
            SealedLink::Made
        } else {
            SealedLink::Extra
        }
    }
}

/// Returns whether the rewritten log has a repository's link to a blob just before the record at an offset.
fn has_link_before(blob: &Blob, repo: usize, offset: u64) -> bool {
    if blob.seal.offset >= offset {
        return false;
    }
    if anchor_before(blob, offset) == repo {
        return !has_moved_before(blob, offset);
    }
    blob.links
        .get(&repo)
        .is_some_and(|link| link.offset < offset)
}

/// Returns the anchor of a blob just before the record at an offset, which is after the blob's seal.
fn anchor_before(blob: &Blob, offset: u64) -> usize {
    let mut anchor = blob.seal.session.repo;
    for step in blob.moves.iter() {
        if step.offset < offset {
            anchor = step.repo;
        }
    }
    anchor
}

/// Returns whether the link of a blob's last anchor is removed before the record at an offset.
fn has_moved_before(blob: &Blob, offset: u64) -> bool {
    match first_link(&blob.links) {
        Some((_, link)) => blob.is_moved() && link.offset < offset,
        None => false,
    }
}

/// Returns whether the record at an offset makes a repository's link to a blob that the rewritten log has.
fn is_linked_by(blob: &Blob, repo: usize, offset: u64) -> bool {
    blob.moves.iter().any(|step| step.offset == offset)
        || blob
            .links
            .get(&repo)
            .is_some_and(|link| link.offset == offset)
}
