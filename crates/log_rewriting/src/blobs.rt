//! The blobs that tenants hold, with the links to them.
ghost use Rattle.std.specs.Prelude.{◌≡◌};

use crate::error::InventoryError;
use crate::lengths::{digest_len, record_len};
use crate::seals::{LastSeal, Seal, SealedLink};
use blob_digest::Digest;
use std::alloc::Global;
use std::collections::{BTreeMap, BTreeSet};

/// An open session, or the one whose seal made a blob.
#[derive(Clone, Copy, Debug)]
pub struct Session {
    /// Number of the session's repository.
    pub repo: usize,
    /// The length of the repository's name, in bytes.
    pub name_len: usize,
    /// The bytes of the session's records so far.
    pub bytes: u64,
    /// The bytes of two records: the session is opened, and it is abandoned.
    pub pair_len: u64,
}

/// A link that exists.
#[derive(Clone, Copy, Debug)]
pub struct Link {
    /// Offset of the record that made the link.
    pub offset: u64,
    /// The bytes of a record that makes the link without a session.
    pub len: u64,
}

/// The repository whose link to a blob the rewritten log has at the place of the last record.
#[derive(Clone, Copy, Debug)]
pub struct Anchor {
    /// Number of the repository.
    pub repo: usize,
    /// The bytes of a record that makes or removes the link.
    pub len: u64,
}

/// A link that is kept because the anchor of its blob was removed. The link need not exist at the end.
#[derive(Clone, Copy, Debug)]
pub struct Move {
    /// Number of the repository, which is the next anchor.
    pub repo: usize,
    /// Offset of the record that made the link.
    pub offset: u64,
    /// The bytes of the records that make this link and remove that of the anchor before.
    pub len: u64,
    /// Whether the repository needs the record that made the link, because it was created by it and has lost the link.
    pub creates: bool,
}

/// A blob that a tenant holds, since the seal of a session made it.
#[derive(Drop)]
pub struct Blob {
    /// The seal.
    pub seal: Seal,
    /// The links of the tenant's repositories. There is at least one.
    pub links: BTreeMap<usize, Link>,
    /// The repository of the session, or that of the last move.
    pub anchor: Anchor,
    /// The moves, in the order of their offsets.
    pub moves: Vec<Move>,
}

/// A blob of a tenant: the tenant's number and the digest.
pub type BlobKey = (usize, Digest);

/// The blobs that tenants hold.
#[derive(Drop)]
pub struct Blobs {
    blobs: BTreeMap<BlobKey, Blob>,
    /// The last seals of the digests that tenants hold since a seal by notes.
    last: BTreeMap<Digest, LastSeal>,
    /// For each repository the blobs whose anchor it is although it has lost the link.
    left: BTreeMap<usize, BTreeSet<Digest>>,
    dropped: u64,
}

impl Blob {
    /// Returns whether the anchor has lost its link.
    pub fn is_moved(&self) -> bool {
        !self.links.contains_key(&self.anchor.repo)
    }
}

impl Blobs {
    /// Returns no blobs. Allocates nothing.
    pub fn new(alloc: Global) -> Blobs {
        Blobs {
            blobs: BTreeMap::new(alloc),
            last: BTreeMap::new(alloc),
            left: BTreeMap::new(alloc),
            dropped: 0,
        }
    }

    /// Returns the blobs.
    pub fn map(&self) -> &BTreeMap<BlobKey, Blob>
        ensures { result.now ≡ self.now.blobs }
    {
        &self.blobs
    }

    /// Returns the last seals of the digests that tenants hold since a seal by notes.
    pub fn last(&self) -> &BTreeMap<Digest, LastSeal>
        ensures { result.now ≡ self.now.last }
    {
        &self.last
    }

    /// Returns whether a seal made the blob that its tenant holds.
    fn is_of_blob(&self, digest: &Digest, last: &LastSeal) -> bool {
        self.blobs
            .get(&(last.tenant, *digest))
            .is_some_and(|blob| blob.seal.number == last.seal.number)
    }

    /// Returns what the last seal of a digest does to the link of its repository in the rewritten log, or `None` if it made the
    /// tenant's blob.
    pub fn sealed_link(&self, digest: &Digest, last: &LastSeal) -> Option<SealedLink> {
        if self.is_of_blob(digest, last) {
            return None;
        }
        Some(last.link(self.blobs.get(&(last.tenant, *digest))))
    }

    /// Notes the end of a session that is not kept.
    pub fn drop_session(&mut self, session: &Session) {
        self.dropped = self.dropped.saturating_add(session.pair_len);
    }

    /// Notes that a session of a tenant became a blob. Returns whether the link is new.
    ///
    /// # Errors
    ///
    /// - `Memory`: out of memory.
    pub fn seal(
        &mut self,
        alloc: Global,
        key: BlobKey,
        seal: Seal,
    ) -> Result<bool, InventoryError> {
        let is_held = self.blobs.contains_key(&key);
        let is_last = seal.is_noted && self.note_last(&key, &seal, is_held)?;
        let session = seal.session;
        let link = Link {
            offset: seal.offset,
            len: record_len(session.name_len, digest_len(&key.1), 0),
        };
        if is_held {
            if !is_last {
                self.drop_session(&session);
            }
            return self.link(key, session.repo, link);
        }
        let mut links = BTreeMap::new(alloc);
        links.insert(session.repo, link)?;
        let blob = Blob {
            seal,
            links,
            anchor: Anchor {
                repo: session.repo,
                len: link.len,
            },
            moves: Vec::new(alloc),
        };
        self.blobs.insert(key, blob)?;
        Ok(true)
    }

    /// Notes a seal by notes as the last one of its digest, and returns `true`. If the blob is held, but not since a seal by
    /// notes, the log has its bytes. Then it returns `false`.
    ///
    /// # Errors
    ///
    /// - `Memory`: out of memory.
    fn note_last(
        &mut self,
        key: &BlobKey,
        seal: &Seal,
        is_held: bool,
    ) -> Result<bool, InventoryError> {
        let before = self.last.get(&key.1).copied();
        let mut holders = match before {
            Some(before) => before.holders,
            None if is_held => return Ok(false),
            None => 0,
        };
        if let Some(before) = before {
            if !self.is_of_blob(&key.1, &before) {
                self.drop_session(&before.seal.session);
            }
        }
        if !is_held {
            holders = holders.saturating_add(1);
        }
        let last = LastSeal {
            tenant: key.0,
            seal: *seal,
            holders,
        };
        self.last.insert(key.1, last)?;
        Ok(true)
    }

    /// Notes that a tenant does not hold a blob any more. Its session is not kept, unless its seal is the last one of a digest that
    /// another tenant holds.
    fn release(&mut self, key: &BlobKey, seal: &Seal) {
        let Some(last) = self.last.get_mut(&key.1) else {
            return self.drop_session(&seal.session);
        };
        if !seal.is_noted {
            return self.drop_session(&seal.session);
        }
        last.holders = last.holders.saturating_sub(1);
        let last = *last;
        if last.tenant != key.0 || last.seal.number != seal.number {
            self.drop_session(&seal.session);
        }
        if last.holders == 0 {
            self.drop_session(&last.seal.session);
            self.last.remove(&key.1);
        }
    }

    /// Notes that a repository links a blob. A link that exists stays as it is. Returns whether the link is new.
    ///
    /// # Errors
    ///
    /// - `BlobUnknown`: the tenant does not hold the blob.
    /// - `Memory`: out of memory.
    pub fn link(&mut self, key: BlobKey, repo: usize, link: Link) -> Result<bool, InventoryError> {
        let Some(blob) = self.blobs.get_mut(&key) else {
            return Err(InventoryError::BlobUnknown);
        };
        if blob.links.contains_key(&repo) {
            return Ok(false);
        }
        blob.links.insert(repo, link)?;
        self.stays(repo, &key.1);
        Ok(true)
    }

    /// Notes that a repository's link to a blob was removed. Returns the link, and the blob if it was the last one.
    ///
    /// # Errors
    ///
    /// - `BlobUnknown`: there is no such link.
    /// - `Memory`: out of memory.
    pub fn unlink(
        &mut self,
        alloc: Global,
        key: BlobKey,
        repo: usize,
    ) -> Result<(Link, Option<Blob>), InventoryError> {
        let Some(blob) = self.blobs.get_mut(&key) else {
            return Err(InventoryError::BlobUnknown);
        };
        let Some(link) = blob.links.remove(&repo) else {
            return Err(InventoryError::BlobUnknown);
        };
        let anchor = blob.anchor.repo;
        if !blob.links.is_empty() {
            if repo == anchor {
                self.leaves(alloc, repo, key.1)?;
            }
            return Ok((link, None));
        }
        let seal = blob.seal;
        self.stays(anchor, &key.1);
        self.release(&key, &seal);
        Ok((link, self.blobs.remove(&key)))
    }

    /// Notes that the anchor of a blob has lost its link.
    fn leaves(&mut self, alloc: Global, repo: usize, digest: Digest) -> Result<(), InventoryError> {
        if let Some(left) = self.left.get_mut(&repo) {
            left.insert(digest)?;
            return Ok(());
        }
        let mut left = BTreeSet::new(alloc);
        left.insert(digest)?;
        self.left.insert(repo, left)?;
        Ok(())
    }

    /// Notes that a repository links a blob again, or that the blob is gone.
    fn stays(&mut self, repo: usize, digest: &Digest) {
        if let Some(left) = self.left.get_mut(&repo) {
            left.remove(digest);
        }
    }

    /// Notes that a repository of a tenant was removed: the blobs whose anchor it is move to the first of their links.
    ///
    /// # Errors
    ///
    /// - `Memory`: out of memory.
    pub fn move_from(&mut self, tenant: usize, repo: usize) -> Result<(), InventoryError> {
        let Some(left) = self.left.remove(&repo) else {
            return Ok(());
        };
        for digest in left.iter() {
            if let Some(blob) = self.blobs.get_mut(&(tenant, *digest)) {
                move_blob(blob, repo)?;
            }
        }
        Ok(())
    }

    /// Notes that a repository was created by the record at an offset, which made a link to a blob that is removed now. Returns
    /// whether the record is kept all the same, as a move of the blob.
    pub fn keep_as_move(&mut self, key: &BlobKey, offset: u64) -> bool {
        match self.blobs.get_mut(key) {
            Some(blob) => mark_creating(blob.moves.as_mut_slice(), offset),
            None => false,
        }
    }

    /// Returns the bytes of the records that the rewritten log has for blobs, links, and sessions that are not kept.
    pub fn live(&self) -> u64 {
        let mut live = self.dropped;
        for blob in self.blobs.values() {
            live = live.saturating_add(blob_live(blob));
        }
        for (digest, last) in self.last.iter() {
            live = live.saturating_add(self.last_live(digest, last));
        }
        live
    }

    /// Returns the bytes of the records that the rewritten log has for the last seal of a digest in addition to those for blobs.
    fn last_live(&self, digest: &Digest, last: &LastSeal) -> u64 {
        let session = &last.seal.session;
        let link = record_len(session.name_len, digest_len(digest), 0);
        match self.sealed_link(digest, last) {
            None => 0,
            Some(SealedLink::There) => session.bytes,
            Some(SealedLink::Made) => session.bytes.saturating_sub(link),
            Some(SealedLink::Extra) => session.bytes.saturating_add(link),
        }
    }
}

/// Returns the bytes of the records that the rewritten log has for a blob and its links.
fn blob_live(blob: &Blob) -> u64 {
    let mut live = blob.seal.session.bytes;
    for (repo, link) in blob.links.iter() {
        if *repo != blob.anchor.repo {
            live = live.saturating_add(link.len);
        }
    }
    if blob.is_moved() {
        live = live.saturating_add(blob.anchor.len);
    }
    live.saturating_add(moves_live(blob.moves.as_slice()))
}

/// Returns the bytes of the records that the rewritten log has for moves.
fn moves_live(moves: &[Move]) -> u64 {
    let mut live: u64 = 0;
    for step in moves.iter() {
        live = live.saturating_add(step.len);
    }
    live
}

/// Moves a blob from its anchor, which has lost the link and is removed, to the first link.
fn move_blob(blob: &mut Blob, from: usize) -> Result<(), InventoryError> {
    if blob.anchor.repo != from || !blob.is_moved() {
        return Ok(());
    }
    let Some((repo, link)) = first_link(&blob.links) else {
        return Ok(());
    };
    let step = Move {
        repo,
        offset: link.offset,
        len: link.len.saturating_add(blob.anchor.len),
        creates: false,
    };
    blob.moves.push(step)?;
    blob.anchor = Anchor {
        repo,
        len: link.len,
    };
    Ok(())
}

/// Marks the move at an offset as one that creates its repository. Returns whether there is one.
fn mark_creating(moves: &mut [Move], offset: u64) -> bool {
    for step in moves.iter_mut() {
        if step.offset == offset {
            step.creates = true;
            return true;
        }
    }
    false
}

/// Returns the link that was made first, with its repository.
pub fn first_link(links: &BTreeMap<usize, Link>) -> Option<(usize, Link)> {
    let mut first: Option<(usize, Link)> = None;
    for (repo, link) in links.iter() {
        first = match first {
            Some((_, before)) if before.offset <= link.offset => first,
            _ => Some((*repo, *link)),
        };
    }
    first
}
