//! The first pass: what of a log is still needed.
ghost use Rattle.std.specs.Prelude.{◌≡◌, Err, IfOk, false};
ghost use Rattle.blob_digest.specs.Digests.{is_digest_text};
ghost use Rattle.log_records.specs.Changes.{change_view};
ghost use Rattle.log_rewriting.specs.Held.{held_sessions, last_sessions, open_sessions};
ghost use Rattle.log_rewriting.specs.Keeping.{KeepsEach};
ghost use Rattle.log_rewriting.specs.Refused.{HasInvalidDigest, IsForeign};
ghost use Rattle.log_rewriting.specs.declared.error.InventoryError.TheVariants.{DigestInvalid, KindUnexpected};

use crate::blobs::{Blob, BlobKey, Blobs, Link, Session};
use crate::collect::{
    add_bare, add_extra, add_held, add_last, add_links, add_manifests, add_open, add_repos,
    names_of, numbers_of,
};
use crate::error::InventoryError;
use crate::filter::Filter;
use crate::lengths::{change_len, digest_len, record_len};
use crate::names::{Names, Tenant};
use crate::place::Place;
use crate::seals::Seal;
use blob_digest::{Algorithm, Digest};
use log_records::Change;
use std::alloc::{AllocError, Global};
use std::collections::{BTreeMap, BTreeSet};

/// An open session: the number of its tenant, and its own.
pub type SessionKey = (usize, u64);

/// A manifest that exists.
#[derive(Clone, Copy, Debug)]
pub struct Stored {
    /// Offset of the record that put it.
    pub offset: u64,
    /// The bytes of that record.
    pub len: u64,
}

/// Which records of a log are still needed: the state after the records that were noted, and the record that made each part of
/// it.
///
/// # Memory
///
/// The inventory grows with the links, manifests and open sessions that exist at a time, and with the names of repositories and
/// the removals of repositories in the log. It does not grow with its length otherwise.
#[derive(Drop)]
pub struct Inventory {
    alloc: Global,
    names: Names,
    sessions: BTreeMap<SessionKey, Session>,
    blobs: Blobs,
    manifests: BTreeMap<(usize, Digest), Stored>,
    total: u64,
}

/// Parses the text of a digest.
fn parse(text: &[u8]) -> Result<Digest, InventoryError>
    ensures { is_digest_text text.now ≡ false → result ≡ Err DigestInvalid }
{
    match Digest::parse(text) {
        Ok(digest) => Ok(digest),
        Err(_) => Err(InventoryError::DigestInvalid),
    }
}

impl Inventory {
    /// Returns the inventory of an empty log. Allocates nothing.
    pub fn new(alloc: Global) -> Inventory {
        Inventory {
            alloc,
            names: Names::new(alloc),
            sessions: BTreeMap::new(alloc),
            blobs: Blobs::new(alloc),
            manifests: BTreeMap::new(alloc),
            total: 0,
        }
    }

    /// Notes the next change of the log, whose record is at `offset`. Offsets increase.
    ///
    /// After an error the inventory is not to be used further: a part of the change may have been noted.
    ///
    /// # Errors
    ///
    /// - `KindUnexpected`: a store does not write such a record.
    /// - `NameInvalid`, `DigestInvalid`: a text is no name of a repository, or no digest.
    /// - `NumberInvalid`: a session is opened, but not with its tenant's next number.
    /// - `SessionUnknown`: a chunk, a seal or an end of a session that is not open.
    /// - `BlobUnknown`: a link to a blob that the tenant does not hold, or the end of a link that does not exist.
    /// - `ManifestUnknown`: the end of a manifest that does not exist.
    /// - `RepoUnknown`, `RepoInUse`: the end of a repository that does not exist, or that has a link, a manifest or a session.
    /// - `Memory`: out of memory.
    ///
    /// # Cost
    ///
    /// Some look-ups, each logarithmic. A manifest is hashed. The end of a repository visits the blobs that were uploaded to it, and
    /// whose links it has lost. Memory is allocated for what is new, and for nothing else.
    pub fn note(&mut self, change: &Change<'_>, offset: u64) -> Result<(), InventoryError>
        ensures kinds { IsForeign (change_view change.now) → result ≡ Err KindUnexpected }
        ensures digests { HasInvalidDigest (change_view change.now) → result ≡ Err DigestInvalid }
    {
        let len = change_len(change);
        self.total = self.total.saturating_add(len);
        match *change {
            Change::SessionOpened { repo, number } => self.note_opened(repo, number, offset),
            Change::ChunkReceived { tenant, number, .. }
            | Change::ChunkNoted { tenant, number, .. } => self.note_chunk(tenant, number, len),
            Change::SessionSealed {
                tenant,
                number,
                digest,
                ..
            } => self.note_sealed(tenant, number, digest, offset, len, false),
            Change::SealNoted {
                tenant,
                number,
                digest,
                ..
            } => self.note_sealed(tenant, number, digest, offset, len, true),
            Change::SessionDropped { tenant, number } => self.note_dropped(tenant, number),
            Change::BlobLinked { repo, digest } => self.note_linked(repo, digest, offset, len),
            Change::BlobUnlinked { repo, digest } => self.note_unlinked(repo, digest),
            Change::ManifestPut { repo, bytes } => self.note_put(repo, bytes, offset, len),
            Change::ManifestDeleted { repo, digest } => self.note_deleted(repo, digest),
            Change::RepoRemoved { repo } => self.note_removed(repo),
            Change::RepoAdded { .. }
            | Change::NumberSet { .. }
            | Change::BlobStored { .. }
            | Change::BlobNoted { .. } => Err(InventoryError::KindUnexpected),
        }
    }

    /// Returns the bytes of the records that were noted, or the greatest number if there are more.
    pub fn total(&self) -> u64 {
        self.total
    }

    /// Returns the bytes of the records of the rewritten log, or the greatest number if there are more.
    ///
    /// # Cost
    ///
    /// Linear in the repositories, links, manifests and open sessions that exist.
    pub fn live(&self) -> u64 {
        self.blobs
            .live()
            .saturating_add(sessions_live(&self.sessions))
            .saturating_add(manifests_live(&self.manifests))
            .saturating_add(self.names.live())
    }

    /// Returns the filter for the second pass.
    ///
    /// # Errors
    ///
    /// - `AllocError`: out of memory.
    ///
    /// # Cost
    ///
    /// Linear in the repositories, links, manifests and open sessions that exist, times a logarithm.
    pub fn filter(&self) -> Result<Filter, AllocError>
        ensures open { IfOk result (λ F. KeepsEach F (open_sessions self.now)) }
        ensures held { IfOk result (λ F. KeepsEach F (held_sessions self.now)) }
        ensures last { IfOk result (λ F. KeepsEach F (last_sessions self.now)) }
    {
        let mut sessions = BTreeSet::new(self.alloc);
        add_open(&mut sessions, &self.sessions)?;
        add_held(&mut sessions, self.blobs.map())?;
        add_last(&mut sessions, self.blobs.last())?;
        Ok(Filter {
            names: names_of(self.alloc, self.names.ids())?,
            tenants: numbers_of(self.alloc, self.names.tenants())?,
            sessions,
            places: self.places()?,
        })
    }

    /// Returns what is kept of links, manifests and repositories.
    fn places(&self) -> Result<BTreeMap<u64, Place>, AllocError> {
        let mut places = BTreeMap::new(self.alloc);
        add_links(&mut places, self.blobs.map())?;
        add_extra(&mut places, &self.blobs)?;
        add_manifests(&mut places, &self.manifests)?;
        add_repos(&mut places, &self.names)?;
        add_bare(&mut places, &self.names)?;
        Ok(places)
    }

    /// Notes a session that was opened.
    fn note_opened(&mut self, name: &[u8], number: u64, offset: u64) -> Result<(), InventoryError> {
        let repo = self.names.appear(self.alloc, name, offset)?;
        self.names.open_session(name, number)?;
        let session = Session {
            repo: repo.id,
            name_len: name.len(),
            bytes: record_len(name.len(), 0, 0),
            pair_len: repo.pair_len,
        };
        self.sessions.insert((repo.tenant, number), session)?;
        self.names.use_repo(repo.id);
        Ok(())
    }

    /// Returns a tenant that has sessions.
    fn known_tenant(&self, name: &[u8]) -> Result<Tenant, InventoryError> {
        self.names
            .tenant(name)
            .ok_or(InventoryError::SessionUnknown)
    }

    /// Removes an open session and returns it with its tenant's number.
    fn close_session(
        &mut self,
        tenant: &[u8],
        number: u64,
    ) -> Result<(usize, Session), InventoryError> {
        let tenant = self.known_tenant(tenant)?.id;
        match self.sessions.remove(&(tenant, number)) {
            Some(session) => {
                self.names.free_repo(session.repo);
                Ok((tenant, session))
            }
            None => Err(InventoryError::SessionUnknown),
        }
    }

    /// Notes a chunk.
    fn note_chunk(&mut self, tenant: &[u8], number: u64, len: u64) -> Result<(), InventoryError> {
        let tenant = self.known_tenant(tenant)?.id;
        match self.sessions.get_mut(&(tenant, number)) {
            Some(session) => {
                session.bytes = session.bytes.saturating_add(len);
                Ok(())
            }
            None => Err(InventoryError::SessionUnknown),
        }
    }

    /// Notes a session that became a blob.
    fn note_sealed(
        &mut self,
        tenant: &[u8],
        number: u64,
        digest: &[u8],
        offset: u64,
        len: u64,
        is_noted: bool,
    ) -> Result<(), InventoryError>
        ensures { is_digest_text digest.now ≡ false → result ≡ Err DigestInvalid }
    {
        let digest = parse(digest)?;
        let (tenant, mut session) = self.close_session(tenant, number)?;
        session.bytes = session.bytes.saturating_add(len);
        let repo = session.repo;
        let seal = Seal {
            number,
            session,
            offset,
            is_noted,
        };
        if self.blobs.seal(self.alloc, (tenant, digest), seal)? {
            self.names.use_repo(repo);
        }
        Ok(())
    }

    /// Notes a session that was abandoned.
    fn note_dropped(&mut self, tenant: &[u8], number: u64) -> Result<(), InventoryError> {
        let (_, session) = self.close_session(tenant, number)?;
        self.blobs.drop_session(&session);
        Ok(())
    }

    /// Notes a link without a session.
    fn note_linked(
        &mut self,
        name: &[u8],
        digest: &[u8],
        offset: u64,
        len: u64,
    ) -> Result<(), InventoryError>
        ensures { is_digest_text digest.now ≡ false → result ≡ Err DigestInvalid }
    {
        let digest = parse(digest)?;
        let repo = self.names.appear(self.alloc, name, offset)?;
        let link = Link { offset, len };
        if self.blobs.link((repo.tenant, digest), repo.id, link)? {
            self.names.use_repo(repo.id);
        }
        Ok(())
    }

    /// Notes the end of a link.
    fn note_unlinked(&mut self, name: &[u8], digest: &[u8]) -> Result<(), InventoryError>
        ensures { is_digest_text digest.now ≡ false → result ≡ Err DigestInvalid }
    {
        let digest = parse(digest)?;
        let Some(repo) = self.names.repo(name) else {
            return Err(InventoryError::BlobUnknown);
        };
        let key = (repo.tenant, digest);
        let (link, dropped) = self.blobs.unlink(self.alloc, key, repo.id)?;
        self.names.free_repo(repo.id);
        if let Some(blob) = dropped {
            self.drop_moves(&blob)?;
        }
        if link.offset == repo.offset && !self.blobs.keep_as_move(&key, link.offset) {
            self.names.unmake(repo.id, link.offset)?;
        }
        Ok(())
    }

    /// Notes that a blob is gone, so that its moves are not kept.
    fn drop_moves(&mut self, blob: &Blob) -> Result<(), InventoryError> {
        for step in blob.moves.iter() {
            if step.creates {
                self.names.unmake(step.repo, step.offset)?;
            }
        }
        Ok(())
    }

    /// Notes the end of a repository.
    fn note_removed(&mut self, name: &[u8]) -> Result<(), InventoryError> {
        let repo = self.names.remove(name)?;
        self.blobs.move_from(repo.tenant, repo.id)
    }

    /// Notes a manifest that was put.
    fn note_put(
        &mut self,
        name: &[u8],
        bytes: &[u8],
        offset: u64,
        len: u64,
    ) -> Result<(), InventoryError> {
        let repo = self.names.appear(self.alloc, name, offset)?;
        let key = (repo.id, Digest::of(Algorithm::Sha256, bytes));
        if self.manifests.contains_key(&key) {
            return Ok(());
        }
        self.manifests.insert(key, Stored { offset, len })?;
        self.names.use_repo(repo.id);
        Ok(())
    }

    /// Notes the end of a manifest.
    fn note_deleted(&mut self, name: &[u8], digest: &[u8]) -> Result<(), InventoryError>
        ensures { is_digest_text digest.now ≡ false → result ≡ Err DigestInvalid }
    {
        let digest = parse(digest)?;
        let Some(repo) = self.names.repo(name) else {
            return Err(InventoryError::ManifestUnknown);
        };
        let Some(stored) = self.manifests.remove(&(repo.id, digest)) else {
            return Err(InventoryError::ManifestUnknown);
        };
        self.names.free_repo(repo.id);
        if stored.offset == repo.offset {
            self.names.unmake(repo.id, stored.offset)?;
        }
        Ok(())
    }
}

/// Returns the bytes of the records of open sessions.
fn sessions_live(sessions: &BTreeMap<SessionKey, Session>) -> u64 {
    let mut live: u64 = 0;
    for session in sessions.values() {
        live = live.saturating_add(session.bytes);
    }
    live
}

/// Returns the bytes of the records of manifests.
fn manifests_live(manifests: &BTreeMap<(usize, Digest), Stored>) -> u64 {
    let mut live: u64 = 0;
    for stored in manifests.values() {
        live = live.saturating_add(stored.len);
    }
    live
}
