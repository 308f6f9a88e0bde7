//! Plays the changes of records at a desk.

use crate::fault::Cause;
use crate::observer::ChangeSink;
use crate::open_sessions::{OpenSession, OpenSessions};
use blob_digest::{Digest, Refusal, RepoName};
use blob_store::{Desk, Naming, Store};
use content_files::{ContentError, ContentName, NoFiles, noted_len, read_chunk};
use log_records::Change;
use std::alloc::Global;
use std::str;
use std::sync::Wait;
use upload_table::Hashing;

/// Plays the changes of a log in a store: each by a call of the store at the caller's desk.
///
/// It keeps the repository of each open session, since a record of a session names only its tenant and its number. The
/// first change must be the first one of the log, and the store a new one.
///
/// # Cost
///
/// The call of the store, and a search among the tenants and the open sessions of one.
#[derive(Drop)]
pub struct Player<'s, W: Wait, S: Naming> {
    rt: &'s W,
    store: &'s Store<S>,
    alloc: Global,
    sessions: OpenSessions,
}

/// Returns the session's number, as a store numbers sessions.
fn session_number(number: u64) -> Result<u32, Cause> {
    match u32::try_from(number) {
        Ok(number) => Ok(number),
        Err(_) => Err(Cause::Malformed),
    }
}

/// Returns the name of a tenant.
fn tenant_name(tenant: &[u8]) -> Result<&str, Cause> {
    match str::from_utf8(tenant) {
        Ok(tenant) => Ok(tenant),
        Err(_) => Err(Cause::Malformed),
    }
}

/// Returns the digest that a record names.
fn digest_of(text: &[u8]) -> Result<Digest, Cause> {
    match Digest::parse(text) {
        Ok(digest) => Ok(digest),
        Err(_) => Err(Cause::Malformed),
    }
}

/// The last chunk of a session that is closed.
#[derive(Clone, Copy)]
enum LastChunk<'b> {
    /// Its bytes, and how the session is hashed.
    Bytes(&'b [u8], Hashing<'b>),
    /// The notes of its pieces.
    Noted(&'b [u8]),
}

impl<'s, W: Wait, S: Naming> Player<'s, W, S> {
    /// Creates a player of a store's log, from its first change on.
    pub fn new(rt: &'s W, store: &'s Store<S>, alloc: Global) -> Player<'s, W, S> {
        Player {
            rt,
            store,
            alloc,
            sessions: OpenSessions::new(alloc),
        }
    }

    /// Returns the repository that a record names.
    fn repo_of(&self, text: &[u8]) -> Result<RepoName, Cause> {
        match RepoName::parse(self.alloc, text) {
            Ok(repo) => Ok(repo),
            Err(Refusal::Memory) => Err(Cause::Memory),
            Err(_) => Err(Cause::Malformed),
        }
    }

    /// Returns an open session.
    fn session(&self, tenant: &str, number: u32) -> Result<&OpenSession, Cause> {
        match self.sessions.get(tenant, number) {
            Some(session) => Ok(session),
            None => Err(self.refused(tenant, Refusal::UploadUnknown)),
        }
    }

    /// Returns the cause for a change that the store refused.
    fn refused(&self, name: &str, refusal: Refusal) -> Cause {
        Cause::refused(self.alloc, name, refusal)
    }

    /// Opens a session.
    fn open(&mut self, desk: &mut Desk<S>, repo: &[u8]) -> Result<(), Cause> {
        let repo = self.repo_of(repo)?;
        match self.store.start(self.rt, desk, &repo) {
            Ok(number) => {
                self.sessions.insert(repo, number)?;
                Ok(())
            }
            Err(refusal) => Err(self.refused(repo.text(), refusal)),
        }
    }

    /// Adds a chunk to a session. Unless the session is left open, its bytes are hashed when it is closed.
    fn append<O: ChangeSink>(
        &mut self,
        desk: &mut Desk<S>,
        observer: &O,
        tenant: &[u8],
        number: u64,
        bytes: &[u8],
    ) -> Result<(), Cause> {
        let number = session_number(number)?;
        let hashing = match observer.left_open(tenant, number) {
            Some(_) => Hashing::Open,
            None => Hashing::Later,
        };
        let tenant = tenant_name(tenant)?;
        let repo = &self.session(tenant, number)?.repo;
        match self.store.append_by(
            self.rt,
            observer.files(),
            desk,
            repo,
            number,
            None,
            bytes,
            hashing,
        ) {
            Ok(received) => {
                self.sessions.set_received(tenant, number, received);
                Ok(())
            }
            Err(refusal) => Err(self.refused(tenant, refusal)),
        }
    }

    /// Reads a chunk of a session that is left open from the file of its content, and adds it.
    fn append_read<O: ChangeSink>(
        &self,
        desk: &mut Desk<S>,
        observer: &O,
        session: &OpenSession,
        name: ContentName,
        notes: &[u8],
    ) -> Result<Result<u64, Refusal>, ContentError> {
        let files = observer.files();
        let bytes = read_chunk(files, self.alloc, name, session.received, notes)?;
        let appended = self.store.append_by(
            self.rt,
            files,
            desk,
            &session.repo,
            name.number,
            None,
            bytes.as_slice(),
            Hashing::Open,
        );
        match observer.take_error() {
            Some(error) if matches!(appended, Err(Refusal::Memory)) => Err(error),
            _ => Ok(appended),
        }
    }

    /// Adds a chunk of a session that is left open. If its bytes cannot be had, and the observer gives them up, adds it by its notes.
    fn append_left_open<O: ChangeSink>(
        &self,
        desk: &mut Desk<S>,
        observer: &mut O,
        session: &OpenSession,
        name: ContentName,
        notes: &[u8],
    ) -> Result<Result<u64, Refusal>, Cause> {
        let error = match self.append_read(desk, observer, session, name, notes) {
            Ok(appended) => return Ok(appended),
            Err(error) => error,
        };
        let (tenant, number) = (session.repo.tenant(), name.number);
        if observer.gives_up(tenant, number, &error) {
            return self.append_by_notes(desk, session, number, notes);
        }
        Err(Cause::unread(self.alloc, tenant, number, error))
    }

    /// Adds a chunk by the notes of its pieces. Nothing is read.
    fn append_by_notes(
        &self,
        desk: &mut Desk<S>,
        session: &OpenSession,
        number: u32,
        notes: &[u8],
    ) -> Result<Result<u64, Refusal>, Cause> {
        match noted_len(notes) {
            Some(len) => Ok(
                self.store
                    .append_noted(self.rt, desk, &session.repo, number, notes, len),
            ),
            None => Err(Cause::Malformed),
        }
    }

    /// Adds a chunk to a session by the notes of its pieces. It is read only if the session is left open.
    fn append_noted<O: ChangeSink>(
        &mut self,
        desk: &mut Desk<S>,
        observer: &mut O,
        tenant: &[u8],
        number: u64,
        notes: &[u8],
    ) -> Result<(), Cause> {
        let number = session_number(number)?;
        let left_open = observer.left_open(tenant, number);
        let tenant = tenant_name(tenant)?;
        if noted_len(notes).is_none() {
            return Err(Cause::Malformed);
        }
        let session = self.session(tenant, number)?;
        let appended = match left_open {
            Some(name) => self.append_left_open(desk, observer, session, name, notes)?,
            None => self.append_by_notes(desk, session, number, notes)?,
        };
        match appended {
            Ok(received) => {
                self.sessions.set_received(tenant, number, received);
                Ok(())
            }
            Err(refusal) => Err(self.refused(tenant, refusal)),
        }
    }

    /// Closes a session with its last chunk.
    fn close(
        &self,
        desk: &mut Desk<S>,
        repo: &RepoName,
        number: u32,
        digest: &Digest,
        last: LastChunk<'_>,
    ) -> Result<u64, Refusal> {
        match last {
            LastChunk::Bytes(bytes, hashing) => self.store.close_by(
                self.rt, &NoFiles, desk, repo, number, digest, None, bytes, hashing,
            ),
            LastChunk::Noted(notes) => match noted_len(notes) {
                Some(len) => self
                    .store
                    .close_noted(self.rt, desk, repo, number, digest, notes, len),
                None => Err(Refusal::Memory),
            },
        }
    }

    /// Closes a session with its last chunk. If the store is full, sweeps and tries again.
    fn close_or_sweep(
        &mut self,
        desk: &mut Desk<S>,
        tenant: &[u8],
        number: u64,
        digest: &[u8],
        last: LastChunk<'_>,
    ) -> Result<(), Cause> {
        let tenant = tenant_name(tenant)?;
        let number = session_number(number)?;
        let digest = digest_of(digest)?;
        let repo = &self.session(tenant, number)?.repo;
        let mut closed = self.close(desk, repo, number, &digest, last);
        if matches!(closed, Err(Refusal::StoreFull)) {
            let _ = self.store.sweep_at(self.rt, desk);
            closed = self.close(desk, repo, number, &digest, last);
        }
        match closed {
            Ok(_) => {
                self.sessions.remove(tenant, number);
                Ok(())
            }
            Err(refusal) => Err(self.refused(tenant, refusal)),
        }
    }

    /// Closes a session, whose bytes are hashed.
    fn seal(
        &mut self,
        desk: &mut Desk<S>,
        tenant: &[u8],
        number: u64,
        digest: &[u8],
        last: &[u8],
    ) -> Result<(), Cause> {
        let hashing = Hashing::Last(digest_of(digest)?.algorithm());
        self.close_or_sweep(
            desk,
            tenant,
            number,
            digest,
            LastChunk::Bytes(last, hashing),
        )
    }

    /// Closes a session with its last chunk, by the notes of the chunk's pieces. Nothing is read or hashed.
    fn seal_noted(
        &mut self,
        desk: &mut Desk<S>,
        tenant: &[u8],
        number: u64,
        digest: &[u8],
        notes: &[u8],
    ) -> Result<(), Cause> {
        if noted_len(notes).is_none() {
            return Err(Cause::Malformed);
        }
        self.close_or_sweep(desk, tenant, number, digest, LastChunk::Noted(notes))
    }

    /// Abandons a session.
    fn abandon(&mut self, desk: &mut Desk<S>, tenant: &[u8], number: u64) -> Result<(), Cause> {
        let tenant = tenant_name(tenant)?;
        let number = session_number(number)?;
        let repo = &self.session(tenant, number)?.repo;
        match self.store.abandon(self.rt, desk, repo, number) {
            Ok(_) => {
                self.sessions.remove(tenant, number);
                Ok(())
            }
            Err(refusal) => Err(self.refused(tenant, refusal)),
        }
    }

    /// Links a blob.
    fn link(&self, desk: &mut Desk<S>, repo: &[u8], digest: &[u8]) -> Result<(), Cause> {
        let repo = self.repo_of(repo)?;
        let digest = digest_of(digest)?;
        match self.store.mount(self.rt, desk, &repo, &digest, None) {
            Ok(_) => Ok(()),
            Err(refusal) => Err(self.refused(repo.text(), refusal)),
        }
    }

    /// Removes the link of a blob, and sweeps, so that the store keeps no more than the log's store needed.
    fn unlink(&self, desk: &mut Desk<S>, repo: &[u8], digest: &[u8]) -> Result<(), Cause> {
        let repo = self.repo_of(repo)?;
        let digest = digest_of(digest)?;
        match self.store.delete(self.rt, desk, &repo, &digest) {
            Ok(()) => {
                let _ = self.store.sweep_at(self.rt, desk);
                Ok(())
            }
            Err(refusal) => Err(self.refused(repo.text(), refusal)),
        }
    }

    /// Stores a manifest.
    fn put_manifest(&self, desk: &mut Desk<S>, repo: &[u8], bytes: &[u8]) -> Result<(), Cause> {
        let repo = self.repo_of(repo)?;
        match self.store.put_manifest(self.rt, desk, &repo, bytes) {
            Ok(_) => Ok(()),
            Err(refusal) => Err(self.refused(repo.text(), refusal)),
        }
    }

    /// Deletes a manifest.
    fn delete_manifest(&self, desk: &mut Desk<S>, repo: &[u8], digest: &[u8]) -> Result<(), Cause> {
        let repo = self.repo_of(repo)?;
        let digest = digest_of(digest)?;
        match self.store.delete_manifest(self.rt, desk, &repo, &digest) {
            Ok(()) => Ok(()),
            Err(refusal) => Err(self.refused(repo.text(), refusal)),
        }
    }

    /// Removes a repository.
    fn remove_repo(&self, desk: &mut Desk<S>, repo: &[u8]) -> Result<(), Cause> {
        let repo = self.repo_of(repo)?;
        match self.store.remove_repo(self.rt, desk, &repo) {
            Ok(()) => Ok(()),
            Err(refusal) => Err(self.refused(repo.text(), refusal)),
        }
    }

    /// Makes a change at the desk. After the removal of a link, and if the store is full, it sweeps.
    ///
    /// # Errors
    ///
    /// - `Rewritten` if only a rewritten log has such a record.
    /// - `Malformed` if a name, a digest or a session's number is not one, or notes are not those of a chunk.
    /// - `Content` if a chunk of a session that is left open cannot be read from its file.
    /// - `Refused` if no such session is open, or the store refuses the change.
    /// - `Memory`
    pub fn play<O: ChangeSink>(
        &mut self,
        desk: &mut Desk<S>,
        observer: &mut O,
        change: &Change<'_>,
    ) -> Result<(), Cause> {
        match *change {
            Change::SessionOpened { repo, number: _ } => self.open(desk, repo),
            Change::ChunkReceived {
                tenant,
                number,
                bytes,
            } => self.append(desk, observer, tenant, number, bytes),
            Change::ChunkNoted {
                tenant,
                number,
                notes,
            } => self.append_noted(desk, observer, tenant, number, notes),
            Change::SealNoted {
                tenant,
                number,
                digest,
                notes,
            } => self.seal_noted(desk, tenant, number, digest, notes),
            Change::SessionSealed {
                tenant,
                number,
                digest,
                last,
            } => self.seal(desk, tenant, number, digest, last),
            Change::SessionDropped { tenant, number } => { self.abandon(desk, tenant, number) }
            Change::BlobLinked { repo, digest } => self.link(desk, repo, digest),
            Change::BlobUnlinked { repo, digest } => self.unlink(desk, repo, digest),
            Change::ManifestPut { repo, bytes } => self.put_manifest(desk, repo, bytes),
            Change::ManifestDeleted { repo, digest } => self.delete_manifest(desk, repo, digest),
            Change::RepoRemoved { repo } => self.remove_repo(desk, repo),
            Change::RepoAdded { .. }
            | Change::NumberSet { .. }
            | Change::BlobStored { .. }
            | Change::BlobNoted { .. } => { Err(Cause::Rewritten) }
        }
    }
}
