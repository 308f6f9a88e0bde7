//! The state that the records of a log leave.
ghost use Rattle.std.specs.Prelude.{◌≡◌, IfOk, OnOk, true};
ghost use Rattle.log_records.specs.Changes.{BlobLinked, BlobUnlinked, ManifestDeleted, ManifestPut, RepoRemoved, SessionDropped, SessionOpened, change_view};
ghost use Rattle.log_state.specs.LoggedStates.{AreSame, HaveSameContent, HaveSameContents, HaveSameHome, HaveSameNotes, Takes, after_chunk, after_seal, found_at, initial_logged, place_in, state_in, with_home};
ghost use Rattle.spec_lib.specs.Texts.{text_cmp};
ghost use Rattle.spec_lib.specs.Trees.{tree_map};

use crate::bytes::Bytes;
use crate::chunk::Chunk;
use crate::error::StateError;
use crate::session::Session;
use blob_digest::{Algorithm, Digest, Refusal, RepoName};
use log_records::Change;
use std::alloc::{AllocError, Global};
use std::collections::BTreeMap;

/// The state that the records of a log leave in a store with some tenants: repositories, links, manifests, open
/// sessions, the next numbers of sessions, and the notes of contents.
///
/// # Memory
///
/// It grows with what exists, and with the digests of contents that the log ever had. A manifest is kept with its bytes;
/// a content with 16 bytes for each MiB that was begun; a chunk of an open session as its record has it.
#[derive(Drop)]
pub struct LogState<'t> {
    alloc: Global,
    /// The names of the store's tenants, in their order.
    tenants: &'t [Bytes],
    repos: BTreeMap<RepoName, ()>,
    links: BTreeMap<(RepoName, Digest), ()>,
    manifests: BTreeMap<(RepoName, Digest), Bytes>,
    sessions: BTreeMap<(usize, u64), Session>,
    next: Vec<u64>,
    contents: BTreeMap<Digest, Bytes>,
    /// The place of the tenant, and the number, of the session whose file has a content.
    homes: BTreeMap<Digest, (usize, u64)>,
}

/// Returns the name of a repository.
fn name_of(alloc: Global, text: &[u8]) -> Result<RepoName, StateError>
    ensures { IfOk result (λ name. name ≡ text.now) }
{
    match RepoName::parse(alloc, text) {
        Ok(name) => Ok(name),
        Err(Refusal::Memory) => Err(StateError::Memory),
        Err(_) => Err(StateError::NameInvalid),
    }
}

/// Returns the digest that a text is.
fn digest_of(text: &[u8]) -> Result<Digest, StateError>
    ensures { IfOk result (λ digest. digest ≡ text.now) }
{
    match Digest::parse(text) {
        Ok(digest) => Ok(digest),
        Err(_) => Err(StateError::DigestInvalid),
    }
}

/// Returns the place of a name among those of the tenants, if it is one of them.
fn found_at(tenants: &[Bytes], name: &[u8]) -> Option<usize>
    ensures { result ≡ found_at tenants.now name.now }
{
    tenants.iter().position(|tenant| tenant.as_slice() == name)
}

/// Returns the place of a tenant's name.
fn place_of(tenants: &[Bytes], name: &[u8]) -> Result<usize, StateError>
    ensures { IfOk result (λ t. t ≡ place_in tenants.now name.now) }
{
    match found_at(tenants, name) {
        Some(place) => Ok(place),
        None => Err(StateError::TenantUnknown),
    }
}

/// Notes that the file of a session has a content, if the content was closed by notes, and else that no file has it.
fn set_home(
    homes: &mut BTreeMap<Digest, (usize, u64)>,
    digest: Digest,
    key: (usize, u64),
    is_noted: bool,
) -> Result<(), StateError>
    ensures { OnOk result (tree_map text_cmp homes.new
        ≡ with_home (tree_map text_cmp homes.old) digest key is_noted) }
{
    if is_noted {
        let _ = homes.insert(digest, key)?;
    } else {
        let _ = homes.remove(&digest);
    }
    Ok(())
}

impl<'t> LogState<'t> {
    /// Returns the state of an empty log of a store whose tenants have these names, in their order.
    ///
    /// # Errors
    ///
    /// - if memory runs out.
    pub fn new(alloc: Global, tenants: &'t [Bytes]) -> Result<LogState<'t>, AllocError>
        ensures tenants { IfOk result (λ s. s.tenants.now ≡ tenants.now) }
        ensures empty { IfOk result (λ s. state_in s ≡ initial_logged tenants.now) }
    {
        Ok(LogState {
            alloc,
            tenants,
            repos: BTreeMap::new(alloc),
            links: BTreeMap::new(alloc),
            manifests: BTreeMap::new(alloc),
            sessions: BTreeMap::new(alloc),
            next: Vec::from_elem(alloc, 1, tenants.len())?,
            contents: BTreeMap::new(alloc),
            homes: BTreeMap::new(alloc),
        })
    }

    /// Takes the next change of the log.
    ///
    /// After an error the state is not to be used further: a part of the change may have been made.
    ///
    /// # Errors
    ///
    /// - `KindUnexpected`: a store does not write such a record.
    /// - `NameInvalid`, `DigestInvalid`: a text is no name of a repository, or no digest.
    /// - `TenantUnknown`: the store has no such tenant.
    /// - `SessionUnknown`: a chunk, a seal or an end of a session that is not open.
    /// - `NumberInvalid`: the number of a session is 2^64 - 1.
    /// - `Memory`: out of memory.
    ///
    /// # Cost
    ///
    /// Some look-ups, each logarithmic. A manifest is hashed and copied, and a chunk is copied. A seal is linear in the
    /// bytes and the notes of its session.
    pub fn take(&mut self, change: &Change<'_>) -> Result<(), StateError>
        ensures { OnOk result (Takes self.old (change_view change.now) self.new) }
    {
        match *change {
            Change::SessionOpened { repo, number } => self.open(repo, number),
            Change::ChunkReceived {
                tenant,
                number,
                bytes,
            } => {
                let chunk = Chunk::Bytes(Bytes::copy(self.alloc, bytes)?);
                self.add(tenant, number, chunk)
            }
            Change::ChunkNoted {
                tenant,
                number,
                notes,
            } => {
                let chunk = Chunk::Notes(Bytes::copy(self.alloc, notes)?);
                self.add(tenant, number, chunk)
            }
            Change::SessionSealed {
                tenant,
                number,
                digest,
                last,
            } => {
                let last = Chunk::Bytes(Bytes::copy(self.alloc, last)?);
                self.seal(tenant, number, digest, last)
            }
            Change::SealNoted {
                tenant,
                number,
                digest,
                notes,
            } => {
                let last = Chunk::Notes(Bytes::copy(self.alloc, notes)?);
                self.seal(tenant, number, digest, last)
            }
            Change::SessionDropped { tenant, number } => self.drop_session(tenant, number),
            Change::BlobLinked { repo, digest } => self.link(repo, digest),
            Change::BlobUnlinked { repo, digest } => self.unlink(repo, digest),
            Change::ManifestPut { repo, bytes } => self.put_manifest(repo, bytes),
            Change::ManifestDeleted { repo, digest } => self.delete_manifest(repo, digest),
            Change::RepoRemoved { repo } => self.remove_repo(repo),
            Change::RepoAdded { .. }
            | Change::NumberSet { .. }
            | Change::BlobStored { .. }
            | Change::BlobNoted { .. } => Err(StateError::KindUnexpected),
        }
    }

    /// A session is opened.
    fn open(&mut self, repo: &[u8], number: u64) -> Result<(), StateError>
        ensures { OnOk result (Takes self.old (SessionOpened repo.now number) self.new) }
    {
        let name = name_of(self.alloc, repo)?;
        let tenant = place_of(self.tenants, name.tenant().as_bytes())?;
        let Some(after) = number.checked_add(1) else {
            return Err(StateError::NumberInvalid);
        };
        if tenant >= self.next.len() {
            return Err(StateError::TenantUnknown);
        }
        self.next[tenant] = after;
        let session = Session::new(self.alloc, name.clone()?);
        let _ = self.repos.insert(name, ())?;
        let _ = self.sessions.insert((tenant, number), session)?;
        Ok(())
    }

    /// A session receives a chunk.
    fn add(&mut self, tenant: &[u8], number: u64, chunk: Chunk) -> Result<(), StateError>
        ensures tenants { OnOk result (self.new.tenants.now ≡ self.old.tenants.now) }
        ensures state { OnOk result (state_in self.new ≡ after_chunk (state_in self.old)
            (place_in self.old.tenants.now tenant.now, number) chunk) }
    {
        let key = (place_of(self.tenants, tenant)?, number);
        let Some(session) = self.sessions.remove(&key) else {
            return Err(StateError::SessionUnknown);
        };
        let mut session = session;
        session.add(chunk)?;
        let _ = self.sessions.insert(key, session)?;
        Ok(())
    }

    /// A session becomes a blob, which its repository links.
    fn seal(
        &mut self,
        tenant: &[u8],
        number: u64,
        digest: &[u8],
        last: Chunk,
    ) -> Result<(), StateError>
        ensures tenants { OnOk result (self.new.tenants.now ≡ self.old.tenants.now) }
        ensures state { OnOk result (state_in self.new ≡ after_seal (state_in self.old)
            (place_in self.old.tenants.now tenant.now, number) digest.now last) }
    {
        let digest = digest_of(digest)?;
        let key = (place_of(self.tenants, tenant)?, number);
        let Some(session) = self.sessions.remove(&key) else {
            return Err(StateError::SessionUnknown);
        };
        let is_noted = last.is_noted();
        let (repo, notes) = session.seal(self.alloc, last)?;
        let _ = self.links.insert((repo, digest), ())?;
        let _ = self.contents.insert(digest, notes)?;
        set_home(&mut self.homes, digest, key, is_noted)?;
        Ok(())
    }

    /// A session is abandoned.
    fn drop_session(&mut self, tenant: &[u8], number: u64) -> Result<(), StateError>
        ensures { OnOk result (Takes self.old (SessionDropped tenant.now number) self.new) }
    {
        let key = (place_of(self.tenants, tenant)?, number);
        let Some(_session) = self.sessions.remove(&key) else {
            return Err(StateError::SessionUnknown);
        };
        Ok(())
    }

    /// A repository links a blob.
    fn link(&mut self, repo: &[u8], digest: &[u8]) -> Result<(), StateError>
        ensures { OnOk result (Takes self.old (BlobLinked repo.now digest.now) self.new) }
    {
        let digest = digest_of(digest)?;
        let name = name_of(self.alloc, repo)?;
        let _ = self.repos.insert(name.clone()?, ())?;
        let _ = self.links.insert((name, digest), ())?;
        Ok(())
    }

    /// A repository removes its link to a blob.
    fn unlink(&mut self, repo: &[u8], digest: &[u8]) -> Result<(), StateError>
        ensures { OnOk result (Takes self.old (BlobUnlinked repo.now digest.now) self.new) }
    {
        let digest = digest_of(digest)?;
        let key = (name_of(self.alloc, repo)?, digest);
        let _ = self.links.remove(&key);
        Ok(())
    }

    /// A manifest is put into a repository.
    fn put_manifest(&mut self, repo: &[u8], bytes: &[u8]) -> Result<(), StateError>
        ensures { OnOk result (Takes self.old (ManifestPut repo.now bytes.now) self.new) }
    {
        let name = name_of(self.alloc, repo)?;
        let key = (name.clone()?, Digest::of(Algorithm::Sha256, bytes));
        if self.manifests.contains_key(&key) {
            return Ok(());
        }
        let _ = self.repos.insert(name, ())?;
        let _ = self.manifests.insert(key, Bytes::copy(self.alloc, bytes)?)?;
        Ok(())
    }

    /// A manifest is deleted from a repository.
    fn delete_manifest(&mut self, repo: &[u8], digest: &[u8]) -> Result<(), StateError>
        ensures { OnOk result (Takes self.old (ManifestDeleted repo.now digest.now) self.new) }
    {
        let digest = digest_of(digest)?;
        let key = (name_of(self.alloc, repo)?, digest);
        let _ = self.manifests.remove(&key);
        Ok(())
    }

    /// A repository is removed.
    fn remove_repo(&mut self, repo: &[u8]) -> Result<(), StateError>
        ensures { OnOk result (Takes self.old (RepoRemoved repo.now) self.new) }
    {
        let name = name_of(self.alloc, repo)?;
        let _ = self.repos.remove(&name);
        Ok(())
    }

    /// Returns whether another log leaves the same state in the same store: the same repositories, links, manifests,
    /// open sessions and next numbers of sessions, and the same notes of each content that has a link.
    ///
    /// # Cost
    ///
    /// Linear in what exists, times a logarithm. Does not allocate.
    pub fn is_same(&self, other: &LogState<'_>) -> bool
        ensures { result ≡ true → AreSame (state_in self.now) (state_in other.now) }
    {
        if self.next.as_slice() != other.next.as_slice() {
            return false;
        }
        if self.repos != other.repos {
            return false;
        }
        if self.links != other.links {
            return false;
        }
        if self.manifests != other.manifests {
            return false;
        }
        if self.sessions != other.sessions {
            return false;
        }
        self.has_same_contents(other)
    }

    /// Returns whether both are states of a store with the same tenants.
    pub fn has_same_tenants(&self, other: &LogState<'_>) -> bool
        ensures { result ≡ true → self.now.tenants.now ≡ other.now.tenants.now }
    {
        self.tenants == other.tenants
    }

    /// Returns whether both states have the same contents of the links here.
    fn has_same_contents(&self, other: &LogState<'_>) -> bool
        ensures { result ≡ true → HaveSameContents (state_in self.now) (state_in other.now) }
    {
        for key in self.links.keys() {
            if !self.has_same_content(other, &key.1) {
                return false;
            }
        }
        true
    }

    /// Returns whether both states have the same notes of a content, in the file of the same session, or both have none.
    fn has_same_content(&self, other: &LogState<'_>, digest: &Digest) -> bool
        ensures { result ≡ true → HaveSameContent (state_in self.now) (state_in other.now)
            digest.now }
    {
        if !self.has_same_notes(other, digest) {
            return false;
        }
        self.has_same_home(other, digest)
    }

    /// Returns whether both states have the same notes of a content, or both none.
    fn has_same_notes(&self, other: &LogState<'_>, digest: &Digest) -> bool
        ensures { result ≡ true → HaveSameNotes (state_in self.now) (state_in other.now)
            digest.now }
    {
        self.contents.get(digest) == other.contents.get(digest)
    }

    /// Returns whether both states have a content in the file of the same session, or both in none.
    fn has_same_home(&self, other: &LogState<'_>, digest: &Digest) -> bool
        ensures { result ≡ true → HaveSameHome (state_in self.now) (state_in other.now)
            digest.now }
    {
        self.homes.get(digest) == other.homes.get(digest)
    }
}
