//! The names of repositories and tenants that occur in a log.
ghost use Rattle.std.specs.Prelude.{◌≡◌, ◌==◌, position};
ghost use Rattle.blob_digest.specs.Names.{tenant_name};

use crate::empty_index::{EMPTY_INDEX, EMPTY_INDEX_DIGEST};
use crate::error::InventoryError;
use crate::lengths::record_len;
use blob_digest::{Refusal, RepoName};
use std::alloc::Global;
use std::collections::BTreeMap;

/// What an inventory knows of a tenant.
#[derive(Clone, Copy, Debug)]
pub struct Tenant {
    /// Number of the tenant, in the order of appearance.
    pub id: usize,
    /// The number of the tenant's next session.
    pub next: u64,
}

/// What an inventory knows of a repository. A repository that was removed is kept, because its name may come back.
#[derive(Clone, Copy, Debug)]
pub struct Repo {
    /// Number of the repository, in the order in which the names appeared first.
    pub id: usize,
    /// Number of its tenant.
    pub tenant: usize,
    /// Whether the repository exists.
    pub exists: bool,
    /// The number of its links, manifests and open sessions.
    pub uses: u64,
    /// Offset of the record that created the repository last.
    pub offset: u64,
    /// Whether that record opened a session, or made a link or a manifest that is kept.
    pub is_made: bool,
    /// The length of the repository's name, in bytes.
    pub name_len: usize,
    /// The bytes of two records: a session of the repository is opened, and it is abandoned.
    pub pair_len: u64,
}

/// The repositories and tenants of a log.
#[derive(Drop)]
pub struct Names {
    ids: BTreeMap<Vec<u8>, usize>,
    repos: Vec<Repo>,
    tenants: BTreeMap<Vec<u8>, Tenant>,
    /// Offsets of the records that created repositories which were removed later, if nothing of the record is kept.
    bare: Vec<u64>,
    /// The bytes of the records that the rewritten log has for removals, and for the repositories at these offsets.
    removed: u64,
}

/// Parses the name of a repository.
fn parse(alloc: Global, name: &[u8]) -> Result<RepoName, InventoryError> {
    match RepoName::parse(alloc, name) {
        Ok(name) => Ok(name),
        Err(Refusal::Memory) => Err(InventoryError::Memory),
        Err(_) => Err(InventoryError::NameInvalid),
    }
}

/// Returns the bytes of the records that create a repository without content.
fn bare_len(name: usize) -> u64 {
    record_len(name, 0, EMPTY_INDEX.len()).saturating_add(record_len(
        name,
        EMPTY_INDEX_DIGEST.len(),
        0,
    ))
}

impl Names {
    /// Returns no names. Allocates nothing.
    pub fn new(alloc: Global) -> Names {
        Names {
            ids: BTreeMap::new(alloc),
            repos: Vec::new(alloc),
            tenants: BTreeMap::new(alloc),
            bare: Vec::new(alloc),
            removed: 0,
        }
    }

    /// Returns the numbers of the repositories, also of removed ones, with their names.
    pub fn ids(&self) -> &BTreeMap<Vec<u8>, usize> {
        &self.ids
    }

    /// Returns the repositories, also removed ones, by their numbers.
    pub fn repos(&self) -> &[Repo] {
        self.repos.as_slice()
    }

    /// Returns the tenants with their names.
    pub fn tenants(&self) -> &BTreeMap<Vec<u8>, Tenant> {
        &self.tenants
    }

    /// Returns the offsets of the records that created removed repositories, if nothing of the record is kept.
    pub fn bare(&self) -> &[u64] {
        self.bare.as_slice()
    }

    /// Returns a repository of this name, also a removed one.
    fn named(&self, name: &[u8]) -> Option<Repo> {
        let id = self.ids.get(name).copied()?;
        self.repos.get(id).copied()
    }

    /// Returns a repository, or `None` if it does not exist.
    pub fn repo(&self, name: &[u8]) -> Option<Repo> {
        match self.named(name) {
            Some(repo) if repo.exists => Some(repo),
            _ => None,
        }
    }

    /// Returns a tenant, or `None` if no repository of it has appeared.
    pub fn tenant(&self, name: &[u8]) -> Option<Tenant> {
        self.tenants.get(name).copied()
    }

    /// Creates a repository at an offset if it does not exist, and returns it.
    ///
    /// # Errors
    ///
    /// - `NameInvalid`: the text is no name.
    /// - `Memory`: out of memory.
    pub fn appear(
        &mut self,
        alloc: Global,
        name: &[u8],
        offset: u64,
    ) -> Result<Repo, InventoryError> {
        match self.named(name) {
            Some(repo) if repo.exists => Ok(repo),
            Some(repo) => Ok(self.come_back(repo, offset)),
            None => self.add(alloc, name, offset),
        }
    }

    /// Creates a repository again that was removed.
    fn come_back(&mut self, repo: Repo, offset: u64) -> Repo {
        let repo = Repo {
            exists: true,
            offset,
            is_made: true,
            ..repo
        };
        if let Some(place) = self.repos.get_mut(repo.id) {
            *place = repo;
        }
        repo
    }

    /// Creates a repository whose name is new.
    fn add(&mut self, alloc: Global, name: &[u8], offset: u64) -> Result<Repo, InventoryError> {
        let parsed = parse(alloc, name)?;
        let tenant = parsed.tenant().as_bytes();
        let repo = Repo {
            id: self.repos.len(),
            tenant: self.tenant_appears(alloc, tenant)?,
            exists: true,
            uses: 0,
            offset,
            is_made: true,
            name_len: name.len(),
            pair_len: record_len(name.len(), 0, 0).saturating_add(record_len(tenant.len(), 0, 0)),
        };
        self.repos.push(repo)?;
        self.ids.insert(Vec::from_slice(alloc, name)?, repo.id)?;
        Ok(repo)
    }

    /// Creates a tenant if it does not exist, and returns its number.
    fn tenant_appears(&mut self, alloc: Global, name: &[u8]) -> Result<usize, InventoryError> {
        if let Some(tenant) = self.tenant(name) {
            return Ok(tenant.id);
        }
        let id = self.tenants.len();
        let tenant = Tenant { id, next: 1 };
        self.tenants.insert(Vec::from_slice(alloc, name)?, tenant)?;
        Ok(id)
    }

    /// Gives the next number of the repository's tenant to a session of an existing repository.
    ///
    /// # Errors
    ///
    /// - `NumberInvalid`: the number is another one.
    pub fn open_session(&mut self, name: &[u8], number: u64) -> Result<(), InventoryError> {
        let Some(tenant) = self.tenants.get_mut(tenant_text(name)) else {
            return Err(InventoryError::NumberInvalid);
        };
        if tenant.next != number {
            return Err(InventoryError::NumberInvalid);
        }
        let Some(next) = number.checked_add(1) else {
            return Err(InventoryError::NumberInvalid);
        };
        tenant.next = next;
        Ok(())
    }

    /// Notes one more link, manifest or session of a repository.
    pub fn use_repo(&mut self, id: usize) {
        if let Some(repo) = self.repos.get_mut(id) {
            repo.uses = repo.uses.saturating_add(1);
        }
    }

    /// Notes the end of a link, a manifest or a session of a repository.
    pub fn free_repo(&mut self, id: usize) {
        if let Some(repo) = self.repos.get_mut(id) {
            repo.uses = repo.uses.saturating_sub(1);
        }
    }

    /// Notes that the link or the manifest is not kept whose record, at this offset, created a repository.
    ///
    /// # Errors
    ///
    /// - `Memory`: out of memory.
    pub fn unmake(&mut self, id: usize, offset: u64) -> Result<(), InventoryError> {
        let Some(repo) = self.repos.get_mut(id) else {
            return Ok(());
        };
        if repo.exists && repo.offset == offset {
            repo.is_made = false;
            return Ok(());
        }
        self.bare.push(offset)?;
        self.removed = self.removed.saturating_add(bare_len(repo.name_len));
        Ok(())
    }

    /// Removes a repository that is not in use, and returns it.
    ///
    /// # Errors
    ///
    /// - `RepoUnknown`: there is no such repository.
    /// - `RepoInUse`: it has a link, a manifest or a session.
    /// - `Memory`: out of memory.
    pub fn remove(&mut self, name: &[u8]) -> Result<Repo, InventoryError> {
        let Some(repo) = self.repo(name) else {
            return Err(InventoryError::RepoUnknown);
        };
        if repo.uses > 0 {
            return Err(InventoryError::RepoInUse);
        }
        if let Some(place) = self.repos.get_mut(repo.id) {
            place.exists = false;
        }
        self.removed = self.removed.saturating_add(record_len(repo.name_len, 0, 0));
        if !repo.is_made {
            self.unmake(repo.id, repo.offset)?;
        }
        Ok(repo)
    }

    /// Returns the bytes of the records that the rewritten log has for removals, and for repositories of whose first record
    /// nothing else is kept.
    pub fn live(&self) -> u64 {
        let mut live = self.removed;
        for repo in self.repos.iter() {
            if repo.exists && !repo.is_made {
                live = live.saturating_add(bare_len(repo.name_len));
            }
        }
        live
    }
}

/// Returns the position of the first `/`.
fn first_slash(text: &[u8]) -> Option<usize>
    ensures { result ≡ position (λ b. b == 47) text.now }
{
    text.iter().position(|b| *b == b'/')
}

/// Returns the name of a repository's tenant: the bytes up to the first `/`.
pub fn tenant_text(name: &[u8]) -> &[u8]
    ensures { result.now ≡ tenant_name name.now }
{
    match first_slash(name) {
        Some(slash) => &name[..slash],
        None => name,
    }
}
