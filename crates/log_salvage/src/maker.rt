//! Decides which changes a store can still make, and writes their records.

use crate::ending::{add_losses, end_sessions};
use crate::loss::Loss;
use crate::repos::Repo;
use crate::sessions::Tenant;
use blob_digest::{Refusal, RepoName};
use log_frames::Cursor;
use log_records::Change;
use log_rewriting::{RecordWriter, RewriteError};
use std::alloc::Global;
use std::collections::BTreeMap;
use std::io::Write;

/// What a store has after the changes that were written.
#[derive(Drop)]
pub struct Maker<W: Write + Drop> {
    pub(crate) alloc: Global,
    pub(crate) tenants: BTreeMap<String, Tenant>,
    pub(crate) repos: BTreeMap<String, Repo>,
    pub(crate) records: RecordWriter<W>,
}

impl<W: Write + Drop> Maker<W> {
    /// Begins with a store that has nothing.
    pub fn new(alloc: Global, records: RecordWriter<W>) -> Maker<W> {
        Maker {
            alloc,
            tenants: BTreeMap::new(alloc),
            repos: BTreeMap::new(alloc),
            records,
        }
    }

    /// Returns the name of a repository, or `None` if it is none.
    pub(crate) fn repo_name(&self, text: &[u8]) -> Result<Option<RepoName>, RewriteError> {
        match RepoName::parse(self.alloc, text) {
            Ok(name) => Ok(Some(name)),
            Err(Refusal::Memory) => Err(RewriteError::Memory),
            Err(_) => Ok(None),
        }
    }

    /// Returns a tenant, which it adds if it is new.
    pub(crate) fn tenant(&mut self, name: &str) -> Result<&mut Tenant, RewriteError> {
        if !self.tenants.contains_key(name) {
            let key = String::from_str(self.alloc, name)?;
            self.tenants.insert(key, Tenant::new(self.alloc))?;
        }
        match self.tenants.get_mut(name) {
            Some(tenant) => Ok(tenant),
            None => Err(RewriteError::Memory),
        }
    }

    /// Returns a repository, which it adds if it is new.
    pub(crate) fn repo(&mut self, name: &str) -> Result<&mut Repo, RewriteError> {
        if !self.repos.contains_key(name) {
            let key = String::from_str(self.alloc, name)?;
            self.repos.insert(key, Repo::new(self.alloc))?;
        }
        match self.repos.get_mut(name) {
            Some(repo) => Ok(repo),
            None => Err(RewriteError::Memory),
        }
    }

    /// Notes that changes are lost: each open session may lack one.
    pub fn doubt(&mut self) {
        for tenant in self.tenants.values_mut() {
            tenant.doubt();
        }
    }

    /// Writes the record of a change if the store can make it, and notes what is lost otherwise.
    ///
    /// # Errors
    ///
    /// - `Memory`, `TooLong`, `Write`
    pub fn make(&mut self, change: &Change<'_>) -> Result<(), RewriteError> {
        match *change {
            Change::SessionOpened { repo, number } => self.open(repo, number),
            Change::ChunkReceived {
                tenant,
                number,
                bytes,
            } => self.append(change, tenant, number, bytes),
            Change::ChunkNoted {
                tenant,
                number,
                notes,
            } => self.append_noted(change, tenant, number, notes),
            Change::SealNoted {
                tenant,
                number,
                digest,
                notes,
            } => self.seal_noted(change, tenant, number, digest, notes),
            Change::SessionSealed {
                tenant,
                number,
                digest,
                last,
            } => self.seal(change, tenant, number, digest, last),
            Change::SessionDropped { tenant, number } => self.abandon(tenant, number),
            Change::BlobLinked { repo, digest } => self.link(change, repo, digest),
            Change::BlobUnlinked { repo, digest } => self.unlink(repo, digest),
            Change::ManifestPut { repo, bytes } => self.put(change, repo, bytes),
            Change::ManifestDeleted { repo, digest } => self.delete(repo, digest),
            Change::RepoRemoved { repo } => self.remove(repo),
            Change::RepoAdded { .. }
            | Change::NumberSet { .. }
            | Change::BlobStored { .. }
            | Change::BlobNoted { .. } => {
                Ok(()) // No store writes such a record.
            }
        }
    }

    /// Ends the sessions whose changes may be lost, writes what is left, and returns the cursor after the last frame and what is lost.
    ///
    /// # Errors
    ///
    /// - `Memory`, `TooLong`, `Write`
    pub fn finish(self) -> Result<(Cursor, Vec<Loss>), RewriteError> {
        let Maker {
            alloc,
            tenants,
            repos,
            mut records,
        } = self;
        let mut losses = Vec::new(alloc);
        for (name, repo) in repos.iter() {
            add_losses(alloc, &mut losses, name.as_str(), repo)?;
        }
        for (name, tenant) in tenants.iter() {
            end_sessions(alloc, &mut losses, &mut records, name.as_str(), tenant)?;
        }
        let end = records.finish()?;
        Ok((end, losses))
    }
}
