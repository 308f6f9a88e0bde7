//! The open sessions of a store that replays a log.

use blob_digest::RepoName;
use std::alloc::{AllocError, Global};
use std::collections::BTreeMap;

/// An open session of a store that replays a log.
#[derive(Drop)]
pub(crate) struct OpenSession {
    /// Its repository. A record of a session names only its tenant and its number.
    pub repo: RepoName,
    /// The number of bytes that it has received.
    pub received: u64,
}

/// The open sessions, by their tenants and numbers.
///
/// # Cost
///
/// Each call is logarithmic in the numbers of tenants and of open sessions.
#[derive(Drop)]
pub(crate) struct OpenSessions {
    alloc: Global,
    /// Each session by its number, by the name of the tenant.
    tenants: BTreeMap<String, BTreeMap<u32, OpenSession>>,
}

impl OpenSessions {
    /// Creates an empty map.
    pub fn new(alloc: Global) -> OpenSessions {
        OpenSessions {
            alloc,
            tenants: BTreeMap::new(alloc),
        }
    }

    /// Adds a session of a repository.
    pub fn insert(&mut self, repo: RepoName, number: u32) -> Result<(), AllocError> {
        if !self.tenants.contains_key(repo.tenant()) {
            let tenant = String::from_str(self.alloc, repo.tenant())?;
            self.tenants.insert(tenant, BTreeMap::new(self.alloc))?;
        }
        if let Some(sessions) = self.tenants.get_mut(repo.tenant()) {
            sessions.insert(number, OpenSession { repo, received: 0 })?;
        }
        Ok(())
    }

    /// Returns a session.
    pub fn get(&self, tenant: &str, number: u32) -> Option<&OpenSession> {
        match self.tenants.get(tenant) {
            Some(sessions) => sessions.get(&number),
            None => None,
        }
    }

    /// Notes how many bytes a session has received.
    pub fn set_received(&mut self, tenant: &str, number: u32, received: u64) {
        if let Some(sessions) = self.tenants.get_mut(tenant) {
            if let Some(session) = sessions.get_mut(&number) {
                session.received = received;
            }
        }
    }

    /// Removes a session.
    pub fn remove(&mut self, tenant: &str, number: u32) {
        if let Some(sessions) = self.tenants.get_mut(tenant) {
            let _ = sessions.remove(&number);
        }
    }
}
