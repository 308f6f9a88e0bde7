//! The sessions of tenants, and the blobs that tenants hold.

use blob_digest::Digest;
use content_files::noted_len;
use std::alloc::{AllocError, Global};
use std::collections::{BTreeMap, BTreeSet};

/// The number of sessions that a tenant may have open, whatever its limit is.
const MOST_SESSIONS: usize = 4096;

/// What a session has received.
#[derive(Drop)]
pub enum Received {
    /// These bytes, as far as they are readable.
    Bytes(Vec<u8>),
    /// Bytes that lie in a file, at least the last ones.
    Noted,
}

/// An open session.
#[derive(Drop)]
pub struct Session {
    /// The repository in which it was opened.
    pub repo: String,
    /// What it has received.
    pub received: Received,
    /// Whether a change of it may be lost.
    pub is_doubtful: bool,
}

impl Session {
    /// Adds the bytes of a chunk. Returns whether the store can do so: after a chunk in a file, it can not.
    pub fn append(&mut self, chunk: &[u8]) -> Result<bool, AllocError> {
        match &mut self.received {
            Received::Bytes(bytes) => {
                bytes.extend_from_slice(chunk)?;
                Ok(true)
            }
            Received::Noted => {
                self.is_doubtful = true;
                Ok(false)
            }
        }
    }

    /// Adds a chunk in a file. Returns whether the store can do so: it has the notes of a chunk, and no chunk before it may be lost.
    /// Otherwise the content could be too short to lie in a file.
    pub fn append_noted(&mut self, notes: &[u8]) -> bool {
        if self.is_doubtful || noted_len(notes).is_none() {
            self.is_doubtful = true;
            return false;
        }
        self.received = Received::Noted;
        true
    }

    /// Returns whether the session has these bytes with its last ones, by their digest.
    pub fn has_digest(&mut self, digest: &Digest, last: &[u8]) -> Result<bool, AllocError> {
        match &mut self.received {
            Received::Bytes(bytes) => {
                bytes.extend_from_slice(last)?;
                Ok(Digest::of(digest.algorithm(), bytes.as_slice()) == *digest)
            }
            Received::Noted => Ok(false),
        }
    }
}

/// A tenant.
#[derive(Drop)]
pub struct Tenant {
    /// The number of the next session.
    pub next: u64,
    /// The open sessions, by their numbers.
    pub sessions: BTreeMap<u64, Session>,
    /// The number of links to each blob.
    pub held: BTreeMap<Digest, u64>,
    /// The blobs that are lost in a repository that is not known.
    pub lost: BTreeSet<Digest>,
}

impl Tenant {
    /// Makes a tenant that has nothing.
    pub fn new(alloc: Global) -> Tenant {
        Tenant {
            next: 1,
            sessions: BTreeMap::new(alloc),
            held: BTreeMap::new(alloc),
            lost: BTreeSet::new(alloc),
        }
    }

    /// Notes that a change of each open session may be lost.
    pub fn doubt(&mut self) {
        for session in self.sessions.values_mut() {
            session.is_doubtful = true;
        }
    }

    /// Returns the first session of which a change may be lost.
    pub fn first_doubtful(&self) -> Option<u64> {
        for (number, session) in self.sessions.iter() {
            if session.is_doubtful {
                return Some(*number);
            }
        }
        None
    }

    /// Returns whether no further session can be opened.
    pub fn is_full(&self) -> bool {
        self.sessions.len() >= MOST_SESSIONS
    }

    /// Notes one more link to a blob.
    pub fn hold(&mut self, digest: Digest) -> Result<(), AllocError> {
        let links = match self.held.get(&digest) {
            Some(links) => *links,
            None => 0,
        };
        self.held.insert(digest, links.saturating_add(1))?;
        let _ = self.lost.remove(&digest);
        Ok(())
    }

    /// Notes one link less to a blob.
    pub fn release(&mut self, digest: &Digest) {
        let is_last = match self.held.get_mut(digest) {
            Some(links) => {
                *links = links.saturating_sub(1);
                *links == 0
            }
            None => false,
        };
        if is_last {
            let _ = self.held.remove(digest);
        }
    }
}
