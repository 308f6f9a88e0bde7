//! Which repositories link contents, by the log of a folder.

use crate::error::FolderError;
use crate::listing::{Listing, list_error};
use crate::progress::Work;
use crate::segment::Segment;
use blob_digest::Digest;
use log_records::Change;
use log_rewriting::{Receiver, RewriteError, give_changes};
use std::alloc::{AllocError, Global};
use std::collections::{BTreeMap, BTreeSet};
use std::io;

/// The repositories of the open sessions of a tenant, by the sessions' numbers.
type SessionRepos = BTreeMap<u64, Vec<u8>>;

/// The repositories that link some digests, after the changes of a log.
#[derive(Drop)]
pub struct Holders {
    alloc: Global,
    repos: BTreeMap<Digest, BTreeSet<Vec<u8>>>,
    sessions: BTreeMap<Vec<u8>, SessionRepos>,
}

/// Returns the name of a repository's tenant: the bytes up to the first `/`.
pub(crate) fn tenant_of(repo: &[u8]) -> &[u8] {
    match repo.iter().position(|b| *b == b'/') {
        Some(slash) => &repo[..slash],
        None => repo,
    }
}

impl Holders {
    /// Returns no repositories of these digests.
    fn new(alloc: Global, digests: &[Digest]) -> Result<Holders, AllocError> {
        let mut repos = BTreeMap::new(alloc);
        for digest in digests {
            repos.insert(*digest, BTreeSet::new(alloc))?;
        }
        Ok(Holders {
            alloc,
            repos,
            sessions: BTreeMap::new(alloc),
        })
    }

    /// Notes that a session of a repository was opened.
    fn open(&mut self, repo: &[u8], number: u64) -> Result<(), AllocError> {
        let tenant = tenant_of(repo);
        if !self.sessions.contains_key(tenant) {
            let name = Vec::from_slice(self.alloc, tenant)?;
            self.sessions.insert(name, BTreeMap::new(self.alloc))?;
        }
        let repo = Vec::from_slice(self.alloc, repo)?;
        if let Some(sessions) = self.sessions.get_mut(tenant) {
            sessions.insert(number, repo)?;
        }
        Ok(())
    }

    /// Notes the end of a session, and returns its repository.
    fn close(&mut self, tenant: &[u8], number: u64) -> Option<Vec<u8>> {
        self.sessions.get_mut(tenant)?.remove(&number)
    }

    /// Notes that a repository links a content.
    fn link(&mut self, digest: &[u8], repo: Vec<u8>) -> Result<(), AllocError> {
        if let Ok(digest) = Digest::parse(digest) {
            if let Some(repos) = self.repos.get_mut(&digest) {
                repos.insert(repo)?;
            }
        }
        Ok(())
    }

    /// Notes that a repository does not link a content any more.
    fn unlink(&mut self, digest: &[u8], repo: &[u8]) {
        if let Ok(digest) = Digest::parse(digest) {
            if let Some(repos) = self.repos.get_mut(&digest) {
                let _ = repos.remove(repo);
            }
        }
    }

    /// Notes a change.
    fn note(&mut self, change: &Change<'_>) -> Result<(), AllocError> {
        match *change {
            Change::SessionOpened { repo, number } => self.open(repo, number)?,
            Change::SessionSealed {
                tenant,
                number,
                digest,
                ..
            }
            | Change::SealNoted {
                tenant,
                number,
                digest,
                ..
            } => {
                if let Some(repo) = self.close(tenant, number) {
                    self.link(digest, repo)?;
                }
            }
            Change::SessionDropped { tenant, number } => {
                let _ = self.close(tenant, number);
            }
            Change::BlobLinked { repo, digest } => {
                self.link(digest, Vec::from_slice(self.alloc, repo)?)?;
            }
            Change::BlobUnlinked { repo, digest } => self.unlink(digest, repo),
            _ => {}
        }
        Ok(())
    }

    /// Returns the names of the repositories that link a content, in their order.
    pub fn of(&self, digest: &Digest) -> Option<&BTreeSet<Vec<u8>>> {
        self.repos.get(digest)
    }
}

impl Receiver for Holders {
    fn receive(&mut self, change: &Change<'_>, offset: u64) -> Result<(), RewriteError> {
        let _ = offset;
        self.note(change)?;
        Ok(())
    }
}

/// Returns the repositories that link contents of these digests, by the log of a folder.
///
/// # Errors
///
/// - `File`, if a file of the log cannot be read, or not to its end.
/// - `Memory`
///
/// # Cost
///
/// The log is read once.
pub fn find_holders(
    rt: &HostRuntime,
    folder: &str,
    digests: &[Digest],
) -> Result<Holders, FolderError> {
    let listing = Listing::read(rt, folder).map_err(list_error)?;
    let files = listing.all_files(rt.alloc()).map_err(list_error)?;
    let mut found = Holders::new(rt.alloc(), digests)?;
    let mut buffer = Vec::new(rt.alloc()); // One for all files, so that memory does not grow with their number.
    for name in files.iter() {
        let mut segment = Segment::open(rt, folder, *name, 0)?;
        let (name, id) = (segment.name, segment.id);
        let work = Work::begin(rt, "searching", segment.end());
        let mut input = match segment.frames(rt, folder, work) {
            Ok(input) => input,
            Err(error) => return Err(FolderError::of_file("read", name, error)),
        };
        found = match give_changes(rt.alloc(), found, 0, &mut input, &mut buffer, id) {
            Ok((found, _)) => found,
            Err(RewriteError::Read(error)) => {
                return Err(FolderError::of_file("read", name, error));
            }
            Err(RewriteError::Memory) => return Err(FolderError::Memory),
            Err(_) => {
                let error = io::Error::from(io::ErrorKind::InvalidData);
                return Err(FolderError::of_file("read", name, error));
            }
        };
    }
    Ok(found)
}
