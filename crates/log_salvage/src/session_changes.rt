//! The changes of sessions that a store can still make.

use crate::maker::Maker;
use crate::sessions::{Received, Session};
use blob_digest::{Digest, RepoName};
use content_files::noted_len;
use log_records::Change;
use log_rewriting::RewriteError;
use std::io::Write;
use std::str;

/// The greatest number of a session.
const LAST_SESSION: u64 = 4_294_967_295;

impl<W: Write + Drop> Maker<W> {
    /// Opens the sessions of a tenant up to a number, and ends each: the records that opened them are lost.
    fn fill(&mut self, name: &RepoName, number: u64) -> Result<(), RewriteError> {
        let next = self.tenant(name.tenant())?.next;
        let (repo, tenant) = (name.text().as_bytes(), name.tenant().as_bytes());
        for lost in next..number {
            self.records
                .add(&Change::SessionOpened { repo, number: lost })?;
            self.records.add(&Change::SessionDropped {
                tenant,
                number: lost,
            })?;
        }
        Ok(())
    }

    /// Opens a session.
    pub(crate) fn open(&mut self, repo: &[u8], number: u64) -> Result<(), RewriteError> {
        let Some(name) = self.repo_name(repo)? else {
            return Ok(());
        };
        if number < self.tenant(name.tenant())?.next || number > LAST_SESSION {
            return Ok(());
        }
        self.fill(&name, number)?;
        self.make_place(name.tenant())?;
        self.records.add(&Change::SessionOpened { repo, number })?;
        self.repo(name.text())?.exists = true;
        let session = Session {
            repo: String::from_str(self.alloc, name.text())?,
            received: Received::Bytes(Vec::new(self.alloc)),
            is_doubtful: false,
        };
        let tenant = self.tenant(name.tenant())?;
        tenant.next = number.saturating_add(1);
        tenant.sessions.insert(number, session)?;
        Ok(())
    }

    /// Ends a session of a tenant that has as many as it may have. A store has not more, so one of those whose changes may be lost has ended.
    fn make_place(&mut self, tenant: &str) -> Result<(), RewriteError> {
        let tenant_now = self.tenant(tenant)?;
        if !tenant_now.is_full() {
            return Ok(());
        }
        match tenant_now.first_doubtful() {
            Some(number) => self.abandon(tenant.as_bytes(), number),
            None => Ok(()),
        }
    }

    /// Returns a session that is open.
    fn session(&mut self, tenant: &[u8], number: u64) -> Option<&mut Session> {
        let name = str::from_utf8(tenant).ok()?;
        self.tenants.get_mut(name)?.sessions.get_mut(&number)
    }

    /// Removes a session.
    fn take_session(&mut self, tenant: &[u8], number: u64) -> Option<Session> {
        let name = str::from_utf8(tenant).ok()?;
        self.tenants.get_mut(name)?.sessions.remove(&number)
    }

    /// Returns an open session of a repository.
    pub(crate) fn session_of(&mut self, name: &RepoName) -> Result<Option<u64>, RewriteError> {
        for (number, session) in self.tenant(name.tenant())?.sessions.iter() {
            if session.repo.as_str() == name.text() {
                return Ok(Some(*number));
            }
        }
        Ok(None)
    }

    /// Adds a chunk to a session.
    pub(crate) fn append(
        &mut self,
        change: &Change<'_>,
        tenant: &[u8],
        number: u64,
        bytes: &[u8],
    ) -> Result<(), RewriteError> {
        let is_made = match self.session(tenant, number) {
            Some(session) => session.append(bytes)?,
            None => false,
        };
        if is_made {
            self.records.add(change)
        } else {
            Ok(())
        }
    }

    /// Adds a chunk that lies in a file to a session.
    pub(crate) fn append_noted(
        &mut self,
        change: &Change<'_>,
        tenant: &[u8],
        number: u64,
        notes: &[u8],
    ) -> Result<(), RewriteError> {
        let is_made = match self.session(tenant, number) {
            Some(session) => session.append_noted(notes),
            None => false,
        };
        if is_made {
            self.records.add(change)
        } else {
            Ok(())
        }
    }

    /// Makes a session a blob, if its content has the digest: a chunk of it may be lost.
    pub(crate) fn seal(
        &mut self,
        change: &Change<'_>,
        tenant: &[u8],
        number: u64,
        digest: &[u8],
        last: &[u8],
    ) -> Result<(), RewriteError> {
        let Ok(digest) = Digest::parse(digest) else {
            return Ok(());
        };
        let Some(mut session) = self.take_session(tenant, number) else {
            return self.lose_seal(tenant, digest);
        };
        let is_whole = session.has_digest(&digest, last)?;
        self.end_sealed(change, tenant, number, &session, digest, is_whole)
    }

    /// Makes a session whose content lies in a file a blob, unless a chunk of it may be lost: the content is not read.
    pub(crate) fn seal_noted(
        &mut self,
        change: &Change<'_>,
        tenant: &[u8],
        number: u64,
        digest: &[u8],
        notes: &[u8],
    ) -> Result<(), RewriteError> {
        let Ok(digest) = Digest::parse(digest) else {
            return Ok(());
        };
        let Some(session) = self.take_session(tenant, number) else {
            return self.lose_seal(tenant, digest);
        };
        let is_whole = !session.is_doubtful && noted_len(notes).is_some();
        self.end_sealed(change, tenant, number, &session, digest, is_whole)
    }

    /// Writes the seal of a session whose content is whole. Another one ends, and its blob is lost.
    fn end_sealed(
        &mut self,
        change: &Change<'_>,
        tenant: &[u8],
        number: u64,
        session: &Session,
        digest: Digest,
        is_whole: bool,
    ) -> Result<(), RewriteError> {
        if is_whole {
            self.records.add(change)?;
            return self.add_link(session.repo.as_str(), digest);
        }
        self.records
            .add(&Change::SessionDropped { tenant, number })?;
        self.repo(session.repo.as_str())?.lost_blobs.insert(digest)?;
        Ok(())
    }

    /// Notes that the blob of a session which is not open is lost, unless its tenant holds it.
    fn lose_seal(&mut self, tenant: &[u8], digest: Digest) -> Result<(), RewriteError> {
        let Ok(name) = str::from_utf8(tenant) else {
            return Ok(());
        };
        let tenant = self.tenant(name)?;
        if !tenant.held.contains_key(&digest) {
            tenant.lost.insert(digest)?;
        }
        Ok(())
    }

    /// Ends a session.
    pub(crate) fn abandon(&mut self, tenant: &[u8], number: u64) -> Result<(), RewriteError> {
        match self.take_session(tenant, number) {
            Some(_) => self.records.add(&Change::SessionDropped { tenant, number }),
            None => Ok(()),
        }
    }
}
