//! The sessions that a log leaves open, and the files of their contents.

use crate::error::FolderError;
use crate::holders::tenant_of;
use crate::opening::OpenLog;
use crate::progress::Work;
use crate::segment::Segment;
use blob_digest::RepoName;
use content_files::{ContentError, ContentName, noted_len};
use content_folder::{ContentFolder, WrittenFiles};
use log_records::Change;
use log_rewriting::{Receiver, RewriteError, give_changes};
use std::alloc::{AllocError, Global};
use std::collections::BTreeMap;
use std::io::Eprint;
use store_replay::ChangeSink;

/// A session that is open.
#[derive(Drop)]
struct OpenSession {
    /// The name of its repository.
    repo: Vec<u8>,
    /// The number of bytes that it has received.
    received: u64,
    /// Whether its content lies in a file: the log has notes of a chunk.
    has_file: bool,
    /// Whether a start goes on without its bytes, which cannot be read.
    is_given_up: bool,
}

/// The open sessions of a tenant, by their numbers.
#[derive(Drop)]
struct OpenOfTenant {
    /// The position of the tenant's name in the list of tenants. `None` if it is not there.
    tenant: Option<u16>,
    sessions: BTreeMap<u32, OpenSession>,
    /// The greatest number of a session that was opened.
    last: u32,
}

/// The sessions that the changes of a log leave open, so far.
///
/// # Memory
///
/// It grows with the tenants and the open sessions.
#[derive(Drop)]
pub struct LeftOpen {
    alloc: Global,
    /// The names of the tenants, in the order in which contents name them.
    tenants: Vec<String>,
    open: BTreeMap<Vec<u8>, OpenOfTenant>,
}

/// A content that a session has received, which is open at the end of a log.
#[derive(Drop)]
pub struct OpenContent {
    /// The name of the content.
    pub name: ContentName,
    /// The name of the session's repository.
    pub repo: RepoName,
    /// The number of bytes that the session has received.
    pub received: u64,
    /// Whether the content lies in a file.
    pub has_file: bool,
    /// Whether its bytes cannot be read, and the start goes on without them.
    pub is_given_up: bool,
}

impl LeftOpen {
    /// Returns no sessions. `tenants` are the names of the tenants, in the order in which contents name them.
    fn new(alloc: Global, tenants: Vec<String>) -> LeftOpen {
        LeftOpen {
            alloc,
            tenants,
            open: BTreeMap::new(alloc),
        }
    }

    /// Returns the position of a tenant's name in the list of tenants.
    fn position_of(&self, tenant: &[u8]) -> Option<u16> {
        let position = self
            .tenants
            .iter()
            .position(|name| name.as_bytes() == tenant)?;
        u16::try_from(position).ok()
    }

    /// Returns an open session.
    fn session(&mut self, tenant: &[u8], number: u64) -> Option<&mut OpenSession> {
        let number = u32::try_from(number).ok()?;
        self.open.get_mut(tenant)?.sessions.get_mut(&number)
    }

    /// Notes that a session was opened.
    fn add(&mut self, repo: &[u8], number: u64) -> Result<(), AllocError> {
        let Ok(number) = u32::try_from(number) else {
            return Ok(());
        };
        let tenant = tenant_of(repo);
        if !self.open.contains_key(tenant) {
            let own = OpenOfTenant {
                tenant: self.position_of(tenant),
                sessions: BTreeMap::new(self.alloc),
                last: 0,
            };
            self.open.insert(Vec::from_slice(self.alloc, tenant)?, own)?;
        }
        let session = OpenSession {
            repo: Vec::from_slice(self.alloc, repo)?,
            received: 0,
            has_file: false,
            is_given_up: false,
        };
        if let Some(own) = self.open.get_mut(tenant) {
            own.sessions.insert(number, session)?;
            own.last = own.last.max(number);
        }
        Ok(())
    }

    /// Notes a chunk of a session.
    fn extend(&mut self, tenant: &[u8], number: u64, len: u64, is_noted: bool) {
        if let Some(session) = self.session(tenant, number) {
            session.received = session.received.saturating_add(len);
            session.has_file = session.has_file || is_noted;
        }
    }

    /// Notes the end of a session.
    fn remove(&mut self, tenant: &[u8], number: u64) {
        if let Ok(number) = u32::try_from(number) {
            if let Some(own) = self.open.get_mut(tenant) {
                let _ = own.sessions.remove(&number);
            }
        }
    }

    /// Notes a change.
    fn note(&mut self, change: &Change<'_>) -> Result<(), AllocError> {
        match *change {
            Change::SessionOpened { repo, number } => self.add(repo, number)?,
            Change::ChunkReceived {
                tenant,
                number,
                bytes,
            } => self.extend(tenant, number, bytes.len() as u64, false),
            Change::ChunkNoted {
                tenant,
                number,
                notes,
            } => self.extend(tenant, number, noted_len(notes).unwrap_or(0), true),
            Change::SessionSealed { tenant, number, .. }
            | Change::SealNoted { tenant, number, .. }
            | Change::SessionDropped { tenant, number } => self.remove(tenant, number),
            _ => {}
        }
        Ok(())
    }

    /// Returns the name of the content of an open session, unless a start goes on without its bytes.
    fn readable(&self, tenant: &[u8], number: u32) -> Option<ContentName> {
        let own = self.open.get(tenant)?;
        let session = own.sessions.get(&number)?;
        if session.is_given_up {
            return None;
        }
        let tenant = own.tenant?;
        Some(ContentName { tenant, number })
    }

    /// Returns the greatest number of a session that was opened of each tenant, in the order in which contents name them. It is 0
    /// if there was none. Later sessions have greater numbers.
    ///
    /// # Errors
    ///
    /// `AllocError` if memory runs out.
    pub fn last_numbers(&self) -> Result<Vec<u32>, AllocError> {
        let mut numbers = Vec::from_elem(self.alloc, 0, self.tenants.len())?;
        for own in self.open.values() {
            if let Some(tenant) = own.tenant {
                if let Some(number) = numbers.get_mut(tenant as usize) {
                    *number = own.last;
                }
            }
        }
        Ok(numbers)
    }

    /// Returns the contents of all open sessions.
    ///
    /// # Errors
    ///
    /// `AllocError` if memory runs out.
    pub fn contents(&self) -> Result<Vec<OpenContent>, AllocError> {
        let mut contents = Vec::new(self.alloc);
        for own in self.open.values() {
            let Some(tenant) = own.tenant else {
                continue;
            };
            for (number, session) in own.sessions.iter() {
                let Ok(repo) = RepoName::parse(self.alloc, session.repo.as_slice()) else {
                    continue;
                };
                contents.push(OpenContent {
                    name: ContentName {
                        tenant,
                        number: *number,
                    },
                    repo,
                    received: session.received,
                    has_file: session.has_file,
                    is_given_up: session.is_given_up,
                })?;
            }
        }
        Ok(contents)
    }
}

/// Notes the changes that it receives.
#[derive(Drop)]
struct Noter<'l> {
    found: &'l mut LeftOpen,
}

impl<'l> Receiver for Noter<'l> {
    fn receive(&mut self, change: &Change<'_>, offset: u64) -> Result<(), RewriteError> {
        let _ = offset;
        self.found.note(change)?;
        Ok(())
    }
}

/// Notes the changes of a file of a log. Returns whether all of them were read.
fn note_file(
    rt: &HostRuntime,
    folder: &str,
    work: Work,
    segment: &mut Segment,
    buffer: &mut Vec<u8>,
    found: &mut LeftOpen,
) -> Result<bool, FolderError> {
    let (name, id) = (segment.name, segment.id);
    let mut input = match segment.frames(rt, folder, work) {
        Ok(input) => input,
        Err(error) => return Err(FolderError::of_file("read", name, error)),
    };
    match give_changes(rt.alloc(), Noter { found }, 0, &mut input, buffer, id) {
        Ok(_) => Ok(true),
        Err(RewriteError::Memory) => Err(FolderError::Memory),
        Err(RewriteError::Read(error)) => {
            let error = input.get_ref().input().error(error.kind());
            Err(FolderError::of_file("read", name, error))
        }
        Err(_) => Ok(false),
    }
}

/// Returns the sessions that a log leaves open. A record that cannot be read ends the search: the replay finds it too.
///
/// `tenants` are the names of the tenants, in the order in which contents name them.
///
/// # Errors
///
/// - `File`, if a file cannot be read.
/// - `Memory`
///
/// # Cost
///
/// The log is read once.
pub fn find_left_open(
    rt: &HostRuntime,
    folder: &str,
    log: &mut OpenLog,
    tenants: Vec<String>,
) -> Result<LeftOpen, FolderError> {
    let work = Work::begin(rt, "scanning", log.last.end());
    let mut buffer = Vec::new(rt.alloc()); // One for all files, so that memory does not grow with their number.
    let mut found = LeftOpen::new(rt.alloc(), tenants);
    for segment in log.closed.iter_mut() {
        if !note_file(rt, folder, work, segment, &mut buffer, &mut found)? {
            return Ok(found);
        }
    }
    note_file(rt, folder, work, &mut log.last, &mut buffer, &mut found)?;
    Ok(found)
}

/// An observer of the replay of a log whose contents lie in the files of a folder.
///
/// Contents of open sessions are read. If the operator accepts a loss, one that cannot be read is given up, and that is printed.
#[derive(Drop)]
pub struct ContentsObserver<'f, 'r> {
    rt: &'f HostRuntime,
    files: WrittenFiles<'f, 'r>,
    open: LeftOpen,
    accepts_loss: bool,
}

impl<'f, 'r> ContentsObserver<'f, 'r> {
    /// Returns the observer for the sessions that a log leaves open.
    pub fn new(
        rt: &'f HostRuntime,
        folder: &'f ContentFolder<'r>,
        open: LeftOpen,
        accepts_loss: bool,
    ) -> ContentsObserver<'f, 'r> {
        ContentsObserver {
            rt,
            files: folder.written_already(),
            open,
            accepts_loss,
        }
    }

    /// Returns the sessions that the log leaves open.
    pub fn open(&self) -> &LeftOpen {
        &self.open
    }
}

impl<'f, 'r> ChangeSink for ContentsObserver<'f, 'r> {
    type Files = WrittenFiles<'f, 'r>;

    fn files(&self) -> &WrittenFiles<'f, 'r> {
        &self.files
    }

    fn left_open(&self, tenant: &[u8], number: u32) -> Option<ContentName> {
        self.open.readable(tenant, number)
    }

    fn take_error(&self) -> Option<ContentError> {
        self.files.take_error()
    }

    fn gives_up(&mut self, tenant: &str, number: u32, error: &ContentError) -> bool {
        if !self.accepts_loss || matches!(error, ContentError::Memory | ContentError::Notes) {
            return false;
        }
        let Some(session) = self.open.session(tenant.as_bytes(), number as u64) else {
            return false;
        };
        session.is_given_up = true;
        let _ = eprint!(self.rt; "blobd: the upload {number} of {tenant} is lost: {error}\n");
        true
    }

    fn note(&mut self, change: &Change<'_>, offset: u64) -> Result<(), AllocError> {
        let _ = change;
        let _ = offset;
        Ok(())
    }
}
