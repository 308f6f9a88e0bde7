//! Open sessions, and the notes of the contents that they become.
ghost use Rattle.std.specs.Prelude.{◌≡◌, ◌++◌, ◌∷◌, [], IfOk, OnOk};
ghost use Rattle.content_files.specs.Chunks.{chunk_notes};
ghost use Rattle.log_state.specs.Equality.{same_session, same_session_laws};
ghost use Rattle.log_state.specs.Sessions.{NotesNext, notes_after, with_logged};

use crate::bytes::Bytes;
use crate::chunk::Chunk;
use blob_digest::RepoName;
use content_files::notes_of;
use std::alloc::{AllocError, Global};
use std::marker::Model;

/// An open session: its repository, and the chunks that it received.
#[derive(Drop)]
pub struct Session {
    repo: RepoName,
    chunks: Vec<Chunk>,
}

impl Model for Session {
    ghost use Rattle.log_state.specs.Sessions.{OpenSession};

    ghost Value = { OpenSession };

    ghost view = { λ s. record { repo = s.repo; chunks = s.chunks.items } };
}

/// Adds the notes of some bytes.
fn add_notes(alloc: Global, notes: &mut Vec<u8>, bytes: &[u8]) -> Result<(), AllocError>
    ensures { OnOk result (notes.new.items ≡ notes.old.items ++ chunk_notes bytes.now) }
{
    let more = notes_of(alloc, bytes)?;
    notes.extend_from_slice(more.as_slice())
}

/// Notes the next chunk of a content: its notes follow those of the bytes before it, and its bytes are noted with those.
fn note_next(
    alloc: Global,
    notes: &mut Vec<u8>,
    bytes: &mut Vec<u8>,
    chunk: &Chunk,
) -> Result<(), AllocError>
    ensures { OnOk result (NotesNext notes.old.items bytes.old.items chunk.now
        notes.new.items bytes.new.items) }
{
    match chunk {
        Chunk::Bytes(more) => bytes.extend_from_slice(more.as_slice()),
        Chunk::Notes(more) => {
            add_notes(alloc, notes, bytes.as_slice())?;
            bytes.clear();
            notes.extend_from_slice(more.as_slice())
        }
    }
}

/// Returns the notes of the content that consists of these chunks. Bytes that follow each other are noted as one chunk.
fn notes_of_all(alloc: Global, chunks: &[Chunk]) -> Result<Vec<u8>, AllocError>
    ensures { IfOk result (λ v. v.items ≡ notes_after [] chunks.now) }
{
    let mut notes = Vec::new(alloc);
    let mut bytes = Vec::new(alloc);
    for chunk in chunks {
        note_next(alloc, &mut notes, &mut bytes, chunk)?;
    }
    add_notes(alloc, &mut notes, bytes.as_slice())?;
    Ok(notes)
}

impl Session {
    /// Returns a session without chunks.
    pub fn new(alloc: Global, repo: RepoName) -> Session
        ensures { result ≡ record { repo = repo; chunks = [] } }
    {
        Session {
            repo,
            chunks: Vec::new(alloc),
        }
    }

    /// Adds a chunk, unless it is empty.
    pub fn add(&mut self, chunk: Chunk) -> Result<(), AllocError>
        ensures { OnOk result (self.new ≡ record {
          repo = self.old.repo;
          chunks = with_logged self.old.chunks chunk;
        }) }
    {
        let is_empty = match &chunk {
            Chunk::Bytes(bytes) | Chunk::Notes(bytes) => bytes.as_slice().is_empty(),
        };
        if is_empty {
            return Ok(());
        }
        self.chunks.push(chunk)?;
        Ok(())
    }

    /// Ends the session with a last chunk. Returns its repository, and the notes of its content.
    pub fn seal(self, alloc: Global, last: Chunk) -> Result<(RepoName, Bytes), AllocError>
        ensures { IfOk result (λ r. (r.0 ≡ self.repo)
            × (r.1 ≡ notes_after [] (self.chunks ++ last ∷ []))) }
    {
        let Session { repo, chunks } = self;
        let mut chunks = chunks;
        chunks.push(last)?;
        let notes = notes_of_all(alloc, chunks.as_slice())?;
        Ok((repo, Bytes::new(notes)))
    }
}

impl PartialEq for Session {
    ghost eq = { same_session };

    ghost laws = { same_session_laws };

    fn eq(&self, other: &Session) -> bool {
        self.repo == other.repo && self.chunks == other.chunks
    }
}
