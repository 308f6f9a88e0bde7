//! Chunks of open sessions.
ghost use Rattle.std.specs.Prelude.{◌≡◌};
ghost use Rattle.log_state.specs.Equality.{same_chunk, same_chunk_laws};
ghost use Rattle.log_state.specs.Sessions.{is_noted};

use crate::bytes::Bytes;

/// A chunk as its record has it.
#[derive(Drop)]
pub enum Chunk {
    /// Its bytes.
    Bytes(Bytes),
    /// The notes of its pieces.
    Notes(Bytes),
}

impl Chunk {
    /// Returns whether the record has the notes of the chunk.
    pub fn is_noted(&self) -> bool
        ensures { result ≡ is_noted self.now }
    {
        matches!(self, Chunk::Notes(_))
    }
}

impl PartialEq for Chunk {
    ghost eq = { same_chunk };

    ghost laws = { same_chunk_laws };

    fn eq(&self, other: &Chunk) -> bool {
        match (self, other) {
            (Chunk::Bytes(bytes), Chunk::Bytes(others)) => bytes == others,
            (Chunk::Notes(notes), Chunk::Notes(others)) => notes == others,
            _ => false,
        }
    }
}
