//! The text of a script, in pieces that are dropped as they are read.
ghost use Rattle.std.specs.Prelude.{◌≡◌, ◌≤◌, ◌++◌, [], IfOk, IsOk, OnOk, Some, take, length};
ghost use Rattle.std.specs.Io.{ReadsAtMost};
ghost use Rattle.std.specs.Io.KnownBytes.{ReadConsumes};

use std::alloc::{AllocError, Global};
use std::collections::VecDeque;
use std::io;
use std::io::Read;
use std::marker::Model;

/// The room of a piece, in bytes.
const PIECE: usize = 1_048_576;

/// The bytes of a script that are left to read. They lie in pieces of 1 MiB, and each piece is one block of memory that
/// is dropped when it is read to its end.
#[derive(Drop)]
pub struct ScriptText {
    pieces: VecDeque<Vec<u8>>,
    /// How many bytes of the first piece are read.
    place: usize,
}

impl Model for ScriptText {
    ghost use Rattle.std.specs.Prelude.{drop};
    ghost use Rattle.spec_lib.specs.Texts.{Text};
    ghost use Rattle.blobctl.specs.Pieces.{bytes_in, IsPlaceInPieces};

    ghost Value = { Text };

    ghost view = { λ script. drop script.place (bytes_in script.pieces.items) };

    ghost invariant = { λ script. IsPlaceInPieces script.place script.pieces.items };
}

impl ScriptText {
    /// Makes an empty text.
    ///
    /// # Memory
    ///
    /// Allocates nothing.
    pub fn new(alloc: Global) -> ScriptText
        ensures { result ≡ [] }
    {
        ScriptText {
            pieces: VecDeque::new(alloc),
            place: 0,
        }
    }

    /// Fills the last piece with the first of these bytes, and returns how many it had room for.
    fn fill_last(&mut self, bytes: &[u8]) -> Result<usize, AllocError>
        ensures added { IfOk result (λ n. self.new ≡ self.old ++ take n bytes.now) }
        ensures few { IfOk result (λ n. n ≤ length bytes.now) }
    {
        let Some(last) = self.pieces.back_mut() else {
            return Ok(0);
        };
        let count = PIECE.saturating_sub(last.len()).min(bytes.len());
        last.extend_from_slice(&bytes[..count])?;
        Ok(count)
    }

    /// Adds bytes at the end: first to the last piece, and the rest to a new one. The caller adds at most 1 MiB at a
    /// time; more would make the new piece grow past its room. If an allocation fails, some of the bytes may have been
    /// added.
    pub fn add(&mut self, alloc: Global, bytes: &[u8]) -> Result<(), AllocError>
        ensures { OnOk result (self.new ≡ self.old ++ bytes.now) }
    {
        let count = self.fill_last(bytes)?;
        let rest = &bytes[count..];
        if !rest.is_empty() {
            let mut piece = Vec::with_capacity(alloc, PIECE)?;
            piece.extend_from_slice(rest)?;
            self.pieces.push_back(piece)?;
        }
        Ok(())
    }
}

impl Read for ScriptText {
    ghost remaining = { λ script. Some script };

    /// Reads bytes of the first piece only, and drops the piece after its last byte. It never fails, and returns 0 only
    /// if the text is at its end or the buffer has no room.
    fn read(&mut self, buf: &mut [u8]) -> io::Result<usize>
        ensures bound { ReadsAtMost result buf.new }
        ensures bytes { ReadConsumes (Some self.old) (Some self.new) result buf.new }
        ensures ok { IsOk result }
    {
        let Some(piece) = self.pieces.front() else {
            return Ok(0);
        };
        let mut left = &piece[self.place..];
        let count = left.read(buf)?;
        if left.is_empty() {
            self.pieces.pop_front();
            self.place = 0;
        } else {
            self.place += count;
        }
        Ok(count)
    }
}
