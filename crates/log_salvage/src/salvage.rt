//! Reads the files of a damaged log, and writes one file.

use crate::error::SalvageError;
use crate::frames::{Gap, Part, part_at};
use crate::loss::Loss;
use crate::maker::Maker;
use log_frames::{Cursor, start_of};
use log_records::{RecordError, next_record};
use log_rewriting::RecordWriter;
use std::alloc::Global;
use std::io::Write;
use std::mem;

/// What was written in place of a damaged log.
#[derive(Drop)]
pub struct Salvaged {
    /// The cursor after the last frame.
    pub end: Cursor,
    /// What readable records name, and is lost.
    pub losses: Vec<Loss>,
}

/// A log that is written in place of a damaged one. It has the changes whose records are readable and that a store can still make.
///
/// The files of the damaged log are taken in their order, also those that are missing.
///
/// # Memory
///
/// The names of the repositories and digests that exist, the contents of the open sessions, and the longest record.
#[derive(Drop)]
pub struct Salvage<W: Write + Drop> {
    alloc: Global,
    maker: Maker<W>,
    /// The beginning of a record that is not whole.
    left: Vec<u8>,
}

impl<W: Write + Drop> Salvage<W> {
    /// Begins a log with this id. The output is after its header.
    pub fn new(alloc: Global, output: W, id: u64) -> Salvage<W> {
        Salvage {
            alloc,
            maker: Maker::new(alloc, RecordWriter::new(alloc, output, id, start_of(id))),
            left: Vec::new(alloc),
        }
    }

    /// Notes that records are missing: each open session may lack some of its bytes.
    pub fn lose(&mut self) {
        self.left = Vec::new(self.alloc);
        self.maker.doubt();
    }

    /// Makes the changes of the records that the bytes begin with, and returns the bytes after them.
    fn make<'b>(&mut self, bytes: &'b [u8]) -> Result<&'b [u8], SalvageError> {
        let mut rest = bytes;
        for _ in 0..u64::MAX {
            match next_record(rest) {
                Ok(Some((change, after))) => {
                    self.maker.make(&change)?;
                    rest = after;
                }
                Ok(None) | Err(RecordError::CutOff) => return Ok(rest),
                Err(RecordError::UnknownKind { kind }) => return Err(SalvageError::LaterKind(kind)),
                Err(RecordError::Malformed) => {
                    self.lose();
                    return Ok(&[]);
                }
            }
        }
        Ok(rest)
    }

    /// Makes the changes of the records that are whole with a payload.
    fn take(&mut self, payload: &[u8]) -> Result<(), SalvageError> {
        let mut joined = mem::replace(&mut self.left, Vec::new(self.alloc));
        if joined.is_empty() {
            let rest = self.make(payload)?;
            self.left = Vec::from_slice(self.alloc, rest)?;
            return Ok(());
        }
        joined.extend_from_slice(payload)?;
        let rest = self.make(joined.as_slice())?;
        self.left = Vec::from_slice(self.alloc, rest)?;
        Ok(())
    }

    /// Takes the bytes of the next file of the log, which has this id. Returns the parts of it in which no frame is found.
    ///
    /// # Errors
    ///
    /// - `LaterKind`, if a record is of a later version.
    /// - `Memory`, `Write`
    pub fn take_file(&mut self, bytes: &[u8], id: u64) -> Result<Vec<Gap>, SalvageError> {
        let mut gaps = Vec::new(self.alloc);
        let mut cursor = start_of(id);
        for _ in 0..u64::MAX {
            match part_at(bytes, id, cursor) {
                Part::End => break,
                Part::Frame(found) => {
                    self.take(found.payload)?;
                    cursor = found.next;
                }
                Part::Gap(next) => {
                    gaps.push(Gap {
                        start: cursor.place,
                        end: next.place,
                    })?;
                    self.lose();
                    cursor = next;
                }
            }
        }
        if !self.left.is_empty() {
            self.lose(); // A record ends in its file.
        }
        Ok(gaps)
    }

    /// Ends the sessions that may lack some of their bytes, and writes and flushes what is left.
    ///
    /// # Errors
    ///
    /// - `Memory`, `Write`
    pub fn finish(self) -> Result<Salvaged, SalvageError> {
        let Salvage {
            alloc: _,
            maker,
            left: _,
        } = self;
        let (end, losses) = maker.finish()?;
        Ok(Salvaged { end, losses })
    }
}
