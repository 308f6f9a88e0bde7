//! Joins the payloads of a log's frames, and gives the changes of their records to a receiver.

use crate::failure::RewriteError;
use log_frames::{Ending, FrameSink, read_frames, start_of};
use log_records::{Change, RecordError, next_record};
use std::alloc::Global;
use std::io::{self, Read};
use std::mem;

/// A receiver of the changes of a log, in the order of their records.
pub trait Receiver: Drop {
    /// Takes the next change. Its record begins at this offset in the joined payloads of the segments.
    ///
    /// # Errors
    ///
    /// - if no further change is to be given.
    fn receive(&mut self, change: &Change<'_>, offset: u64) -> Result<(), RewriteError>;
}

/// Joins payloads. Between two of them, it keeps the beginning of a record that is not whole.
#[derive(Drop)]
struct Joiner<C: Receiver> {
    alloc: Global,
    receiver: C,
    /// The beginning of a record, and its offset in the joined payloads.
    left: Vec<u8>,
    offset: u64,
    /// The reason why a payload was refused.
    error: Option<RewriteError>,
}

impl<C: Receiver> Joiner<C> {
    /// Gives the changes of the whole records that the bytes begin with, and returns the bytes after them.
    fn give<'b>(&mut self, bytes: &'b [u8]) -> Result<&'b [u8], RewriteError> {
        let mut rest = bytes;
        for _ in 0..u64::MAX {
            let (change, after) = match next_record(rest) {
                Ok(Some(next)) => next,
                Ok(None) | Err(RecordError::CutOff) => return Ok(rest),
                Err(_) => return Err(RewriteError::NoRecord(self.offset)),
            };
            self.receiver.receive(&change, self.offset)?;
            let length = rest.len().saturating_sub(after.len());
            self.offset = self.offset.saturating_add(length as u64);
            rest = after;
        }
        Ok(rest)
    }

    /// Gives the changes of the records that are whole with this payload.
    fn join(&mut self, payload: &[u8]) -> Result<(), RewriteError> {
        if self.left.is_empty() {
            let rest = self.give(payload)?;
            self.left = Vec::from_slice(self.alloc, rest)?;
            return Ok(());
        }
        let mut joined = mem::replace(&mut self.left, Vec::new(self.alloc));
        joined.extend_from_slice(payload)?;
        let left = self.give(joined.as_slice())?.len();
        let given = joined.len().saturating_sub(left);
        if given == 0 {
            self.left = joined;
        } else {
            let (_, rest) = joined.as_slice().split_at(given);
            self.left = Vec::from_slice(self.alloc, rest)?;
        }
        Ok(())
    }
}

impl<C: Receiver> FrameSink for Joiner<C> {
    ghost use Rattle.std.specs.Prelude.{⊤};

    ghost takes = { λ _ _ _. ⊤ };

    ghost refuses = { λ _ _ _. ⊤ };

    fn take(&mut self, payload: &[u8]) -> Result<(), ()> {
        match self.join(payload) {
            Ok(()) => Ok(()),
            Err(error) => {
                self.error = Some(error);
                Err(())
            }
        }
    }
}

/// Gives the changes of a log with this id to a receiver, which it returns with the offset after the last record. The first
/// record has the offset `start`. The input begins after the log's header. The buffer grows with the longest frame, and can be used
/// again.
///
/// # Errors
///
/// - The receiver's error.
/// - `NoRecord`, `NotWhole`: the frames of the log are not whole records.
/// - `Read`
/// - `Memory`
pub fn give_changes<C: Receiver, R: Read>(
    alloc: Global,
    receiver: C,
    start: u64,
    input: &mut R,
    buffer: &mut Vec<u8>,
    id: u64,
) -> Result<(C, u64), RewriteError> {
    let mut joiner = Joiner {
        alloc,
        receiver,
        left: Vec::new(alloc),
        offset: start,
        error: None,
    };
    let read = read_frames(&mut joiner, input, buffer, id, start_of(id));
    let Joiner {
        alloc: _,
        receiver,
        left,
        offset,
        error,
    } = joiner;
    let place = read.cursor.place;
    match read.ending {
        Ending::End if left.is_empty() => Ok((receiver, offset)),
        Ending::Refused => Err(error.unwrap_or(RewriteError::NotWhole(place))),
        Ending::Failed(kind) => Err(RewriteError::Read(io::Error::from(kind))),
        Ending::Memory => Err(RewriteError::Memory),
        _ => Err(RewriteError::NotWhole(place)),
    }
}
