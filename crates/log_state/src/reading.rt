//! Reads the frames of logs, and takes the changes of their records.
ghost use Rattle.std.specs.Prelude.{◌≡◌, [], IfOk, OnOk, true};
ghost use Rattle.log_state.specs.Reading.{HasRead, LeaveSame, ReadsLog, TakesPayload, TakesRecords};

use crate::bytes::Bytes;
use crate::error::StateError;
use crate::state::LogState;
use log_frames::{Ending, FrameSink, read_frames, start_of};
use log_records::{RecordError, next_record};
use std::alloc::{AllocError, Global};
use std::io::{ErrorKind, Read};
use std::mem;
use thiserror::Error;

/// The reason why a log was not read as a whole.
#[derive(Clone, Copy, Debug, PartialEq, Eq, Drop, Error)]
pub enum ReadingError {
    /// A change was not taken.
    #[error("{0}")]
    Refused(StateError),
    /// The frames of the log are not whole records.
    #[error("frames that are not whole records")]
    NotWhole,
    /// A read failed, with an error of this kind.
    #[error("a read failed")]
    Failed(ErrorKind),
    /// Out of memory.
    #[error("out of memory")]
    Memory,
}

/// A reading of logs, one after another: the state that their records leave.
#[derive(Drop)]
pub struct LogReading<'t> {
    alloc: Global,
    state: LogState<'t>,
    /// The beginning of a record that is not whole.
    left: Vec<u8>,
    /// The reason why a payload was refused.
    error: Option<ReadingError>,
}

impl<'t> LogReading<'t> {
    /// Begins a reading. The store's tenants have these names, in their order.
    ///
    /// # Errors
    ///
    /// - if memory runs out.
    pub fn new(alloc: Global, tenants: &'t [Bytes]) -> Result<LogReading<'t>, AllocError>
        ensures tenants { IfOk result (λ r. r.state.tenants.now ≡ tenants.now) }
        ensures nothing { IfOk result (HasRead []) }
    {
        Ok(LogReading {
            alloc,
            state: LogState::new(alloc, tenants)?,
            left: Vec::new(alloc),
            error: None,
        })
    }

    /// Takes the changes of the whole records that the bytes begin with, and returns the bytes after them.
    fn take_records<'b>(&mut self, bytes: &'b [u8]) -> Result<&'b [u8], ReadingError>
        ensures left { OnOk result (self.new.left.items ≡ self.old.left.items) }
        ensures takes { IfOk result (λ rest. TakesRecords self.old bytes.now rest.now self.new) }
    {
        let mut rest = bytes;
        for _turn in 0..u64::MAX {
            let (change, after) = match next_record(rest) {
                Ok(Some(next)) => next,
                Ok(None) | Err(RecordError::CutOff) => return Ok(rest),
                Err(_) => return Err(ReadingError::NotWhole),
            };
            if let Err(error) = self.state.take(&change) {
                return Err(ReadingError::Refused(error));
            }
            rest = after;
        }
        Ok(rest)
    }

    /// Takes the changes of the records that are whole with this payload.
    fn take_payload(&mut self, payload: &[u8]) -> Result<(), ReadingError>
        ensures { OnOk result (TakesPayload self.old payload.now self.new) }
    {
        let mut joined = mem::replace(&mut self.left, Vec::new(self.alloc));
        if joined.extend_from_slice(payload).is_err() {
            return Err(ReadingError::Memory);
        }
        let rest = self.take_records(joined.as_slice())?;
        match Vec::from_slice(self.alloc, rest) {
            Ok(left) => {
                self.left = left;
                Ok(())
            }
            Err(_) => Err(ReadingError::Memory),
        }
    }

    /// Reads the next log, which has this id. The input begins after the log's header. The buffer grows with the longest
    /// frame, and can be used again.
    ///
    /// # Errors
    ///
    /// - `Refused`: the reason why a change was not taken.
    /// - `NotWhole`: the frames of the log are not whole records, or it does not end in order.
    /// - `Failed`: a read failed.
    /// - `Memory`
    ///
    /// # Memory
    ///
    /// That of the state and the buffer, besides the longest frame and record.
    pub fn read<R: Read>(
        self,
        input: &mut R,
        buffer: &mut Vec<u8>,
        id: u64,
    ) -> Result<LogReading<'t>, ReadingError>
        ensures { IfOk result (ReadsLog id (R.remaining input.old) self.entry) }
    {
        let mut reading = self;
        let read = read_frames(&mut reading, input, buffer, id, start_of(id));
        match read.ending {
            Ending::End if reading.left.is_empty() => Ok(reading),
            Ending::Refused => Err(reading.error.unwrap_or(ReadingError::NotWhole)),
            Ending::Failed(kind) => Err(ReadingError::Failed(kind)),
            Ending::Memory => Err(ReadingError::Memory),
            _ => Err(ReadingError::NotWhole),
        }
    }

    /// Returns whether another reading leaves the same state in the same store, but for contents without a link. Of no reading that ended
    /// within a record, and of no two of stores with other tenants.
    ///
    /// # Cost
    ///
    /// Linear in what exists, times a logarithm. Does not allocate.
    pub fn leaves_same_state(&self, other: &LogReading<'_>) -> bool
        ensures { result ≡ true → LeaveSame self.now other.now }
    {
        if !self.left.is_empty() || !other.left.is_empty() {
            return false;
        }
        if !self.state.has_same_tenants(&other.state) {
            return false;
        }
        self.state.is_same(&other.state)
    }
}

impl<'t> FrameSink for LogReading<'t> {
    ghost use Rattle.log_state.specs.Reading.{TakesPayload};
    ghost use Rattle.std.specs.Prelude.{⊤};

    ghost takes = { TakesPayload };

    ghost refuses = { λ _ _ _. ⊤ };

    /// Takes the changes of the records that are whole with this payload.
    ///
    /// # Errors
    ///
    /// - if a change is not taken, or the bytes are no records.
    fn take(&mut self, payload: &[u8]) -> Result<(), ()> {
        match self.take_payload(payload) {
            Ok(()) => Ok(()),
            Err(error) => {
                self.error = Some(error);
                Err(())
            }
        }
    }
}
