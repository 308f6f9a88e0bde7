//! Finds where the whole records of a log end, without a store.

ghost use Rattle.std.specs.Prelude.{◌≤◌, IfOk, length};

use crate::fault::{Cause, Fault};
use log_frames::{Cursor, FrameSink, FramesRead, read_frames};
use log_records::{HEAD_LEN, RecordError, announced_len};
use std::io::Read;
use std::marker::Model;

/// Where the whole records of a log end, and how the log ends.
#[derive(Debug, Drop)]
pub struct Scan {
    /// The frames that were read.
    pub read: FramesRead,
    /// The end of the last whole record, as an offset in the joined payloads.
    pub whole: u64,
    /// The number of bytes after it, which begin a record.
    pub left_over: u64,
    /// A record whose end cannot be found. The frames after it were not read.
    pub fault: Option<Fault>,
}

/// Walks over records whose bytes come in pieces. Of a record, it keeps only the head.
#[derive(Drop)]
struct RecordWalk {
    /// The number of bytes that have come.
    position: u64,
    /// The end of the last whole record.
    whole: u64,
    /// A head, of which the first `head_len` bytes have come.
    head: [u8; HEAD_LEN],
    head_len: usize,
    /// The number of bytes of the record that follow its head and have not come.
    to_skip: u64,
    fault: Option<Fault>,
}

impl Model for RecordWalk {
    ghost use Rattle.std.specs.Prelude.{◌<◌, ℕ};

    ghost Value = { ℕ × ℕ };

    ghost view = { λ w. (w.position, w.whole) };

    ghost invariant = { λ w. w.head_len < 24 };
}

impl RecordWalk {
    /// Begins at the front of the records.
    fn new() -> RecordWalk {
        RecordWalk {
            position: 0,
            whole: 0,
            head: [0; HEAD_LEN],
            head_len: 0,
            to_skip: 0,
            fault: None,
        }
    }

    /// Skips bytes that follow a head, and returns their number.
    fn skip(&mut self, bytes: &[u8]) -> usize
        ensures { result ≤ length bytes.now }
    {
        let count = self.to_skip.min(bytes.len() as u64);
        self.to_skip -= count;
        count as usize
    }

    /// Takes bytes of a head, and returns their number.
    fn take_head(&mut self, bytes: &[u8]) -> Result<usize, Cause>
        ensures { IfOk result (λ n. n ≤ length bytes.now) }
    {
        let count = (HEAD_LEN - self.head_len).min(bytes.len());
        let (front, _) = bytes.split_at(count);
        self.head[self.head_len..self.head_len + count].copy_from_slice(front);
        if self.head_len + count < HEAD_LEN {
            self.head_len += count;
            return Ok(count);
        }
        self.head_len = 0;
        match announced_len(&self.head) {
            Ok(len) => {
                self.to_skip = len - HEAD_LEN as u64;
                Ok(count)
            }
            Err(RecordError::UnknownKind { kind }) => Err(Cause::UnknownKind(kind)),
            Err(_) => Err(Cause::Malformed),
        }
    }

    /// Takes the bytes of a head, or those that follow it, and returns their number.
    fn step(&mut self, bytes: &[u8]) -> Result<usize, Cause>
        ensures { IfOk result (λ n. n ≤ length bytes.now) }
    {
        let count = if 0 < self.to_skip {
            self.skip(bytes)
        } else {
            self.take_head(bytes)?
        };
        self.position = self.position.saturating_add(count as u64);
        if self.to_skip == 0 && self.head_len == 0 {
            self.whole = self.position;
        }
        Ok(count)
    }
}

impl FrameSink for RecordWalk {
    ghost use Rattle.std.specs.Prelude.{⊤};

    ghost takes = { λ _ _ _. ⊤ };

    ghost refuses = { λ _ _ _. ⊤ };

    fn take(&mut self, payload: &[u8]) -> Result<(), ()> {
        let mut rest = payload;
        for _ in 0..u64::MAX {
            if rest.is_empty() {
                return Ok(());
            }
            match self.step(rest) {
                Ok(count) => (_, rest) = rest.split_at(count),
                Err(cause) => {
                    self.fault = Some(Fault {
                        offset: self.whole,
                        cause,
                    });
                    return Err(());
                }
            }
        }
        Err(())
    }
}

/// Reads the frames of a log with this id from a cursor on, and finds where its whole records end. It examines only the
/// heads of records, and plays none. The buffer grows with the longest frame, as for `read_frames`.
///
/// # Memory
///
/// One head, besides the buffer.
pub fn scan_log<R: Read>(input: &mut R, buffer: &mut Vec<u8>, id: u64, start: Cursor) -> Scan {
    let mut walk = RecordWalk::new();
    let read = read_frames(&mut walk, input, buffer, id, start);
    let RecordWalk {
        position,
        whole,
        head: _,
        head_len: _,
        to_skip: _,
        fault,
    } = walk;
    Scan {
        read,
        whole,
        left_over: position.saturating_sub(whole),
        fault,
    }
}
