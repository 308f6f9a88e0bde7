//! Receives the changes of a log: notes them in an inventory, and writes those of the rewritten log.

use crate::error::InventoryError;
use crate::failure::RewriteError;
use crate::filter::Filter;
use crate::inventory::Inventory;
use crate::joining::{Receiver, give_changes};
use crate::kept::Kept;
use crate::writing::RecordWriter;
use log_frames::{Cursor, start_of};
use log_records::Change;
use std::alloc::Global;
use std::io::{Read, Write};

impl Receiver for Inventory {
    fn receive(&mut self, change: &Change<'_>, offset: u64) -> Result<(), RewriteError> {
        match self.note(change, offset) {
            Ok(()) => Ok(()),
            Err(InventoryError::Memory) => Err(RewriteError::Memory),
            Err(error) => Err(RewriteError::Broken(offset, error)),
        }
    }
}

/// Writes the changes of the rewritten log in place of those that it receives.
#[derive(Drop)]
struct Rewriter<'f, W: Write + Drop> {
    filter: &'f Filter,
    records: RecordWriter<W>,
}

impl<'f, W: Write + Drop> Receiver for Rewriter<'f, W> {
    fn receive(&mut self, change: &Change<'_>, offset: u64) -> Result<(), RewriteError> {
        match self.filter.keep(change, offset) {
            Kept::Nothing => Ok(()),
            Kept::One(kept) => self.records.add(&kept),
            Kept::Two(first, second) => {
                self.records.add(&first)?;
                self.records.add(&second)
            }
        }
    }
}

/// A log that is written in place of the segments of which a filter was made.
///
/// Its frames have at least 65,536 bytes of records, the last one excepted, and state that nothing was synced.
///
/// # Memory
///
/// The longest record of the segments, and the longest frame of the rewritten log.
#[derive(Drop)]
pub struct LogRewriting<'f, W: Write + Drop> {
    alloc: Global,
    rewriter: Rewriter<'f, W>,
    /// The number of bytes of records that were read.
    offset: u64,
}

impl<'f, W: Write + Drop> LogRewriting<'f, W> {
    /// Begins the rewritten log with this id. The output is after its header.
    pub fn new(alloc: Global, filter: &'f Filter, output: W, id: u64) -> LogRewriting<'f, W> {
        LogRewriting {
            alloc,
            rewriter: Rewriter {
                filter,
                records: RecordWriter::new(alloc, output, id, start_of(id)),
            },
            offset: 0,
        }
    }

    /// Writes what is kept of the next segment, a log with this id. The input begins after the log's header. The buffer grows
    /// with the longest frame, and can be used again.
    ///
    /// # Errors
    ///
    /// - `NoRecord`, `NotWhole`: the frames of the log are not whole records.
    /// - `TooLong`: a record or the rewritten log is too long.
    /// - `Read`, `Write`
    /// - `Memory`
    pub fn rewrite<R: Read>(
        self,
        input: &mut R,
        buffer: &mut Vec<u8>,
        id: u64,
    ) -> Result<LogRewriting<'f, W>, RewriteError> {
        let LogRewriting {
            alloc,
            rewriter,
            offset,
        } = self;
        let (rewriter, offset) = give_changes(alloc, rewriter, offset, input, buffer, id)?;
        Ok(LogRewriting {
            alloc,
            rewriter,
            offset,
        })
    }

    /// Writes what is left, flushes the output, and returns the cursor after the last frame.
    ///
    /// # Errors
    ///
    /// - `TooLong`
    /// - `Write`
    pub fn finish(self) -> Result<Cursor, RewriteError> {
        let LogRewriting {
            alloc: _,
            rewriter,
            offset: _,
        } = self;
        let Rewriter { filter: _, records } = rewriter;
        records.finish()
    }
}
