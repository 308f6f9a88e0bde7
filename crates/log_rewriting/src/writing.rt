//! Writes records into the frames of a log.
ghost use Rattle.std.specs.Prelude.{◌≡◌, ◌<◌, ◌^◌, ◌≤◌, true};
ghost use Rattle.log_records.specs.Changes.{IsChange, change_view, max_body};

use crate::failure::RewriteError;
use log_frames::{Cursor, MAX_PAYLOAD, write_frame};
use log_records::{Change, MAX_BODY, append_record};
use std::alloc::Global;
use std::io::Write;

/// A frame is written when it has at least this number of bytes of records.
const LEAST: usize = 65_536;

/// The bytes of a frame in front of its payload and after it.
const AROUND: u64 = 40;

/// Writes whole records, several in a frame.
#[derive(Drop)]
pub struct RecordWriter<W: Write + Drop> {
    output: W,
    id: u64,
    /// The cursor after the last frame.
    cursor: Cursor,
    /// The records of the next frame.
    records: Vec<u8>,
}

/// Returns whether a number, and texts and a body of these lengths, fit into a record.
fn fit(name: usize, digest: usize, number: u64, body: usize) -> bool
    ensures { result ≡ true → (name < 2 ^ 16) × (digest < 2 ^ 16) × (number < 2 ^ 64) ×
        (body ≤ max_body) }
{
    let _ = number;
    name < 65_536 && digest < 65_536 && body as u64 <= MAX_BODY
}

/// Returns whether a change fits into a record.
fn fits(change: &Change<'_>) -> bool
    ensures { result ≡ true → IsChange (change_view change.now) }
{
    match *change {
        Change::RepoAdded { repo } => fit(repo.len(), 0, 0, 0),
        Change::SessionOpened { repo, number } => fit(repo.len(), 0, number, 0),
        Change::ChunkReceived {
            tenant,
            number,
            bytes,
        } => fit(tenant.len(), 0, number, bytes.len()),
        Change::SessionSealed {
            tenant,
            number,
            digest,
            last,
        } => fit(tenant.len(), digest.len(), number, last.len()),
        Change::SessionDropped { tenant, number } => fit(tenant.len(), 0, number, 0),
        Change::BlobLinked { repo, digest } => fit(repo.len(), digest.len(), 0, 0),
        Change::BlobUnlinked { repo, digest } => fit(repo.len(), digest.len(), 0, 0),
        Change::ManifestPut { repo, bytes } => fit(repo.len(), 0, 0, bytes.len()),
        Change::ManifestDeleted { repo, digest } => fit(repo.len(), digest.len(), 0, 0),
        Change::NumberSet { tenant, number } => fit(tenant.len(), 0, number, 0),
        Change::BlobStored { digest, bytes } => fit(0, digest.len(), 0, bytes.len()),
        Change::RepoRemoved { repo } => fit(repo.len(), 0, 0, 0),
        Change::ChunkNoted {
            tenant,
            number,
            notes,
        } => fit(tenant.len(), 0, number, notes.len()),
        Change::SealNoted {
            tenant,
            number,
            digest,
            notes,
        }
        | Change::BlobNoted {
            tenant,
            number,
            digest,
            notes,
        } => fit(tenant.len(), digest.len(), number, notes.len()),
    }
}

impl<W: Write + Drop> RecordWriter<W> {
    /// Creates a writer that continues a log with this id at a cursor.
    pub fn new(alloc: Global, output: W, id: u64, cursor: Cursor) -> RecordWriter<W> {
        RecordWriter {
            output,
            id,
            cursor,
            records: Vec::new(alloc),
        }
    }

    /// Adds the record of a change, and writes a frame if there are enough records for one.
    ///
    /// # Errors
    ///
    /// - `Memory`
    /// - `TooLong`
    /// - `Write`
    pub fn add(&mut self, change: &Change<'_>) -> Result<(), RewriteError> {
        if !fits(change) {
            return Err(RewriteError::TooLong);
        }
        append_record(&mut self.records, change)?;
        if self.records.len() < LEAST {
            return Ok(());
        }
        self.write_records()
    }

    /// Writes a frame of the records that were added since the last one.
    fn write_records(&mut self) -> Result<(), RewriteError> {
        let length = self.records.len() as u64;
        if length > MAX_PAYLOAD || self.cursor.place > u64::MAX - AROUND - length {
            return Err(RewriteError::TooLong);
        }
        match write_frame(
            &mut self.output,
            self.id,
            self.cursor,
            0,
            self.records.as_slice(),
        ) {
            Ok(cursor) => self.cursor = cursor,
            Err(error) => return Err(RewriteError::of_write(error)),
        }
        self.records.clear();
        Ok(())
    }

    /// Writes what is left, flushes the output, and returns the cursor after the last frame.
    ///
    /// # Errors
    ///
    /// - `TooLong`
    /// - `Write`
    pub fn finish(mut self) -> Result<Cursor, RewriteError> {
        if !self.records.is_empty() {
            self.write_records()?;
        }
        match self.output.flush() {
            Ok(()) => Ok(self.cursor),
            Err(error) => Err(RewriteError::of_write(error)),
        }
    }
}
