//! The recorded bytes that the device has not taken over.

ghost use Rattle.std.specs.Prelude.{◌≡◌, ◌≤◌, [], length, true, false, IfSome, Some, OnOk};
ghost use Rattle.durable_log.specs.Views.{HasRoom, HasSlot, KeepsBytes, RecordsIfOpen};

use crate::segments::{NoRoom, Segments};
use std::alloc::Global;
use std::marker::Model;
use std::mem;

/// The recorded bytes that the device has not taken over, and whether the log records.
#[derive(Drop)]
pub struct Pending {
    recording: bool,
    /// The number of bytes of the history.
    position: u64,
    /// The number of bytes in the segments.
    bytes: u64,
    segments: Segments,
}

impl Model for Pending {
    ghost use Rattle.durable_log.specs.Views.{HoldsPending, PendingView};

    ghost Value = { PendingView };

    ghost view = { λ p. record {
      recording = p.recording;
      position = p.position;
      segments = p.segments;
    } };

    ghost invariant = { λ p. HoldsPending p.recording p.position p.bytes p.segments.bytes };
}

impl Pending {
    /// Creates pending bytes of a log that does not record.
    pub fn new(alloc: Global) -> Pending
        ensures { result.recording ≡ false }
    {
        Pending {
            recording: false,
            position: 0,
            bytes: 0,
            segments: Segments::new(alloc),
        }
    }

    /// Returns whether the log records.
    pub fn is_recording(&self) -> bool
        ensures { result ≡ self.now.recording }
    {
        self.recording
    }

    /// Returns the number of bytes of the history, or `None` if the log does not record.
    pub fn position(&self) -> Option<u64>
        ensures some { IfSome result (λ n. (self.now.recording ≡ true) × (n ≡ self.now.position)) }
        ensures recording { self.now.recording ≡ true → result ≡ Some self.now.position }
    {
        if self.recording {
            Some(self.position)
        } else {
            None
        }
    }

    /// Returns the number of pending bytes.
    pub fn len(&self) -> u64
        ensures { result ≡ length self.now.segments.bytes }
    {
        self.bytes
    }

    /// Starts recording after a history of this number of bytes.
    pub fn start(&mut self, position: u64)
        ensures recording { self.new.recording ≡ true }
        ensures position { self.new.position ≡ position }
        ensures bytes { self.new.segments.bytes ≡ [] }
    {
        self.segments.clear();
        self.bytes = 0;
        self.position = position;
        self.recording = true;
    }

    /// Stops recording. The pending bytes are dropped.
    pub fn close(&mut self)
        ensures recording { self.new.recording ≡ false }
        ensures bytes { self.new.segments.bytes ≡ [] }
    {
        self.recording = false;
        self.bytes = 0;
        self.segments.clear();
    }

    /// Makes room for a record of this number of bytes, if the log records.
    pub fn reserve(&mut self, bytes: usize) -> Result<(), NoRoom>
        ensures same { KeepsBytes self.old self.new }
        ensures ok { OnOk result (self.old.recording ≡ true → HasRoom self.new bytes ×
            HasSlot self.new bytes) }
    {
        if !self.recording {
            return Ok(());
        }
        if self.position.checked_add(bytes as u64).is_none() {
            return Err(NoRoom);
        }
        self.segments.reserve(bytes)
    }

    /// Records these bytes, if the log records. If they have no room, the log is closed.
    pub fn append(&mut self, bytes: &[u8])
        ensures recorded { RecordsIfOpen self.old bytes.now self.new }
        ensures room { HasRoom self.old (length bytes.now) →
            self.new.recording ≡ self.old.recording }
    {
        if !self.recording {
            return;
        }
        let Some(position) = self.position.checked_add(bytes.len() as u64) else {
            self.close();
            return;
        };
        let Ok(()) = self.segments.append(bytes) else {
            self.close();
            return;
        };
        self.position = position;
        self.bytes += bytes.len() as u64;
    }

    /// Records these bytes, if the log records. Long ones are not copied. If they have no room, the log is closed.
    pub fn append_owned(&mut self, bytes: Vec<u8>)
        ensures recorded { RecordsIfOpen self.old bytes.items self.new }
        ensures room { HasSlot self.old (length bytes.items) →
            self.new.recording ≡ self.old.recording }
    {
        if !self.recording {
            return;
        }
        let more = bytes.len() as u64;
        let Some(position) = self.position.checked_add(more) else {
            self.close();
            return;
        };
        let Ok(()) = self.segments.append_owned(bytes) else {
            self.close();
            return;
        };
        self.position = position;
        self.bytes += more;
    }

    /// Moves the pending bytes into an empty buffer.
    pub fn move_into(&mut self, buffer: &mut Segments)
        requires { buffer.old.bytes ≡ [] }
        ensures same { (self.new.recording ≡ self.old.recording) ×
            (self.new.position ≡ self.old.position) }
        ensures bytes { (self.new.segments.bytes ≡ []) ×
            (buffer.new.bytes ≡ self.old.segments.bytes) }
    {
        mem::swap(&mut self.segments, buffer);
        self.bytes = 0;
    }
}
