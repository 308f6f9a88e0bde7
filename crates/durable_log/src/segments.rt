//! Bytes in segments, which are written one after another.

ghost use Rattle.std.specs.Prelude.{◌≡◌, ◌<◌, ◌≤◌, ◌++◌, [], flat_map, length, Decides, IsOk, MatchOption, true, OnOk, OnErr};
ghost use Rattle.log_disk.specs.Torn.{IsTorn};
ghost use Rattle.durable_log.specs.Views.{BeginsNot};

use log_disk::{Disk, DiskError};
use std::alloc::Global;
use std::marker::Model;
use std::mem;
use thiserror::Error;

/// The capacity of a segment for small records.
const SEGMENT_BYTES: usize = 65536;

/// The length up to which a record that could be a segment of its own is copied into the last one, if it fits, in bytes. Otherwise each of
/// many small records would cost a segment, and the next record another one.
const COPIED: usize = 4096;

/// A record has no room: memory ran out, or the history would have 2^64 bytes.
#[derive(Clone, Copy, PartialEq, Eq, Debug, Error)]
#[error("no room for a record")]
pub struct NoRoom;

/// Bytes in segments. A byte that was added is never copied again.
#[derive(Drop)]
pub struct Segments {
    alloc: Global,
    /// All segments but the last.
    earlier: Vec<Vec<u8>>,
    /// The segment that records are added to.
    last: Vec<u8>,
}

impl Model for Segments {
    ghost use Rattle.std.specs.Prelude.{◌++◌, ◌-◌, flat_map, vec_capacity, vec_len};
    ghost use Rattle.durable_log.specs.Views.{SegmentsView};

    ghost Value = { SegmentsView };

    ghost view = { λ s. record {
      bytes = flat_map (λ v. v.items) s.earlier.items ++ s.last.items;
      room = vec_capacity s.last - vec_len s.last;
      slots = vec_capacity s.earlier - vec_len s.earlier;
    } };
}

/// Removes the segments from the front of the bytes, in order. Returns the rest, or `None` if the bytes do not begin with
/// them.
fn strip_each<'b>(segments: &[Vec<u8>], bytes: &'b [u8]) -> Option<&'b [u8]>
    ensures { MatchOption result (BeginsNot bytes.now (flat_map (λ v. v.items) segments.now))
        (λ rest. bytes.now ≡ flat_map (λ v. v.items) segments.now ++ rest.now) }
{
    let mut rest = bytes;
    for segment in segments {
        let Some(after) = rest.strip_prefix(segment.as_slice()) else {
            return None;
        };
        rest = after;
    }
    Some(rest)
}

/// Writes segments in order.
fn write_each<D: Disk>(disk: &mut D, segments: &[Vec<u8>]) -> Result<(), DiskError>
    ensures ok { OnOk result (D.written disk.new ≡ D.written disk.old
        ++ flat_map (λ v. v.items) segments.now) }
    ensures err { OnErr result (IsTorn (D.written disk.old) (flat_map (λ v. v.items) segments.now)
        (D.written disk.new)) }
    ensures kept { D.synced disk.new ≡ D.synced disk.old }
{
    for segment in segments {
        if let Err(error) = disk.write(segment.as_slice()) {
            return Err(error);
        }
    }
    Ok(())
}

impl Segments {
    /// Creates an empty list of segments.
    pub fn new(alloc: Global) -> Segments
        ensures { result.bytes ≡ [] }
    {
        Segments {
            alloc,
            earlier: Vec::new(alloc),
            last: Vec::new(alloc),
        }
    }

    /// Adds an empty segment with room for `bytes` bytes.
    fn start_segment(&mut self, bytes: usize) -> Result<(), NoRoom>
        ensures same { self.new.bytes ≡ self.old.bytes }
        ensures ok { OnOk result (bytes ≤ self.new.room) }
    {
        let capacity = bytes.max(SEGMENT_BYTES);
        let Ok(segment) = Vec::with_capacity(self.alloc, capacity) else {
            return Err(NoRoom);
        };
        if self.last.is_empty() {
            self.last = segment;
            return Ok(());
        }
        let Ok(()) = self.earlier.reserve(1) else {
            return Err(NoRoom);
        };
        let full = mem::replace(&mut self.last, segment);
        self.earlier.push(full).unwrap();
        Ok(())
    }

    /// Makes room for a record of `bytes` bytes and for another segment.
    pub fn reserve(&mut self, bytes: usize) -> Result<(), NoRoom>
        ensures same { self.new.bytes ≡ self.old.bytes }
        ensures ok { OnOk result ((bytes ≤ self.new.room) × (0 < self.new.slots)) }
    {
        if self.last.capacity() - self.last.len() < bytes {
            self.start_segment(bytes)?;
        }
        match self.earlier.reserve(1) {
            Ok(()) => Ok(()),
            Err(_) => Err(NoRoom),
        }
    }

    /// Adds a record at the end.
    pub fn append(&mut self, bytes: &[u8]) -> Result<(), NoRoom>
        ensures ok { OnOk result (self.new.bytes ≡ self.old.bytes ++ bytes.now) }
        ensures err { OnErr result (self.new.bytes ≡ self.old.bytes) }
        ensures room { length bytes.now ≤ self.old.room → IsOk result }
    {
        if self.last.capacity() - self.last.len() < bytes.len() {
            self.start_segment(bytes.len())?;
        }
        match self.last.extend_from_slice(bytes) {
            Ok(()) => Ok(()),
            Err(_) => Err(NoRoom),
        }
    }

    /// Returns whether a record is short, and the last segment has room for it.
    fn takes_copy(&self, bytes: &[u8]) -> bool
        ensures { result ≡ true → length bytes.now ≤ self.now.room }
    {
        bytes.len() <= COPIED && bytes.len() <= self.last.capacity() - self.last.len()
    }

    /// Adds a record at the end. A long one is not copied: it is a segment of its own.
    pub fn append_owned(&mut self, bytes: Vec<u8>) -> Result<(), NoRoom>
        ensures ok { OnOk result (self.new.bytes ≡ self.old.bytes ++ bytes.items) }
        ensures err { OnErr result (self.new.bytes ≡ self.old.bytes) }
        ensures room { 0 < self.old.slots → IsOk result }
    {
        if self.takes_copy(bytes.as_slice()) {
            return self.append(bytes.as_slice());
        }
        let Ok(()) = self.earlier.reserve(1) else {
            return Err(NoRoom);
        };
        if self.last.is_empty() {
            self.earlier.push(bytes).unwrap();
            return Ok(());
        }
        let full = mem::replace(&mut self.last, bytes);
        self.earlier.push(full).unwrap();
        Ok(())
    }

    /// Removes all bytes. A last segment of the usual capacity is kept for new records.
    pub fn clear(&mut self)
        ensures { self.new.bytes ≡ [] }
    {
        self.earlier.clear();
        if self.last.capacity() > SEGMENT_BYTES {
            self.last = Vec::new(self.alloc);
        } else {
            self.last.clear();
        }
    }

    /// Returns whether the segments have exactly these bytes.
    pub fn has_bytes(&self, bytes: &[u8]) -> bool
        ensures { Decides result (self.now.bytes ≡ bytes.now) }
    {
        match strip_each(self.earlier.as_slice(), bytes) {
            Some(rest) => rest == self.last.as_slice(),
            None => false,
        }
    }

    /// Writes all bytes to a disk, one segment after another.
    ///
    /// # Errors
    ///
    /// That of the disk. A prefix of the bytes may have been written.
    pub fn write_to<D: Disk>(&self, disk: &mut D) -> Result<(), DiskError>
        ensures ok { OnOk result (D.written disk.new ≡ D.written disk.old ++ self.now.bytes) }
        ensures err { OnErr result (IsTorn (D.written disk.old) self.now.bytes
            (D.written disk.new)) }
        ensures kept { D.synced disk.new ≡ D.synced disk.old }
    {
        if let Err(error) = write_each(disk, self.earlier.as_slice()) {
            return Err(error);
        }
        if self.last.is_empty() {
            return Ok(());
        }
        disk.write(self.last.as_slice())
    }
}
