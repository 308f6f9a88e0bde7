//! A disk in memory, whose calls can be made to fail.

ghost use Rattle.std.specs.Prelude.{◌≡◌, ◌++◌, [], take, IfOk, OnOk, OnErr};
ghost use Rattle.log_disk.specs.Torn.{IsTorn};

use crate::disk::{Disk, DiskError};
use std::alloc::Global;
use std::marker::Model;

/// A disk in memory, whose calls fail after a given number of calls.
///
/// Contracts see the bytes that were written and those that are synced.
#[derive(Drop)]
pub struct MemoryDisk {
    bytes: Vec<u8>,
    synced: usize,
    /// The number of calls that are not made to fail.
    calls_left: u64,
}

impl Model for MemoryDisk {
    ghost use Rattle.std.specs.Prelude.{◌≤◌, ℕ, List, take, length};

    ghost Value = { List ℕ × List ℕ };

    ghost view = { λ d. (d.bytes.items, take d.synced d.bytes.items) };

    ghost invariant = { λ d. d.synced ≤ length d.bytes.items };
}

impl MemoryDisk {
    /// Creates an empty disk that takes this number of calls. Each later one fails.
    pub fn new(alloc: Global, calls: u64) -> MemoryDisk
        ensures { result ≡ ([], []) }
    {
        MemoryDisk {
            bytes: Vec::new(alloc),
            synced: 0,
            calls_left: calls,
        }
    }

    /// Creates a disk that holds these bytes, all of them synced, and takes this number of calls. Each later one fails.
    pub fn from_bytes(bytes: Vec<u8>, calls: u64) -> MemoryDisk
        ensures { result ≡ (bytes.items, bytes.items) }
    {
        let synced = bytes.len();
        MemoryDisk {
            bytes,
            synced,
            calls_left: calls,
        }
    }

    /// Returns the bytes that were written.
    pub fn bytes(&self) -> &[u8]
        ensures { result.now ≡ (self.now).0 }
    {
        self.bytes.as_slice()
    }

    /// Returns the number of bytes that are synced.
    pub fn synced(&self) -> usize
        ensures { take result (self.now).0 ≡ (self.now).1 }
    {
        self.synced
    }

    fn fails(&mut self) -> bool
        ensures { self.new ≡ self.old }
    {
        if self.calls_left == 0 {
            return true;
        }
        self.calls_left -= 1;
        false
    }

    fn put(&mut self, bytes: &[u8]) -> Result<(), DiskError>
        ensures ok { OnOk result ((self.new).0 ≡ (self.old).0 ++ bytes.now) }
        ensures err { OnErr result ((self.new).0 ≡ (self.old).0) }
        ensures kept { (self.new).1 ≡ (self.old).1 }
    {
        match self.bytes.extend_from_slice(bytes) {
            Ok(()) => Ok(()),
            Err(_) => Err(DiskError::Memory),
        }
    }
}

impl Disk for MemoryDisk {
    ghost written = { λ d. d.0 };

    ghost synced = { λ d. d.1 };

    fn write(&mut self, bytes: &[u8]) -> Result<(), DiskError> {
        if self.fails() {
            let half = bytes.len() / 2;
            let (front, _) = bytes.split_at(half);
            self.put(front)?;
            return Err(DiskError::Injected);
        }
        self.put(bytes)
    }

    fn sync(&mut self) -> Result<(), DiskError> {
        if self.fails() {
            return Err(DiskError::Injected);
        }
        self.synced = self.bytes.len();
        Ok(())
    }
}
