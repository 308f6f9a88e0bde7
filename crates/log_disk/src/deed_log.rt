//! The calls that were made on a file, in the proof alone.

ghost use Rattle.std.specs.Prelude.{◌≡◌, ◌++◌, [], IfOk};

use crate::deed::{self, BytesName, Deed, Syncs};
use ghost_log::{SharedLog, Writer};
use std::alloc::{AllocError, Global};
use std::marker::Model;

/// The calls that were made on a file. Contracts see the bytes that were written and those that are synced.
#[derive(Drop)]
pub struct DeedLog {
    deeds: SharedLog<Deed>,
    writer: Writer<Deed>,
}

impl Model for DeedLog {
    ghost use Rattle.std.specs.Prelude.{◌≡◌, ℕ, List, []};
    ghost use Rattle.log_disk.specs.Deeds.{after_deeds};

    ghost Value = { List ℕ × List ℕ };

    ghost view = { λ d. after_deeds ([], []) d.deeds.entries };

    ghost invariant = { λ d. d.writer.name ≡ d.deeds.name };
}

impl DeedLog {
    /// Creates a log of no call: nothing is written.
    pub fn new(alloc: Global) -> Result<DeedLog, AllocError>
        ensures { IfOk result (λ d. d ≡ ([], [])) }
    {
        let mut deeds = SharedLog::new(alloc)?;
        let writer = deeds.writer();
        Ok(DeedLog { deeds, writer })
    }

    /// Records that the bytes which `P` names were written.
    pub fn add_named<P: BytesName>(&mut self)
        ensures { self.new ≡ ((self.old).0 ++ P.bytes, (self.old).1) }
    {
        deed::add_named::<P>(&mut self.deeds, &mut self.writer);
    }

    /// Records that these bytes were written.
    pub fn add_write(&mut self, bytes: &[u8])
        ensures { self.new ≡ ((self.old).0 ++ bytes.now, (self.old).1) }
    {
        deed::add_write(&mut self.deeds, &mut self.writer, bytes);
    }

    /// Records that all bytes are synced.
    pub fn add_sync(&mut self)
        ensures { self.new ≡ ((self.old).0, (self.old).0) }
    {
        self.deeds.append::<Syncs>(&mut self.writer);
    }
}
