//! A disk that already holds what is written to it.

ghost use Rattle.std.specs.Prelude.{◌≡◌, [], IfOk};

use crate::deed_log::DeedLog;
use crate::disk::{Disk, DiskError};
use std::alloc::{AllocError, Global};
use std::marker::Model;

/// A disk that already holds what is written to it, such as a log that is replayed. Its calls do nothing and succeed.
///
/// Contracts see the bytes that were written and those that are synced. At first there are none.
#[derive(Drop)]
pub struct ReplayedDisk {
    deeds: DeedLog,
}

impl Model for ReplayedDisk {
    ghost use Rattle.std.specs.Prelude.{ℕ, List};

    ghost Value = { List ℕ × List ℕ };

    ghost view = { λ d. d.deeds };
}

impl ReplayedDisk {
    /// Creates a disk to which nothing was written.
    ///
    /// # Errors
    ///
    /// `AllocError` if memory runs out.
    pub fn new(alloc: Global) -> Result<ReplayedDisk, AllocError>
        ensures { IfOk result (λ d. d ≡ ([], [])) }
    {
        let deeds = DeedLog::new(alloc)?;
        Ok(ReplayedDisk { deeds })
    }
}

impl Disk for ReplayedDisk {
    ghost written = { λ d. d.0 };

    ghost synced = { λ d. d.1 };

    fn write(&mut self, bytes: &[u8]) -> Result<(), DiskError> {
        self.deeds.add_write(bytes);
        Ok(())
    }

    fn sync(&mut self) -> Result<(), DiskError> {
        self.deeds.add_sync();
        Ok(())
    }
}
