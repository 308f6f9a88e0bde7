//! A file as a disk.

ghost use Rattle.std.specs.Prelude.{◌≡◌, length, IfOk};

use crate::deed::BytesName;
use crate::deed_log::DeedLog;
use crate::disk::{Disk, DiskError};
use std::alloc::Global;
use std::fs::File;
use std::io::{Seek, SeekFrom, Write};
use std::marker::Model;

/// A file that is written at its end.
///
/// Contracts see the bytes that were written and those that are synced. No contract can state what a file holds. So this
/// is a premise: the file holds the bytes that `new` names, and then those that were passed to `write_all`, of the last
/// ones perhaps only a prefix if that call failed. After a crash it holds at least the bytes that it held when
/// `sync_data` or `sync_all` last returned `Ok`.
#[derive(Drop)]
pub struct FileDisk {
    file: File,
    deeds: DeedLog,
}

impl Model for FileDisk {
    ghost use Rattle.std.specs.Prelude.{ℕ, List};

    ghost Value = { List ℕ × List ℕ };

    ghost view = { λ d. d.deeds };
}

impl FileDisk {
    /// Syncs a file that holds the bytes that `P` names, of this length, and seeks its end.
    ///
    /// # Errors
    ///
    /// - `Io`: the file cannot be sought or synced.
    /// - `Length`: the file has another length.
    /// - `Memory`
    pub fn new<P: BytesName>(
        alloc: Global,
        mut file: File,
        content_length: u64,
    ) -> Result<FileDisk, DiskError>
        requires { length P.bytes ≡ content_length }
        ensures { IfOk result (λ d. d ≡ (P.bytes, P.bytes)) }
    {
        let end = file.seek(SeekFrom::End(0)).map_err(DiskError::Io)?;
        if end != content_length {
            return Err(DiskError::Length(end));
        }
        file.sync_all().map_err(DiskError::Io)?;
        let Ok(mut deeds) = DeedLog::new(alloc) else {
            return Err(DiskError::Memory);
        };
        deeds.add_named::<P>();
        deeds.add_sync();
        Ok(FileDisk { file, deeds })
    }
}

impl Disk for FileDisk {
    ghost written = { λ d. d.0 };

    ghost synced = { λ d. d.1 };

    fn write(&mut self, bytes: &[u8]) -> Result<(), DiskError> {
        self.deeds.add_write(bytes);
        self.file.write_all(bytes).map_err(DiskError::Io)
    }

    fn sync(&mut self) -> Result<(), DiskError> {
        self.file.sync_data().map_err(DiskError::Io)?;
        self.deeds.add_sync();
        Ok(())
    }
}
