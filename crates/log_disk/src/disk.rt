//! What a log needs of a disk.

ghost use Rattle.std.specs.Prelude.{◌≡◌, ◌++◌, List, OnOk, OnErr};
ghost use Rattle.log_disk.specs.Torn.{IsTorn};

use std::io;
use thiserror::Error;

/// Why a call on a disk failed.
#[derive(Clone, Copy, Debug, Error)]
pub enum DiskError {
    /// The operating system returned this error.
    #[error("{0}")]
    Io(#[from] io::Error),
    /// The file has another length than the bytes that it should hold.
    #[error("its length is {0} bytes")]
    Length(u64),
    /// The file has other bytes than it should hold.
    #[error("its content differs")]
    Content,
    /// Memory ran out.
    #[error("out of memory")]
    Memory,
    /// The call was made to fail.
    #[error("made to fail")]
    Injected,
}

/// A disk that is written at its end.
///
/// Contracts see the bytes that were `written` to it, and those that are `synced`. A crash may lose what is not synced.
pub trait Disk: Drop {
    ghost use Rattle.std.specs.Prelude.{ℕ, List};

    ghost written: { Self → List ℕ };

    ghost synced: { Self → List ℕ };

    /// Writes bytes at the end.
    ///
    /// # Errors
    ///
    /// The cause. A prefix of the bytes may have been written.
    fn write(&mut self, bytes: &[u8]) -> Result<(), DiskError>
        ensures ok { OnOk result (written self.new ≡ written self.old ++ bytes.now) }
        ensures err { OnErr result (IsTorn (written self.old) bytes.now (written self.new)) }
        ensures kept { synced self.new ≡ synced self.old };

    /// Waits until all that was written is durable.
    ///
    /// # Errors
    ///
    /// The cause. Only what was synced before is then known to be durable.
    fn sync(&mut self) -> Result<(), DiskError>
        ensures same { written self.new ≡ written self.old }
        ensures ok { OnOk result (synced self.new ≡ written self.old) }
        ensures err { OnErr result (synced self.new ≡ synced self.old) };
}
