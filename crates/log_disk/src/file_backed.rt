//! Disks whose content a file keeps.

ghost use Rattle.std.specs.Prelude.{◌≡◌};
ghost use Rattle.log_disk.specs.Kept.{HasContent, IsLeft, PreservesContents};

use crate::disk::Disk;
use crate::file_disk::FileDisk;

/// A disk that is a file: what was written to it was written to the file, and what is synced of it is synced there.
pub trait PlainFile: Disk {
    /// Returns the file.
    fn as_file(&self) -> &FileDisk
        ensures written { (result.now).0 ≡ Self.written self.now }
        ensures synced { (result.now).1 ≡ Self.synced self.now };
}

impl PlainFile for FileDisk {
    fn as_file(&self) -> &FileDisk {
        self
    }
}

/// A disk whose content a file keeps.
///
/// A type without a file cannot implement it: `file` returns the file. Contracts see the bytes that were written to the
/// file and those of them that are synced, and as which contents of the disk bytes of the file are read. The premise of
/// [`FileDisk`] is that the file holds these bytes.
pub trait FileBacked: Disk {
    ghost use Rattle.std.specs.Prelude.{ℕ, List};

    ghost file_written: { Self → List ℕ };

    ghost file_synced: { Self → List ℕ };

    ghost reads_as: { Self → List ℕ → List ℕ → Type 0 };

    /// Returns the file that is written.
    fn file(&self) -> &FileDisk
        ensures written { (result.now).0 ≡ file_written self.now }
        ensures synced { (result.now).1 ≡ file_synced self.now };

    /// Does nothing at run time: whatever a crash leaves of the file is read as a content of the disk. It has all that is
    /// synced, and is a prefix of what was written.
    fn reveal_kept(&self, left: &[u8])
        requires { IsLeft (file_written self.now) (file_synced self.now) left.now }
        ensures readable { HasContent (reads_as self.now left.now) }
        ensures preserved { PreservesContents (reads_as self.now left.now) (Self.written self.now)
            (Self.synced self.now) };
}

impl FileBacked for FileDisk {
    ghost use Rattle.std.specs.Prelude.{◌≡◌};

    ghost file_written = { λ d. d.0 };

    ghost file_synced = { λ d. d.1 };

    ghost reads_as = { λ _ left content. content ≡ left };

    fn file(&self) -> &FileDisk {
        self
    }

    fn reveal_kept(&self, left: &[u8]) {
        let _ = left;
    }
}
