//! What a content needs of the files.

ghost use Rattle.std.specs.Prelude.{◌≡◌, ◌≤◌, ◌+◌, Bool, IfOk, OnOk, false, length, true};
ghost use Rattle.content_files.specs.Placed.{placed};

use crate::error::ContentError;
use crate::name::ContentName;
use crate::written::{Unsynced, Written};

/// The files of contents.
///
/// An implementation makes its result of `write` by `write_unsynced` or `read_back`, on the file of this name. If it creates the
/// file, it syncs the folder too.
pub trait ContentStore {
    // Whether contents may lie in files.
    ghost on_disk: { Bool };

    /// Returns whether contents may lie in files.
    fn is_on_disk(&self) -> bool
        ensures { result ≡ on_disk };

    /// Returns whether contents are hashed by SHA-512 too as they come. A content in a file is not read again for a hash.
    fn hashes_sha512(&self) -> bool;

    /// Writes bytes at an offset. Every byte of the file behind the offset may be lost.
    ///
    /// # Errors
    ///
    /// The cause. Any of the bytes may have been written.
    fn write<'b>(
        &self,
        name: ContentName,
        offset: u64,
        bytes: &'b [u8],
    ) -> Result<Unsynced<'b>, ContentError>
        requires { offset + length bytes.now ≤ 18446744073709551615 }
        ensures { IfOk result (λ w. w ≡ placed name offset bytes.now) };

    /// Syncs bytes that `write` has returned.
    ///
    /// # Errors
    ///
    /// The cause. Any of the bytes may be on the disk.
    fn sync<'b>(&self, written: Unsynced<'b>) -> Result<Written<'b>, ContentError>
        ensures { IfOk result (λ w. w ≡ written.entry) };

    /// Cuts the file of a content to a length, if it is longer: a chunk was refused after it was written. It need not succeed, because
    /// nothing reads the bytes behind a content.
    fn cut_behind(&self, name: ContentName, len: u64);

    /// Reads as many bytes from an offset on as `out` has room for.
    ///
    /// # Errors
    ///
    /// The cause: `Fault` if the file is too short. `out` may then have any bytes.
    fn read(&self, name: ContentName, offset: u64, out: &mut [u8]) -> Result<(), ContentError>
        ensures len { length out.new ≡ length out.old }
        ensures there { OnOk result (on_disk ≡ true) };
}

/// No files: all contents are in memory.
#[derive(Clone, Copy, Debug, Drop)]
pub struct NoFiles;

impl ContentStore for NoFiles {
    ghost on_disk = { false };

    fn is_on_disk(&self) -> bool {
        false
    }

    fn hashes_sha512(&self) -> bool {
        false
    }

    fn write<'b>(
        &self,
        _name: ContentName,
        _offset: u64,
        _bytes: &'b [u8],
    ) -> Result<Unsynced<'b>, ContentError> {
        Err(ContentError::NoFiles)
    }

    fn sync<'b>(&self, _written: Unsynced<'b>) -> Result<Written<'b>, ContentError> {
        Err(ContentError::NoFiles)
    }

    fn cut_behind(&self, _name: ContentName, _len: u64) {}

    fn read(&self, _name: ContentName, _offset: u64, _out: &mut [u8]) -> Result<(), ContentError> {
        Err(ContentError::NoFiles)
    }
}
