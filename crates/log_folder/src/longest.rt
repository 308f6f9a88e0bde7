//! Up to which length contents are in the log, and not in files.

use crate::data_folder::{create, rename_synced};
use crate::error::FolderError;
use blob_digest::decimal;
use std::fs::{self, File};
use std::io::{self, ErrorKind, Read, Write};
use store_replay::FolderFile;

/// The greatest length of the text, in bytes.
const TEXT_LENGTH: usize = 32;

/// Reads the first bytes of the file. Returns how many there are.
fn read_text(rt: &HostRuntime, folder: &str, text: &mut [u8; TEXT_LENGTH]) -> io::Result<usize> {
    let path = FolderFile::Longest.path(rt.alloc(), folder)?;
    File::open(rt, path.as_str())?.read(text)
}

/// Returns the number that a text spells, up to its line feed.
fn number_in(text: &[u8]) -> io::Result<u64> {
    let digits = match text.strip_suffix(b"\n") {
        Some(digits) => digits,
        None => text,
    };
    match decimal(digits) {
        Some(number) => Ok(number),
        None => Err(io::Error::from(ErrorKind::InvalidData)),
    }
}

/// Returns the length of the longest content whose bytes the log of a folder has. Longer ones lie in files, and the log has notes of
/// them. Returns `None` if there is no such length: the log has the bytes of all contents.
///
/// # Errors
///
/// - `File`, if the file `longest` cannot be read, or has no number.
/// - `Memory`
pub fn read_longest(rt: &HostRuntime, folder: &str) -> Result<Option<u64>, FolderError> {
    let mut text = [0u8; TEXT_LENGTH];
    let count = match read_text(rt, folder, &mut text) {
        Ok(count) => count,
        Err(error) => match error.kind() {
            ErrorKind::NotFound => return Ok(None),
            _ => return Err(FolderError::of_file("read", FolderFile::Longest, error)),
        },
    };
    match number_in(&text[..count.min(TEXT_LENGTH)]) {
        Ok(number) => Ok(Some(number)),
        Err(error) => Err(FolderError::of_file("read", FolderFile::Longest, error)),
    }
}

/// Writes and syncs the file of an owner, and gives it its name.
fn write_synced(rt: &HostRuntime, folder: &str, owner: u64, longest: u64) -> io::Result<()> {
    let text = format!(in rt.alloc(); "{longest}\n")?;
    let mut file = create(rt, folder, FolderFile::NewLongest(owner))?;
    file.write_all(text.as_bytes())?;
    file.sync_all()?;
    rename_synced(
        rt,
        folder,
        FolderFile::NewLongest(owner),
        FolderFile::Longest,
    )
}

/// Records the length of the longest content whose bytes the log of a folder has, so that a crash leaves it. Only the owner can.
///
/// # Errors
///
/// - `File`, `Memory`
pub fn write_longest(
    rt: &HostRuntime,
    folder: &str,
    owner: u64,
    longest: u64,
) -> Result<(), FolderError> {
    match write_synced(rt, folder, owner, longest) {
        Ok(()) => Ok(()),
        Err(error) => Err(FolderError::of_file("write", FolderFile::Longest, error)),
    }
}
