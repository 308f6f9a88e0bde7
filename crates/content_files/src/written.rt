//! Bytes that were written to a file, before and after they were synced.

ghost use Rattle.std.specs.Prelude.{◌≡◌, ◌≤◌, ◌+◌, IfOk, IfSome, length, true};
ghost use Rattle.content_files.specs.Notes.{is_read, piece_sum};
ghost use Rattle.content_files.specs.Placed.{IsPlacedAt, first_part, placed, second_part};

use crate::name::ContentName;
use crate::note::{reveal_read, sum_of};
use std::fs::File;
use std::io::{self, ErrorKind, Read, Seek, SeekFrom, Write};
use std::marker::Model;

/// Bytes that the file of a content has at an offset, and that need not be synced yet.
///
/// Contracts see the content's name, the offset and the bytes. Only `write_unsynced` and `read_back` make a value of this type.
#[derive(Drop)]
pub struct Unsynced<'b> {
    file: File,
    name: ContentName,
    offset: u64,
    bytes: &'b [u8],
}

impl<'b> Model for Unsynced<'b> {
    ghost use Rattle.std.specs.Prelude.{◌+◌, ◌≤◌, length};
    ghost use Rattle.content_files.specs.Placed.{Placed, placed};

    ghost Value = { Placed };

    ghost view = { λ w. placed w.name w.offset w.bytes.now };

    ghost invariant = { λ w. w.offset + length w.bytes.now ≤ 18446744073709551615 };
}

impl<'b> Unsynced<'b> {
    /// Returns the content's name.
    pub fn name(&self) -> ContentName
        ensures { result ≡ self.now.name }
    {
        self.name
    }

    /// Returns the offset in the file.
    pub fn offset(&self) -> u64
        ensures { result ≡ self.now.offset }
    {
        self.offset
    }

    /// Returns the number of bytes.
    pub fn len(&self) -> usize
        ensures value { result ≡ length self.now.bytes }
        ensures fits { self.now.offset + length self.now.bytes ≤ 18446744073709551615 }
    {
        self.bytes.len()
    }

    /// Returns whether the bytes lie in the file of this name, at this offset.
    pub(crate) fn is_at(&self, name: ContentName, offset: u64) -> bool
        ensures { result ≡ true → IsPlacedAt self.now name offset }
    {
        self.name.tenant == name.tenant && self.name.number == name.number && self.offset == offset
    }

    /// Does nothing at run time: it states that the bytes count as read.
    pub(crate) fn reveal_read(&self)
        ensures { is_read self.now.bytes ≡ true }
    {
        reveal_read(self.bytes);
    }

    /// Syncs the file.
    ///
    /// No contract can state what a file holds. So this is a premise, with that of the function which made the value: if the
    /// call returns `Ok`, the file holds the bytes at this offset, also after a crash, until they are written again or the file
    /// is removed.
    ///
    /// # Errors
    ///
    /// The operating system's error. Any of the bytes may be on the disk.
    ///
    /// # Cost
    ///
    /// One `fdatasync`. It allocates nothing.
    pub fn sync(self) -> io::Result<Written<'b>>
        ensures { IfOk result (λ w. w ≡ self.entry) }
    {
        self.file.sync_data()?;
        Ok(Written {
            name: self.name,
            offset: self.offset,
            bytes: self.bytes,
        })
    }
}

/// Bytes that the file of a content has at an offset, and that were synced.
///
/// Contracts see the content's name, the offset and the bytes. Only `Unsynced::sync` makes a value of this type, and `split_at`
/// parts one.
#[derive(Drop)]
pub struct Written<'b> {
    name: ContentName,
    offset: u64,
    bytes: &'b [u8],
}

impl<'b> Model for Written<'b> {
    ghost use Rattle.std.specs.Prelude.{◌+◌, ◌≤◌, length};
    ghost use Rattle.content_files.specs.Placed.{Placed, placed};

    ghost Value = { Placed };

    ghost view = { λ w. placed w.name w.offset w.bytes.now };

    ghost invariant = { λ w. w.offset + length w.bytes.now ≤ 18446744073709551615 };
}

impl<'b> Written<'b> {
    /// Returns the number of bytes.
    pub fn len(&self) -> usize
        ensures { result ≡ length self.now.bytes }
    {
        self.bytes.len()
    }

    /// Returns the sum of the bytes as a piece.
    pub(crate) fn sum(&self) -> u64
        ensures { result ≡ piece_sum self.now.bytes }
    {
        sum_of(self.bytes)
    }

    /// Parts the bytes in two.
    pub fn split_at(self, mid: usize) -> (Written<'b>, Written<'b>)
        requires { mid ≤ length self.bytes }
        ensures first { result.0 ≡ first_part mid self.entry }
        ensures second { result.1 ≡ second_part mid self.entry }
    {
        let (first, second) = self.bytes.split_at(mid);
        (
            Written {
                name: self.name,
                offset: self.offset,
                bytes: first,
            },
            Written {
                name: self.name,
                offset: self.offset + mid as u64,
                bytes: second,
            },
        )
    }
}

/// Writes bytes to the file of a content at an offset, and does not sync them.
///
/// No contract can state what a file holds. So this is a premise: the file is that of the content `name`, and if the call
/// returns `Ok`, it has the bytes at this offset.
///
/// # Errors
///
/// The operating system's error. Any of the bytes may have been written.
///
/// # Cost
///
/// One seek and one write. It allocates nothing.
pub fn write_unsynced<'b>(
    file: File,
    name: ContentName,
    offset: u64,
    bytes: &'b [u8],
) -> io::Result<Unsynced<'b>>
    requires { offset + length bytes.now ≤ 18446744073709551615 }
    ensures { IfOk result (λ w. w ≡ placed name offset bytes.now) }
{
    let mut file = file;
    file.seek(SeekFrom::Start(offset))?;
    file.write_all(bytes)?;
    Ok(Unsynced {
        file,
        name,
        offset,
        bytes,
    })
}

/// The most bytes that `read_back` reads at a time.
const BLOCK: usize = 65_536;

/// Compares the file of a content from an offset on with bytes that an earlier process wrote. Returns `None` if the file has other
/// bytes or too few. It writes nothing, and does not sync the file.
///
/// No contract can state what a file holds. So this is a premise, as for `write_unsynced`: the file is that of the content
/// `name`, and if the call returns the bytes, the file has them at this offset.
///
/// # Errors
///
/// The operating system's error.
///
/// # Cost
///
/// One seek, and a read of each 64 KiB. It allocates nothing, and has 64 KiB on the stack.
pub fn read_back<'b>(
    file: File,
    name: ContentName,
    offset: u64,
    bytes: &'b [u8],
) -> io::Result<Option<Unsynced<'b>>>
    requires { offset + length bytes.now ≤ 18446744073709551615 }
    ensures { IfOk result (λ r. IfSome r (λ w. w ≡ placed name offset bytes.now)) }
{
    let mut file = file;
    file.seek(SeekFrom::Start(offset))?;
    let mut block = [0_u8; BLOCK];
    let mut rest = bytes;
    while !rest.is_empty() {
        let (part, others) = rest.split_at(rest.len().min(BLOCK));
        let found = &mut block[..part.len()];
        match file.read_exact(found) {
            Ok(()) => {}
            Err(error) => match error.kind() {
                ErrorKind::UnexpectedEof => return Ok(None),
                _ => return Err(error),
            },
        }
        if &*found != part {
            return Ok(None);
        }
        rest = others;
    }
    Ok(Some(Unsynced {
        file,
        name,
        offset,
        bytes,
    }))
}
