//! What memory keeps of a piece.

ghost use Rattle.std.specs.Prelude.{◌≡◌, ◌++◌, ◌<◌, ◌^◌, true, IfSome, OnOk, drop, length, take};
ghost use Rattle.std.specs.Int.{w64, from_le_bytes, to_le_bytes};
ghost use Rattle.content_files.specs.Notes.{is_read, note_of, piece_sum};
ghost use Rattle.content_files.specs.Reads.{IsCountWithin, IsPlaceOf};
ghost use Rattle.content_files.specs.Shown.{note_shown};

use log_frames::{BASIS, sum_words};
use std::alloc::AllocError;

/// The number of bytes of a note.
pub(crate) const NOTE_LEN: usize = 16;

/// The length and the sum of a piece.
#[derive(Clone, Copy, Debug, PartialEq, Eq, Drop)]
pub(crate) struct Note {
    /// The length in bytes.
    pub len: u64,
    /// The sum, as `log_frames` defines it, from its basis on.
    pub sum: u64,
}

impl Note {
    /// Returns the note of a piece.
    pub(crate) fn of(piece: &[u8]) -> Note
        ensures { note_shown result ≡ note_of piece.now }
    {
        Note {
            len: piece.len() as u64,
            sum: sum_of(piece),
        }
    }

    /// Reads a note from its bytes.
    pub(crate) fn read(bytes: &[u8]) -> Note
        requires { length bytes.now ≡ 16 }
        ensures len { result.len ≡ from_le_bytes w64 (take 8 bytes.now) }
        ensures sum { result.sum ≡ from_le_bytes w64 (drop 8 bytes.now) }
        ensures written { to_le_bytes w64 result.len ++ to_le_bytes w64 result.sum ≡ bytes.now }
    {
        let (len, sum) = bytes.split_at(8);
        Note {
            len: word_of(len),
            sum: word_of(sum),
        }
    }

    /// Appends the length and the sum, of eight bytes each, the lowest first.
    pub(crate) fn write(self, out: &mut Vec<u8>) -> Result<(), AllocError>
        ensures written { OnOk result (out.new.items ≡ out.old.items
            ++ (to_le_bytes w64 self.len ++ to_le_bytes w64 self.sum)) }
        ensures fits { (self.len < 2 ^ 64) × (self.sum < 2 ^ 64) }
    {
        out.extend_from_slice(&self.len.to_le_bytes())?;
        out.extend_from_slice(&self.sum.to_le_bytes())?;
        Ok(())
    }
}

/// Returns the number in eight bytes, the low byte first.
fn word_of(bytes: &[u8]) -> u64
    requires { length bytes.now ≡ 8 }
    ensures read { result ≡ from_le_bytes w64 bytes.now }
    ensures written { to_le_bytes w64 result ≡ bytes.now }
{
    u64::from_le_bytes([
        bytes[0], bytes[1], bytes[2], bytes[3], bytes[4], bytes[5], bytes[6], bytes[7],
    ])
}

/// Returns the sum of a piece.
///
/// # Cost
///
/// One pass over the bytes, eight at a time. It allocates nothing.
pub fn sum_of(bytes: &[u8]) -> u64
    ensures { result ≡ piece_sum bytes.now }
{
    if bytes.is_empty() {
        return BASIS;
    }
    let _first = bytes[0];
    sum_words(BASIS, bytes)
}

/// Does nothing at run time: it states that bytes count as read.
pub fn reveal_read(bytes: &[u8])
    ensures { is_read bytes.now ≡ true }
{
    let _ = bytes;
}

/// Returns the piece that has the byte at an offset: its index and where it begins.
pub(crate) fn find(notes: &[Note], offset: u64) -> Option<(usize, u64)>
    ensures { IfSome result (λ r. IsPlaceOf notes.now offset r.0 r.1) }
{
    let mut start: u64 = 0;
    for index in 0..notes.len() {
        let end = start.checked_add(notes[index].len)?;
        if offset < end {
            return Some((index, start));
        }
        start = end;
    }
    None
}

/// Returns how many of the first pieces have this length together, if some have.
pub(crate) fn count_within(notes: &[Note], len: u64) -> Option<usize>
    ensures { IfSome result (IsCountWithin notes.now len) }
{
    let mut end: u64 = 0;
    for index in 0..notes.len() {
        if end == len {
            return Some(index);
        }
        end = end.checked_add(notes[index].len)?;
    }
    if end == len { Some(notes.len()) } else { None }
}
