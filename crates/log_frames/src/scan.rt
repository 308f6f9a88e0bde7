//! Searches for the head of a later frame.
ghost use Rattle.std.specs.Prelude.{◌≡◌, ◌+◌, ◌<◌, ◌≤◌, ◌^◌, ◌++◌, IfOk, IfSome, length, take, vec_len};
ghost use Rattle.log_frames.specs.Reads.{HasRoomFor};
ghost use Rattle.log_frames.specs.Scans.{Finds, FindsAtFront, FindsIn};

use crate::fault::ReadFault;
use crate::fill::gather;
use crate::head::{FrameHead, read_head};
use byte_fields::u64_at;
use std::io::Read;

/// The number of bytes that are read at a time.
const PIECE: usize = 65536;

/// Returns the head at the front of bytes that stand at a place of the log, if its frame was written after the log was
/// synced beyond `limit`.
fn later_head_at(id: u64, limit: u64, place: u64, bytes: &[u8]) -> Option<FrameHead>
    requires { 32 ≤ length bytes.now }
    ensures { FindsAtFront id limit place bytes.now result }
{
    let (number, _) = u64_at(bytes);
    if number != place {
        return None;
    }
    let (front, _) = bytes.split_at(32);
    match read_head(id, front) {
        Some(head) => {
            if head.synced > limit {
                Some(head)
            } else {
                None
            }
        }
        None => None,
    }
}

/// Returns the first such head in bytes that begin at a place of the log.
fn later_head_in(id: u64, limit: u64, place: u64, bytes: &[u8]) -> Option<FrameHead>
    requires { place + length bytes.now < 2 ^ 64 }
    ensures { Finds id limit place bytes.now result }
{
    let mut rest = bytes;
    let mut at = place;
    while rest.len() >= 32 {
        let found = later_head_at(id, limit, at, rest);
        if found.is_some() {
            return found;
        }
        let (_, behind) = rest.split_at(1);
        rest = behind;
        at += 1;
    }
    None
}

/// Searches the rest of a log for the head of a frame that was written after the log was synced beyond `place`, at which no
/// frame begins. The buffer begins with the first `count` bytes of the rest.
///
/// # Errors
///
/// - `Failed` if a read fails.
/// - `Memory` if the buffer cannot grow.
/// - `TooLong` if the log has 2^64 bytes.
pub fn find_later_head<R: Read>(
    input: &mut R,
    buffer: &mut Vec<u8>,
    count: usize,
    id: u64,
    place: u64,
) -> Result<Option<FrameHead>, ReadFault>
    requires { count ≤ vec_len buffer.old }
    ensures found { IfOk result (FindsIn id place (take count buffer.old.items)
        (R.remaining input.old)) }
    ensures memory { HasRoomFor count (R.remaining input.old)
        (vec_len buffer.old) (vec_len buffer.new) }
{
    let mut filled = count;
    let mut at = place;
    for _turn in 0..u64::MAX {
        if at.checked_add(filled as u64).is_none() {
            return Err(ReadFault::TooLong);
        }
        let found = later_head_in(id, place, at, &buffer.as_slice()[..filled]);
        if found.is_some() {
            return Ok(found);
        }
        let kept = filled.min(31);
        let passed = filled - kept;
        buffer.copy_within(passed..filled, 0);
        at += passed as u64;
        filled = gather(input, buffer, kept, kept + PIECE)?;
        if filled == kept {
            return Ok(None);
        }
    }
    Err(ReadFault::TooLong)
}
