//! Reads a known number of bytes.
ghost use Rattle.std.specs.Prelude.{ℕ, ◌≡◌, ◌<◌, ◌≤◌, IfOk, OnOk, length, take, drop, vec_len, max};
ghost use Rattle.std.specs.Io.KnownBytes.{Consumes, IsAtEnd};
ghost use Rattle.log_frames.specs.Reads.{HasRoomFor};

use crate::fault::ReadFault;
use std::io::Read;

/// The least number of bytes by which a buffer grows.
const PIECE: usize = 65536;

/// Fills a buffer between two places, and returns the place that it reached: less than the second place only if the
/// input is at its end.
pub fn fill<R: Read>(
    input: &mut R,
    buffer: &mut [u8],
    start: usize,
    end: usize,
) -> Result<usize, ReadFault>
    requires { (start ≤ end) × (end ≤ length buffer.old) }
    ensures length { length buffer.new ≡ length buffer.old }
    ensures before { take start buffer.new ≡ take start buffer.old }
    ensures place { IfOk result (λ place. (start ≤ place) × (place ≤ end)) }
    ensures filled { IfOk result (λ place.
        Consumes (R.remaining input.old) (R.remaining input.new)
        (drop start (take place buffer.new))) }
    ensures ended { IfOk result (λ place. place < end → IsAtEnd (R.remaining input.new)) }
{
    let mut at = start;
    while at < end {
        match input.read(&mut buffer[at..end]) {
            Ok(0) => return Ok(at),
            Ok(count) => at += count,
            Err(e) => return Err(ReadFault::Failed(e.kind())),
        }
    }
    Ok(at)
}

/// Makes a buffer at least `len` bytes long.
fn lengthen(buffer: &mut Vec<u8>, len: usize) -> Result<(), ReadFault>
    ensures same { (n : ℕ) → n ≤ vec_len buffer.old
        → take n buffer.new.items ≡ take n buffer.old.items }
    ensures long { OnOk result (len ≤ vec_len buffer.new) }
    ensures no_longer { vec_len buffer.new ≤ max (vec_len buffer.old) len }
{
    if buffer.len() < len {
        buffer.resize(len, 0)?;
    }
    Ok(())
}

/// Reads into a buffer from a place on until it holds `len` bytes, and returns how many it holds: fewer only if the input
/// is at its end. The buffer grows with the bytes that are read.
pub fn gather<R: Read>(
    input: &mut R,
    buffer: &mut Vec<u8>,
    start: usize,
    len: usize,
) -> Result<usize, ReadFault>
    requires { (start ≤ len) × (start ≤ vec_len buffer.old) }
    ensures count { IfOk result (λ count.
        (start ≤ count) × (count ≤ len) × (count ≤ vec_len buffer.new)) }
    ensures before { OnOk result (take start buffer.new.items ≡ take start buffer.old.items) }
    ensures gathered { IfOk result (λ count. Consumes
        (R.remaining input.old) (R.remaining input.new)
        (drop start (take count buffer.new.items))) }
    ensures ended { IfOk result (λ count. count < len → IsAtEnd (R.remaining input.new)) }
    ensures memory { HasRoomFor start (R.remaining input.old)
        (vec_len buffer.old) (vec_len buffer.new) }
{
    let mut count = start;
    while count < len {
        let end = count + (len - count).min(count.max(PIECE));
        lengthen(buffer, end)?;
        let place = fill(input, buffer.as_mut_slice(), count, end)?;
        if place < end {
            return Ok(place);
        }
        count = place;
    }
    Ok(count)
}
