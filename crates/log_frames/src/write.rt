//! Writes frames.
ghost use Rattle.std.specs.Prelude.{◌≡◌, ◌++◌, IfOk};
ghost use Rattle.log_frames.specs.Frames.{IsFrame, cursor_after, frame_bytes, frame_of};
ghost use Rattle.log_frames.specs.Sums.{sum_words};
ghost use Rattle.log_frames.specs.Writes.{Puts};

use crate::cursor::Cursor;
use crate::head::frame_head;
use crate::put::{put, put_tagged};
use crate::sum::sum_words;
use std::io::{self, Write};

/// Returns the sum of a frame from the sum before it, its head and its payload.
pub fn frame_sum(before: u64, head: &[u8; 32], payload: &[u8]) -> u64
    ensures { result ≡ sum_words before (head.now ++ payload.now) }
{
    sum_words(sum_words(before, head), payload)
}

/// Returns the cursor after a frame.
pub fn cursor_after(id: u64, cursor: Cursor, synced: u64, payload: &[u8]) -> Cursor
    requires { IsFrame cursor (frame_of synced payload.now) }
    ensures { result ≡ cursor_after id cursor (frame_of synced payload.now) }
{
    let length = payload.len() as u64;
    let head = frame_head(id, cursor, synced, length);
    Cursor {
        place: cursor.place + length + 40,
        sum: frame_sum(cursor.sum, &head, payload),
    }
}

/// Writes a frame, and returns the cursor after it. It does not flush.
///
/// # Errors
///
/// - any error of a write: the beginning of the frame may have been written.
pub fn write_frame<W: Write>(
    output: &mut W,
    id: u64,
    cursor: Cursor,
    synced: u64,
    payload: &[u8],
) -> io::Result<Cursor>
    requires { IsFrame cursor (frame_of synced payload.now) }
    ensures bytes { Puts result (W.contents output.old) (W.contents output.new)
        (frame_bytes id cursor (frame_of synced payload.now)) }
    ensures after { IfOk result (λ after.
        after ≡ cursor_after id cursor (frame_of synced payload.now)) }
{
    let length = payload.len() as u64;
    let head = frame_head(id, cursor, synced, length);
    let sum = frame_sum(cursor.sum, &head, payload);
    put(output, &head)?;
    put_tagged(output, sum, payload)?;
    Ok(Cursor {
        place: cursor.place + length + 40,
        sum,
    })
}
