//! Reads one frame.
ghost use Rattle.std.specs.Prelude.{◌≡◌, ◌≤◌, ◌+◌, IfOk, length, take, vec_len};
ghost use Rattle.log_frames.specs.Frames.{IsHead};
ghost use Rattle.log_frames.specs.Heads.{HasNoHead, IsHeadOf};
ghost use Rattle.log_frames.specs.Reads.{Completes, GoesOn, HasRoomFor};

use crate::cursor::Cursor;
use crate::fault::ReadFault;
use crate::fill::gather;
use crate::head::{FrameHead, read_head};
use crate::sum::{is_sum, sum_words};
use std::io::Read;

/// What a log goes on with at a cursor.
#[derive(Clone, Copy, Debug, PartialEq, Eq)]
pub enum NextFrame {
    /// A frame with this head, which the buffer begins with. The payload follows the 32 bytes of the head. The cursor is the
    /// one after the frame.
    Frame(FrameHead, Cursor),
    /// Nothing: the log ends at the cursor.
    End,
    /// Bytes that begin no frame. The buffer begins with the first ones, which are this many.
    NoFrame(usize),
}

/// Reads the rest of a frame whose head the buffer begins with.
fn read_rest<R: Read>(
    input: &mut R,
    buffer: &mut Vec<u8>,
    head: FrameHead,
    sum: u64,
) -> Result<NextFrame, ReadFault>
    requires { IsHead head × (32 ≤ vec_len buffer.old) }
    ensures rest { IfOk result (Completes head sum (take 32 buffer.old.items)
        (R.remaining input.old) (R.remaining input.new) buffer.new.items) }
    ensures memory { HasRoomFor 32 (R.remaining input.old)
        (vec_len buffer.old) (vec_len buffer.new) }
{
    let summed = 32 + head.length as usize;
    let count = gather(input, buffer, 32, summed + 8)?;
    if count < summed + 8 {
        return Ok(NextFrame::NoFrame(count));
    }
    let (front, _) = buffer.as_slice().split_at(count);
    let (front, back) = front.split_at(summed);
    let after = sum_words(sum, front);
    if !is_sum(after, back) {
        return Ok(NextFrame::NoFrame(count));
    }
    let place = head.place + head.length + 40;
    Ok(NextFrame::Frame(head, Cursor { place, sum: after }))
}

/// Reads the frame at a cursor, of a log with this id. The buffer then begins with the bytes that were read. It grows with
/// them, whatever length a head announces.
///
/// # Errors
///
/// - `Failed` if a read fails.
/// - `Memory` if the buffer cannot grow.
pub fn read_next_frame<R: Read>(
    input: &mut R,
    buffer: &mut Vec<u8>,
    id: u64,
    cursor: Cursor,
) -> Result<NextFrame, ReadFault>
    ensures next { IfOk result (GoesOn id cursor
        (R.remaining input.old) (R.remaining input.new) buffer.new.items) }
    ensures memory { HasRoomFor 0 (R.remaining input.old)
        (vec_len buffer.old) (vec_len buffer.new) }
{
    let count = gather(input, buffer, 0, 32)?;
    if count == 0 {
        return Ok(NextFrame::End);
    }
    if count < 32 {
        return Ok(NextFrame::NoFrame(count));
    }
    let (front, _) = buffer.as_slice().split_at(32);
    match read_head(id, front) {
        Some(head) => {
            if head.place != cursor.place {
                return Ok(NextFrame::NoFrame(count));
            }
            read_rest(input, buffer, head, cursor.sum)
        }
        None => Ok(NextFrame::NoFrame(count)),
    }
}
