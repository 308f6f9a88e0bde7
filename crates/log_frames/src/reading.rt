//! Reads the frames of a log.
ghost use Rattle.std.specs.Prelude.{ℕ, ◌≤◌, IfErr, IfOk, IfSome, List, OnErr, OnOk, take, vec_len};
ghost use Rattle.log_frames.specs.Endings.{EndsFrames, FramesAreRead, Judges, TakesFrame};
ghost use Rattle.log_frames.specs.Laws.{ReadsExactly, Recovers};
ghost use Rattle.log_frames.specs.Reads.{HasRoomFor};

use crate::cursor::Cursor;
use crate::fault::ReadFault;
use crate::head::FrameHead;
use crate::next::{NextFrame, read_next_frame};
use crate::scan::find_later_head;
use std::io::{ErrorKind, Read};

/// A receiver of payloads, in the order of their frames.
pub trait FrameSink {
    ghost takes: { Self → List ℕ → Self → Type 0 };

    ghost refuses: { Self → List ℕ → Self → Type 0 };

    /// Takes the payload of a frame.
    ///
    /// # Errors
    ///
    /// - if the sink refuses the payload. No further frame is read.
    fn take(&mut self, payload: &[u8]) -> Result<(), ()>
        ensures ok { OnOk result (takes self.old payload.now self.new) }
        ensures err { OnErr result (refuses self.old payload.now self.new) };
}

/// The reason why no further frame was taken.
#[derive(Clone, Copy, Debug, PartialEq, Eq)]
pub enum Ending {
    /// The log ends after the last frame.
    End,
    /// A write was cut off after the last frame: no frame begins there, and no later one was written after a sync. The file
    /// is to be cut at the cursor.
    Torn,
    /// No frame begins at the cursor, although the log was synced beyond it when the frame with this head was written.
    Damaged(FrameHead),
    /// The sink refused the frame at the cursor.
    Refused,
    /// A read failed, with an error of this kind.
    Failed(ErrorKind),
    /// The buffer could not grow.
    Memory,
    /// The log is longer than 2^64 bytes.
    TooLong,
}

/// The frames that were read.
#[derive(Clone, Copy, Debug, PartialEq, Eq)]
pub struct FramesRead {
    /// The cursor after the last frame that was taken.
    pub cursor: Cursor,
    /// The greatest offset up to which one of the frames states that the file was synced, or 0.
    pub synced: u64,
    /// The reason why no further frame was taken.
    pub ending: Ending,
}

/// Decides whether the rest of a log, at a place at which no frame begins, is torn or damaged. The buffer begins with the
/// first `count` bytes of the rest.
pub fn judge_rest<R: Read>(
    input: &mut R,
    buffer: &mut Vec<u8>,
    count: usize,
    id: u64,
    place: u64,
) -> Ending
    requires { count ≤ vec_len buffer.old }
    ensures rest { Judges id place (take count buffer.old.items) (R.remaining input.old) result }
    ensures memory { HasRoomFor count (R.remaining input.old)
        (vec_len buffer.old) (vec_len buffer.new) }
{
    match find_later_head(input, buffer, count, id, place) {
        Ok(Some(head)) => Ending::Damaged(head),
        Ok(None) => Ending::Torn,
        Err(ReadFault::Failed(kind)) => Ending::Failed(kind),
        Err(ReadFault::Memory) => Ending::Memory,
        Err(ReadFault::TooLong) => Ending::TooLong,
    }
}

/// Reads a frame and has it taken. Returns the offset up to which it states that the file was synced, and the cursor after
/// it.
fn take_next_frame<S: FrameSink, R: Read>(
    sink: &mut S,
    input: &mut R,
    buffer: &mut Vec<u8>,
    id: u64,
    cursor: Cursor,
) -> Result<(u64, Cursor), Ending>
    ensures taken { IfOk result (TakesFrame S.takes sink.old sink.new id cursor
        (R.remaining input.old) (R.remaining input.new)) }
    ensures ended { IfErr result (EndsFrames S.refuses sink.old sink.new id cursor
        (R.remaining input.old)) }
    ensures memory { HasRoomFor 0 (R.remaining input.old)
        (vec_len buffer.old) (vec_len buffer.new) }
{
    match read_next_frame(input, buffer, id, cursor) {
        Ok(NextFrame::Frame(head, next)) => {
            let (_, behind) = buffer.as_slice().split_at(32);
            let (payload, _) = behind.split_at(head.length as usize);
            match sink.take(payload) {
                Ok(()) => Ok((head.synced, next)),
                Err(()) => Err(Ending::Refused),
            }
        }
        Ok(NextFrame::End) => Err(Ending::End),
        Ok(NextFrame::NoFrame(count)) => Err(judge_rest(input, buffer, count, id, cursor.place)),
        Err(ReadFault::Failed(kind)) => Err(Ending::Failed(kind)),
        Err(ReadFault::Memory) => Err(Ending::Memory),
        Err(ReadFault::TooLong) => Err(Ending::TooLong),
    }
}

/// Reads the frames of a log with this id from a cursor on, and has each taken. It stops at the first place at which no
/// frame begins, or whose frame the sink refuses. The buffer grows with the longest frame.
pub fn read_frames<S: FrameSink, R: Read>(
    sink: &mut S,
    input: &mut R,
    buffer: &mut Vec<u8>,
    id: u64,
    start: Cursor,
) -> FramesRead
    ensures read { FramesAreRead S.takes S.refuses sink.old sink.new id start
        (R.remaining input.old) result }
    ensures exact { IfSome (R.remaining input.old) (λ bytes.
        ReadsExactly S.takes sink.old sink.new id start bytes result) }
    ensures recovers { IfSome (R.remaining input.old) (λ bytes.
        Recovers S.takes sink.old sink.new id start bytes result.ending) }
    ensures memory { HasRoomFor 0 (R.remaining input.old)
        (vec_len buffer.old) (vec_len buffer.new) }
{
    take_frames(sink, input, buffer, id, start)
}

/// Reads frames and has each taken, as `read_frames`.
fn take_frames<S: FrameSink, R: Read>(
    sink: &mut S,
    input: &mut R,
    buffer: &mut Vec<u8>,
    id: u64,
    start: Cursor,
) -> FramesRead
    ensures read { FramesAreRead S.takes S.refuses sink.old sink.new id start
        (R.remaining input.old) result }
    ensures memory { HasRoomFor 0 (R.remaining input.old)
        (vec_len buffer.old) (vec_len buffer.new) }
{
    let mut cursor = start;
    let mut synced: u64 = 0;
    for _turn in 0..u64::MAX {
        match take_next_frame(sink, input, buffer, id, cursor) {
            Ok((stated, next)) => {
                synced = synced.max(stated);
                cursor = next;
            }
            Err(ending) => {
                return FramesRead {
                    cursor,
                    synced,
                    ending,
                };
            }
        }
    }
    FramesRead {
        cursor,
        synced,
        ending: Ending::TooLong,
    }
}
