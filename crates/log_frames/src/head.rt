//! The head of a frame.
ghost use Rattle.std.specs.Prelude.{◌≡◌, length, true, false, IfSome, IsNone};
ghost use Rattle.log_frames.specs.Frames.{IsHead, head_bytes, head_fields, head_of};
ghost use Rattle.log_frames.specs.Heads.{HasNoHead, IsHeadOf};

use crate::cursor::Cursor;
use crate::sum::{is_sum, sum_words};
use crate::words::{four_words, three_words};
use byte_fields::u64_at;

/// The greatest length of a payload, in bytes.
pub const MAX_PAYLOAD: u64 = 2_199_023_255_552;

/// The fixed part of a frame.
#[derive(Clone, Copy, Debug, PartialEq, Eq)]
pub struct FrameHead {
    /// The offset of the frame in the file, in bytes.
    pub place: u64,
    /// The file was synced up to this offset when the frame was written.
    pub synced: u64,
    /// The length of the payload, in bytes.
    pub length: u64,
}

impl FrameHead {
    /// Checks whether a log can contain a frame with this head.
    fn is_possible(&self) -> bool
        ensures yes { result ≡ true → IsHead self.now }
        ensures no { result ≡ false → IsHead self.now → ⊥ }
    {
        self.length <= MAX_PAYLOAD
            && self.synced <= self.place
            && self.place <= u64::MAX - 40 - self.length
    }
}

/// Returns the first 24 bytes of a head.
#[tactic(auto, unfolding(crate::specs::Frames::head_fields))]
fn head_fields(head: &FrameHead) -> [u8; 24]
    ensures { result ≡ head_fields head.now }
{
    three_words(head.place, head.synced, head.length)
}

/// Returns the 32 bytes of a head.
#[tactic(auto, unfolding(crate::specs::Sums::tagged, crate::specs::Frames::head_fields))]
fn head_bytes(id: u64, head: &FrameHead) -> [u8; 32]
    ensures { result ≡ head_bytes id head.now }
{
    let fields = head_fields(head);
    let sum = sum_words(id, &fields);
    four_words(head.place, head.synced, head.length, sum)
}

/// Returns the head of a frame at a cursor, in a log with this id.
pub fn frame_head(id: u64, cursor: Cursor, synced: u64, length: u64) -> [u8; 32]
    ensures { result ≡ head_bytes id (head_of cursor synced length) }
{
    head_bytes(
        id,
        &FrameHead {
            place: cursor.place,
            synced,
            length,
        },
    )
}

/// Returns the numbers in 24 bytes.
#[tactic(auto, unfolding(crate::specs::Frames::head_fields))]
fn fields_of(bytes: &[u8]) -> FrameHead
    requires { length bytes.now ≡ 24 }
    ensures { bytes.now ≡ head_fields result }
{
    let (place, rest) = u64_at(bytes);
    let (synced, rest) = u64_at(rest);
    let (length, _) = u64_at(rest);
    FrameHead {
        place,
        synced,
        length,
    }
}

/// Returns the head in 32 bytes, or none if they are not a head of a log with this id.
#[tactic(auto, unfolding(crate::specs::Sums::tagged))]
pub fn read_head(id: u64, bytes: &[u8]) -> Option<FrameHead>
    requires { length bytes.now ≡ 32 }
    ensures head { IfSome result (IsHeadOf id bytes.now) }
    ensures none { IsNone result → HasNoHead id bytes.now }
{
    let (front, back) = bytes.split_at(24);
    if !is_sum(sum_words(id, front), back) {
        return None;
    }
    let head = fields_of(front);
    if !head.is_possible() {
        return None;
    }
    Some(head)
}
