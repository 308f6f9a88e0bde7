//! The outer layer of the store's log on disk: a header, and frames that carry opaque payloads. Each frame states where it
//! begins and how far the file was synced, and its sum continues the sum of the frame before it.
#![tactic(auto)]

mod cursor;
mod fault;
mod fill;
mod head;
mod header;
pub mod laws;
mod next;
mod put;
mod reading;
mod scan;
mod sum;
mod words;
mod write;

pub use cursor::Cursor;
pub use fault::ReadFault;
pub use head::{FrameHead, MAX_PAYLOAD, frame_head};
pub use header::{HEADER_LENGTH, Opening, header_bytes, read_header, start_of};
pub use next::{NextFrame, read_next_frame};
pub use reading::{Ending, FrameSink, FramesRead, judge_rest, read_frames};
pub use scan::find_later_head;
pub use sum::{BASIS, sum_words};
pub use write::{cursor_after, frame_sum, write_frame};
