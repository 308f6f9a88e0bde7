//! Numbers at the front of bytes, the low byte first: the fields of the heads of frames, records and requests.
#![tactic(auto)]

mod fields;

pub use fields::{u16_at, u32_at, u64_at};
