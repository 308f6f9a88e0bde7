//! A disk that writes each payload as one frame of a log, and what of the payloads survives a crash.
#![tactic(auto)]

mod deed;
mod framed_disk;
mod put;

pub use deed::{FramesName, NoFrames};
pub use framed_disk::FramedDisk;
