//! A disk of segments: logs of frames, of which only the last is written.
#![tactic(auto)]

mod bytes_cell;
mod folder;
mod laws;
mod segmented_disk;

pub use bytes_cell::{BytesCell, NoBytes};
pub use folder::SegmentFolder;
pub use laws::one_writer;
pub use segmented_disk::SegmentedDisk;
