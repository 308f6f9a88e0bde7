//! Disks that a log is written to: the end of a file, memory, or a log that is replayed.
#![tactic(auto)]

mod deed;
mod deed_log;
mod disk;
mod file_backed;
mod file_disk;
mod memory_disk;
mod replayed_disk;

pub use deed::BytesName;
pub use disk::{Disk, DiskError};
pub use file_backed::{FileBacked, PlainFile};
pub use file_disk::FileDisk;
pub use memory_disk::MemoryDisk;
pub use replayed_disk::ReplayedDisk;
