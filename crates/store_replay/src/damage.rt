//! What is wrong with a log, and where.

use crate::fault::Cause;
use crate::folder_file::FolderFile;
use log_frames::FrameHead;
use thiserror::Error;

/// A place in a log.
#[derive(Clone, Copy, Debug, PartialEq, Eq)]
pub struct LogPlace {
    /// The file.
    pub file: FolderFile,
    /// The offset in the file, in bytes.
    pub place: u64,
    /// The offset in the log, which consists of all its files: that in the file, and the lengths of the files before it.
    pub offset: u64,
}

/// What is wrong with a segment of a log at a place.
#[derive(Debug, Drop, Error)]
pub enum Damage {
    /// The file has fewer bytes than a header.
    #[error("the header is cut off")]
    TooShort,
    /// The file does not begin as a log.
    #[error("the file is not a log")]
    NotALog,
    /// The log has this version.
    #[error("the version is {0} and not 1")]
    OtherVersion(u64),
    /// The header has a wrong sum.
    #[error("the header has a wrong sum")]
    WrongSum,
    /// There is no such file, although a later segment exists.
    #[error("the file is missing, but there is a later one")]
    Missing,
    /// The file is the log of an earlier version, although there is a log of segments too.
    #[error("the folder has another log, of numbered files")]
    Second,
    /// The id is not the one that follows that of the segment before it.
    #[error("the segment does not follow the one before it")]
    Foreign,
    /// The file ends there without a whole record and a mark, although it is not the last segment.
    #[error("the file is cut off")]
    CutOff,
    /// No frame begins there, although a later frame with this head was written after a sync beyond the place.
    #[error("no frame begins there, but the frame at byte {place} states that the log was synced up to byte {synced}", place = .0.place, synced = .0.synced)]
    NoFrame(FrameHead),
    /// The frame has a record that cannot be replayed.
    #[error("a record of the frame cannot be replayed: {0}")]
    Record(Cause),
}
