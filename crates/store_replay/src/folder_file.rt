//! The names of the files in the folder of a log.

use std::alloc::{AllocError, Global};
use std::fmt;

/// A file in the folder of a log, or the folder.
#[derive(Clone, Copy, Debug, PartialEq, Eq)]
pub enum FolderFile {
    /// The folder.
    Folder,
    /// `lock`: locked by the process that has the folder.
    Lock,
    /// `log.N`: the segment with this number.
    Log(u64),
    /// `base.N`: what is needed of the segments up to this number.
    Base(u64),
    /// `owner-N`: the folder of the process that owns the folder. It exists as long as that process is the owner.
    Owner(u64),
    /// `owner-N/log.new`: a segment that this owner makes.
    NewLog(u64),
    /// `owner-N/base.new`: a base that this owner writes.
    NewBase(u64),
    /// `log.new`: a segment that an earlier version was making.
    EarlierNewLog,
    /// `base.new`: a base that an earlier version was writing.
    EarlierNewBase,
    /// `log`: the only segment of a folder that an earlier version made.
    EarlierLog,
    /// `rewrite`: the request to rewrite the log.
    Request,
    /// `contents`: the folder of contents.
    Contents,
    /// `longest`: the length of the longest content whose bytes the log has.
    Longest,
    /// `owner-N/longest.new`: this length, while this owner writes it.
    NewLongest(u64),
}

/// The name, with a slash before it. The text of the folder is empty.
impl fmt::Display for FolderFile {
    fn fmt<W: fmt::Write>(&self, f: &mut fmt::Formatter<W>) -> fmt::Result {
        match self {
            FolderFile::Folder => Ok(()),
            FolderFile::Lock => f.write_str("/lock"),
            FolderFile::Log(number) => write!(f, "/log.{number}"),
            FolderFile::Base(number) => write!(f, "/base.{number}"),
            FolderFile::Owner(owner) => write!(f, "/owner-{owner}"),
            FolderFile::NewLog(owner) => write!(f, "/owner-{owner}/log.new"),
            FolderFile::NewBase(owner) => write!(f, "/owner-{owner}/base.new"),
            FolderFile::EarlierNewLog => f.write_str("/log.new"),
            FolderFile::EarlierNewBase => f.write_str("/base.new"),
            FolderFile::EarlierLog => f.write_str("/log"),
            FolderFile::Request => f.write_str("/rewrite"),
            FolderFile::Contents => f.write_str("/contents"),
            FolderFile::Longest => f.write_str("/longest"),
            FolderFile::NewLongest(owner) => write!(f, "/owner-{owner}/longest.new"),
        }
    }
}

impl FolderFile {
    /// Returns the path of the file in a folder.
    pub fn path(self, alloc: Global, folder: &str) -> Result<String, AllocError> {
        format!(in alloc; "{folder}{self}")
    }
}
