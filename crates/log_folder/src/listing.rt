//! The segments of a folder, by the names of its files.

use crate::error::FolderError;
use blob_digest::decimal;
use std::alloc::Global;
use std::{fs, io};
use store_replay::FolderFile;

/// The files of a log in a folder.
#[derive(Drop)]
pub struct Listing {
    /// The greatest number of a base, or 0 if there is none.
    pub base: u64,
    /// The numbers of the segments, in the order of the folder.
    logs: Vec<u64>,
    /// The numbers of the bases, in the order of the folder.
    bases: Vec<u64>,
    /// Whether there is a log of an earlier version.
    pub has_earlier: bool,
    /// The numbers of the owners that have a folder.
    pub owners: Vec<u64>,
}

/// Returns the number that a name has after a prefix. It has no zero in front.
fn number_after(name: &str, prefix: &str) -> Option<u64> {
    let digits = name.strip_prefix(prefix)?;
    if digits.starts_with('0') {
        return None;
    }
    decimal(digits.as_bytes())
}

/// Returns the error for names in the folder that cannot be read.
pub(crate) fn list_error(error: io::Error) -> FolderError {
    FolderError::of_file("read", FolderFile::Folder, error)
}

impl Listing {
    /// Reads the names of the files in a folder.
    pub fn read(rt: &HostRuntime, folder: &str) -> io::Result<Listing> {
        let mut found = Listing {
            base: 0,
            logs: Vec::new(rt.alloc()),
            bases: Vec::new(rt.alloc()),
            has_earlier: false,
            owners: Vec::new(rt.alloc()),
        };
        for entry in fs::read_dir(rt, folder)? {
            found.add(entry?.file_name())?;
        }
        Ok(found)
    }

    /// Adds the name of a file.
    fn add(&mut self, name: &str) -> io::Result<()> {
        if let Some(number) = number_after(name, "log.") {
            self.logs.push(number)?;
        }
        if let Some(number) = number_after(name, "base.") {
            self.bases.push(number)?;
            self.base = self.base.max(number);
        }
        if let Some(number) = number_after(name, "owner-") {
            self.owners.push(number)?;
        }
        if name == "log" {
            self.has_earlier = true;
        }
        Ok(())
    }

    /// Returns whether there is no log.
    pub fn is_empty(&self) -> bool {
        self.base == 0 && self.logs.is_empty()
    }

    /// Returns the greatest number of a segment, or that of the base if there is no later segment.
    pub fn last(&self) -> u64 {
        let mut last = self.base;
        for number in self.logs.iter() {
            last = last.max(*number);
        }
        last
    }

    /// Returns the files that make up the log, in order: the base, if there is one, and the segments after it. If one of them is
    /// missing although a later one exists, it is the last one that is returned.
    pub fn files(&self, alloc: Global) -> io::Result<Vec<FolderFile>> {
        let mut files = Vec::new(alloc);
        if self.base > 0 {
            files.push(FolderFile::Base(self.base))?;
        }
        for number in self.base.saturating_add(1)..self.last().saturating_add(1) {
            files.push(FolderFile::Log(number))?;
            if !self.logs.as_slice().contains(&number) {
                break;
            }
        }
        Ok(files)
    }

    /// Returns the files in front of the last one of the log, in order: the base, if there is one, and the segments after it. The
    /// segments are those up to the last one, whether they exist or not.
    pub fn closed_files(&self, alloc: Global) -> io::Result<Vec<FolderFile>> {
        let mut files = Vec::new(alloc);
        if self.base > 0 {
            files.push(FolderFile::Base(self.base))?;
        }
        for number in self.base.saturating_add(1)..self.last() {
            files.push(FolderFile::Log(number))?;
        }
        Ok(files)
    }

    /// Returns the files of the log, in order: the base, if there is one, and the segments up to the last one, whether they exist or not.
    pub fn all_files(&self, alloc: Global) -> io::Result<Vec<FolderFile>> {
        let mut files = self.closed_files(alloc)?;
        if self.last() > self.base {
            files.push(FolderFile::Log(self.last()))?;
        }
        Ok(files)
    }

    /// Returns the greatest number of a segment from `first` on and below `limit`, if there is one.
    fn greatest(&self, first: u64, limit: u64) -> Option<u64> {
        let mut found = None;
        for number in self.logs.iter() {
            if *number >= first && *number < limit && found.unwrap_or(0) < *number {
                found = Some(*number);
            }
        }
        found
    }

    /// Returns the segments from a number on, the last one first.
    pub fn from_last(&self, alloc: Global, first: u64) -> io::Result<Vec<FolderFile>> {
        let mut files = Vec::new(alloc);
        let mut limit = u64::MAX;
        for _ in 0..self.logs.len() {
            let Some(number) = self.greatest(first, limit) else {
                break;
            };
            files.push(FolderFile::Log(number))?;
            limit = number;
        }
        Ok(files)
    }

    /// Returns the files that the base has replaced, the oldest segments not necessarily first.
    pub fn replaced(&self, alloc: Global) -> io::Result<Vec<FolderFile>> {
        let mut files = Vec::new(alloc);
        for number in self.bases.iter() {
            if *number < self.base {
                files.push(FolderFile::Base(*number))?;
            }
        }
        for number in self.logs.iter() {
            if *number <= self.base {
                files.push(FolderFile::Log(*number))?;
            }
        }
        Ok(files)
    }
}
