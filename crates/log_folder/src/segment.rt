//! The files of a log.

use crate::data_folder::open;
use crate::error::FolderError;
use crate::noting::Noting;
use crate::progress::{Progress, Work};
use log_frames::{HEADER_LENGTH, Opening, ReadFault, read_header};
use std::fs::File;
use std::io::{self, BufReader, ErrorKind, Seek, SeekFrom};
use store_replay::{Damage, FolderFile, LogPlace};

/// A file of a log. It is a log of its own.
#[derive(Drop)]
pub struct Segment {
    /// Its name.
    pub name: FolderFile,
    /// The file.
    pub file: File,
    /// The id in its header.
    pub id: u64,
    /// The length of the file, in bytes.
    pub length: u64,
    /// The lengths of the files before it, in bytes.
    pub before: u64,
}

/// Reads the id in the header of a log.
fn read_id(name: FolderFile, before: u64, file: &mut File) -> Result<u64, FolderError> {
    if let Err(error) = file.seek(SeekFrom::Start(0)) {
        return Err(FolderError::of_file("read", name, error));
    }
    let mut input = Noting::new(&*file);
    let damage = match read_header(&mut input) {
        Ok(Opening::Log(id, _)) => return Ok(id),
        Ok(Opening::TooShort) => Damage::TooShort,
        Ok(Opening::NotALog) => Damage::NotALog,
        Ok(Opening::OtherVersion(version)) => Damage::OtherVersion(version),
        Ok(Opening::WrongSum) => Damage::WrongSum,
        Err(ReadFault::Failed(kind)) => {
            return Err(FolderError::of_file("read", name, input.error(kind)));
        }
        Err(ReadFault::Memory) => return Err(FolderError::Memory),
        Err(ReadFault::TooLong) => {
            let error = io::Error::from(ErrorKind::FileTooLarge);
            return Err(FolderError::of_file("read", name, error));
        }
    };
    let place = LogPlace {
        file: name,
        place: 0,
        offset: before,
    };
    Err(FolderError::Damaged(place, damage))
}

impl Segment {
    /// Opens a file of a log to read and write it. The files before it have `before` bytes.
    ///
    /// # Errors
    ///
    /// - `File`, if it cannot be opened or read.
    /// - `Damaged`, if it does not begin as a log of this version.
    /// - `Memory`
    pub fn open(
        rt: &HostRuntime,
        folder: &str,
        name: FolderFile,
        before: u64,
    ) -> Result<Segment, FolderError> {
        let mut file = match open(rt, folder, name) {
            Ok(file) => file,
            Err(error) => return Err(FolderError::of_file("open", name, error)),
        };
        let id = read_id(name, before, &mut file)?;
        match file.seek(SeekFrom::End(0)) {
            Ok(length) => Ok(Segment {
                name,
                file,
                id,
                length,
                before,
            }),
            Err(error) => Err(FolderError::of_file("read", name, error)),
        }
    }

    /// Returns a place in the file, in bytes, as a place in the log.
    pub fn place(&self, place: u64) -> LogPlace {
        LogPlace {
            file: self.name,
            place,
            offset: self.before.saturating_add(place),
        }
    }

    /// Returns the offset after the segment in the log, in bytes.
    pub fn end(&self) -> u64 {
        self.before.saturating_add(self.length)
    }

    /// Returns a reader of the frames of the segment that reports the progress of the work on all segments.
    pub fn frames<'f>(
        &'f mut self,
        rt: &'f HostRuntime,
        folder: &'f str,
        work: Work,
    ) -> io::Result<BufReader<Progress<'f, HostRuntime, Noting<&'f File>>>> {
        let _ = self.file.seek(SeekFrom::Start(HEADER_LENGTH))?;
        let input = Noting::new(&self.file);
        let input = Progress::new(rt, work, folder, self.name, self.before, input);
        let input = BufReader::new(rt.alloc(), input)?;
        Ok(input)
    }
}
