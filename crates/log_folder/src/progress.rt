//! A reader that reports its progress.

use std::io::{self, Eprint, Read};
use std::time::{Clock, Instant};
use store_replay::FolderFile;

/// What is done with the files of a log, which are read one after another.
#[derive(Clone, Copy)]
pub struct Work {
    verb: &'static str,
    /// The bytes of all files.
    length: u64,
    start: Option<Instant>,
}

impl Work {
    /// Begins to do something, which a verb names, with the files of a log, which have `length` bytes.
    pub fn begin(rt: &impl Clock, verb: &'static str, length: u64) -> Work {
        Work {
            verb,
            length,
            start: Instant::now(rt).ok(),
        }
    }

    /// Returns the seconds since the begin, or `None` without a clock.
    fn seconds(self, rt: &impl Clock) -> Option<u64> {
        match self.start?.elapsed(rt) {
            Ok(elapsed) => Some(elapsed.as_secs()),
            Err(_) => None,
        }
    }
}

/// A reader of a file that prints to standard error how far the work on all files is, at most once a second.
#[derive(Drop)]
pub struct Progress<'r, R, I> {
    rt: &'r R,
    work: Work,
    folder: &'r str,
    file: FolderFile,
    input: I,
    /// The bytes that were read of all files.
    read: u64,
    /// The seconds after the begin of the work at which it printed last.
    printed: u64,
}

impl<'r, R: Clock + Eprint, I> Progress<'r, R, I> {
    /// Wraps a reader of a file in a folder, before which `before` bytes of other files were read.
    pub fn new(
        rt: &'r R,
        work: Work,
        folder: &'r str,
        file: FolderFile,
        before: u64,
        input: I,
    ) -> Progress<'r, R, I> {
        Progress {
            rt,
            work,
            folder,
            file,
            input,
            read: before,
            printed: work.seconds(rt).unwrap_or(0),
        }
    }

    /// Returns the reader of the file.
    pub fn input(&self) -> &I {
        &self.input
    }

    /// Prints how far it is, unless it printed within this second.
    fn report(&mut self) {
        let Some(seconds) = self.work.seconds(self.rt) else {
            return;
        };
        if seconds <= self.printed {
            return;
        }
        self.printed = seconds;
        let Work {
            verb,
            length,
            start: _,
        } = self.work;
        let (folder, file, read) = (self.folder, self.file, self.read);
        let per_cent = read.saturating_mul(100) / length.max(1);
        let _ = eprint!(self.rt;
            "blobd: {verb} {folder}{file}: {read} of {length} bytes of the log, {per_cent} %, {seconds} s\n"
        );
    }
}

impl<'r, R: Clock + Eprint, I: Read> Read for Progress<'r, R, I> {
    fn read(&mut self, buf: &mut [u8]) -> io::Result<usize> {
        let count = self.input.read(buf)?;
        self.read = self.read.saturating_add(count as u64);
        self.report();
        Ok(count)
    }
}
