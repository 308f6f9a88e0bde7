//! A reader that keeps the error of a read.

use std::io::{self, ErrorKind, Read};

/// A reader that keeps the error with which a read of it failed. The readers of frames return only its kind.
#[derive(Drop)]
pub struct Noting<I> {
    input: I,
    failed: Option<io::Error>,
}

impl<I> Noting<I> {
    /// Wraps a reader.
    pub fn new(input: I) -> Noting<I> {
        Noting {
            input,
            failed: None,
        }
    }

    /// Returns the error of the last read that failed, or one of this kind.
    pub fn error(&self, kind: ErrorKind) -> io::Error {
        match self.failed {
            Some(error) => error,
            None => io::Error::from(kind),
        }
    }
}

impl<I: Read> Read for Noting<I> {
    fn read(&mut self, buf: &mut [u8]) -> io::Result<usize> {
        match self.input.read(buf) {
            Ok(count) => Ok(count),
            Err(error) => {
                self.failed = Some(error);
                Err(error)
            }
        }
    }
}
