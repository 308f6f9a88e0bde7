//! A reader that remembers whether a read of it failed.
ghost use Rattle.std.specs.Prelude.{◌≡◌, false};
ghost use Rattle.std.specs.Io.{ReadsAtMost};
ghost use Rattle.watched_reader.specs.Watching.{ReadsFrom, RemembersFailure, has_failed, inner_of};

use std::io;
use std::io::Read;

/// A reader that remembers whether a read of it failed.
///
/// So a caller can distinguish a failed read from every other failure.
#[derive(Drop)]
pub struct Watched<R> {
    inner: R,
    failed: bool,
}

impl<R> Watched<R> {
    /// Wraps a reader, of which no read has failed.
    pub fn new(inner: R) -> Watched<R>
        ensures inner { inner_of result ≡ inner }
        ensures failed { has_failed result ≡ false }
    {
        Watched {
            inner,
            failed: false,
        }
    }
}

impl<R: Read> Read for Watched<R> {
    ghost remaining = { λ w. R.remaining w.inner };

    fn read(&mut self, buf: &mut [u8]) -> io::Result<usize>
        ensures bound { ReadsAtMost result buf.new }
        ensures bytes { ReadsFrom R.remaining self.old self.new result buf.new }
        ensures failed { RemembersFailure self.old self.new result }
    {
        match self.inner.read(buf) {
            Ok(count) => Ok(count),
            Err(error) => {
                self.failed = true;
                Err(error)
            }
        }
    }
}
