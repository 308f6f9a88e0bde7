//! The reasons why a log could not be read.
ghost use Rattle.std.specs.Prelude.{◌≡◌};
ghost use Rattle.log_frames.specs.declared.fault.ReadFault.TheVariants.{Memory};

use std::alloc::AllocError;
use std::io::ErrorKind;

/// The reason why a log could not be read further. It states nothing about the bytes of the log.
#[derive(Clone, Copy, Debug, PartialEq, Eq, Drop)]
pub enum ReadFault {
    /// A read failed, with an error of this kind.
    Failed(ErrorKind),
    /// The buffer could not grow.
    Memory,
    /// The log is longer than 2^64 bytes.
    TooLong,
}

impl From<AllocError> for ReadFault {
    ghost from_gives = { λ _ e. e ≡ Memory };

    fn from(_e: AllocError) -> ReadFault {
        ReadFault::Memory
    }
}
