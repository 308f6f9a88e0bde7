//! Writes bytes, and states what was written if a write fails.
ghost use Rattle.log_frames.specs.Sums.{tagged};
ghost use Rattle.log_frames.specs.Writes.{Puts};

use std::io::{self, ErrorKind, Write};

/// Writes bytes.
///
/// # Errors
///
/// - any error of a write, and `WriteZero` if a write takes no byte: the beginning of the bytes may have been written.
pub fn put<W: Write>(output: &mut W, bytes: &[u8]) -> io::Result<()>
    ensures { Puts result (W.contents output.old) (W.contents output.new) bytes.now }
{
    let mut rest = bytes;
    while !rest.is_empty() {
        match output.write(rest) {
            Ok(0) => return Err(io::Error::from(ErrorKind::WriteZero)),
            Ok(count) => rest = &rest[count..],
            Err(e) => return Err(e),
        }
    }
    Ok(())
}

/// Writes bytes and then a sum.
///
/// # Errors
///
/// - as `put`.
#[tactic(auto, unfolding(crate::specs::Sums::tagged))]
pub fn put_tagged<W: Write>(output: &mut W, sum: u64, bytes: &[u8]) -> io::Result<()>
    ensures { Puts result (W.contents output.old) (W.contents output.new) (tagged sum bytes.now) }
{
    put(output, bytes)?;
    put(output, &sum.to_le_bytes())
}
