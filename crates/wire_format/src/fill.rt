//! Reads a given number of bytes.
ghost use Rattle.std.specs.Prelude.{◌≡◌, ◌⊎◌, ◌<◌, ◌≤◌, true, false, IfOk, IfErr, OnOk, IsErrOf, length, take};
ghost use Rattle.wire_format.specs.Connections.{EndsUnless, EndsWithin, FailsByRead, IsShort, Skips, Takes, TakesIf};
ghost use Rattle.wire_format.specs.declared.fault.FrameFault.TheVariants.{CutOff};
ghost use Rattle.watched_reader.specs.Watching.{inner_of};

use crate::fault::FrameFault;
use std::io::Read;
use watched_reader::Watched;

/// The number of bytes that are dropped at a time.
const PIECE: usize = 4096;

/// Fills a buffer, and returns `false` if the connection has no byte for a buffer that has room.
///
/// # Errors
///
/// - `CutOff`: the connection ends after some of the bytes.
/// - `Failed`: a read fails, also if it was interrupted.
pub fn fill<R: Read>(input: &mut Watched<R>, buffer: &mut [u8]) -> Result<bool, FrameFault>
    ensures length { length buffer.new ≡ length buffer.old }
    ensures filled { IfOk result (λ full. TakesIf full R.remaining input.old input.new buffer.new) }
    ensures ended { IfOk result (λ full. EndsUnless full R.remaining input.old buffer.old) }
    ensures refused { IfErr result (λ e. (e ≡ FrameFault.CutOff) ⊎ (e ≡ FrameFault.Failed)) }
    ensures cut_off { IsErrOf result CutOff → EndsWithin R.remaining input.old (length buffer.old) }
    ensures failed { FailsByRead result input.old input.new }
{
    let mut at = 0;
    while at < buffer.len() {
        match input.read(&mut buffer[at..]) {
            Ok(0) if at == 0 => return Ok(false),
            Ok(0) => return Err(FrameFault::CutOff),
            Ok(count) => at += count,
            Err(_) => return Err(FrameFault::Failed),
        }
    }
    Ok(true)
}

/// Fills the first `len` bytes of a buffer.
///
/// # Errors
///
/// - `CutOff`: the connection has fewer bytes.
/// - `Failed`: a read fails.
pub fn fill_front<R: Read>(
    input: &mut Watched<R>,
    buffer: &mut [u8],
    len: usize,
) -> Result<(), FrameFault>
    requires { len ≤ length buffer.old }
    ensures length { length buffer.new ≡ length buffer.old }
    ensures filled { OnOk result (Takes R.remaining input.old input.new (take len buffer.new)) }
    ensures refused { IfErr result (λ e. (e ≡ FrameFault.CutOff) ⊎ (e ≡ FrameFault.Failed)) }
    ensures cut_off { IsErrOf result CutOff → IsShort (R.remaining (inner_of input.old)) len }
    ensures failed { FailsByRead result input.old input.new }
{
    if fill(input, &mut buffer[..len])? {
        Ok(())
    } else {
        Err(FrameFault::CutOff)
    }
}

/// Reads `count` bytes and drops them.
///
/// # Errors
///
/// - `CutOff`: the connection has fewer bytes.
/// - `Failed`: a read fails.
///
/// # Memory
///
/// The call does not allocate.
pub fn skip<R: Read>(input: &mut Watched<R>, count: usize) -> Result<(), FrameFault>
    ensures skipped { OnOk result (Skips R.remaining input.old input.new count) }
    ensures refused { IfErr result (λ e. (e ≡ FrameFault.CutOff) ⊎ (e ≡ FrameFault.Failed)) }
    ensures cut_off { IsErrOf result CutOff → IsShort (R.remaining (inner_of input.old)) count }
    ensures failed { FailsByRead result input.old input.new }
{
    let mut piece = [0u8; PIECE];
    let mut left = count;
    while left > 0 {
        let len = left.min(PIECE);
        fill_front(input, &mut piece, len)?;
        left -= len;
    }
    Ok(())
}
