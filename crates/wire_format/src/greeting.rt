//! The greeting at the start of a connection.
ghost use Rattle.std.specs.Prelude.{◌≡◌, false, IfOk, OnOk, IsErrOf};
ghost use Rattle.std.specs.Io.KnownBytes.{Appends};
ghost use Rattle.wire_format.specs.Frames.{greeting};
ghost use Rattle.wire_format.specs.Connections.{EndsWithin, FailsByRead, HasEnded, TakesIf, TakesNoGreeting};
ghost use Rattle.wire_format.specs.declared.fault.FrameFault.TheVariants.{CutOff, Malformed};

use crate::fault::FrameFault;
use crate::fill::fill;
use std::io::{self, Read, Write};
use watched_reader::Watched;

/// The bytes of the greeting: `blobd`, a zero, and the version, 1, in two bytes.
const GREETING: [u8; 8] = *b"blobd\0\x01\0";

/// Reads a client's greeting, and returns `false` if the connection has no bytes.
///
/// # Errors
///
/// - `CutOff`: the connection ends within the greeting.
/// - `Failed`: a read fails.
/// - `Malformed`: the first eight bytes are not the greeting, for example because the version differs.
pub fn read_greeting<R: Read>(input: &mut Watched<R>) -> Result<bool, FrameFault>
    ensures greeting { IfOk result (λ came. TakesIf came R.remaining input.old input.new greeting) }
    ensures ended { IfOk result (λ came. came ≡ false → HasEnded R.remaining input.old) }
    ensures cut_off { IsErrOf result CutOff → EndsWithin R.remaining input.old 8 }
    ensures malformed { IsErrOf result Malformed → TakesNoGreeting R.remaining input.old input.new }
    ensures failed { FailsByRead result input.old input.new }
{
    let mut bytes = [0u8; 8];
    if !fill(input, &mut bytes)? {
        return Ok(false);
    }
    if bytes != GREETING {
        return Err(FrameFault::Malformed);
    }
    Ok(true)
}

/// Writes the greeting.
///
/// # Errors
///
/// - The error of a failed write. Part of the greeting may have been written.
pub fn write_greeting<W: Write>(out: &mut W) -> io::Result<()>
    ensures { OnOk result (Appends (W.contents out.old) (W.contents out.new) greeting) }
{
    out.write_all(&GREETING)
}
