//! Bytes in hexadecimal digits.
ghost use Rattle.std.specs.Prelude.{◌≡◌, ◌*◌, length, Some};
ghost use Rattle.hex.specs.Hex.{encode_lower};

use std::{fmt, str};

/// The number of bytes that are encoded at a time.
const BLOCK: usize = 512;

/// Bytes that print as two hexadecimal digits each, in lower case.
#[derive(Drop)]
pub struct HexDigits<'b> {
    /// The bytes to print.
    pub bytes: &'b [u8],
}

/// Writes the digits of a block into a buffer of twice its length, and returns them as text.
fn spelled<'d>(block: &[u8], digits: &'d mut [u8]) -> &'d str
    requires { length digits.old ≡ 2 * length block.now }
    ensures { result.now ≡ encode_lower block.now }
{
    match hex::encode_to_slice(block, digits) {
        Ok(()) => {}
        Err(_) => unreachable!(),
    }
    match str::from_utf8(digits) {
        Ok(text) => text,
        Err(_) => unreachable!(),
    }
}

impl fmt::Display for HexDigits<'_> {
    ghost output = { λ h. Some (encode_lower h.bytes.now) };

    fn fmt<W: fmt::Write>(&self, f: &mut fmt::Formatter<W>) -> fmt::Result {
        let mut digits = [0u8; 2 * BLOCK];
        for block in self.bytes.chunks(BLOCK) {
            f.write_str(spelled(block, &mut digits[..2 * block.len()]))?;
        }
        Ok(())
    }
}
