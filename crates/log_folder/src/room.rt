//! How much a rewriting may take on the disk.

use std::fs::File;
use std::io::{self, ErrorKind, Read};

/// The greatest length of the text of a number, in bytes.
const TEXT_LENGTH: usize = 32;

/// The bytes of a frame besides its payload, and of the header and the mark of a file.
const OUTER: u64 = 40;

/// The least length of the payloads of a base but the last one, in bytes.
const PAYLOAD: u64 = 65_536;

/// Reads the first bytes of the file `room` in a folder. Returns how many there are.
fn read_text(rt: &HostRuntime, folder: &str, text: &mut [u8; TEXT_LENGTH]) -> io::Result<usize> {
    let path = format!(in rt.alloc(); "{folder}/room")?;
    File::open(rt, path.as_str())?.read(text)
}

/// Returns the number that a text spells before its first byte that is no digit, up to 2^64 - 1, or 0 if there is none.
fn number_in(text: &[u8]) -> u64 {
    let mut number: u64 = 0;
    for byte in text {
        if !byte.is_ascii_digit() {
            break;
        }
        let digit = byte.saturating_sub(b'0');
        number = number.saturating_mul(10).saturating_add(digit as u64);
    }
    number
}

/// Returns the number of bytes that a rewriting of the log in a folder may take. It is the number in the file `room`, which another program
/// writes, and not limited if there is no such file. A file that cannot be read allows nothing.
pub fn room_for_base(rt: &HostRuntime, folder: &str) -> u64 {
    let mut text = [0u8; TEXT_LENGTH];
    match read_text(rt, folder, &mut text) {
        Ok(count) => number_in(&text[..count.min(TEXT_LENGTH)]),
        Err(error) => match error.kind() {
            ErrorKind::NotFound => u64::MAX,
            _ => 0,
        },
    }
}

/// Returns the greatest length of a base with this number of bytes of records.
pub fn base_length(records: u64) -> u64 {
    let frames = (records / PAYLOAD).saturating_add(3);
    records.saturating_add(frames.saturating_mul(OUTER))
}
