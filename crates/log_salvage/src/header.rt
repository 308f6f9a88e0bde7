//! Reads the header of a damaged file.

use crate::frames::{after, begins, word};
use log_frames::{BASIS, header_bytes, sum_words};

/// The number whose product with the factor of FNV-1a (64 bits) is 1 modulo 2^64.
const INVERSE: u64 = 14_886_173_955_864_302_971;

/// What the header of a file shows.
#[derive(Clone, Copy, Debug, PartialEq, Eq)]
pub enum Header {
    /// The id of the log.
    Id(u64),
    /// The file is whole, and is of this other version.
    OtherVersion(u64),
    /// Nothing.
    Unknown,
}

/// Returns the sum that becomes `sum` when it is continued over a word.
fn sum_before(sum: u64, word: u64) -> u64 {
    sum.swap_bytes().wrapping_mul(INVERSE) ^ word
}

/// Returns the id with which the sum of the first frame's head is right.
fn id_of_first_head(bytes: &[u8]) -> Option<u64> {
    let head = after(bytes, 32);
    let place = word(head)?;
    let synced = word(after(head, 8))?;
    let length = word(after(head, 16))?;
    let sum = word(after(head, 24))?;
    Some(sum_before(sum_before(sum_before(sum, length), synced), place))
}

/// Returns what the header shows if its sum is right.
fn id_of_header(bytes: &[u8]) -> Option<Header> {
    let front = bytes.first_chunk::<24>()?;
    let version = word(after(bytes, 8))?;
    let id = word(after(bytes, 16))?;
    let sum = word(after(bytes, 24))?;
    let own = header_bytes(id);
    if word(bytes) != word(&own) || sum != sum_words(BASIS, front) {
        return None;
    }
    if Some(version) == word(after(&own, 8)) {
        Some(Header::Id(id))
    } else {
        Some(Header::OtherVersion(version))
    }
}

/// Returns what the first bytes of a file show, also if its header is damaged: then the first frame has to confirm the id. It is the id in the
/// header, or the one with which the head of that frame is right.
pub fn read_damaged_header(bytes: &[u8]) -> Header {
    if let Some(header) = id_of_header(bytes) {
        return header;
    }
    for id in [word(after(bytes, 16)), id_of_first_head(bytes)] {
        match id {
            Some(id) if begins(bytes, id) => return Header::Id(id),
            _ => {}
        }
    }
    Header::Unknown
}
