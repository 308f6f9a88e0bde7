//! The byte ranges of chunks.
ghost use Rattle.std.specs.Prelude.{ℕ, ◌↔◌, IsOk, ◌≡◌, ◌≤◌, ◌+◌, ◌-◌, ◌<◌, ◌^◌, IfOk, IfErr, length, position, ◌==◌, IfSome};
ghost use Rattle.blob_digest.specs.Ranges.{AgreesWithEnds, IsRangeText, range_of};

use crate::number::decimal;
use crate::refusal::Refusal;

/// The bytes from `start` to `end`, both included, as in a chunk's `Content-Range` (OCI Distribution Specification
/// 1.1, "Pushing a blob in chunks").
///
/// A range is never empty, and its ends are at most 2^63 - 1.
#[derive(Clone, Copy, Debug, PartialEq, Eq)]
pub struct ByteRange {
    /// The position of the first byte, counted from 0.
    pub start: u64,
    /// The position of the last byte, not before the first.
    pub end: u64,
    pub ghost ordered: { start ≤ end },
    pub ghost small: { end < 2 ^ 63 },
}

/// Returns the position of the first `-`.
fn dash(text: &[u8]) -> Option<usize>
    ensures place { result ≡ position (λ c. c == 45) text.now }
    ensures within { IfSome result (λ i. i < length text.now) }
{
    text.iter().position(|c| *c == b'-')
}

/// Parses the two ends of a range.
fn ends(text: &[u8]) -> Option<(u64, u64)>
    ensures value { result ≡ range_of text.now }
    ensures small { IfSome result (λ r. (r.0 ≤ r.1) × (r.1 < 2 ^ 63)) }
{
    let dash = dash(text)?;
    let start = decimal(&text[..dash])?;
    let end = decimal(&text[dash + 1..])?;
    if start <= end {
        Some((start, end))
    } else {
        None
    }
}

impl ByteRange {
    /// Parses a range: two decimal numbers joined by `-`, with leading zeros allowed.
    ///
    /// # Errors
    ///
    /// - `SizeInvalid`: the text has another form, a number is above 2^63 - 1, or the start is after the end.
    ///
    /// # Memory
    ///
    /// The call does not allocate.
    pub fn parse(text: &[u8]) -> Result<ByteRange, Refusal>
        ensures accepts { IsOk result ↔ ((start : ℕ) × (end : ℕ) × IsRangeText text.now start end) }
        ensures value { IfOk result (λ r. IsRangeText text.now r.start r.end) }
        ensures tested { AgreesWithEnds text.now (λ r. (r.start, r.end)) result }
        ensures refused { IfErr result (λ e. e ≡ Refusal.SizeInvalid) }
    {
        match ends(text) {
            Some((start, end)) => Ok(ByteRange { start, end }),
            None => Err(Refusal::SizeInvalid),
        }
    }

    /// Returns the number of bytes in the range: at least 1 and at most 2^63.
    pub fn len(&self) -> u64
        ensures { result ≡ (self.now.end - self.now.start) + 1 }
    {
        self.end - self.start + 1
    }
}
