//! Reads requests.
ghost use Rattle.std.specs.Prelude.{◌≡◌, ◌≤◌, ◌<◌, ◌++◌, IfOk, IfSome, IsNone, IsErrOf, length, false, true, vec_len};
ghost use Rattle.wire_format.specs.Frames.{body_of, digest_of, head_bytes, payload_len, repo_of, source_of};
ghost use Rattle.wire_format.specs.Connections.{EndsWithin, FailsByRead, HasEnded, IsDroppedFrom, IsPartial, IsReadInto, TakesHead, TakesLongHead};
ghost use Rattle.wire_format.specs.declared.fault.FrameFault.TheVariants.{CutOff, Malformed};
ghost use Rattle.wire_format.specs.declared.request.Incoming.TheVariants as incoming;
ghost use Rattle.watched_reader.specs.Watching.{inner_of};

use crate::fault::FrameFault;
use crate::fill::{fill, fill_front, skip};
use byte_fields::{u16_at, u32_at, u64_at};
use std::io::Read;
use watched_reader::Watched;

/// The length of a head, in bytes.
const HEAD_LEN: usize = 32;

/// The maximum length of a request's body, in bytes.
///
/// It is one more than the maximum length of a manifest, so that the store can refuse a manifest that is too long.
pub const MAX_BODY: u32 = 4_194_305;

/// The fixed part of a request's frame, 32 bytes: the command with its numbers, and the lengths of the three texts and
/// the body that follow it.
#[derive(Clone, Copy, Debug, PartialEq, Eq)]
pub struct Head {
    /// The number of the command.
    pub command: u8,
    /// The flags. Bit 0 is set if the request has a range.
    pub flags: u8,
    /// The length of the repository's name, in bytes.
    pub repo_len: u16,
    /// The length of the digest's text, in bytes.
    pub digest_len: u16,
    /// The length of the name of the repository to mount from, in bytes.
    pub source_len: u16,
    /// The number of a session or a lease.
    pub number: u32,
    /// The length of the body, in bytes.
    pub body_len: u32,
    /// The position of the range's first byte.
    pub start: u64,
    /// The position of the range's last byte.
    pub end: u64,
}

impl Head {
    /// Returns the number of bytes that follow the head.
    pub fn payload_len(&self) -> usize
        ensures { result ≡ payload_len self.now }
    {
        usize::from(self.repo_len)
            + usize::from(self.digest_len)
            + usize::from(self.source_len)
            + self.body_len as usize
    }
}

/// The result of reading a request.
#[derive(Clone, Copy, Debug, PartialEq, Eq)]
pub enum Incoming {
    /// The connection has no more bytes.
    End,
    /// A request. Its texts and its body are at the front of the buffer.
    Request(Head),
    /// A request for which the buffer could not grow. It was read whole and dropped.
    OutOfMemory,
}

/// A request: its head, and the texts and the body that follow it.
#[derive(Clone, Copy, Debug)]
pub struct RequestFrame<'b> {
    /// The fixed part of the frame.
    pub head: Head,
    payload: &'b [u8],
    ghost whole: { length payload.now ≡ payload_len head },
}

impl<'b> RequestFrame<'b> {
    /// Combines a head with the bytes that follow it.
    pub fn new(head: Head, payload: &'b [u8]) -> RequestFrame<'b>
        requires { length payload.now ≡ payload_len head }
        ensures { (result.head ≡ head) × (result.payload.now ≡ payload.now) }
    {
        RequestFrame { head, payload }
    }

    /// Returns the repository's name.
    pub fn repo(&self) -> &'b [u8]
        ensures { result.now ≡ repo_of self.now.head self.now.payload.now }
    {
        &self.payload[..usize::from(self.head.repo_len)]
    }

    /// Returns the text of the digest.
    pub fn digest(&self) -> &'b [u8]
        ensures { result.now ≡ digest_of self.now.head self.now.payload.now }
    {
        let start = usize::from(self.head.repo_len);
        &self.payload[start..start + usize::from(self.head.digest_len)]
    }

    /// Returns the name of the repository to mount from. It is empty if any repository may be the source.
    pub fn source(&self) -> &'b [u8]
        ensures { result.now ≡ source_of self.now.head self.now.payload.now }
    {
        let start = usize::from(self.head.repo_len) + usize::from(self.head.digest_len);
        &self.payload[start..start + usize::from(self.head.source_len)]
    }

    /// Returns the body.
    pub fn body(&self) -> &'b [u8]
        ensures { result.now ≡ body_of self.now.head self.now.payload.now }
    {
        let start = usize::from(self.head.repo_len)
            + usize::from(self.head.digest_len)
            + usize::from(self.head.source_len);
        &self.payload[start..]
    }
}

/// Decodes a head.
#[tactic(auto, unfolding(crate::specs::Frames::head_bytes))]
fn head_of(bytes: &[u8; HEAD_LEN]) -> Head
    ensures { bytes.now ≡ head_bytes result }
{
    let (codes, rest) = bytes.split_at(2);
    let (repo_len, rest) = u16_at(rest);
    let (digest_len, rest) = u16_at(rest);
    let (source_len, rest) = u16_at(rest);
    let (number, rest) = u32_at(rest);
    let (body_len, rest) = u32_at(rest);
    let (start, rest) = u64_at(rest);
    let (end, _) = u64_at(rest);
    Head {
        command: codes[0],
        flags: codes[1],
        repo_len,
        digest_len,
        source_len,
        number,
        body_len,
        start,
        end,
    }
}

/// Reads a request's head, and returns `None` if the connection has no more bytes.
///
/// # Errors
///
/// - `CutOff`: the connection ends within the head.
/// - `Failed`: a read fails.
/// - `Malformed`: the head announces a body over the limit.
fn read_head<R: Read>(input: &mut Watched<R>) -> Result<Option<Head>, FrameFault>
    ensures head { IfOk result (λ o. IfSome o (λ h. TakesHead R.remaining input.old input.new h)) }
    ensures ended { IfOk result (λ o. IsNone o → HasEnded R.remaining input.old) }
    ensures cut_off { IsErrOf result CutOff → EndsWithin R.remaining input.old 32 }
    ensures malformed { IsErrOf result Malformed → TakesLongHead R.remaining input.old input.new }
    ensures failed { FailsByRead result input.old input.new }
{
    let mut bytes = [0u8; HEAD_LEN];
    if !fill(input, &mut bytes)? {
        return Ok(None);
    }
    let head = head_of(&bytes);
    if head.body_len > MAX_BODY {
        return Err(FrameFault::Malformed);
    }
    Ok(Some(head))
}

/// Makes a buffer at least `len` bytes long, and returns `false` if it cannot grow.
fn grow_buffer(buffer: &mut Vec<u8>, len: usize) -> bool
    ensures long { result ≡ true → len ≤ vec_len buffer.new }
    ensures short { result ≡ false → 0 < len }
{
    buffer.len() >= len || buffer.resize(len, 0).is_ok()
}

/// Reads the next request. Its texts and its body are at the front of the buffer afterwards.
///
/// If the buffer cannot grow, the call reads the whole request, drops it and returns `OutOfMemory`.
///
/// # Errors
///
/// - `CutOff`: the connection ends within a frame.
/// - `Failed`: a read fails.
/// - `Malformed`: the head announces a body over the limit.
///
/// # Cost
///
/// Linear in the length of the frame. The buffer grows to the longest request so far, at most 4,390,910 bytes, and never
/// shrinks. One buffer serves a whole connection.
pub fn read_request<R: Read>(
    input: &mut Watched<R>,
    buffer: &mut Vec<u8>,
) -> Result<Incoming, FrameFault>
    ensures request { IfOk result (λ i. IsReadInto R.remaining input.old input.new buffer.new i) }
    ensures dropped { IfOk result (λ i. IsDroppedFrom R.remaining input.old input.new i) }
    ensures ended { IfOk result (λ i. i ≡ incoming.End → HasEnded R.remaining input.old) }
    ensures cut_off { IsErrOf result CutOff → IfSome (R.remaining (inner_of input.old)) IsPartial }
    ensures malformed { IsErrOf result Malformed → TakesLongHead R.remaining input.old input.new }
    ensures failed { FailsByRead result input.old input.new }
{
    let Some(head) = read_head(input)? else {
        return Ok(Incoming::End);
    };
    let len = head.payload_len();
    if !grow_buffer(buffer, len) {
        skip(input, len)?;
        return Ok(Incoming::OutOfMemory);
    }
    fill_front(input, buffer.as_mut_slice(), len)?;
    Ok(Incoming::Request(head))
}
