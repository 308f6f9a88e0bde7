//! The head of a record.
ghost use Rattle.std.specs.Prelude.{◌≡◌, ◌≤◌, ◌++◌, length, true, false};
ghost use Rattle.log_records.specs.Changes.{max_body};
ghost use Rattle.log_records.specs.Records.{IsHead, IsPlain, head_bytes, payload_len};

use crate::kind::Kind;
use byte_fields::{u16_at, u32_at, u64_at};

/// The length of a head, in bytes.
pub const HEAD_LEN: usize = 24;

/// The maximum length of a record's body, in bytes.
pub const MAX_BODY: u64 = 1_099_511_627_776;

/// The fixed part of a record: its kind, its number, and the lengths of the name, the digest and the body that follow.
#[derive(Clone, Copy, Debug, PartialEq, Eq)]
pub struct Head {
    /// The number of the kind.
    pub kind: u32,
    /// The length of the name, in bytes.
    pub name_len: u16,
    /// The length of the digest's text, in bytes.
    pub digest_len: u16,
    /// The number of a session, or 0.
    pub number: u64,
    /// The length of the body, in bytes.
    pub body_len: u64,
}

impl Head {
    /// Returns the number of bytes that follow the head.
    pub fn payload_len(&self) -> usize
        requires { self.now.body_len ≤ max_body }
        ensures { result ≡ payload_len self.now }
    {
        usize::from(self.name_len) + usize::from(self.digest_len) + self.body_len as usize
    }

    /// Returns whether a record of this kind may have the head: the body is not too long, and the fields that the kind
    /// does not use are empty or 0.
    pub fn is_plain(&self, kind: Kind) -> bool
        ensures yes { result ≡ true → IsPlain kind self.now }
        ensures no { result ≡ false → IsPlain kind self.now → ⊥ }
    {
        if !kind.uses_name() && self.name_len != 0 {
            return false;
        }
        if !kind.uses_digest() && self.digest_len != 0 {
            return false;
        }
        if !kind.uses_number() && self.number != 0 {
            return false;
        }
        if !kind.uses_body() && self.body_len != 0 {
            return false;
        }
        self.body_len <= MAX_BODY
    }
}

/// Returns the 24 bytes of a head.
#[tactic(auto, unfolding(crate::specs::Records::head_bytes))]
pub fn head_bytes(head: &Head) -> [u8; 24]
    ensures { result ≡ head_bytes head.now }
{
    let kind = head.kind.to_le_bytes();
    let name_len = head.name_len.to_le_bytes();
    let digest_len = head.digest_len.to_le_bytes();
    let number = head.number.to_le_bytes();
    let body_len = head.body_len.to_le_bytes();
    [
        kind[0],
        kind[1],
        kind[2],
        kind[3],
        name_len[0],
        name_len[1],
        digest_len[0],
        digest_len[1],
        number[0],
        number[1],
        number[2],
        number[3],
        number[4],
        number[5],
        number[6],
        number[7],
        body_len[0],
        body_len[1],
        body_len[2],
        body_len[3],
        body_len[4],
        body_len[5],
        body_len[6],
        body_len[7],
    ]
}

/// Returns the fields of a head's 24 bytes, whatever the bytes are.
#[tactic(auto, unfolding(crate::specs::Records::head_bytes))]
fn fields(bytes: &[u8]) -> Head
    requires { length bytes.now ≡ 24 }
    ensures { bytes.now ≡ head_bytes result }
{
    let (kind, rest) = u32_at(bytes);
    let (name_len, rest) = u16_at(rest);
    let (digest_len, rest) = u16_at(rest);
    let (number, rest) = u64_at(rest);
    let (body_len, _) = u64_at(rest);
    Head {
        kind,
        name_len,
        digest_len,
        number,
        body_len,
    }
}

/// Returns the head in the first 24 bytes, and the bytes after it.
pub fn split_head(bytes: &[u8]) -> (Head, &[u8])
    requires { 24 ≤ length bytes.now }
    ensures fits { IsHead result.0 }
    ensures bytes { bytes.now ≡ head_bytes result.0 ++ result.1.now }
{
    let (front, rest) = bytes.split_at(HEAD_LEN);
    (fields(front), rest)
}
