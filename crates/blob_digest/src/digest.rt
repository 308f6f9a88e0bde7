//! Digests: the names of blobs and manifests.
ghost use Rattle.std.specs.Prelude.{◌≡◌, ◌*◌, true, ◌↔◌, ◌++◌, ◌+◌, ◌≤◌, IsOk, IfOk, IfErr, OnOk, OnErr, ℕ, is_ok, length, take, drop, string_bytes, bytes_eq, codes, Some, refl};
ghost use Rattle.hex.specs.Hex.{encode_lower};
ghost use Rattle.std.specs.List.{list_all};
ghost use Rattle.std.specs.Ordering.{nat_cmp};
ghost use Rattle.std.specs.Cmp.{partial_equiv_from_equiv};
ghost use Rattle.std.specs.Cmp.Lexicographic.{slice_cmp, bytes_decides, nat_list_eq_equiv, nat_list_cmp_total, texts_ties, texts_po};
ghost use Rattle.std.specs.Hash.{same_Alike};
ghost use Rattle.std.specs.Slice.Scan.{big_endian};
ghost use Rattle.blob_digest.specs.Checksums.{checksum_of, text_of, value_of};
ghost use Rattle.blob_digest.specs.Digests.{IsDigestText, algorithm_of, digit_of, hash_text, is_digest_text, is_lower_hex, is_spelled};

use crate::algorithm::Algorithm;
use crate::checksum::Checksum;
use crate::refusal::Refusal;
use sha2::{Digest as _, Sha256, Sha512};
use std::cmp::Ordering;
use std::hash::{Hash, Hasher};
use std::marker::Model;
use std::{fmt, str};

/// The length of the longest text of a digest, in bytes: `sha512:` and 128 digits.
const LONGEST: usize = 135;

/// A digest: an algorithm with a value (OCI Image Specification 1.1, "Digests").
///
/// It is a plain value of 65 bytes and allocates nothing. Contracts see it as its text. Digests are equal if their
/// texts are equal, and are ordered by the bytes of their texts.
#[derive(Clone, Copy, Debug)]
pub struct Digest {
    checksum: Checksum,
}

impl Model for Digest {
    ghost use Rattle.std.specs.Prelude.{List, ℕ};
    ghost use Rattle.blob_digest.specs.Checksums.{text_of, IsChecksum, checksum_of, checksum_of-text_of};

    ghost Value = { List ℕ };

    ghost view = { λ a. text_of a.checksum };

    ghost invariant = { λ a. IsChecksum a.checksum };

    ghost inverse = { λ t. record { checksum = checksum_of t } };

    ghost inverse_ok = { λ a h i. record { checksum = checksum_of-text_of a.checksum h i } };
}

/// Returns whether a byte is a lower-case hexadecimal digit.
fn is_digit(c: u8) -> bool
    ensures { result ≡ is_lower_hex c }
{
    matches!(c, b'0'..=b'9' | b'a'..=b'f')
}

/// Returns whether each byte is a lower-case hexadecimal digit. It has no early exit, so that several bytes can be
/// tested at once.
fn all_digits(text: &[u8]) -> bool
    ensures { result ≡ list_all is_lower_hex text.now }
{
    let mut all = true;
    for c in text {
        all &= is_digit(*c);
    }
    all
}

/// Returns whether a text is `name` followed by `size` digits.
fn is_spelled_by(text: &[u8], name: &[u8], size: usize) -> bool
    requires { (length name.now ≡ 7) × (size ≤ 128) }
    ensures { result ≡ is_spelled name.now size text.now }
{
    text.len() == 7 + size && text.starts_with(name) && all_digits(&text[7..])
}

/// Returns the digits after the name of the algorithm and the colon.
fn encoded_part(text: &[u8]) -> &[u8]
    requires { 7 ≤ length text.now }
    ensures { result.now ≡ drop 7 text.now }
{
    &text[7..]
}

/// Returns the value of a digit. The form needs no branch on the digit, which a processor could not predict.
fn digit_value(c: u8) -> u8
    requires { is_lower_hex c ≡ true }
    ensures { result ≡ digit_of c }
{
    if c <= b'9' { c - b'0' } else { c - b'a' + 10 }
}

/// Decodes lower-case hexadecimal digits into `value`.
fn decode(encoded: &[u8], value: &mut [u8])
    requires digits { list_all is_lower_hex encoded.now ≡ true }
    requires size { length encoded.now ≡ 2 * length value.old }
    ensures { encode_lower value.new ≡ encoded.now }
{
    'bytes: for i in 0..value.len() {
        let high = digit_value(encoded[2 * i]);
        let low = digit_value(encoded[2 * i + 1]);
        value[i] = high * 16 + low;
    }
}

/// Returns the first eight bytes as a big-endian number.
fn first_word(value: &[u8]) -> u64
    requires { 8 ≤ length value.now }
    ensures { result ≡ big_endian 0 (take 8 value.now) }
{
    u64::from_be_bytes([
        value[0], value[1], value[2], value[3], value[4], value[5], value[6], value[7],
    ])
}

/// Compares two values by their bytes. The first eight bytes, compared as one number, nearly always decide.
fn value_cmp(first: &[u8], second: &[u8]) -> Ordering
    requires { (8 ≤ length first.now) × (8 ≤ length second.now) }
    ensures { result ≡ slice_cmp nat_cmp first.now second.now }
{
    let (x, y) = (first_word(first), first_word(second));
    if x < y {
        Ordering::Less
    } else if y < x {
        Ordering::Greater
    } else {
        first[8..].cmp(&second[8..])
    }
}

impl Digest {
    /// Parses the text of a digest.
    ///
    /// The text is `sha256:` and 64 digits of `0-9a-f`, or `sha512:` and 128 of them (OCI Image Specification 1.1,
    /// "Digests", "Registered Algorithms").
    ///
    /// # Errors
    ///
    /// - `DigestInvalid`: the text has another form, for example an upper-case digit.
    ///
    /// # Memory
    ///
    /// The call does not allocate.
    pub fn parse(text: &[u8]) -> Result<Digest, Refusal>
        ensures accepts { IsOk result ↔ IsDigestText text.now }
        ensures tested { is_ok result ≡ is_digest_text text.now }
        ensures value { IfOk result (λ d. d ≡ text.now) }
        ensures refused { IfErr result (λ e. e ≡ Refusal.DigestInvalid) }
    {
        if is_spelled_by(text, b"sha256:", 64) {
            let mut value = [0u8; 32];
            decode(encoded_part(text), &mut value);
            return Ok(Digest::of_sha256(value));
        }
        if is_spelled_by(text, b"sha512:", 128) {
            let mut value = [0u8; 64];
            decode(encoded_part(text), &mut value);
            return Ok(Digest::of_sha512(value));
        }
        Err(Refusal::DigestInvalid)
    }

    /// Returns the digest with this value of SHA-256.
    pub(crate) fn of_sha256(value: [u8; 32]) -> Digest
        ensures { result ≡ codes "sha256:" ++ encode_lower value }
    {
        Digest {
            checksum: Checksum::Sha256(value),
        }
    }

    /// Returns the digest with this value of SHA-512.
    pub(crate) fn of_sha512(value: [u8; 64]) -> Digest
        ensures { result ≡ codes "sha512:" ++ encode_lower value }
    {
        Digest {
            checksum: Checksum::Sha512(value),
        }
    }

    /// Computes the digest of `bytes` by one algorithm (FIPS 180-4, sections 6.2 and 6.4).
    ///
    /// # Cost
    ///
    /// Each byte is hashed once.
    ///
    /// # Memory
    ///
    /// The call does not allocate.
    #[tactic(auto, unfolding(crate::specs::Digests::sha256_text, crate::specs::Digests::sha512_text))]
    pub fn of(algorithm: Algorithm, bytes: &[u8]) -> Digest
        ensures { result ≡ hash_text algorithm bytes.now }
    {
        match algorithm {
            Algorithm::Sha256 => Digest::of_sha256(Sha256::digest(bytes)),
            Algorithm::Sha512 => Digest::of_sha512(Sha512::digest(bytes)),
        }
    }

    /// Returns the algorithm that the digest names.
    pub fn algorithm(&self) -> Algorithm
        ensures { result ≡ algorithm_of self.now }
    {
        self.checksum.algorithm()
    }

    /// Does nothing at run time: it states that the text of a digest has the grammar of digests.
    pub fn reveal_grammar(&self)
        ensures { is_digest_text self.now ≡ true }
    {
        let _ = self.checksum();
    }

    /// Returns the algorithm and the value.
    fn checksum(&self) -> &Checksum
        ensures text { text_of result.now ≡ self.now }
        ensures whole { IsDigestText self.now }
        ensures size { length (value_of result.now) ≤ 64 }
    {
        &self.checksum
    }

    /// Appends the text of the digest to `out`.
    ///
    /// # Errors
    ///
    /// - `Memory`: `out` cannot grow. Then it is unchanged.
    pub fn write(&self, out: &mut String) -> Result<(), Refusal>
        ensures whole { IsDigestText self.now }
        ensures ok { OnOk result (string_bytes out.new ≡ string_bytes out.old ++ self.now) }
        ensures err { OnErr result (string_bytes out.new ≡ string_bytes out.old) }
        ensures refused { IfErr result (λ e. e ≡ Refusal.Memory) }
    {
        let mut buffer = [0u8; LONGEST];
        out.push_str(spell(self.checksum(), &mut buffer))?;
        Ok(())
    }
}

impl PartialEq for Digest {
    ghost eq = { bytes_eq };

    ghost laws = { partial_equiv_from_equiv nat_list_eq_equiv };

    fn eq(&self, other: &Digest) -> bool {
        self.checksum == other.checksum
    }
}

impl Eq for Digest {
    ghost laws = { nat_list_eq_equiv };
}

impl PartialOrd for Digest {
    ghost partial_cmp = { λ a b. Some (slice_cmp nat_cmp a b) };

    ghost laws = { texts_po };

    fn partial_cmp(&self, other: &Digest) -> Option<Ordering> {
        Some(self.cmp(other))
    }
}

impl Ord for Digest {
    ghost cmp = { slice_cmp nat_cmp };

    ghost total = { nat_list_cmp_total };

    ghost matches_partial_cmp = { λ a b. refl };

    ghost matches_eq = { texts_ties };

    fn cmp(&self, other: &Digest) -> Ordering {
        // A text begins with the name of the algorithm.
        match (&self.checksum, &other.checksum) {
            (Checksum::Sha256(first), Checksum::Sha256(second)) => value_cmp(first, second),
            (Checksum::Sha512(first), Checksum::Sha512(second)) => value_cmp(first, second),
            (Checksum::Sha256(_), Checksum::Sha512(_)) => Ordering::Less,
            (Checksum::Sha512(_), Checksum::Sha256(_)) => Ordering::Greater,
        }
    }
}

impl Hash for Digest {
    ghost hash_input = { λ t. ⟦<Checksum as Hash>⟧.hash_input (checksum_of t) };

    ghost respects_eq = { (same_Alike (λ t. ⟦<Checksum as Hash>⟧.hash_input (checksum_of t))
        bytes_decides).fed };

    fn hash<H: Hasher>(&self, state: &mut H) {
        self.checksum.hash(state);
    }
}

/// Writes the name of the algorithm and the colon to the front of a buffer.
fn put_name(name: &str, buffer: &mut [u8])
    requires { (length name.now ≡ 7) × (7 ≤ length buffer.old) }
    ensures { buffer.new ≡ name.now ++ drop 7 buffer.old }
{
    buffer[..7].copy_from_slice(name.as_bytes());
}

/// Writes the digits of the value, two for each byte, after the name.
fn put_digits(value: &[u8], buffer: &mut [u8])
    requires { length buffer.old ≡ 7 + 2 * length value.now }
    ensures { buffer.new ≡ take 7 buffer.old ++ encode_lower value.now }
{
    match hex::encode_to_slice(value, &mut buffer[7..]) {
        Ok(()) => {}
        Err(_) => unreachable!(),
    }
}

/// Returns the bytes as a text. They are ASCII by the grammar.
fn ascii(text: &[u8]) -> &str
    requires { IsDigestText text.now }
    ensures { result.now ≡ text.now }
{
    match str::from_utf8(text) {
        Ok(text) => text,
        Err(_) => unreachable!(),
    }
}

/// Writes the text of a digest to the front of a buffer and returns it.
fn spell<'b>(checksum: &Checksum, buffer: &'b mut [u8]) -> &'b str
    requires text { IsDigestText (text_of checksum.now) }
    requires size { length (value_of checksum.now) ≤ 64 }
    requires room { length buffer.old ≡ 135 }
    ensures { result.now ≡ text_of checksum.now }
{
    let text = &mut buffer[..7 + 2 * checksum.value().len()];
    put_name(checksum.prefix(), text);
    put_digits(checksum.value(), text);
    ascii(text)
}

impl fmt::Display for Digest {
    ghost output = { λ t. Some t };

    fn fmt<W: fmt::Write>(&self, f: &mut fmt::Formatter<W>) -> fmt::Result {
        let mut buffer = [0u8; LONGEST];
        f.write_str(spell(self.checksum(), &mut buffer))
    }
}
