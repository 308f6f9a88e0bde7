//! The sum of heads and frames.
ghost use Rattle.std.specs.Prelude.{◌≡◌, length, true, false};
ghost use Rattle.std.specs.Int.{w64, from_le_bytes, to_le_bytes};
ghost use Rattle.log_frames.specs.Sums.{sum_from, sum_words, word_step};

/// The sum of no bytes.
pub const BASIS: u64 = 14_695_981_039_346_656_037;

/// The factor of each step.
const PRIME: u64 = 1_099_511_628_211;

/// Continues a sum over bytes, one at a time (FNV-1a of 64 bits, by Fowler, Noll and Vo).
#[tactic(auto, unfolding(crate::specs::Sums::sum_from))]
pub fn sum_from(sum: u64, bytes: &[u8]) -> u64
    ensures { result ≡ sum_from sum bytes.now }
{
    let mut sum_so_far = sum;
    for byte in bytes {
        sum_so_far = (sum_so_far ^ u64::from(*byte)).wrapping_mul(PRIME);
    }
    sum_so_far
}

/// Returns the number in eight bytes, the low byte first.
fn word_of(bytes: &[u8]) -> u64
    requires { length bytes.now ≡ 8 }
    ensures { result ≡ from_le_bytes w64 bytes.now }
{
    u64::from_le_bytes([
        bytes[0], bytes[1], bytes[2], bytes[3], bytes[4], bytes[5], bytes[6], bytes[7],
    ])
}

/// Continues a sum over a word.
fn word_step(sum: u64, word: u64) -> u64
    ensures { result ≡ word_step sum word }
{
    (sum ^ word).wrapping_mul(PRIME).swap_bytes()
}

/// Continues a sum over bytes, eight at a time: the step of FNV-1a for a word, followed by a byte swap. The swap moves the
/// high bits of a word into the low bits of the next product. The last bytes, fewer than eight, go one at a time.
pub fn sum_words(sum: u64, bytes: &[u8]) -> u64
    ensures { result ≡ sum_words sum bytes.now }
{
    let mut sum_so_far = sum;
    let mut rest = bytes;
    while rest.len() >= 8 {
        let (front, behind) = rest.split_at(8);
        sum_so_far = word_step(sum_so_far, word_of(front));
        rest = behind;
    }
    sum_from(sum_so_far, rest)
}

/// Checks whether bytes are a sum.
pub fn is_sum(sum: u64, bytes: &[u8]) -> bool
    ensures yes { result ≡ true → bytes.now ≡ to_le_bytes w64 sum }
    ensures no { result ≡ false → bytes.now ≡ to_le_bytes w64 sum → ⊥ }
{
    bytes == sum.to_le_bytes().as_slice()
}
