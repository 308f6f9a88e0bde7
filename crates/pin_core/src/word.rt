//! Packs a slot into one word of 64 bits.
//!
//! Bits 0 to 29 are the sum of the weights of the pins on the slot. Bit 31 is set if the slot is used. Bit 30 is set if
//! it is condemned or retired. Bits 32 to 63 are the generation.

ghost use Rattle.std.specs.Prelude.{◌≡◌, ◌<◌, ◌^◌};
ghost use Rattle.pin_core.specs.World.{phase_bits, word_of};

use crate::world::Phase;

/// The bit of a used slot.
pub const USED: u64 = 0x8000_0000;

/// The bit of a condemned or retired slot.
pub const CONDEMNED: u64 = 0x4000_0000;

/// The lowest bit of the generation.
const GENERATION: u64 = 0x1_0000_0000;

/// The maximum sum of weights on a slot.
pub const MAX_WEIGHT: u32 = 0x3fff_ffff;

/// The weight of a new pin.
pub const NEW_WEIGHT: u32 = 1024;

/// The generation after which a slot is retired.
pub const LAST_GENERATION: u32 = u32::MAX;

/// The contents of a slot's word. `weight` is the sum of the weights of the pins on the slot.
#[derive(Clone, Copy, Debug, PartialEq, Eq)]
pub struct WordRow {
    pub generation: u32,
    pub phase: Phase,
    pub weight: u32,
}

/// Returns the bits of a phase.
fn phase_bits(phase: Phase) -> u64
    ensures { result ≡ phase_bits phase }
{
    match phase {
        Phase::Free => 0,
        Phase::Live => USED,
        Phase::Condemned => USED + CONDEMNED,
        Phase::Retired => CONDEMNED,
    }
}

/// Packs a slot's contents into its word.
///
/// # Memory
///
/// Never allocates.
pub fn pack(row: WordRow) -> u64
    requires { row.weight < 2 ^ 30 }
    ensures { result ≡ word_of row.generation row.phase row.weight }
{
    u64::from(row.generation) * GENERATION + phase_bits(row.phase) + u64::from(row.weight)
}

/// Unpacks a word. Every number of 64 bits is the word of exactly one generation, phase and sum.
///
/// # Memory
///
/// Never allocates.
pub fn unpack(word: u64) -> WordRow
    ensures weight { result.weight < 2 ^ 30 }
    ensures inverse { word ≡ word_of result.generation result.phase result.weight }
{
    let low = word % GENERATION;
    let (phase, weight) = if low >= USED + CONDEMNED {
        (Phase::Condemned, low - USED - CONDEMNED)
    } else if low >= USED {
        (Phase::Live, low - USED)
    } else if low >= CONDEMNED {
        (Phase::Retired, low - CONDEMNED)
    } else {
        (Phase::Free, low)
    };
    WordRow {
        generation: (word / GENERATION) as u32,
        phase,
        weight: weight as u32,
    }
}
