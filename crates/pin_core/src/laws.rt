//! States the theorems about slots, pins and words.

ghost use Rattle.std.specs.Prelude.{◌≡◌, ◌<◌, ◌^◌};
ghost use Rattle.pin_core.specs.Laws.{Reclamation, Packing};

use crate::word::{WordRow, pack, unpack};

/// States the reclamation theorem: no slot is given a digest while a pin is on it.
///
/// It holds for every list of events that can happen, from free slots or from any well-formed world. Further:
///
/// - after each event, the slot of every pin is used and has the pin's generation and digest;
/// - no word's sum of weights overflows, and a `Share` changes no word;
/// - a slot's generation never falls, and a slot is given at most once in a generation.
pub fn reclamation()
    ensures { Reclamation }
{}

/// States that equal words have equal generations, phases and sums of weights.
pub fn packing()
    ensures { Packing }
{}

/// Unpacks a packed row: returns the row unchanged.
pub fn unpack_pack(row: WordRow) -> WordRow
    requires { row.weight < 2 ^ 30 }
    ensures { result ≡ row }
{
    unpack(pack(row))
}

/// Packs an unpacked word: returns the word unchanged.
pub fn pack_unpack(word: u64) -> u64
    ensures { result ≡ word }
{
    pack(unpack(word))
}
