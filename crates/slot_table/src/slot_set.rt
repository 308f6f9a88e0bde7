//! A set of slots, with one bit per slot.

ghost use Rattle.std.specs.Prelude.{◌≡◌, ◌≢◌, ℕ, ◌*◌, ◌<◌, ◌≤◌, ◌==◌, length, None, IfOk, IfSome, false, slice_index};
ghost use Rattle.std.specs.Int.{bit_at};
ghost use Rattle.blob_digest.specs.Slots.{greatest_slots};
ghost use Rattle.slot_table.specs.SlotSets.{contains_slot, IsFirstBit, IsFirstMember, IsFirstWord, SetsMember};

use std::alloc::{AllocError, Global};
use std::marker::Model;

/// A set of slots below 2^24, with one bit per slot in words of 64 bits. Contracts see the words.
#[derive(Drop)]
pub struct SlotSet {
    words: Vec<u64>,
}

impl Model for SlotSet {
    ghost use Rattle.std.specs.Prelude.{ℕ, ◌≤◌, List, length};

    ghost Value = { List ℕ };

    ghost view = { λ a. a.words.items };

    ghost invariant = { λ a. length a.words.items ≤ 262144 };
}

/// Returns the lowest set bit of a word that is not 0.
fn lowest_bit(word: u64) -> u32
    requires { word ≢ 0 }
    ensures within { result < 64 }
    ensures there { bit_at word result ≡ 1 }
    ensures below { (i : ℕ) → i < result → bit_at word i ≡ 0 }
{
    word.trailing_zeros()
}

/// Returns the lowest set bit of a word from bit `from` on.
fn bit_from(word: u64, from: u32) -> Option<u32>
    requires { from < 64 }
    ensures some { IfSome result (λ r. IsFirstBit word from r) }
    ensures none { result ≡ None → (i : ℕ) → from ≤ i → bit_at word i ≡ 0 }
{
    let rest = word >> from;
    if rest == 0 {
        None
    } else {
        Some(from + lowest_bit(rest))
    }
}

/// Returns the index of the first word from `from` on that is not 0.
fn word_from(words: &[u64], from: usize) -> Option<usize>
    ensures some { IfSome result (λ r. IsFirstWord words.now from r) }
    ensures none { result ≡ None → (w : ℕ) → from ≤ w → slice_index words.now w ≡ 0 }
{
    for place in from..words.len() {
        if words[place] != 0 {
            return Some(place);
        }
    }
    None
}

impl SlotSet {
    /// Returns an empty set for `slots` slots. Fails if out of memory.
    pub fn new(alloc: Global, slots: u32) -> Result<SlotSet, AllocError>
        requires { slots ≤ greatest_slots }
        ensures empty { IfOk result (λ s. (k : ℕ) → contains_slot s k ≡ false) }
        ensures room { IfOk result (λ s. slots ≤ 64 * length s) }
    {
        let words = Vec::from_elem(alloc, 0u64, slots.div_ceil(64) as usize)?;
        Ok(SlotSet { words })
    }

    /// Adds a slot to the set, or removes it.
    pub fn set(&mut self, slot: u32, is_in: bool)
        requires { slot < 64 * length self.old }
        ensures each { SetsMember self.old self.new slot is_in }
        ensures len { length self.new ≡ length self.old }
    {
        let bit = 1u64 << (slot % 64);
        let place = (slot / 64) as usize;
        if is_in {
            self.words[place] |= bit;
        } else {
            self.words[place] &= !bit;
        }
    }

    /// Returns the first member of the set from `slot` on.
    ///
    /// Reads one word for each 64 slots, up to the one that has the member.
    pub fn first_from(&self, slot: u32) -> Option<u32>
        ensures some { IfSome result (λ r. IsFirstMember self.now slot r) }
        ensures none { result ≡ None → (k : ℕ) → slot ≤ k → contains_slot self.now k ≡ false }
    {
        let place = (slot / 64) as usize;
        if place >= self.words.len() {
            return None;
        }
        if let Some(bit) = bit_from(self.words[place], slot % 64) {
            return Some(place as u32 * 64 + bit);
        }
        let place = word_from(self.words.as_slice(), place + 1)?;
        Some(place as u32 * 64 + lowest_bit(self.words[place]))
    }
}
