//! Reads and changes the pins of a pin world.

ghost use Rattle.std.specs.Prelude.{◌≡◌, ◌↔◌, ◌==◌, not, map, position, IsTrue};
ghost use Rattle.std.specs.List.{filter};
ghost use Rattle.pin_core.specs.World.{HasDistinctNames, hold_named, weight_on};
ghost use Rattle.pin_core.specs.Events.{IsClear, half, half_if_named};

use crate::world::{PinEntry, PinRecord};

/// Returns the pin with this name, if there is one.
pub fn find(pins: &[PinEntry], name: u64) -> Option<PinRecord>
    ensures { result ≡ hold_named name pins.now }
{
    for entry in pins {
        if entry.name == name {
            return Some(entry.hold);
        }
    }
    None
}

/// Returns the sum of the weights on a slot. The result type holds the sum of any number of pins.
pub fn sum_on(pins: &[PinEntry], slot: u32) -> u128
    ensures { result ≡ weight_on slot (map (λ e. e.hold) pins.now) }
{
    let mut sum: u128 = 0;
    for entry in pins {
        if entry.hold.slot == slot {
            sum += u128::from(entry.hold.weight);
        }
    }
    sum
}

/// Returns whether no pin is on the slot.
pub fn is_clear(pins: &[PinEntry], slot: u32) -> bool
    ensures { IsTrue result ↔ IsClear slot pins.now }
{
    !pins.iter().any(|entry| entry.hold.slot == slot)
}

/// Returns a pin of half the weight.
pub fn halved(hold: &PinRecord) -> PinRecord
    ensures { result ≡ half hold.now }
{
    PinRecord {
        slot: hold.slot,
        generation: hold.generation,
        digest: hold.digest,
        weight: hold.weight / 2,
    }
}

/// Returns the entry, with half its weight if it has this name.
fn half_if_named(entry: PinEntry, name: u64) -> PinEntry
    ensures { result ≡ half_if_named name entry }
{
    if entry.name == name {
        return PinEntry {
            name: entry.name,
            hold: halved(&entry.hold),
        };
    }
    entry
}

/// Halves the weight of the pin with this name.
pub fn halve_named(pins: &mut Vec<PinEntry>, name: u64)
    ensures { pins.new.items ≡ map (half_if_named name) pins.old.items }
{
    for entry in pins.iter_mut() {
        *entry = half_if_named(*entry, name);
    }
}

/// Returns the position of the pin with this name.
fn position_of(pins: &[PinEntry], name: u64) -> Option<usize>
    ensures { result ≡ position (λ e. e.name == name) pins.now }
{
    pins.iter().position(|entry| entry.name == name)
}

/// Removes the pin with this name.
pub fn drop_named(pins: &mut Vec<PinEntry>, name: u64)
    requires { HasDistinctNames pins.old.items }
    ensures { pins.new.items ≡ filter (λ e. not (e.name == name)) pins.old.items }
{
    if let Some(place) = position_of(pins, name) {
        pins.remove(place);
    }
}
