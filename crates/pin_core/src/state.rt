//! Stores a pin world.

ghost use Rattle.std.specs.Prelude.{◌≡◌, ◌<◌, ◌↔◌, length, slice_get, None, IfOk, IfErr, OnOk, OnErr, IfSome, IsTrue, ◌^◌};
ghost use Rattle.std.specs.Option.{option_map_or};
ghost use Rattle.blob_digest.specs.declared.refusal.Refusal.TheVariants.{Memory};
ghost use Rattle.pin_core.specs.World.{IsState, hold_named, initial_world, row, word_row_at};
ghost use Rattle.pin_core.specs.Events.{AddsPin, Can, IsIn, IsOpeningError, IsOutside, after, with_row};
ghost use Rattle.pin_core.specs.declared.event.Event.TheVariants.{Give, Lend, Share, Leave, Condemn, Revive, Reclaim, Look, Verify};

use crate::event::Event;
use crate::pins::{drop_named, find, halve_named, halved, is_clear, sum_on};
use crate::rows::{given, in_phase, is_new, reclaimed};
use crate::word::{MAX_WEIGHT, NEW_WEIGHT, WordRow};
use crate::world::{Phase, PinEntry, PinRecord, PinRow};
use blob_digest::{Digest, MAX_SLOTS, Refusal};
use std::alloc::Global;
use std::marker::Model;

/// A pin world: slots, and the pins on them.
///
/// Contracts read it as its rows by slot number and its list of pins.
#[derive(Drop)]
pub struct PinState {
    rows: Vec<PinRow>,
    pins: Vec<PinEntry>,
}

impl Model for PinState {
    ghost use Rattle.pin_core.specs.World.{PinWorld, IsState};

    ghost Value = { PinWorld };

    ghost view = { λ s. record { rows = s.rows.items; pins = s.pins.items } };

    ghost invariant = { λ s. IsState (record { rows = s.rows.items; pins = s.pins.items }) };
}

impl PinState {
    /// Returns a world of free slots of the given generation, without pins.
    ///
    /// # Errors
    ///
    /// - `LimitReached` exactly if `slots` is not 1 to 65,536.
    /// - `Memory` if allocation fails.
    ///
    /// # Cost
    ///
    /// Allocates one row for each slot.
    pub fn new(alloc: Global, slots: u32, first_generation: u32) -> Result<PinState, Refusal>
        ensures within { OnOk result (¬ IsOutside slots) }
        ensures made { IfOk result (λ s. s ≡ initial_world slots first_generation) }
        ensures refused { IfErr result (λ e. IsOpeningError slots e) }
    {
        if slots < 1 || slots > MAX_SLOTS {
            return Err(Refusal::LimitReached);
        }
        let row = PinRow {
            generation: first_generation,
            phase: Phase::Free,
            digest: None,
        };
        let rows = Vec::from_elem(alloc, row, slots as usize)?;
        Ok(PinState {
            rows,
            pins: Vec::new(alloc),
        })
    }

    /// Returns the contents of a slot's word, if there is such a slot.
    ///
    /// # Cost
    ///
    /// Linear in the number of pins.
    pub fn row(&self, slot: u32) -> Option<WordRow>
        ensures value { result ≡ word_row_at self.now slot }
        ensures fits { IfSome result (λ r. r.weight < 2 ^ 30) }
    {
        let row = self.rows.get(slot as usize)?;
        Some(WordRow {
            generation: row.generation,
            phase: row.phase,
            weight: sum_on(&self.pins, slot) as u32,
        })
    }

    /// Returns the digest of a slot's blob, if the slot is used.
    pub fn digest(&self, slot: u32) -> Option<Digest>
        ensures { result ≡ option_map_or (λ r. r.digest) (slice_get self.now.rows slot) None }
    {
        let row = self.rows.get(slot as usize)?;
        row.digest
    }

    /// Returns the pin with this name, if there is one.
    ///
    /// # Cost
    ///
    /// Linear in the number of pins.
    pub fn pin(&self, name: u64) -> Option<PinRecord>
        ensures { result ≡ hold_named name self.now.pins }
    {
        find(&self.pins, name)
    }

    /// Returns a copy of the state.
    ///
    /// # Errors
    ///
    /// - `Memory` if allocation fails.
    ///
    /// # Cost
    ///
    /// Linear in the number of slots and pins.
    pub fn copy(&self) -> Result<PinState, Refusal>
        ensures same { IfOk result (λ s. s ≡ self.now) }
        ensures refused { IfErr result (λ e. e ≡ Memory) }
    {
        let rows = self.rows.clone()?;
        let pins = self.pins.clone()?;
        Ok(PinState { rows, pins })
    }

    /// Returns whether there is such a slot and it is in this phase.
    fn is_in(&self, slot: u32, phase: Phase) -> bool
        ensures { IsTrue result ↔ IsIn self.now slot phase }
    {
        let k = slot as usize;
        k < self.rows.len() && self.rows[k].phase == phase
    }

    /// Returns whether the slot is live and can be pinned under this name.
    fn can_lend(&self, slot: u32, pin: u64) -> bool
        ensures { IsTrue result ↔ Can self.now (Lend slot pin) }
    {
        self.is_in(slot, Phase::Live)
            && find(&self.pins, pin).is_none()
            && sum_on(&self.pins, slot) + u128::from(NEW_WEIGHT) <= u128::from(MAX_WEIGHT)
    }

    /// Returns whether the pin can be shared under the second name.
    fn can_share(&self, pin: u64, second: u64) -> bool
        ensures { IsTrue result ↔ Can self.now (Share pin second) }
    {
        match find(&self.pins, pin) {
            Some(hold) => hold.weight > 1 && find(&self.pins, second).is_none(),
            None => false,
        }
    }

    /// Returns whether the event can happen.
    ///
    /// # Cost
    ///
    /// Linear in the number of slots for a `Give`, and in the number of pins for a `Lend`, a `Share`, a `Leave`, a
    /// `Reclaim` or a `Verify`. Constant for the others.
    pub fn can(&self, event: &Event) -> bool
        ensures { IsTrue result ↔ Can self.now event.now }
    {
        match *event {
            Event::Give { slot, digest } => self.is_in(slot, Phase::Free)
                && is_new(&self.rows, digest),
            Event::Lend { slot, pin } => self.can_lend(slot, pin),
            Event::Share { pin, second } => self.can_share(pin, second),
            Event::Leave { pin } | Event::Verify { pin } => find(&self.pins, pin).is_some(),
            Event::Condemn { slot } => self.is_in(slot, Phase::Live),
            Event::Revive { slot } => self.is_in(slot, Phase::Condemned),
            Event::Reclaim { slot } => self.is_in(slot, Phase::Condemned)
                && is_clear(&self.pins, slot),
            Event::Look { slot } => (slot as usize) < self.rows.len(),
        }
    }

    /// Replaces the row of a slot.
    fn set_row(&mut self, slot: u32, row: PinRow)
        requires within { slot < length self.old.rows }
        requires state { IsState (with_row slot row self.old) }
        ensures { self.new ≡ with_row slot row self.old }
    {
        self.rows[slot as usize] = row;
    }

    /// Makes a `Give`.
    fn give(&mut self, slot: u32, digest: Digest)
        requires { Can self.old (Give slot digest) }
        ensures { self.new ≡ after self.old (Give slot digest) }
    {
        let row = given(self.rows[slot as usize], digest);
        self.set_row(slot, row);
    }

    /// Makes a `Condemn`.
    fn condemn(&mut self, slot: u32)
        requires { Can self.old (Condemn slot) }
        ensures { self.new ≡ after self.old (Condemn slot) }
    {
        let row = in_phase(self.rows[slot as usize], Phase::Condemned);
        self.set_row(slot, row);
    }

    /// Makes a `Revive`.
    fn revive(&mut self, slot: u32)
        requires { Can self.old (Revive slot) }
        ensures { self.new ≡ after self.old (Revive slot) }
    {
        let row = in_phase(self.rows[slot as usize], Phase::Live);
        self.set_row(slot, row);
    }

    /// Makes a `Reclaim`.
    fn reclaim(&mut self, slot: u32)
        requires { Can self.old (Reclaim slot) }
        ensures { self.new ≡ after self.old (Reclaim slot) }
    {
        let row = reclaimed(self.rows[slot as usize]);
        self.set_row(slot, row);
    }

    /// Makes a `Lend`, or leaves the state unchanged if memory runs out.
    fn lend(&mut self, slot: u32, pin: u64) -> Result<(), Refusal>
        requires { Can self.old (Lend slot pin) }
        ensures ok { OnOk result (self.new ≡ after self.old (Lend slot pin)) }
        ensures err { OnErr result (self.new ≡ self.old) }
        ensures refused { IfErr result (λ e. e ≡ Memory) }
    {
        let row = self.rows[slot as usize];
        let Some(digest) = row.digest else {
            unreachable!();
        };
        let hold = PinRecord {
            slot,
            generation: row.generation,
            digest,
            weight: NEW_WEIGHT,
        };
        self.pins.push(PinEntry { name: pin, hold })?;
        Ok(())
    }

    /// Makes a `Share`, or leaves the state unchanged if memory runs out.
    fn share(&mut self, pin: u64, second: u64) -> Result<(), Refusal>
        requires { Can self.old (Share pin second) }
        ensures ok { OnOk result (self.new ≡ after self.old (Share pin second)) }
        ensures err { OnErr result (self.new ≡ self.old) }
        ensures refused { IfErr result (λ e. e ≡ Memory) }
    {
        let Some(hold) = find(&self.pins, pin) else {
            unreachable!();
        };
        self.pins.push(PinEntry {
            name: second,
            hold: halved(&hold),
        })?;
        halve_named(&mut self.pins, pin);
        Ok(())
    }

    /// Makes a `Leave`.
    fn leave(&mut self, pin: u64)
        requires { Can self.old (Leave pin) }
        ensures { self.new ≡ after self.old (Leave pin) }
    {
        drop_named(&mut self.pins, pin);
    }

    /// Makes an event that can happen.
    ///
    /// # Errors
    ///
    /// - `Memory` if a `Lend` or a `Share` cannot allocate its new pin. The state is then unchanged.
    ///
    /// # Cost
    ///
    /// Linear in the number of pins for a `Share` or a `Leave`. A `Lend` copies all pins if their buffer grows.
    pub fn change(&mut self, event: &Event) -> Result<(), Refusal>
        requires { Can self.old event.now }
        ensures ok { OnOk result (self.new ≡ after self.old event.now) }
        ensures err { OnErr result (self.new ≡ self.old) }
        ensures refused { IfErr result (λ e. (e ≡ Memory) × AddsPin event.now) }
    {
        match *event {
            Event::Give { slot, digest } => self.give(slot, digest),
            Event::Lend { slot, pin } => self.lend(slot, pin)?,
            Event::Share { pin, second } => self.share(pin, second)?,
            Event::Leave { pin } => self.leave(pin),
            Event::Condemn { slot } => self.condemn(slot),
            Event::Revive { slot } => self.revive(slot),
            Event::Reclaim { slot } => self.reclaim(slot),
            Event::Look { slot: _ } => {}
            Event::Verify { pin: _ } => {}
        }
        Ok(())
    }
}
