//! The slots of a store with the keeper of their words.

ghost use Rattle.std.specs.Prelude.{◌≡◌, ◌≢◌, ◌+◌, ◌<◌, ◌^◌, length, None, Some, IfOk, IfErr, IfSome, OnErr, OnOk, IsTrue, ◌↔◌, true, false};
ghost use Rattle.std.specs.Arc.{arc_value};
ghost use Rattle.blob_digest.specs.declared.refusal.Refusal.TheVariants.{Memory};
ghost use Rattle.slot_table.specs.Slots.{phase_at, links_at, slot_of, fill, on_stored_blob, link_up, link_down, mark, with_content};
ghost use Rattle.slot_table.specs.declared.phase.Phase.TheVariants as phase;
ghost use Rattle.store_book.specs.Pinned.{blob_at, is_orphan_at, with_changed_slot, with_slot_and_bound, HasOneEach, LendsOn, ReadsSlotWord, OpensSlots, ReclaimsSlot, RefusesForSlots, RefusesSlots, UnheldIfNeverLent, VerifiesPin};

use blob_digest::{Blob, Refusal};
use pin_table::{Keeper, Pin, Pins, Reclaim};
use slot_table::{Phase, SlotTable};
use std::alloc::Global;
use std::marker::Model;
use std::mem;
use std::sync::Arc;

/// The slots of a store, with the keeper of their words.
///
/// The keeper's row of each slot has the slot's generation, phase and digest. A used slot that was never leased has
/// the bound 0.
#[derive(Drop)]
pub struct PinnedSlots {
    slots: SlotTable,
    keeper: Keeper,
    /// Blobs in files whose slot was freed, or whose content was replaced.
    freed: Vec<Arc<Blob, Global>>,
}

impl Model for PinnedSlots {
    ghost use Rattle.std.specs.Prelude.{◌≡◌, length};
    ghost use Rattle.store_book.specs.Pinned.{Pinned, IsPinned};

    ghost Value = { Pinned };

    ghost view = { λ a. record {
      table = a.keeper.table;
      slots = a.slots;
      bounds = a.keeper.bounds;
      looks = a.keeper.looks;
    } };

    ghost invariant = { λ a. IsPinned a.slots a.keeper.rows a.keeper.bounds
        × (length a.keeper.looks ≡ length a.slots) };
}

/// Notes that a blob was freed, if it lies in a file. If memory runs out, its file stays until the next start.
fn note_freed(freed: &mut Vec<Arc<Blob, Global>>, blob: Arc<Blob, Global>) {
    if blob.content().name().is_some() {
        let _ = freed.push(blob);
    }
}

/// Notes a blob whose slot was freed.
fn note_reclaimed(freed: &mut Vec<Arc<Blob, Global>>, blob: Option<Arc<Blob, Global>>) {
    if let Some(blob) = blob {
        note_freed(freed, blob);
    }
}

/// Returns a share of a slot's blob, if the slot has one.
fn share_of(slots: &SlotTable, slot: u32) -> Option<Arc<Blob, Global>>
    requires { slot < length slots.now }
{
    match Arc::try_clone(slots.blob(slot)?) {
        Ok(blob) => Some(blob),
        Err(_) => None,
    }
}

impl PinnedSlots {
    /// Makes free slots of the first generation, with their words.
    ///
    /// # Errors
    /// - `LimitReached` outside 1 to 2^24 slots.
    /// - `Memory` if out of memory.
    pub fn new(
        alloc: Global,
        slots: u32,
        first_generation: u32,
    ) -> Result<(PinnedSlots, Pins), Refusal>
        ensures made { IfOk result (λ r. OpensSlots r.0 r.1 slots first_generation) }
        ensures refused { IfErr result (λ e. RefusesSlots e slots) }
    {
        let table = SlotTable::new(alloc, slots, first_generation)?;
        let (pins, keeper) = Pins::of_slots(alloc, slots, first_generation)?;
        Ok((
            PinnedSlots {
                slots: table,
                keeper,
                freed: Vec::new(alloc),
            },
            pins,
        ))
    }

    /// Returns the slots.
    pub fn table(&self) -> &SlotTable
        ensures { result.now ≡ self.now.slots }
    {
        &self.slots
    }

    /// Puts a blob into a free slot, live and without links, and returns the slot. It was never leased.
    ///
    /// # Errors
    /// - `StoreFull` if no slot is free.
    /// - `Memory` if out of memory.
    pub fn place(&mut self, pins: &Pins, blob: Blob) -> Result<u32, (Refusal, Blob)>
        requires table { self.old.table ≡ pins.now }
        requires absent { slot_of self.old.slots blob.0 ≡ None }
        ensures free { IfOk result (λ k. phase_at self.old.slots k ≡ phase.Free) }
        ensures ok { IfOk result (λ k. self.new ≡ with_slot_and_bound k (fill blob) 0 self.old) }
        ensures back { IfErr result (λ e. e.1 ≡ blob) }
        ensures refused { IfErr result (λ e. e.0 ≢ Memory → RefusesForSlots e.0 self.old) }
        ensures err { OnErr result (self.new ≡ self.old) }
    {
        let digest = blob.digest();
        let slot = self.slots.place(blob)?;
        pins.give(&mut self.keeper, slot, digest);
        Ok(slot)
    }

    /// Replaces the content of a blob by that of another blob with its digest. Leases of the old one keep it.
    ///
    /// # Errors
    /// The blob, and nothing changes: out of memory.
    pub fn replace(&mut self, slot: u32, blob: Blob) -> Result<(), Blob>
        requires there { slot_of self.old.slots blob.0 ≡ Some slot }
        ensures ok { OnOk result
            (self.new ≡ with_changed_slot slot (on_stored_blob (with_content blob.1)) self.old) }
        ensures back { IfErr result (λ b. b ≡ blob) }
        ensures err { OnErr result (self.new ≡ self.old) }
    {
        match self.slots.replace(slot, blob) {
            Ok(old) => {
                note_freed(&mut self.freed, old);
                Ok(())
            }
            Err(blob) => Err(blob),
        }
    }

    /// Counts one more link of a live blob.
    pub fn link_up(&mut self, slot: u32)
        requires live { phase_at self.old.slots slot ≡ phase.Live }
        requires room { links_at self.old.slots slot + 1 < 2 ^ 32 }
        ensures { self.new ≡ with_changed_slot slot (on_stored_blob link_up) self.old }
    {
        self.slots.link_up(slot);
    }

    /// Counts one link less of a live blob.
    pub fn link_down(&mut self, slot: u32)
        requires live { phase_at self.old.slots slot ≡ phase.Live }
        requires linked { 0 < links_at self.old.slots slot }
        ensures { self.new ≡ with_changed_slot slot (on_stored_blob link_down) self.old }
    {
        self.slots.link_down(slot);
    }

    /// Makes a condemned blob live again, in its row and its word. A live one is unchanged.
    pub fn revive(&mut self, pins: &Pins, slot: u32)
        requires table { self.old.table ≡ pins.now }
        requires used { slot < length self.old.slots }
        ensures { self.new ≡ with_changed_slot slot (on_stored_blob (mark false)) self.old }
    {
        if self.slots.phase(slot) == Phase::Condemned {
            self.slots.revive(slot);
            pins.revive(&mut self.keeper, slot);
        }
    }

    /// Condemns a blob without links, in its row and its word, and returns whether it was live.
    pub fn condemn(&mut self, pins: &Pins, slot: u32) -> bool
        requires table { self.old.table ≡ pins.now }
        requires orphan { is_orphan_at self.old.slots slot ≡ true }
        ensures after { self.new ≡ with_changed_slot slot (on_stored_blob (mark true)) self.old }
        ensures live { IsTrue result ↔ phase_at self.old.slots slot ≡ phase.Live }
    {
        let is_live = self.slots.phase(slot) == Phase::Live;
        if is_live {
            self.slots.condemn(slot);
            pins.condemn(&mut self.keeper, slot);
        }
        is_live
    }

    /// Frees the slot of a condemned blob that no pin holds, or retires it in the last generation.
    ///
    /// If pins hold the slot, the call returns the sum of their weights. A slot whose blob was never leased is never
    /// held. A blob in a file joins the freed ones, for which memory may be allocated.
    pub fn reclaim(&mut self, pins: &Pins, slot: u32) -> Reclaim
        requires table { self.old.table ≡ pins.now }
        requires condemned { phase_at self.old.slots slot ≡ phase.Condemned }
        ensures answer { ReclaimsSlot slot self.old self.new result }
        ensures unlent { UnheldIfNeverLent slot self.old result }
    {
        let blob = share_of(&self.slots, slot);
        let reclaimed = pins.reclaim(&mut self.keeper, slot);
        match reclaimed {
            Reclaim::Freed => {
                self.slots.free(slot);
                note_reclaimed(&mut self.freed, blob);
            }
            Reclaim::Retired => {
                self.slots.retire(slot);
                note_reclaimed(&mut self.freed, blob);
            }
            Reclaim::Held { .. } => {}
        }
        reclaimed
    }

    /// Returns the blobs in files that were freed since the last call. Leases may still have shares of them.
    pub fn take_freed(&mut self, alloc: Global) -> Vec<Arc<Blob, Global>>
        ensures { self.new ≡ self.old }
    {
        mem::replace(&mut self.freed, Vec::new(alloc))
    }

    /// Returns a share of a slot's blob, if the slot has one. Fails only if out of memory.
    pub fn blob(&self, slot: u32) -> Option<Arc<Blob, Global>>
        requires { slot < length self.now.slots }
        ensures { IfSome result (λ b. Some (arc_value b) ≡ blob_at self.now.slots slot) }
    {
        match Arc::try_clone(self.slots.blob(slot)?) {
            Ok(blob) => Some(blob),
            Err(_) => None,
        }
    }

    /// Returns a share of a used slot's blob. Fails only if out of memory.
    pub fn share(&self, slot: u32) -> Result<Arc<Blob, Global>, Refusal>
        requires live { phase_at self.now.slots slot ≡ phase.Live }
        ensures value { IfOk result (λ b. Some (arc_value b) ≡ blob_at self.now.slots slot) }
        ensures refused { IfErr result (λ e. e ≡ Memory) }
        ensures one_each { HasOneEach self.now }
    {
        match self.slots.blob(slot) {
            Some(blob) => Ok(Arc::try_clone(blob)?),
            None => unreachable!(),
        }
    }

    /// Makes a new pin on a live slot, and marks its blob as leased.
    ///
    /// # Errors
    /// - `TooManyReaders` if this call's look at the word finds no room for one more.
    pub fn lend(&mut self, pins: &Pins, slot: u32) -> Result<Pin, Refusal>
        requires table { self.old.table ≡ pins.now }
        requires live { phase_at self.old.slots slot ≡ phase.Live }
        ensures { LendsOn result slot self.old self.new }
    {
        let pin = pins.lend(&mut self.keeper, slot)?;
        self.slots.lend(slot);
        Ok(pin)
    }

    /// Returns the word of a slot.
    pub fn word(&mut self, pins: &Pins, slot: u32) -> u64
        requires table { self.old.table ≡ pins.now }
        requires within { slot < length self.old.slots }
        ensures read { ReadsSlotWord slot result self.old self.new }
        ensures one_each { length self.old.looks ≡ length self.old.slots }
    {
        pins.look(&mut self.keeper, slot)
    }

    /// Confirms that a pin's slot is in use, in the pin's generation and with its digest, and returns the pin.
    pub fn verify(&mut self, pins: &Pins, pin: Pin) -> Pin
        requires table { self.old.table ≡ pins.now }
        requires pin { pin.table ≡ pins.now }
        ensures same { result ≡ pin }
        ensures kept { VerifiesPin pin.hold self.old self.new }
    {
        pins.verify(&mut self.keeper, pin)
    }
}
