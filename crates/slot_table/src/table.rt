//! The slots of a store, with an index of their digests and a stack of the free ones.

ghost use Rattle.std.specs.Prelude.{◌≡◌, ◌+◌, ◌<◌, ◌≤◌, ◌^◌, length, None, Some, IfOk, IfErr, OnOk, OnErr, true, false};
ghost use Rattle.std.specs.Option.{option_map};
ghost use Rattle.std.specs.Vec.{vec_len, vec_capacity};
ghost use Rattle.std.specs.BTreeMap as tree;
ghost use Rattle.blob_digest.specs.Slots.{greatest_slots};
ghost use Rattle.blob_digest.specs.Outcomes.{Answers};
ghost use Rattle.blob_digest.specs.declared.refusal.Refusal.TheVariants.{Memory, StoreFull};
ghost use Rattle.slot_table.specs.Indexes.{ForgetsDigest, Restocks};
ghost use Rattle.slot_table.specs.Slots.{slot_of, blob_at, phase_at, links_at, generation_at, free_slots, orphan_from, initial_slots, with_slot, fill, on_stored_blob, link_up, link_down, lend, mark, freed_slot, retire, IsDistinct, IsUnlinked, RefusesFull, with_content};
ghost use Rattle.slot_table.specs.declared.phase.Phase.TheVariants as phase;

use crate::phase::Phase;
use crate::row::Row;
use crate::slot_set::SlotSet;
use blob_digest::{Blob, Digest, GREATEST_SLOTS, Refusal};
use std::alloc::Global;
use std::collections::BTreeMap;
use std::marker::Model;
use std::sync::Arc;

/// The slots of a store, 1 to 2^24, each with its generation and its content.
///
/// A slot is identified by its number, from 0 on. No digest has two slots, and a condemned blob has no links.
/// Contracts see the list of the slots. Only slots that were used have rows. An index maps the digest of each used slot
/// to the slot. A stack has the free slots with rows, and a set has the used slots without links.
///
/// # Cost
///
/// `find`, `place`, `free` and `retire` are logarithmic in the number of used slots. `orphans_from` passes over 64
/// slots with links in one step. `new` writes one bit for each slot. Every other call is constant.
///
/// # Memory
///
/// Only `new`, `place` and `replace` allocate. `new` reserves room for the rows and the stack of all slots, and does not
/// touch it: no later call moves a row, and a slot takes memory from its first use on.
#[derive(Drop)]
pub struct SlotTable {
    alloc: Global,
    slots: u32,
    first_generation: u32,
    rows: Vec<Row>,
    index: BTreeMap<Digest, u32>,
    free: Vec<u32>,
    orphans: SlotSet,
}

impl Model for SlotTable {
    ghost use Rattle.std.specs.Prelude.{List, length};
    ghost use Rattle.std.specs.Vec.{vec_capacity};
    ghost use Rattle.slot_table.specs.Slots.{Slot, IsTable, padded_slots};
    ghost use Rattle.slot_table.specs.Indexes.{IsSlotIndex, HasRoom};
    ghost use Rattle.slot_table.specs.SlotSets.{HasOrphans};

    ghost Value = { List Slot };

    ghost view = { λ a. padded_slots a.slots a.first_generation a.rows.items };

    ghost invariant = { λ a. IsTable a.rows.items ×
        IsSlotIndex a.rows.items a.index a.free.items (vec_capacity a.free) ×
        HasOrphans a.rows.items a.orphans × HasRoom a.slots a.rows.items (vec_capacity a.rows)
        (vec_capacity a.free) (length a.orphans) };
}

/// Makes the row of the next slot and puts the slot on the stack, if the stack is empty and a slot has no row yet.
fn restock(rows: &mut Vec<Row>, stack: &mut Vec<u32>, slots: u32, generation: u32)
    requires few { vec_len rows.old ≤ slots }
    requires row_room { slots ≤ vec_capacity rows.old }
    requires stack_room { slots ≤ vec_capacity stack.old }
    ensures made { Restocks slots generation rows.old.items stack.old.items
        rows.new.items stack.new.items }
    ensures row_room { vec_capacity rows.old ≤ vec_capacity rows.new }
    ensures stack_room { vec_capacity stack.old ≤ vec_capacity stack.new }
{
    if !stack.is_empty() {
        return;
    }
    let next = rows.len() as u32;
    if next == slots {
        return;
    }
    if rows.push(Row::empty(generation)).is_err() {
        unreachable!();
    }
    if stack.push(next).is_err() {
        unreachable!();
    }
}

/// Removes the digest of the row's blob from the index.
fn forget(index: &mut BTreeMap<Digest, u32>, row: &Row)
    ensures { ForgetsDigest row.now index.old index.new }
{
    if let Some(blob) = row.blob() {
        index.remove(&blob.digest());
    }
}

impl SlotTable {
    /// Returns a table of `slots` free slots of the first generation.
    ///
    /// The table keeps the allocator for the blobs that are placed.
    ///
    /// # Errors
    ///
    /// - `LimitReached`: fewer than 1 or more than 2^24 slots.
    /// - `Memory`: out of memory.
    pub fn new(alloc: Global, slots: u32, first_generation: u32) -> Result<SlotTable, Refusal>
        ensures answers { Answers (λ t. t) result (initial_slots slots first_generation) }
        ensures memory { IfErr result (λ e. e ≡ Memory → (1 ≤ slots) × (slots ≤ greatest_slots)) }
    {
        if slots < 1 {
            return Err(Refusal::LimitReached);
        }
        if slots > GREATEST_SLOTS {
            return Err(Refusal::LimitReached);
        }
        let rows = Vec::with_capacity(alloc, slots as usize)?;
        let free = Vec::with_capacity(alloc, slots as usize)?;
        let orphans = SlotSet::new(alloc, slots)?;
        Ok(SlotTable {
            alloc,
            slots,
            first_generation,
            rows,
            index: BTreeMap::new(alloc),
            free,
            orphans,
        })
    }

    /// Returns the number of slots.
    pub fn len(&self) -> u32
        ensures value { result ≡ length self.now }
        ensures few { length self.now ≤ greatest_slots }
        ensures distinct { IsDistinct self.now }
        ensures unlinked { IsUnlinked self.now }
    {
        self.slots
    }

    /// Returns the slot that has the blob of a digest, if there is one. Looks it up in the index.
    pub fn find(&self, digest: &Digest) -> Option<u32>
        ensures slot { result ≡ slot_of self.now digest.now }
        ensures alone { IsDistinct self.now }
    {
        self.index.get(digest).copied()
    }

    /// Returns the number of free slots, which is stored.
    pub fn free_count(&self) -> u32
        ensures { result ≡ free_slots self.now }
    {
        self.free.len() as u32 + (self.slots - self.rows.len() as u32)
    }

    /// Returns a slot's phase.
    pub fn phase(&self, slot: u32) -> Phase
        requires { slot < length self.now }
        ensures { result ≡ phase_at self.now slot }
    {
        match self.rows.get(slot as usize) {
            Some(row) => row.phase(),
            None => Phase::Free,
        }
    }

    /// Returns a slot's generation.
    ///
    /// It starts at the table's first generation, and grows by one each time the slot is freed.
    pub fn generation(&self, slot: u32) -> u32
        requires { slot < length self.now }
        ensures { result ≡ generation_at self.now slot }
    {
        match self.rows.get(slot as usize) {
            Some(row) => row.generation(),
            None => self.first_generation,
        }
    }

    /// Returns the number of links to a slot's blob, or 0 if the slot has none.
    pub fn links(&self, slot: u32) -> u32
        requires { slot < length self.now }
        ensures { result ≡ links_at self.now slot }
    {
        match self.rows.get(slot as usize) {
            Some(row) => row.links(),
            None => 0,
        }
    }

    /// Returns a slot's blob, if it has one.
    pub fn blob(&self, slot: u32) -> Option<&Arc<Blob, Global>>
        requires { slot < length self.now }
        ensures { option_map (λ b. b.now.value) result ≡ blob_at self.now slot }
    {
        match self.rows.get(slot as usize) {
            Some(row) => row.blob(),
            None => None,
        }
    }

    /// Returns the first slot, from `slot` on, that has a blob without links, condemned blobs included.
    ///
    /// `slot` may be past the last slot.
    ///
    /// # Cost
    ///
    /// Passes over 64 slots in one step.
    pub fn orphans_from(&self, slot: u32) -> Option<u32>
        ensures { result ≡ orphan_from self.now slot }
    {
        self.orphans.first_from(slot)
    }

    /// Stores a blob in a free slot, live and without links, and returns the slot.
    ///
    /// The choice of the free slot is not specified. An error returns the blob.
    ///
    /// # Errors
    ///
    /// - `StoreFull`: no slot is free.
    /// - `Memory`: out of memory.
    ///
    /// # Cost
    ///
    /// Logarithmic in the number of used slots. Allocates for the index and for sharing the blob.
    pub fn place(&mut self, blob: Blob) -> Result<u32, (Refusal, Blob)>
        requires { slot_of self.old blob.0 ≡ None }
        ensures free { IfOk result (λ k. phase_at self.old k ≡ phase.Free) }
        ensures ok { IfOk result (λ k. self.new ≡ with_slot self.old k (fill blob)) }
        ensures back { IfErr result (λ e. e.1 ≡ blob) }
        ensures refused { IfErr result (λ e. RefusesFull self.old e.0) }
        ensures memory { IfErr result (λ e. e.0 ≡ Memory → 0 < free_slots self.old) }
        ensures err { OnErr result (self.new ≡ self.old) }
    {
        restock(
            &mut self.rows,
            &mut self.free,
            self.slots,
            self.first_generation,
        );
        let Some(slot) = self.free.last().copied() else {
            return Err((Refusal::StoreFull, blob));
        };
        let digest = blob.digest();
        if self.index.insert(digest, slot).is_err() {
            return Err((Refusal::Memory, blob));
        }
        match Arc::new(self.alloc, blob) {
            Ok(blob) => {
                self.free.pop();
                self.rows[slot as usize].fill(blob);
                self.orphans.set(slot, true);
                Ok(slot)
            }
            Err(failed) => {
                self.index.remove(&digest);
                Err((Refusal::Memory, failed.value))
            }
        }
    }

    /// Adds a link to a live blob.
    pub fn link_up(&mut self, slot: u32)
        requires live { phase_at self.old slot ≡ phase.Live }
        requires room { links_at self.old slot + 1 < 2 ^ 32 }
        ensures { self.new ≡ with_slot self.old slot (on_stored_blob link_up) }
    {
        self.rows[slot as usize].link_up();
        self.orphans.set(slot, false);
    }

    /// Removes a link from a live blob.
    pub fn link_down(&mut self, slot: u32)
        requires live { phase_at self.old slot ≡ phase.Live }
        requires linked { 0 < links_at self.old slot }
        ensures { self.new ≡ with_slot self.old slot (on_stored_blob link_down) }
    {
        let row = &mut self.rows[slot as usize];
        row.link_down();
        let is_orphan = row.is_orphan();
        self.orphans.set(slot, is_orphan);
    }

    /// Marks a live blob as ever leased. The mark stays as long as the slot has the blob.
    pub fn lend(&mut self, slot: u32)
        requires { phase_at self.old slot ≡ phase.Live }
        ensures { self.new ≡ with_slot self.old slot (on_stored_blob lend) }
    {
        self.rows[slot as usize].lend();
    }

    /// Replaces the content of a blob by that of another blob with its digest, and returns the old one.
    ///
    /// Leases that share the old one keep it.
    ///
    /// # Errors
    ///
    /// The blob, and nothing changes: out of memory.
    pub fn replace(&mut self, slot: u32, blob: Blob) -> Result<Arc<Blob, Global>, Blob>
        requires there { slot_of self.old blob.0 ≡ Some slot }
        ensures ok { OnOk result
            (self.new ≡ with_slot self.old slot (on_stored_blob (with_content blob.1))) }
        ensures back { IfErr result (λ b. b ≡ blob) }
        ensures err { OnErr result (self.new ≡ self.old) }
    {
        match Arc::new(self.alloc, blob) {
            Ok(blob) => Ok(self.rows[slot as usize].replace(blob)),
            Err(failed) => Err(failed.value),
        }
    }

    /// Condemns a live blob without links.
    pub fn condemn(&mut self, slot: u32)
        requires live { phase_at self.old slot ≡ phase.Live }
        requires unlinked { links_at self.old slot ≡ 0 }
        ensures { self.new ≡ with_slot self.old slot (on_stored_blob (mark true)) }
    {
        self.rows[slot as usize].mark(true);
    }

    /// Makes a condemned blob live again.
    pub fn revive(&mut self, slot: u32)
        requires { phase_at self.old slot ≡ phase.Condemned }
        ensures { self.new ≡ with_slot self.old slot (on_stored_blob (mark false)) }
    {
        self.rows[slot as usize].mark(false);
    }

    /// Frees a condemned slot, which advances to its next generation.
    ///
    /// Drops the slot's share of the blob.
    pub fn free(&mut self, slot: u32)
        requires condemned { phase_at self.old slot ≡ phase.Condemned }
        requires room { generation_at self.old slot + 1 < 2 ^ 32 }
        ensures { self.new ≡ with_slot self.old slot freed_slot }
    {
        let row = &mut self.rows[slot as usize];
        forget(&mut self.index, row);
        row.free();
        self.orphans.set(slot, false);
        match self.free.push(slot) {
            Ok(()) => {}
            Err(_) => unreachable!(),
        }
    }

    /// Retires a condemned slot. Drops the slot's share of the blob.
    pub fn retire(&mut self, slot: u32)
        requires { phase_at self.old slot ≡ phase.Condemned }
        ensures { self.new ≡ with_slot self.old slot retire }
    {
        let row = &mut self.rows[slot as usize];
        forget(&mut self.index, row);
        row.retire();
        self.orphans.set(slot, false);
    }
}
