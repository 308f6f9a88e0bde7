//! A slot's row: its generation and its content.

ghost use Rattle.std.specs.Prelude.{◌≡◌, ◌+◌, ◌<◌, ◌^◌, Some};
ghost use Rattle.std.specs.Option.{option_map};
ghost use Rattle.slot_table.specs.Slots.{blob_in, empty_slot, is_orphan, phase_in, links_in, fill, on_stored_blob, link_up, link_down, lend, mark, freed_slot, retire, digest_in, with_content};

use crate::phase::Phase;
use blob_digest::Blob;
use std::alloc::Global;
use std::marker::Model;
use std::mem;
use std::sync::Arc;

/// A stored blob with its marks and its number of links.
#[derive(Drop)]
pub struct FilledRow {
    blob: Arc<Blob, Global>,
    condemned: bool,
    lent: bool,
    links: u32,
}

/// The content of a slot.
#[derive(Drop)]
pub enum Cell {
    Free,
    Used(FilledRow),
    Retired,
}

/// The row of a slot. Contracts see it as the slot.
#[derive(Drop)]
pub struct Row {
    generation: u32,
    cell: Cell,
}

impl Model for Row {
    ghost use Rattle.slot_table.specs.Slots.{Slot};

    ghost Value = { Slot };

    ghost use Rattle.slot_table.specs.Rows.{slot_shown};

    ghost view = { slot_shown };
}

impl Row {
    /// Returns a free slot of this generation.
    pub fn empty(generation: u32) -> Row
        ensures { result ≡ empty_slot generation }
    {
        Row {
            generation,
            cell: Cell::Free,
        }
    }

    /// Returns whether the slot has a blob without links.
    pub fn is_orphan(&self) -> bool
        ensures { result ≡ is_orphan self.now }
    {
        match &self.cell {
            Cell::Used(filled) => filled.links == 0,
            _ => false,
        }
    }

    /// Returns the slot's phase.
    pub fn phase(&self) -> Phase
        ensures { result ≡ phase_in self.now.content }
    {
        match &self.cell {
            Cell::Free => Phase::Free,
            Cell::Used(filled) if filled.condemned => Phase::Condemned,
            Cell::Used(_) => Phase::Live,
            Cell::Retired => Phase::Retired,
        }
    }

    /// Returns the slot's generation.
    pub fn generation(&self) -> u32
        ensures { result ≡ self.now.generation }
    {
        self.generation
    }

    /// Returns the number of links to the slot's blob, or 0 if it has none.
    pub fn links(&self) -> u32
        ensures { result ≡ links_in self.now.content }
    {
        match &self.cell {
            Cell::Used(filled) => filled.links,
            _ => 0,
        }
    }

    /// Returns the slot's blob, if it has one.
    pub fn blob(&self) -> Option<&Arc<Blob, Global>>
        ensures { option_map (λ b. b.now.value) result ≡ blob_in self.now.content }
    {
        match &self.cell {
            Cell::Used(filled) => Some(&filled.blob),
            _ => None,
        }
    }

    /// Stores a blob, live and without links.
    pub fn fill(&mut self, blob: Arc<Blob, Global>)
        ensures { self.new ≡ fill blob.value self.old }
    {
        self.cell = Cell::Used(FilledRow {
            blob,
            condemned: false,
            lent: false,
            links: 0,
        });
    }

    /// Adds a link to the slot's blob.
    pub fn link_up(&mut self)
        requires { links_in self.old.content + 1 < 2 ^ 32 }
        ensures { self.new ≡ on_stored_blob link_up self.old }
    {
        if let Cell::Used(filled) = &mut self.cell {
            filled.links += 1;
        }
    }

    /// Removes a link from the slot's blob.
    pub fn link_down(&mut self)
        requires { 0 < links_in self.old.content }
        ensures { self.new ≡ on_stored_blob link_down self.old }
    {
        if let Cell::Used(filled) = &mut self.cell {
            filled.links -= 1;
        }
    }

    /// Marks the slot's blob as ever leased.
    pub fn lend(&mut self)
        ensures { self.new ≡ on_stored_blob lend self.old }
    {
        if let Cell::Used(filled) = &mut self.cell {
            filled.lent = true;
        }
    }

    /// Condemns the slot's blob, or makes it live again.
    pub fn mark(&mut self, condemned: bool)
        ensures { self.new ≡ on_stored_blob (mark condemned) self.old }
    {
        if let Cell::Used(filled) = &mut self.cell {
            filled.condemned = condemned;
        }
    }

    /// Replaces the slot's blob by another one with its digest, and returns the old one. Its marks and links are kept.
    pub fn replace(&mut self, blob: Arc<Blob, Global>) -> Arc<Blob, Global>
        requires { digest_in self.old.content ≡ Some blob.value.0 }
        ensures { self.new ≡ on_stored_blob (with_content blob.value.1) self.old }
    {
        match &mut self.cell {
            Cell::Used(filled) => mem::replace(&mut filled.blob, blob),
            _ => blob,
        }
    }

    /// Frees the slot, and advances it to its next generation.
    pub fn free(&mut self)
        requires { self.old.generation + 1 < 2 ^ 32 }
        ensures { self.new ≡ freed_slot self.old }
    {
        self.generation += 1;
        self.cell = Cell::Free;
    }

    /// Retires the slot.
    pub fn retire(&mut self)
        ensures { self.new ≡ retire self.old }
    {
        self.cell = Cell::Retired;
    }
}
