//! The sweeps of a store.

ghost use Rattle.std.specs.Prelude.{◌≡◌, ◌+◌, ◌<◌, ◌^◌};
ghost use Rattle.store_model.specs.Histories.{SweepCall};
ghost use Rattle.locked_book.specs.History.{Makes};
ghost use Rattle.locked_book.specs.Found.{IsSweepOfSome};
ghost use Rattle.blob_store.specs.SweepParts.{MakesAllParts, with_part};

use crate::store::{REST_MICROS, Store};
use locked_book::{Desk, Naming};
use std::sync::Wait;
use std::time::Duration;
use store_book::Swept;

/// The maximum number of blobs that a part of a sweep visits. That takes a few tenths of a millisecond.
const PART_BLOBS: u32 = 256;

/// Adds the counts of a part to those of the parts before it.
fn add_part(swept: &mut Swept, part: &Swept)
    requires condemned { swept.old.condemned + part.now.condemned < 2 ^ 32 }
    requires freed { swept.old.freed + part.now.freed < 2 ^ 32 }
    requires held { swept.old.held + part.now.held < 2 ^ 32 }
    requires retired { swept.old.retired + part.now.retired < 2 ^ 32 }
    ensures { swept.new ≡ with_part swept.old part.now }
{
    swept.condemned += part.condemned;
    swept.freed += part.freed;
    swept.held += part.held;
    swept.retired += part.retired;
}

impl<S: Naming> Store<S> {
    /// Condemns each live blob that no repository links, and frees or retires the slot of each condemned blob without a
    /// lease. Returns the counts. The sweep is the last step of a legal history, by a writer that makes no other step.
    ///
    /// # Cost
    ///
    /// That of `store_book::Book::sweep`, under the lock.
    ///
    /// # Memory
    ///
    /// Allocates nothing, except an entry for each freed blob that lies in a file.
    pub fn sweep(&self, rt: &impl Wait) -> Swept
        ensures { IsSweepOfSome S.names result }
    {
        self.locked(rt).sweep(&self.pins)
    }

    /// Sweeps as `sweep` does, as a step of the desk's.
    ///
    /// # Memory
    ///
    /// Allocates nothing, except an entry for each freed blob that lies in a file.
    pub fn sweep_at(&self, rt: &impl Wait, desk: &mut Desk<S>) -> Swept
        ensures { Makes S.names.opening (SweepCall result) desk.old desk.new }
    {
        self.locked(rt).sweep_at(&self.pins, desk)
    }

    /// Sweeps as `sweep_at` does, but gives the lock back after each `PART_BLOBS` blobs without links. Returns the sums of
    /// the counts.
    ///
    /// The parts go over each slot once. Each part is a step of the desk's, and steps of others may come between two of
    /// them. A blob that loses its last link meanwhile is left for the next sweep if its slot was passed.
    ///
    /// # Cost
    ///
    /// That of `sweep_at`. After each part but the last, the thread pauses for longer than another thread rests before
    /// it tries the lock again.
    ///
    /// # Memory
    ///
    /// Allocates nothing, except an entry for each freed blob that lies in a file.
    pub fn sweep_in_parts(&self, rt: &impl Wait, desk: &mut Desk<S>) -> Swept
        ensures { MakesAllParts S.names result desk.old desk.new }
    {
        let mut swept = Swept {
            condemned: 0,
            freed: 0,
            held: 0,
            retired: 0,
        };
        let mut from = Some(0);
        'parts: while let Some(slot) = from {
            let part = self
                .locked(rt)
                .sweep_part(&self.pins, desk, slot, PART_BLOBS);
            add_part(&mut swept, &part.swept);
            from = part.next;
            self.pause_before(rt, from);
        }
        swept
    }

    /// Pauses before the part of a sweep that starts at a slot, if there is one.
    fn pause_before(&self, rt: &impl Wait, next: Option<u32>) {
        if next.is_some() {
            self.rest
                .park_timeout(rt, 0, Duration::from_micros(2 * REST_MICROS));
        }
    }
}
