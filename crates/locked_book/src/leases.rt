//! Leases, their pins, and sweeps.

ghost use Rattle.std.specs.Prelude.{◌≡◌, ◌<◌, ◌≤◌, IfOk};
ghost use Rattle.std.specs.Arc.{arc_value};
ghost use Rattle.store_model.specs.Histories.{SweepCall, SweepPartCall};
ghost use Rattle.store_model.specs.Runs.{Lease, Bytes};
ghost use Rattle.store_model.specs.Sweep.{IsSweep};
ghost use Rattle.store_book.specs.Pinned.{blob_bytes, blob_digest};
ghost use Rattle.store_book.specs.SweepParts.{IsBoundedPart, end_of};
ghost use Rattle.store_book.specs.SlotSteps.{HasPin, IsUnchanged, ReadsWord};
ghost use Rattle.locked_book.specs.Calls.{reply};
ghost use Rattle.locked_book.specs.Counting.{EachSlotOf, KeepsCatalog};
ghost use Rattle.locked_book.specs.Found.{IsBookOf, IsPartOf, IsSweepOf};
ghost use Rattle.locked_book.specs.History.{Makes};
ghost use Rattle.locked_book.specs.Performing.{Performs};
ghost use Rattle.locked_book.specs.Results.{HashesTo, IsPinOf};

use crate::call::Call;
use crate::desk::Desk;
use crate::kept::Kept;
use crate::names::Naming;
use crate::tried::add_unrecorded_command;
use blob_digest::{Blob, Digest, Refusal, RepoName};
use pin_table::{Pin, Pins};
use std::alloc::Global;
use std::snapshot::Snapshot;
use std::sync::Arc;
use store_book::{Swept, SweptPart};

impl<S: Naming> Kept<S> {
    /// Leases a blob of a repository with `Book::lease`.
    pub fn lease(
        &mut self,
        pins: &Pins,
        desk: &mut Desk<S>,
        repo: &RepoName,
        digest: &Digest,
    ) -> Result<(Pin, Arc<Blob, Global>), Refusal>
        requires table { pins.now ≡ S.names.table }
        ensures does { Performs S.names.opening (Lease repo.now digest.now)
            (reply (λ r. Bytes (blob_bytes (arc_value r.1))) result)
            self.old self.new desk.old desk.new }
        ensures pin { IfOk result (λ r. IsPinOf S.names.table digest.now r.0) }
        ensures content { IfOk result
            (λ r. HashesTo self.old.book.catalog.contents (blob_bytes (arc_value r.1)) digest.now) }
        ensures blob { IfOk result (λ r. blob_digest (arc_value r.1) ≡ digest.now) }
    {
        let before = Snapshot::of(&self.book);
        let result = match self.room(0) {
            Ok(()) => self.book.lease(pins, repo, digest),
            Err(refusal) => Err(refusal),
        };
        add_unrecorded_command(
            &before,
            &self.book,
            &self.out,
            &mut self.counters,
            &mut self.history,
            desk,
            Call::Lease(repo, digest, &result),
        );
        result
    }

    /// Confirms with `Book::verify` that a pin's slot is its own, and returns the pin. No step is made.
    pub fn verify(&mut self, pins: &Pins, pin: Pin) -> Pin
        requires table { (pins.now ≡ S.names.table) × (pin.table ≡ S.names.table) }
        ensures found { IsBookOf S.names self.old.book }
        ensures same { result ≡ pin }
        ensures kept { HasPin pin.hold self.old.book }
    {
        self.reveal_invariant();
        self.book.verify(pins, pin)
    }

    /// Returns the word of a slot from `Book::word`. No step is made.
    pub fn word(&mut self, pins: &Pins, slot: u32) -> u64
        requires table { pins.now ≡ S.names.table }
        requires within { slot < S.names.slots }
        ensures word { ReadsWord slot result self.old.book.slots self.new.book.slots }
        ensures content { KeepsCatalog self.old self.new }
        ensures slots { EachSlotOf IsUnchanged self.old self.new }
    {
        self.book.word(pins, slot)
    }

    /// Sweeps with `Book::sweep`. The step has a writer of its own, which no desk has.
    pub fn sweep(&mut self, pins: &Pins) -> Swept
        requires table { pins.now ≡ S.names.table }
        ensures sweeps { IsSweepOf S.names self.old result self.new }
    {
        self.reveal_invariant();
        let result = self.book.sweep(pins);
        let mut nobody = self.history.writer();
        self.history
            .add_unrecorded(&mut nobody, Call::Sweep(&result));
        self.reveal_invariant();
        result
    }

    /// Sweeps with `Book::sweep`. The step is the desk's.
    pub fn sweep_at(&mut self, pins: &Pins, desk: &mut Desk<S>) -> Swept
        requires table { pins.now ≡ S.names.table }
        ensures sweeps { IsSweep self.old.book.catalog result self.new.book.catalog }
        ensures counts { self.new.counts ≡ self.old.counts }
        ensures makes { Makes S.names.opening (SweepCall result) desk.old desk.new }
    {
        let result = self.book.sweep(pins);
        self.history
            .add_unrecorded(&mut desk.writer, Call::Sweep(&result));
        result
    }

    /// Does a part of a sweep with `Book::sweep_part`. The step is the desk's.
    pub fn sweep_part(&mut self, pins: &Pins, desk: &mut Desk<S>, from: u32, most: u32) -> SweptPart
        requires table { pins.now ≡ S.names.table }
        requires within { from ≤ S.names.slots }
        ensures part { IsPartOf S.names from (end_of S.names.slots result)
            self.old result.swept self.new }
        ensures bounded { IsBoundedPart from most S.names.slots result }
        ensures makes { Makes S.names.opening (SweepPartCall result.swept) desk.old desk.new }
    {
        self.reveal_invariant();
        let part = self.book.sweep_part(pins, from, most);
        self.history
            .add_unrecorded(&mut desk.writer, Call::SweepPart(&part.swept));
        part
    }
}
