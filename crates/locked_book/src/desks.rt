//! Creating desks, settling them, and reading the totals.

ghost use Rattle.std.specs.Prelude.{◌≡◌, ◌⊎◌, ◌+◌, ◌<◌, ◌≤◌, IfErr, IfOk, [], true, vec_len, vec_capacity};
ghost use Rattle.blob_digest.specs.Outcomes.{Does};
ghost use Rattle.blob_digest.specs.declared.refusal.Refusal.TheVariants.{LimitReached};
ghost use Rattle.store_model.specs.Hands.{received_in_sessions};
ghost use Rattle.locked_book.specs.Counting.{KeepsTotals, cannot_hand_out, hand_out_outcome, with_desks};
ghost use Rattle.locked_book.specs.Found.{IsContentOf};
ghost use Rattle.locked_book.specs.History.{AreFreshDesks, IsFreshDesk, IsMadeBy, SettlesAll, total_of};
ghost use Rattle.locked_book.specs.Results.{FailsWith, HasSums, HasTotals};

use crate::desk::{Desk, Settled};
use crate::kept::Kept;
use crate::names::Naming;
use crate::settling::settle_all;
use crate::totals::Totals;
use blob_digest::Refusal;
use std::alloc::Global;

/// The largest number of unsettled desks.
pub const MAX_DESKS: u64 = 1024;

/// The number of parts of a ledger: one for each desk, and one that no desk gets.
pub const LEDGER_PARTS: u64 = MAX_DESKS + 1;

impl<S: Naming> Kept<S> {
    /// Returns whether `count` is 0, or `count` more desks would be more than `MAX_DESKS`.
    fn lacks_desks(&self, count: u64) -> bool
        ensures { result ≡ cannot_hand_out self.now count }
    {
        count == 0 || count > MAX_DESKS || self.counters.desks() > MAX_DESKS - count
    }

    /// Creates a desk with empty shares and no steps.
    fn issue(&mut self) -> Desk<S>
        requires { self.old.counts.desks + 1 < 1025 }
        ensures counts { self.new ≡ with_desks self.old 1 }
        ensures fresh { IsFreshDesk result }
    {
        let tally = self.counters.issue();
        let writer = self.history.writer();
        Desk { tally, writer }
    }

    /// Pushes `count` new desks to a vector that has room for them.
    fn issue_all(&mut self, desks: &mut Vec<Desk<S>>, count: u64)
        requires count { self.old.counts.desks + count < 1025 }
        requires room { (vec_len desks.old ≡ 0) × (count ≤ vec_capacity desks.old) }
        ensures counts { self.new ≡ with_desks self.old count }
        ensures desks { (vec_len desks.new ≡ count) × AreFreshDesks desks.new.items }
    {
        for _i in 0..count {
            desks.push_reserved(self.issue());
        }
    }

    /// Creates `count` desks with empty shares and no steps.
    ///
    /// # Errors
    ///
    /// - `LimitReached` if `count` is 0, or if more than 1,024 desks would be unsettled.
    /// - `Memory` if the vector of desks can't be allocated.
    ///
    /// # Cost
    ///
    /// Linear in `count`; one allocation.
    pub fn desks(&mut self, alloc: Global, count: u64) -> Result<Vec<Desk<S>>, Refusal>
        ensures made { IfOk result (λ v. (vec_len v ≡ count) × AreFreshDesks v.items) }
        ensures does { Does (λ _. tt) result self.old self.new (hand_out_outcome count self.old) }
        ensures limit { cannot_hand_out self.old count ≡ true → FailsWith result LimitReached }
        ensures refused { IfErr result (λ e. (e ≡ LimitReached) ⊎ (e ≡ Refusal.Memory)) }
    {
        if self.lacks_desks(count) {
            return Err(Refusal::LimitReached);
        }
        let mut desks = Vec::with_capacity(alloc, count as usize)?;
        self.issue_all(&mut desks, count);
        Ok(desks)
    }

    /// Settles desks, and returns whether their steps are the whole history, each desk's under the number of its place.
    ///
    /// The result is true for one or more desks in the order of their creation, if no other desk was ever created and
    /// no sweep was made without a desk.
    ///
    /// # Cost
    ///
    /// Linear in the number of desks.
    ///
    /// # Memory
    ///
    /// Never allocates.
    pub fn conclude(&mut self, desks: Vec<Desk<S>>) -> bool
        ensures same { KeepsTotals self.old self.new }
        ensures desks { self.new.counts.desks + vec_len desks ≡ self.old.counts.desks }
        ensures settled { SettlesAll self.old.counts self.new.counts desks.items }
        ensures whole { result ≡ true → IsMadeBy S.names.opening self.new desks.items }
    {
        settle_all(&mut self.counters, &mut self.history, desks)
    }

    /// Returns the settled amounts and the number of unsettled desks. If that is 0, the amounts equal the totals.
    fn settled(&mut self) -> Settled
        ensures same { self.new ≡ self.old }
        ensures amounts { HasSums result self.old.counts.settled }
        ensures left { result.left ≡ self.old.counts.desks }
        ensures all { result.left ≡ 0 → self.old.counts.settled ≡ self.old.counts.totals }
    {
        self.counters.reveal_invariant();
        self.counters.settled()
    }

    /// Settles desks, and returns the sums of their shares and the number of desks that are still unsettled.
    ///
    /// If that number is 0, the settled amounts equal the totals.
    ///
    /// # Cost
    ///
    /// Linear in the number of desks.
    ///
    /// # Memory
    ///
    /// Never allocates.
    pub fn settle(&mut self, desks: Vec<Desk<S>>) -> Settled
        ensures sums { HasSums result (total_of desks.items) }
        ensures left { result.left ≡ self.new.counts.desks }
        ensures desks { self.new.counts.desks + vec_len desks ≡ self.old.counts.desks }
        ensures same { KeepsTotals self.old self.new }
        ensures settled { SettlesAll self.old.counts self.new.counts desks.items }
        ensures all { result.left ≡ 0 → self.new.counts.settled ≡ self.new.counts.totals }
    {
        let before = self.settled();
        let _ = self.conclude(desks);
        let after = self.settled();
        Settled {
            commands: after.commands - before.commands,
            received: after.received - before.received,
            closed: after.closed - before.closed,
            abandoned: after.abandoned - before.abandoned,
            left: after.left,
        }
    }

    /// Returns the totals. One legal history of the store leads to them and to the book.
    ///
    /// # Memory
    ///
    /// Never allocates.
    pub fn totals(&self) -> Totals
        ensures amounts { HasTotals result self.now.counts.totals }
        ensures in_sessions { result.in_sessions ≡ received_in_sessions self.now.book.catalog }
        ensures balanced { result.received ≡ result.in_sessions + result.closed + result.abandoned }
        ensures desks { result.desks ≡ self.now.counts.desks }
        ensures found { IsContentOf S.names self.now }
    {
        self.reveal_invariant();
        self.counters.totals()
    }
}
