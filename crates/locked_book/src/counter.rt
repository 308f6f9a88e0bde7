//! One counted quantity and its ledger.
ghost use Rattle.std.specs.Prelude.{◌≡◌, ◌+◌, ◌<◌, ◌≤◌, ◌^◌, ℕ};
ghost use Rattle.locked_book.specs.Totals.{CounterView, IssuesPart, counter_after_settling, ledger_parts};

use crate::desks::LEDGER_PARTS;
use std::marker::Model;
use std::sync::ledger::{Blank, Book as LedgerBook, Ledger, Share};

/// A desk's share of one quantity.
#[derive(Drop)]
pub struct CounterShare<L: Ledger> {
    amount: u64,
    share: Share<L>,
}

impl<L: Ledger> Model for CounterShare<L> {
    ghost Value = { ℕ };

    ghost view = { λ p. p.amount };

    ghost invariant = { λ p. (p.share.parts ≡ 1) × (p.share.amount ≡ p.amount) };
}

impl<L: Ledger> CounterShare<L> {
    /// Returns the amount.
    pub fn amount(&self) -> u64
        ensures { result ≡ self.now }
    {
        self.amount
    }
}

/// A counted quantity: its total, its settled amount, the ledger's book, and the share that no desk holds.
#[derive(Drop)]
pub struct Counter<L: Ledger> {
    total: u64,
    settled: u64,
    book: LedgerBook<L>,
    rest: Share<L>,
}

impl<L: Ledger> Model for Counter<L> {
    ghost Value = { CounterView };

    ghost view = { λ c. record { total = c.total; settled = c.settled; parts = c.rest.parts } };

    ghost invariant = { λ c. (c.total ≡ c.book.total) × (c.settled ≡ c.rest.amount) ×
        (0 < c.rest.parts) × (L.parts ≡ ledger_parts) };
}

impl<L: Ledger> Counter<L> {
    /// Creates the counter of a new ledger.
    pub fn new(blank: Blank) -> Counter<L>
        requires { (blank.name ≡ L.name) × (blank.parts ≡ L.parts) × (blank.parts ≡ LEDGER_PARTS) }
        ensures { result ≡ record { total = 0; settled = 0; parts = LEDGER_PARTS } }
    {
        let (book, rest) = blank.open::<L>();
        Counter {
            total: 0,
            settled: 0,
            book,
            rest,
        }
    }

    /// Returns the total.
    pub fn total(&self) -> u64
        ensures { result ≡ self.now.total }
    {
        self.total
    }

    /// Returns the amount settled so far.
    pub fn settled(&self) -> u64
        ensures { result ≡ self.now.settled }
    {
        self.settled
    }

    /// Adds an amount to the total and to a desk's share.
    pub fn add(&mut self, to: &mut CounterShare<L>, amount: u64)
        requires { self.old.total + amount < 2 ^ 64 }
        ensures counter { self.new ≡ record self.old { total = self.old.total + amount } }
        ensures share { to.new ≡ to.old + amount }
    {
        let CounterShare { amount: own, share } = to;
        self.book.audit(share);
        self.book.add(share, amount);
        *own += amount;
        self.total += amount;
    }

    /// Splits off an empty share for a new desk.
    pub fn issue(&mut self) -> CounterShare<L>
        requires { 1 < self.old.parts }
        ensures counter { IssuesPart self.old self.new }
        ensures share { result ≡ 0 }
    {
        let share = self.rest.split_off(1, 0);
        CounterShare { amount: 0, share }
    }

    /// Settles a share. If all parts are back, the settled amount equals the total.
    pub fn settle(&mut self, returned: CounterShare<L>)
        ensures counter { self.new ≡ counter_after_settling self.old returned }
        ensures bound { self.new.settled ≤ self.new.total }
        ensures parts { self.new.parts ≤ LEDGER_PARTS }
        ensures all { self.new.parts ≡ LEDGER_PARTS → self.new.settled ≡ self.new.total }
    {
        let CounterShare { amount, share } = returned;
        self.rest.merge(share);
        self.book.audit(&mut self.rest);
        self.settled += amount;
    }

    /// Does nothing at run time: it gives the caller the bounds on the settled amount as a fact.
    pub fn reveal_invariant(&mut self)
        ensures same { self.new ≡ self.old }
        ensures bound { self.old.settled ≤ self.old.total }
        ensures all { self.old.parts ≡ LEDGER_PARTS → self.old.settled ≡ self.old.total }
    {
        self.book.audit(&mut self.rest);
    }
}
