//! The four totals, each with its ledger.
ghost use Rattle.std.specs.Prelude.{◌≡◌, ◌+◌, ◌<◌, ◌≤◌, ◌^◌, ℕ, IfSome};
ghost use Rattle.store_model.specs.Amounts.{Amounts, zero_amounts, add_amounts, command_amounts_of};
ghost use Rattle.locked_book.specs.Names.{IsLedger};
ghost use Rattle.locked_book.specs.Results.{HasSums, HasTotals};
ghost use Rattle.locked_book.specs.Totals.{AreAtMost, AreInSessions, CanCount, Counts, amounts_with, counts_after, counts_with, fits_totals, ledger_parts};

use crate::counter::Counter;
use crate::desk::Settled;
use crate::desks::LEDGER_PARTS;
use crate::names::{Abandoned, Closed, Commands, Naming, Received};
use crate::tally::Tally;
use crate::totals::Totals;
use std::marker::Model;
use std::sync::ledger::Blank;

/// The four totals, their settled amounts, and the number of unsettled desks.
#[derive(Drop)]
pub struct Counters<S: Naming> {
    commands: Counter<Commands<S>>,
    received: Counter<Received<S>>,
    closed: Counter<Closed<S>>,
    abandoned: Counter<Abandoned<S>>,
    desks: u64,
}

impl<S: Naming> Model for Counters<S> {
    ghost Value = { Counts };

    ghost view = { λ c. record {
      totals = record {
        commands = c.commands.total;
        received = c.received.total;
        closed = c.closed.total;
        abandoned = c.abandoned.total;
      };
      settled = record {
        commands = c.commands.settled;
        received = c.received.settled;
        closed = c.closed.settled;
        abandoned = c.abandoned.settled;
      };
      desks = c.desks;
    } };

    ghost invariant = { λ c. (c.commands.parts + c.desks ≡ ledger_parts) ×
        (c.received.parts + c.desks ≡ ledger_parts) × (c.closed.parts + c.desks ≡ ledger_parts) ×
        (c.abandoned.parts + c.desks ≡ ledger_parts) };
}

impl<S: Naming> Counters<S> {
    /// Creates the counters of four new ledgers.
    pub fn new(commands: Blank, received: Blank, closed: Blank, abandoned: Blank) -> Counters<S>
        requires commands { IsLedger commands.name commands.parts S.names.commands }
        requires received { IsLedger received.name received.parts S.names.received }
        requires closed { IsLedger closed.name closed.parts S.names.closed }
        requires abandoned { IsLedger abandoned.name abandoned.parts S.names.abandoned }
        ensures { result ≡ record { totals = zero_amounts; settled = zero_amounts; desks = 0 } }
    {
        Counters {
            commands: Counter::new(commands),
            received: Counter::new(received),
            closed: Counter::new(closed),
            abandoned: Counter::new(abandoned),
            desks: 0,
        }
    }

    /// Returns whether one more command with these bytes can be counted in addition to the checked-out sessions.
    pub fn fits(&self, hands: u64, reserved: u64, bytes: u64) -> bool
        requires commands { self.now.totals.commands + hands < 2 ^ 64 }
        requires received { self.now.totals.received + reserved < 2 ^ 64 }
        ensures { result ≡ fits_totals self.now.totals hands reserved bytes }
    {
        self.commands.total() + hands < u64::MAX
            && bytes <= u64::MAX - (self.received.total() + reserved)
    }

    /// Counts an accepted command in the totals and in a desk's tally.
    pub fn add(&mut self, desk: &mut Tally<S>, received: u64, closed: u64, abandoned: u64)
        requires commands { self.old.totals.commands + 1 < 2 ^ 64 }
        requires received { self.old.totals.received + received < 2 ^ 64 }
        requires closed { self.old.totals.closed + closed < 2 ^ 64 }
        requires abandoned { self.old.totals.abandoned + abandoned < 2 ^ 64 }
        ensures totals { self.new ≡ counts_after self.old
            (command_amounts_of received closed abandoned) }
        ensures desk { desk.new ≡ add_amounts desk.old
            (command_amounts_of received closed abandoned) }
    {
        self.commands.add(&mut desk.commands, 1);
        self.received.add(&mut desk.received, received);
        self.closed.add(&mut desk.closed, closed);
        self.abandoned.add(&mut desk.abandoned, abandoned);
    }

    /// Counts a command in the totals and in a desk's tally, if it was accepted and abandoned these bytes.
    pub fn count_command(&mut self, desk: &mut Tally<S>, abandoned: Option<u64>)
        requires { IfSome abandoned (λ n. CanCount self.old.totals n) }
        ensures totals { self.new ≡ counts_with self.old abandoned }
        ensures desk { desk.new ≡ amounts_with desk.old abandoned }
    {
        if let Some(bytes) = abandoned {
            self.add(desk, 0, 0, bytes);
        }
    }

    /// Returns the totals. The bytes in sessions are those received less those closed and abandoned.
    pub fn totals(&self) -> Totals
        requires { self.now.totals.closed + self.now.totals.abandoned ≤ self.now.totals.received }
        ensures amounts { HasTotals result self.now.totals }
        ensures left { AreInSessions result.in_sessions self.now.totals }
        ensures desks { result.desks ≡ self.now.desks }
    {
        let received = self.received.total();
        let closed = self.closed.total();
        let abandoned = self.abandoned.total();
        Totals {
            commands: self.commands.total(),
            received,
            in_sessions: received - closed - abandoned,
            closed,
            abandoned,
            desks: self.desks,
        }
    }

    /// Returns the number of unsettled desks.
    pub fn desks(&self) -> u64
        ensures { (result ≡ self.now.desks) × (result ≤ LEDGER_PARTS) }
    {
        self.desks
    }

    /// Creates the tally of a new desk, with empty shares.
    pub fn issue(&mut self) -> Tally<S>
        requires { self.old.desks + 1 < LEDGER_PARTS }
        ensures counts { self.new ≡ record self.old { desks = self.old.desks + 1 } }
        ensures desk { result ≡ zero_amounts }
    {
        self.desks += 1;
        Tally {
            commands: self.commands.issue(),
            received: self.received.issue(),
            closed: self.closed.issue(),
            abandoned: self.abandoned.issue(),
        }
    }

    /// Settles a desk's tally. If no desk is unsettled then, the settled amounts equal the totals.
    pub fn settle(&mut self, desk: Tally<S>)
        ensures totals { self.new.totals ≡ self.old.totals }
        ensures desks { self.new.desks + 1 ≡ self.old.desks }
        ensures settled { self.new.settled ≡ add_amounts self.old.settled desk }
        ensures bound { AreAtMost self.new.settled self.old.totals }
        ensures all { self.new.desks ≡ 0 → self.new.settled ≡ self.new.totals }
    {
        let Tally {
            commands,
            received,
            closed,
            abandoned,
        } = desk;
        self.commands.settle(commands);
        self.received.settle(received);
        self.closed.settle(closed);
        self.abandoned.settle(abandoned);
        self.desks -= 1;
    }

    /// Does nothing at run time: it gives the caller the bounds on the settled amounts as a fact.
    pub fn reveal_invariant(&mut self)
        ensures same { self.new ≡ self.old }
        ensures bound { AreAtMost self.old.settled self.old.totals }
        ensures all { self.old.desks ≡ 0 → self.old.settled ≡ self.old.totals }
    {
        self.commands.reveal_invariant();
        self.received.reveal_invariant();
        self.closed.reveal_invariant();
        self.abandoned.reveal_invariant();
    }

    /// Returns the settled amounts and the number of unsettled desks.
    pub fn settled(&self) -> Settled
        ensures { HasSums result self.now.settled × (result.left ≡ self.now.desks) }
    {
        Settled {
            commands: self.commands.settled(),
            received: self.received.settled(),
            closed: self.closed.settled(),
            abandoned: self.abandoned.settled(),
            left: self.desks,
        }
    }
}
