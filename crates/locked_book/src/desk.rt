//! A thread's handle on the store.
ghost use Rattle.std.specs.Prelude.{◌≡◌, ℕ};
ghost use Rattle.locked_book.specs.History.{IsPart};

use crate::droppable_desk::DroppableDesk;
use crate::history::HistoryWriter;
use crate::names::Naming;
use crate::tally::Tally;
use std::marker::Model;

/// A thread's handle on the store: its share of the four totals and its part of the history.
///
/// It is the right to add steps to the history under a number of its own. Contracts see its amounts and its trace: its
/// number, the prefix of the history that it has seen, and its own steps.
///
/// A desk can't be dropped: `Kept::settle` or `conclude` consumes it. `into_droppable` converts it to a type that
/// closures and thread results may hold.
pub struct Desk<S: Naming> {
    pub(crate) tally: Tally<S>,
    pub(crate) writer: HistoryWriter<S>,
}

impl<S: Naming> Model for Desk<S> {
    ghost use Rattle.locked_book.specs.History.{DeskView};

    ghost Value = { DeskView };

    ghost view = { λ d. record { amounts = d.tally; trace = d.writer } };
}

impl<S: Naming> Desk<S> {
    /// Returns the number of accepted commands.
    pub fn commands(&self) -> u64
        ensures { result ≡ self.now.amounts.commands }
    {
        self.tally.commands.amount()
    }

    /// Returns the bytes received.
    pub fn received(&self) -> u64
        ensures { result ≡ self.now.amounts.received }
    {
        self.tally.received.amount()
    }

    /// Returns the bytes of closed sessions.
    pub fn closed(&self) -> u64
        ensures { result ≡ self.now.amounts.closed }
    {
        self.tally.closed.amount()
    }

    /// Returns the bytes of abandoned sessions.
    pub fn abandoned(&self) -> u64
        ensures { result ≡ self.now.amounts.abandoned }
    {
        self.tally.abandoned.amount()
    }

    /// Does nothing at run time: it gives the caller the invariant of desks as a fact.
    ///
    /// A desk's trace is part of a legal history.
    pub fn reveal_invariant(&self)
        ensures { IsPart S.names.opening self.now.trace }
    {
        self.writer.reveal_invariant();
    }

    /// Converts the desk to a type that a closure or a thread's result may hold.
    ///
    /// # Memory
    ///
    /// Never allocates.
    pub fn into_droppable(self) -> DroppableDesk<S>
        ensures { result ≡ self }
    {
        let Desk { tally, writer } = self;
        DroppableDesk { tally, writer }
    }
}

/// The sums of settled shares, and the number of desks that are still unsettled.
#[derive(Clone, Copy, PartialEq, Eq, Debug)]
pub struct Settled {
    /// Accepted commands.
    pub commands: u64,
    /// Bytes received.
    pub received: u64,
    /// Bytes of closed sessions.
    pub closed: u64,
    /// Bytes of abandoned sessions.
    pub abandoned: u64,
    /// Desks that are still unsettled.
    pub left: u64,
}
