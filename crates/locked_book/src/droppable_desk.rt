//! A desk in a form that may be dropped, to cross a thread's boundary.
ghost use Rattle.std.specs.Prelude.{◌≡◌};

use crate::desk::Desk;
use crate::history::HistoryWriter;
use crate::names::Naming;
use crate::tally::Tally;
use std::marker::Model;

/// A desk that may be dropped, as closures and thread results require.
///
/// `Desk::into_droppable` makes it on one side of the thread's boundary, and `into_desk` makes the desk again on the
/// other. Both have the same shares, in the ledgers of the same store, and the same trace.
///
/// If it is dropped, its desk is never settled: it counts as unsettled for ever, and the totals keep its amounts.
#[derive(Drop)]
pub struct DroppableDesk<S: Naming> {
    pub(crate) tally: Tally<S>,
    pub(crate) writer: HistoryWriter<S>,
}

impl<S: Naming> Model for DroppableDesk<S> {
    ghost use Rattle.locked_book.specs.History.{DeskView};

    ghost Value = { DeskView };

    ghost view = { λ d. record { amounts = d.tally; trace = d.writer } };
}

impl<S: Naming> DroppableDesk<S> {
    /// Converts it back to the desk.
    ///
    /// # Memory
    ///
    /// Never allocates.
    pub fn into_desk(self) -> Desk<S>
        ensures { result ≡ self }
    {
        let DroppableDesk { tally, writer } = self;
        Desk { tally, writer }
    }
}
