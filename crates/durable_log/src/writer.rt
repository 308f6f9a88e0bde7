//! The writers of the history.

ghost use Rattle.std.specs.Prelude.{◌≡◌, ◌++◌, ◌∷◌, [], length, true, false, IfSome};
ghost use Rattle.ghost_log.specs.Entries.{entry, events_by};
ghost use Rattle.ghost_log.specs.Calls.{Agrees, with_entry};
ghost use Rattle.durable_log.specs.Encoding.{encode};
ghost use Rattle.durable_log.specs.Views.{IsCommitted, IsUnconfirmed, trace_seeing, trace_with, writer_of};

use crate::mark::HistoryMark;
use crate::names::Naming;
use ghost_log::{Event, SharedLog, Writer};
use std::marker::{Model, PhantomData};

/// The right to add events to a durable log under a number.
///
/// Contracts see the number, the prefix of the history that the writer has seen, its own events, and a prefix of the
/// history that it knows to be durable.
#[derive(Drop)]
pub struct LogWriter<E, N: Naming<E>> {
    pub(crate) writer: Writer<E>,
    /// The number of bytes of what the writer has seen, or `None` if the log did not record.
    pub(crate) position: Option<u64>,
    /// Whether an own promised event is not known to be durable.
    pub(crate) unconfirmed: bool,
    pub(crate) marker: Writer<HistoryMark<E>>,
    pub(crate) of: PhantomData<N>,
}

impl<E, N: Naming<E>> Model for LogWriter<E, N> {
    ghost use Rattle.durable_log.specs.Invariants.{HoldsWriter, trace_of};
    ghost use Rattle.durable_log.specs.Views.{Trace};

    ghost Value = { Trace E };

    ghost view = { λ w. trace_of w.writer w.marker };

    ghost invariant = { λ w. HoldsWriter N.names N.bytes N.promises w.writer w.position
        w.unconfirmed w.marker };
}

impl<E, N: Naming<E>> LogWriter<E, N> {
    /// Returns whether all own promised events are known to be durable.
    #[tactic(auto, using(crate::proofs::Writers::committed_or_not))]
    pub fn is_committed(&self) -> bool
        ensures committed { result ≡ true → IsCommitted N.promises self.now }
        ensures unconfirmed { result ≡ false → IsUnconfirmed N.promises self.now }
        ensures excluded { result ≡ false → IsCommitted N.promises self.now → ⊥ }
    {
        !self.unconfirmed
    }

    /// Does nothing at run time: it gives the caller the invariant of writers as a fact.
    ///
    /// The events under the writer's number in what it has seen are its own events, in order.
    pub fn reveal_invariant(&self)
        ensures { events_by self.now.number self.now.seen ≡ self.now.own }
    {
        self.writer.reveal_invariant();
    }

    /// Returns the number of bytes of what the writer has seen, or `None` if the log did not record.
    pub fn position(&self) -> Option<u64>
        ensures { IfSome result (λ n. n ≡ length (encode N.bytes self.now.seen)) }
    {
        self.position
    }

    /// Adds an event to the history, which has then `position` bytes.
    pub(crate) fn add<D: Event<E>>(
        &mut self,
        history: &mut SharedLog<E>,
        position: Option<u64>,
        promised: bool,
    )
        requires name { history.old.name ≡ N.names.history }
        requires position { IfSome position (λ n. n
            ≡ length (encode N.bytes (history.old.entries ++ entry self.old.number D.event ∷ []))) }
        requires promised { promised ≡ N.promises D.event }
        ensures agrees { Agrees history.old (writer_of N.names.history self.old) }
        ensures history { history.new ≡ with_entry self.old.number D.event history.old }
        ensures writer { self.new ≡ trace_with D.event history.old.entries self.old }
    {
        history.append::<D>(&mut self.writer);
        self.position = position;
        self.unconfirmed = self.unconfirmed || promised;
    }

    /// Shows the writer the whole history, which has `position` bytes.
    pub(crate) fn catch_up(&mut self, history: &mut SharedLog<E>, position: Option<u64>)
        requires name { history.old.name ≡ N.names.history }
        requires position { IfSome position (λ n. n ≡ length (encode N.bytes history.old.entries)) }
        ensures agrees { Agrees history.old (writer_of N.names.history self.old) }
        ensures history { history.new ≡ history.old }
        ensures writer { self.new ≡ trace_seeing history.old.entries self.old }
    {
        history.catch_up(&mut self.writer);
        self.position = position;
    }
}
