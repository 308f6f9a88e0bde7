//! The history of a table of leases, and its writers.

ghost use Rattle.std.specs.Prelude.{◌≡◌, []};
ghost use Rattle.ghost_log.specs.Entries.{IsPrefix};
ghost use Rattle.lease_table.specs.Calls.{event_of};
ghost use Rattle.lease_table.specs.Histories.{AddsEvent, ExtendsLog, IsLegal, IsLeaseHistoryPart, CanExtend, events_of};

use crate::call::Call;
use crate::event::{LeaseEvent, append};
use crate::naming::LeaseNaming;
use ghost_log::{SharedLog, Writer};
use std::marker::{Model, PhantomData};
use store_book::PinsName;

/// The history of a table of leases: all events of the table, which exist only in the proof.
#[derive(Drop)]
pub struct LeaseHistory<L: LeaseNaming> {
    log: SharedLog<LeaseEvent>,
    of: PhantomData<L>,
}

impl<L: LeaseNaming> Model for LeaseHistory<L> {
    ghost use Rattle.std.specs.Prelude.{◌≡◌, List};
    ghost use Rattle.ghost_log.specs.declared.view.Entry.{Entry};
    ghost use Rattle.wire_server.specs.LeaseEvents.{TableEvent};

    ghost Value = { List (Entry TableEvent) };

    ghost view = { λ h. h.log.entries };

    ghost invariant = { λ h. h.log.name ≡ L.log };
}

/// A writer of a table's history, with a number of its own. Contracts see its trace: its number, the part of the history
/// that it has seen, and its own events.
#[derive(Drop)]
pub struct LeaseWriter<L: LeaseNaming> {
    writer: Writer<LeaseEvent>,
    of: PhantomData<L>,
}

impl<L: LeaseNaming> Model for LeaseWriter<L> {
    ghost use Rattle.lease_table.specs.Histories.{IsLeaseHistoryPart, LeaseTrace, trace_of};

    ghost Value = { LeaseTrace };

    ghost view = { λ w. trace_of w.writer };

    ghost invariant = { λ w. IsLeaseHistoryPart L.log (trace_of w.writer) };
}

impl<L: LeaseNaming> LeaseWriter<L> {
    /// Does nothing. Its contract states the invariant of a writer: its trace is part of a legal sequential history.
    pub fn reveal_invariant(&self)
        ensures { IsLeaseHistoryPart L.log self.now }
    {
        let _ = &self.writer;
    }
}

impl<L: LeaseNaming> LeaseHistory<L> {
    /// Makes a history without events and without writers.
    pub fn new(log: SharedLog<LeaseEvent>) -> LeaseHistory<L>
        requires name { log.name ≡ L.log }
        requires empty { log.entries ≡ [] }
        ensures { result ≡ [] }
    {
        LeaseHistory {
            log,
            of: PhantomData,
        }
    }

    /// Makes a writer with a new number, which has seen the whole history and added nothing.
    pub fn writer(&mut self) -> LeaseWriter<L>
        requires { IsLegal (events_of self.old) }
        ensures same { self.new ≡ self.old }
        ensures writer { (result.own ≡ []) × (result.seen ≡ self.old) }
    {
        let writer = self.log.writer();
        writer.reveal_invariant();
        LeaseWriter {
            writer,
            of: PhantomData,
        }
    }

    /// Adds the event of a call, which is a step of the table that the history leads to.
    pub fn add<N: PinsName>(&mut self, writer: &mut LeaseWriter<L>, call: Call<'_, '_, N>)
        requires { CanExtend self.old (event_of call) }
        ensures adds { AddsEvent writer.old (event_of call.entry) writer.new }
        ensures leads { ExtendsLog self.old (event_of call.entry) self.new }
    {
        append(&mut self.log, &mut writer.writer, call);
    }

    /// Shows the whole history to a writer.
    pub fn catch_up(&mut self, writer: &mut LeaseWriter<L>)
        requires { IsLegal (events_of self.old) }
        ensures same { self.new ≡ self.old }
        ensures seen { (writer.new.seen ≡ self.old) × IsPrefix writer.old.seen self.old }
        ensures own { writer.new.own ≡ writer.old.own }
    {
        self.log.catch_up(&mut writer.writer);
    }
}
