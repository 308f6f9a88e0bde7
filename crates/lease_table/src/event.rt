//! The entries of a table's log, which exist only in the proof.

ghost use Rattle.std.specs.Prelude.{◌≡◌};
ghost use Rattle.ghost_log.specs.Calls.{Agrees, with_entry, writer_after_append};
ghost use Rattle.lease_table.specs.Calls.{event_of};

use crate::call::Call;
use ghost_log::{Event, SharedLog, Writer};
use std::marker::{Brand, Model, PhantomData};
use store_book::PinsName;

/// An event of a table's history. It exists only in the proof.
pub struct LeaseEvent {
    none: (),
}

impl Model for LeaseEvent {
    ghost use Rattle.wire_server.specs.LeaseEvents.{TableEvent, LeaseNotGivenBack};

    ghost Value = { TableEvent };

    ghost view = { λ _. LeaseNotGivenBack 0 };
}

/// A type parameter that names an event.
pub trait EventName {
    ghost use Rattle.wire_server.specs.LeaseEvents.{TableEvent};

    ghost event: { TableEvent };
}

impl EventName for Brand {
    ghost use Rattle.wire_server.specs.LeaseEvents.{LeaseNotGivenBack};

    ghost event = { LeaseNotGivenBack 0 };
}

/// The event that `P` names.
pub struct PickedEvent<P> {
    of: PhantomData<P>,
}

impl<P: EventName> Event<LeaseEvent> for PickedEvent<P> {
    ghost event = { P.event };
}

// The proof of a call picks the event that `P` names.
fn append_as<P: EventName, N: PinsName>(
    log: &mut SharedLog<LeaseEvent>,
    writer: &mut Writer<LeaseEvent>,
    call: Call<'_, '_, N>,
)
    requires event { P.event ≡ event_of call }
    requires name { writer.old.name ≡ log.old.name }
    ensures agrees { Agrees log.old writer.old }
    ensures log { log.new ≡ with_entry writer.old.number P.event log.old }
    ensures writer { writer.new ≡ writer_after_append P.event log.old.entries writer.old }
{
    let _ = call;
    log.append::<PickedEvent<P>>(writer);
}

/// Appends the event of a call.
pub fn append<N: PinsName>(
    log: &mut SharedLog<LeaseEvent>,
    writer: &mut Writer<LeaseEvent>,
    call: Call<'_, '_, N>,
)
    requires { writer.old.name ≡ log.old.name }
    ensures agrees { Agrees log.old writer.old }
    ensures log { log.new ≡ with_entry writer.old.number (event_of call.entry) log.old }
    ensures writer { writer.new ≡ writer_after_append (event_of call.entry) log.old.entries
        writer.old }
{
    append_as::<Brand, N>(log, writer, call);
}
