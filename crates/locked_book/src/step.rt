//! The events of a store's log, which exist in the proof alone.

ghost use Rattle.std.specs.Prelude.{◌≡◌};
ghost use Rattle.durable_log.specs.Views.{AddsEvent, AgreesWith, trace_with};
ghost use Rattle.locked_book.specs.Calls.{step_of};
ghost use Rattle.locked_book.specs.Logging.{promises};
ghost use Rattle.locked_book.specs.Recording.{IsRecordOf};

use crate::call::Call;
use crate::names::{Naming, StoreLog};
use durable_log::{Backlog, LogWriter};
use ghost_log::Event;
use std::marker::{Brand, Model, PhantomData};

/// A step of a store's history. At run time it has no content.
pub struct Step {
    none: (),
}

impl Model for Step {
    ghost use Rattle.store_model.specs.Histories as histories;

    ghost Value = { histories.Step };

    ghost view = { λ _. histories.SweepCall (record {
      condemned = 0;
      freed = 0;
      held = 0;
      retired = 0;
    }) };
}

/// A type that names a step.
pub trait StepName {
    ghost use Rattle.store_model.specs.Histories as histories;

    ghost step: { histories.Step };
}

impl StepName for Brand {
    ghost use Rattle.store_model.specs.Histories as histories;

    ghost step = { histories.SweepCall (record {
      condemned = 0;
      freed = 0;
      held = 0;
      retired = 0;
    }) };
}

/// The event that is the step named by `P`.
pub struct Picked<P> {
    of: PhantomData<P>,
}

impl<P: StepName> Event<Step> for Picked<P> {
    ghost event = { P.step };
}

// The proof chooses `P`, and with it the step.
fn append_as<S: Naming, P: StepName>(
    backlog: &mut Backlog<Step, StoreLog<S>>,
    writer: &mut LogWriter<Step, StoreLog<S>>,
    call: Call<'_>,
    bytes: &[u8],
    promised: bool,
)
    requires step { P.step ≡ step_of call }
    requires bytes { IsRecordOf S.names backlog.old bytes.now P.step }
    requires promised { promised ≡ promises S.names.policy P.step }
    ensures agrees { AgreesWith S.names.log.history backlog.old writer.old }
    ensures history { AddsEvent writer.old.number P.step backlog.old backlog.new }
    ensures writer { writer.new ≡ trace_with P.step backlog.old.history writer.old }
{
    let _ = call;
    backlog.append::<Picked<P>>(writer, bytes, promised);
}

/// Adds the step that a call is, with its record.
pub fn append<S: Naming>(
    backlog: &mut Backlog<Step, StoreLog<S>>,
    writer: &mut LogWriter<Step, StoreLog<S>>,
    call: Call<'_>,
    bytes: &[u8],
    promised: bool,
)
    requires bytes { IsRecordOf S.names backlog.old bytes.now (step_of call) }
    requires promised { promised ≡ promises S.names.policy (step_of call) }
    ensures agrees { AgreesWith S.names.log.history backlog.old writer.old }
    ensures history { AddsEvent writer.old.number (step_of call.entry) backlog.old backlog.new }
    ensures writer { writer.new ≡ trace_with (step_of call.entry) backlog.old.history writer.old }
{
    append_as::<S, Brand>(backlog, writer, call, bytes, promised);
}

// The proof chooses `P`, and with it the step.
fn append_owned_as<S: Naming, P: StepName>(
    backlog: &mut Backlog<Step, StoreLog<S>>,
    writer: &mut LogWriter<Step, StoreLog<S>>,
    call: Call<'_>,
    bytes: Vec<u8>,
    promised: bool,
)
    requires step { P.step ≡ step_of call }
    requires bytes { IsRecordOf S.names backlog.old bytes.items P.step }
    requires promised { promised ≡ promises S.names.policy P.step }
    ensures agrees { AgreesWith S.names.log.history backlog.old writer.old }
    ensures history { AddsEvent writer.old.number P.step backlog.old backlog.new }
    ensures writer { writer.new ≡ trace_with P.step backlog.old.history writer.old }
{
    let _ = call;
    backlog.append_owned::<Picked<P>>(writer, bytes, promised);
}

/// Adds the step that a call is, with its record, which is not copied.
pub fn append_owned<S: Naming>(
    backlog: &mut Backlog<Step, StoreLog<S>>,
    writer: &mut LogWriter<Step, StoreLog<S>>,
    call: Call<'_>,
    bytes: Vec<u8>,
    promised: bool,
)
    requires bytes { IsRecordOf S.names backlog.old bytes.items (step_of call) }
    requires promised { promised ≡ promises S.names.policy (step_of call) }
    ensures agrees { AgreesWith S.names.log.history backlog.old writer.old }
    ensures history { AddsEvent writer.old.number (step_of call.entry) backlog.old backlog.new }
    ensures writer { writer.new ≡ trace_with (step_of call.entry) backlog.old.history writer.old }
{
    append_owned_as::<S, Brand>(backlog, writer, call, bytes, promised);
}
