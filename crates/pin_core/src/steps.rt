//! Computes the state after one event, and after a list of events.

ghost use Rattle.std.specs.Prelude.{◌≡◌, IfOk, IfErr};
ghost use Rattle.blob_digest.specs.declared.refusal.Refusal.TheVariants.{Memory};
ghost use Rattle.pin_core.specs.Events.{Can, IsRunResult, IsStepResult};

use crate::event::Event;
use crate::state::PinState;
use blob_digest::Refusal;

/// Returns the state after an event, or `None` exactly if the event can't happen.
///
/// # Errors
///
/// - `Memory` if the event can happen and allocation fails.
///
/// # Cost
///
/// Copies all slots and pins once.
pub fn step(state: &PinState, event: &Event) -> Result<Option<PinState>, Refusal>
    ensures stepped { IfOk result (λ found. IsStepResult state.now event.now found) }
    ensures refused { IfErr result (λ e. (e ≡ Memory) × Can state.now event.now) }
{
    if !state.can(event) {
        return Ok(None);
    }
    let mut next = state.copy()?;
    next.change(event)?;
    Ok(Some(next))
}

/// Returns the state after a list of events, or `None` exactly if one of them can't happen in its turn.
///
/// # Errors
///
/// - `Memory` if allocation fails.
///
/// # Cost
///
/// Copies all slots and pins once. Each event is at most linear in the number of slots and pins.
pub fn run(state: &PinState, events: &[Event]) -> Result<Option<PinState>, Refusal>
    ensures ran { IfOk result (λ found. IsRunResult state.now events.now found) }
    ensures refused { IfErr result (λ e. e ≡ Memory) }
{
    let mut next = state.copy()?;
    for event in events {
        if !next.can(event) {
            return Ok(None);
        }
        next.change(event)?;
    }
    Ok(Some(next))
}
