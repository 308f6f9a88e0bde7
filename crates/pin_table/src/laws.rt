//! States the theorems about steps on words, lists of steps, the words at any moment, and looks.

ghost use Rattle.pin_table.specs.Laws.{StepsAreEvents, Histories, RunningWords};
ghost use Rattle.pin_table.specs.Looks.{LooksAreTrue};

/// States that each kind of step is its event.
///
/// If words and seats agree with a pin world before a step, the step's event can happen in that world. After the step,
/// words and seats agree with the world after the event. A split of the keeper's seat is no event: afterwards they
/// agree with the same world.
pub fn steps()
    ensures { StepsAreEvents }
{}

/// States that every list of steps from a new table is one list of events that can happen.
///
/// The steps may be those of any seats, in any order. There is one event for each step, and none for a split of the
/// keeper's seat. The reclamation theorem of `pin_core` holds for the events. After each step, words and seats agree
/// with the world after the events so far.
pub fn histories()
    ensures { Histories }
{}

/// States the consequences of the table's rule at any moment and for any interleaving of threads.
///
/// - Some events that can happen lead from free slots to a world with which words and seats agree. The reclamation
///   theorem of `pin_core` holds for them.
/// - The slot of each pin is used and has the pin's generation and digest in the keeper's rows.
/// - The slot's word is that of its row, with a sum of at least the pin's weight.
pub fn running_words()
    ensures { RunningWords }
{}

/// States that the sum which a look finds was in the slot's word at a moment of the call.
///
/// The theorem holds whatever kinds of steps the call makes:
///
/// - If a step of the keeper's seat counts one more look at a slot, the bound then equals the sum in the slot's word.
/// - If a pin leaves its seat, the seat records the current number of looks at its slot.
/// - Suppose a call counts one more look at a slot and still has all pins that it had or lent. The bound is then the
///   weight of the other pins on the slot at some moment of the call, plus the weight of the call's own pins.
/// - If a call on a pin ends with a seat that records the pin as released, nothing of the pin remains in the word.
pub fn looks()
    ensures { LooksAreTrue }
{}
