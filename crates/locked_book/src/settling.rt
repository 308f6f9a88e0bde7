//! Settling desks, and comparing their steps with the history.

ghost use Rattle.std.specs.Prelude.{◌≡◌, ◌+◌, true, vec_len};
ghost use Rattle.locked_book.specs.History.{HasStepsOf, SettlesAll, steps_of_each};

use crate::counters::Counters;
use crate::desk::Desk;
use crate::history::History;
use crate::names::Naming;

/// Settles desks, and returns whether their steps are the whole history, each desk's under the number of its place.
pub fn settle_all<S: Naming>(
    counters: &mut Counters<S>,
    history: &mut History<S>,
    mut desks: Vec<Desk<S>>,
) -> bool
    ensures totals { counters.new.totals ≡ counters.old.totals }
    ensures history { history.new ≡ history.old }
    ensures desks { counters.new.desks + vec_len desks ≡ counters.old.desks }
    ensures settled { SettlesAll counters.old counters.new desks.items }
    ensures whole { result ≡ true → HasStepsOf history.new (steps_of_each desks.items) }
{
    let writers = desks.len() as u64;
    let mut whole = !desks.is_empty();
    while let Some(desk) = desks.pop() {
        let Desk { tally, writer } = desk;
        whole &= history.take_back(writer, desks.len() as u64, writers);
        counters.settle(tally);
    }
    desks.destroy_empty();
    whole
}
