//! A desk's share of the totals.
ghost use Rattle.std.specs.Prelude.{◌≡◌, ℕ};
ghost use Rattle.store_model.specs.Amounts.{Amounts};

use crate::counter::CounterShare;
use crate::names::{Abandoned, Closed, Commands, Naming, Received};
use std::marker::Model;

/// A desk's share of the four totals.
#[derive(Drop)]
pub struct Tally<S: Naming> {
    pub(crate) commands: CounterShare<Commands<S>>,
    pub(crate) received: CounterShare<Received<S>>,
    pub(crate) closed: CounterShare<Closed<S>>,
    pub(crate) abandoned: CounterShare<Abandoned<S>>,
}

impl<S: Naming> Model for Tally<S> {
    ghost Value = { Amounts };

    ghost view = { λ d. record {
      commands = d.commands;
      received = d.received;
      closed = d.closed;
      abandoned = d.abandoned;
    } };
}
