//! Defines the rule of the table, and names its types.

use crate::view::View;
use atomic_table::{Seat, Shared, Table, TableRule};
use std::alloc::Global;

/// The number of slots in a new table, and their generation.
#[derive(Clone, Copy)]
pub struct Opening {
    pub slots: usize,
    pub first_generation: u32,
}

/// The rule of the table: words and seats agree with a pin world (`Ruled` in `specs/Rule.antt`).
pub struct PinRule;

impl TableRule<(), View, Opening> for PinRule {
    ghost use Rattle.pin_table.specs.Rule.{Ruled, initial_view};

    ghost holds = { λ about s. Ruled about.slots about.first_generation s.words s.views };

    ghost first = { λ about. initial_view about.slots about.first_generation };
}

/// The table of the slots' words.
pub type PinTable = Table<(), View, Opening, PinRule, Global>;

/// The shared part of the table, on which steps are made.
pub type PinShared = Shared<(), View, Opening, PinRule>;

/// A seat at the table.
pub type PinSeat = Seat<(), View>;
