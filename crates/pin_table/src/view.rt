//! Defines the views of seats. These values exist only in proofs.

use pin_core::{PinRecord, PinRow};
use std::collections::LinkedList;

/// The view of the keeper's seat: lists by slot number, and a pin in transit.
pub struct KeeperView {
    /// The slots' rows.
    pub rows: LinkedList<PinRow>,
    /// The bounds on the sums of weights: the sum that the last look found, plus the weight lent since.
    pub bounds: LinkedList<u32>,
    /// The number of looks at each slot.
    pub looks: LinkedList<u64>,
    /// The total weight ever lent on each slot.
    pub lent: LinkedList<u64>,
    /// The pin in transit, if a call is in the middle of moving one.
    pub transit: Option<PinRecord>,
}

/// A released pin, and the number of looks at its slot at that time.
pub struct ReleasedPin {
    pub hold: PinRecord,
    pub look: u64,
}

/// The view of a seat.
pub enum View {
    /// The keeper, at the first seat.
    Keeper(KeeperView),
    /// A pin.
    Pin(PinRecord),
    /// A released pin. It weighs nothing in its slot's word.
    Left(ReleasedPin),
    /// A seat whose pin was moved to another seat.
    Empty,
}
