//! Defines the result of reclaiming a slot.

/// The result of `Pins::reclaim`.
#[derive(Clone, Copy, Debug, PartialEq, Eq)]
pub enum Reclaim {
    /// The slot is free in its next generation.
    Freed,
    /// The slot was in the last generation. It is never given a digest again.
    Retired,
    /// Pins hold the slot. The sum of their weights, as the exchange found it, is `weight`, which is above 0.
    Held { weight: u32 },
}
