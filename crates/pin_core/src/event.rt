//! Defines the events of a pin world.

use blob_digest::Digest;

/// A step of a pin world.
///
/// An event can't happen if its slot or pin doesn't exist. On a retired slot only a `Look` can happen.
#[derive(Clone, Copy, Debug, PartialEq, Eq)]
pub enum Event {
    /// A free slot becomes live, with a digest that no used slot has.
    Give { slot: u32, digest: Digest },
    /// A live slot gets a pin of weight 1,024 with its generation and digest.
    ///
    /// The pin's name is new, and the slot's sum of weights is then at most 2^30 - 1.
    Lend { slot: u32, pin: u64 },
    /// A pin of weight above 1 becomes two pins of half its weight. The second name is new.
    Share { pin: u64, second: u64 },
    /// A pin is removed.
    Leave { pin: u64 },
    /// A live slot becomes condemned.
    Condemn { slot: u32 },
    /// A condemned slot becomes live again.
    Revive { slot: u32 },
    /// A condemned slot without pins becomes free in its next generation, or retired after the last one.
    Reclaim { slot: u32 },
    /// A slot's word is read.
    Look { slot: u32 },
    /// A pin is compared with its slot.
    Verify { pin: u64 },
}
