//! Models a store's slots and pins as a pure machine: the nine events on them, and the layout of a slot's word.
//!
//! For every list of events from free slots, `laws::reclamation` states two facts: the slot of each pin is used and
//! has the pin's generation and digest, and no slot is given while a pin is on it. `step` and `run` are proved to
//! be these events. Digests and refusals come from `blob_digest`.
#![tactic(auto)]

mod event;
pub mod laws;
mod pins;
mod rows;
mod state;
mod steps;
mod word;
mod world;

pub use event::Event;
pub use pins::halved;
pub use rows::{given, in_phase, reclaimed};
pub use state::PinState;
pub use steps::{run, step};
pub use word::{CONDEMNED, LAST_GENERATION, MAX_WEIGHT, NEW_WEIGHT, USED, WordRow, pack, unpack};
pub use world::{Phase, PinEntry, PinRecord, PinRow};
