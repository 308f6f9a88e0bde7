//! Keeps one atomic word for each slot of a store, changed by many threads without a lock.
//!
//! The holders of pins and the slots' keeper change the words at the same time. Between any two steps, the words are
//! those of a pin world (`pin_core`) that some legal events lead to, and the keeper's rows are the rows of that world
//! (`laws::running_words`). Each step is an event of that world (`laws::steps`), and every list of steps is a list of
//! events (`laws::histories`). A sum that a call reports having found was in the word at a moment of that call
//! (`laws::looks`).
//!
//! Only `Pins::new` allocates. No call waits for another thread.
#![tactic(auto)]

mod keeper;
pub mod laws;
mod padded;
mod pin;
mod pins;
mod plays;
mod reclaim;
mod rule;
mod view;

pub use keeper::Keeper;
pub use pin::{Left, Pin};
pub use pins::Pins;
pub use reclaim::Reclaim;
