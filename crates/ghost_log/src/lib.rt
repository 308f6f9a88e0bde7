//! A log that several writers append to and that exists in the proof alone.
//!
//! The owner of the log is stored under a lock, next to the value whose changes the log records. Each thread has a
//! writer of its own. So the contract of a call through the lock can state which entry the call appended.
//!
//! - The owner has every entry, each with the number of the writer that appended it.
//! - A writer has the prefix of the log that it has seen, and the events that it appended itself.
//! - Each call guarantees its change of the log and of the writer.
//! - Each call also guarantees that the writer's own events are those of the entries with its number, in order.
//!
//! The owner and the writers are seats of the kit's `atomic_table`, which can't be copied. At run time there are no
//! entries: there is one atomic word, which is read and never written.
//!
//! The crate doesn't define the meaning of an entry. The type that stores the owner relates the log to its own state by
//! its invariant.
#![tactic(auto)]

pub mod laws;
mod log;
#[cfg(test)]
mod log_tests;
mod rule;
mod view;

pub use log::{SharedLog, Writer};
pub use rule::Event;
pub use view::{Entry, WriterView};
