//! Rewrites a log: finds which records are still needed, and gives the changes of a shorter log that has the same final
//! state.
//!
//! The records of the log are read twice. An [`Inventory`] notes each change of the first pass. The [`Filter`] made of it gives, for
//! each change of the second pass, those of the rewritten log. [`give_changes`] and [`LogRewriting`] make the passes over the
//! frames of the log's segments. A [`Survey`] finds at less cost how much of a log is needed at least.
#![tactic(auto)]

mod blobs;
mod collect;
mod empty_index;
mod error;
mod failure;
mod filter;
mod inventory;
mod joining;
mod kept;
mod lengths;
mod logs;
mod names;
mod place;
mod seals;
mod survey;
mod writing;

pub use error::InventoryError;
pub use failure::RewriteError;
pub use filter::Filter;
pub use inventory::Inventory;
pub use joining::{Receiver, give_changes};
pub use kept::Kept;
pub use logs::LogRewriting;
pub use survey::Survey;
pub use writing::RecordWriter;
