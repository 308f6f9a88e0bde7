//! The state under a store's lock: the book with its totals and its history, and the desks that share both.
//!
//! A desk is a thread's handle on the store: its share of the totals and its part of the history.
//!
//! - At all times the book is sound, and the bytes received are those in sessions, closed and abandoned.
//! - A desk's amounts are those of its accepted commands. If all desks are settled, the sums of their shares are the
//!   totals.
//! - The history, which exists in the proof alone, leads from the opening catalog to the catalog of the book and to the
//!   totals.
//!
//! This crate has no lock and starts no thread: `blob_store` puts the lock around `Kept`.
#![tactic(auto)]

mod call;
mod checked_out;
mod commands;
mod counter;
mod counters;
mod desk;
mod desks;
mod droppable_desk;
mod durable_state;
mod hands;
mod history;
mod kept;
pub mod laws;
mod leases;
mod log;
mod manifests;
mod names;
mod policy;
mod record;
mod settling;
mod step;
mod tally;
mod totals;
mod tried;

pub use call::Call;
pub use counters::Counters;
pub use desk::{Desk, Settled};
pub use desks::{LEDGER_PARTS, MAX_DESKS};
pub use droppable_desk::DroppableDesk;
pub use history::{History, HistoryWriter};
pub use kept::Kept;
pub use names::{Naming, StoreLog, StorePins};
pub use policy::LogPolicy;
pub use record::{
    chunk_record, manifest_record, noted_chunk_record, noted_seal_record, seal_record,
};
pub use step::Step;
pub use tally::Tally;
pub use totals::Totals;
