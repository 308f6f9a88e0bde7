//! A table of leases by their numbers, and the history of its events.
//!
//! A kept lease gets a number, by which any connection may read it or give it back. `LockedLeaseTable` is the value under a
//! lock that connections share: the table, and a log of its events, which exists only in the proof. Each connection has a
//! `LeaseWriter`. The crate depends on `store_book` for leases, on `wire_server` for the events of a table, and on
//! `ghost_log` for the log. It has no lock and no thread: `blobd` puts the lock around the table.
//!
//! It guarantees which step of the table each call is, by its number and its result. That step alone is added to the one
//! history of the table, which leads from the empty table to the present one.
#![tactic(auto)]

mod call;
mod event;
mod history;
mod locked;
mod naming;
mod table;

pub use call::Call;
pub use event::LeaseEvent;
pub use history::{LeaseHistory, LeaseWriter};
pub use locked::LockedLeaseTable;
pub use naming::LeaseNaming;
pub use table::LeaseTable;
