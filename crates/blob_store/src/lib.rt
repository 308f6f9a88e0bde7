//! The store that threads share: the book with its totals under one lock, desks, leases, and the workers that play a
//! script on it.
//!
//! `locked_book` has the value under the lock and the desks, `store_book` the leases, and `script_player` the rows that
//! workers play. Each command is a step of one legal history. A desk's amounts are those of its accepted commands.
//! After all desks are settled, the totals are the sums of their shares. Leases are read, shared and given back without
//! the lock. Workers reply to each row of a script once, and the replies have the order of the rows.
#![tactic(auto)]

mod commit;
mod durable_state;
pub mod laws;
mod lease;
mod manifests;
mod parts;
mod playing;
mod queries;
mod replay;
mod started;
mod store;
mod store_backend;
mod sweeps;
mod uploads;
mod workers;

pub use commit::SharedLogDevice;
pub use lease::Lease;
pub use locked_book::{
    Counters, Desk, DroppableDesk, Kept, LEDGER_PARTS, LogPolicy, MAX_DESKS, Naming, Settled,
    Totals,
};
pub use parts::Parts;
pub use playing::{MAX_WORKERS, Played, PlayedToEnd, play, play_to_end};
pub use script_player::{Gate, OpenGate, Row};
pub use started::StartedLog;
pub use store::Store;
pub use store_api::{Reply, Verb};
pub use store_backend::StoreBackend;
