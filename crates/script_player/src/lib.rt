//! Executes the rows of a script on a backend of a store, and returns one reply for each row.
//!
//! A backend is a store that the program alone uses, or a worker's handle on a shared store (`store_api::Backend`).
//!
//! The contracts guarantee, for every backend:
//! - Rows are executed in their order, with one reply each.
//! - A row with a malformed field is refused for the first such field, and changes nothing.
//! - Any other row asks the backend for the command that its fields spell, and returns the backend's reply.
//! - Each lane keeps its leases by their names, and reads, shares and gives back its own leases only.
//! - Out of memory ends the run, and no reply is `Memory`.
//!
//! Each of several workers executes the rows of its lanes, and calls a gate before and after each row.
//! `RepliesByRow` merges the replies of all workers in the order of the rows.
#![tactic(auto)]

mod command;
mod fields;
mod gate;
mod lease_name;
mod leases;
mod order;
mod packed_rows;
mod places;
mod player;
mod row;
mod row_list;
mod script_rows;
mod worker;

pub use fields::has_fields;
pub use gate::{Gate, OpenGate};
pub use order::RepliesByRow;
pub use packed_rows::PackedRows;
pub use player::{play, run_rows, run_script};
pub use row::{BorrowedRow, Row};
pub use row_list::RowList;
pub use script_rows::ScriptRows;
pub use worker::{Worker, count_by_worker};
