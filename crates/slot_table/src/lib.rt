//! The slots of a store: each slot's blob, its number of links, its phase, and the slot of each digest.
//!
//! After each call the slots equal the list in its contract. No digest has two slots, and a failed call changes
//! nothing.
#![tactic(auto)]

mod phase;
mod row;
mod slot_set;
mod table;

pub use blob_digest::GREATEST_SLOTS;
pub use phase::Phase;
pub use table::SlotTable;
