//! Specifies a blob store: its abstract state (the catalog), its commands, its sweeps and its printed text.
//!
//! The crate contains definitions and theorems only. A command is a function from a catalog to an error, or to a result
//! with the catalog after it. The lines of its definition are the checks, in the order of the errors.
//!
//! The theorems are the contracts of the functions in `laws`. Runs keep a catalog sound, counts and uses are those of
//! the links, and tenants are isolated from each other. The crates above prove that the code meets the definitions.
//! Their contracts cite them.
#![tactic(auto)]

pub mod laws;
mod mount;
mod slot_use;
mod swept;
mod usage;

pub use mount::Mount;
pub use slot_use::SlotUse;
pub use swept::Swept;
pub use usage::Usage;
