//! Reads what is left of a damaged log, and writes a log of the changes that can still be made.
//!
//! A [`Salvage`] takes the files of a log in their order. In each it finds the frames that are whole, also after a damaged one
//! ([`log_frames`] states where each begins), and writes the changes of their records that a store can still make, as the records of one
//! file. A change that needs something that is lost is left out, and is named at the end ([`Loss`]).
#![tactic(auto)]

mod ending;
mod error;
mod frames;
mod header;
mod loss;
mod maker;
mod repo_changes;
mod repos;
mod salvage;
mod session_changes;
mod sessions;

pub use error::SalvageError;
pub use frames::Gap;
pub use header::{Header, read_damaged_header};
pub use loss::Loss;
pub use salvage::{Salvage, Salvaged};
