//! A reader that remembers whether a read of it failed, so that a contract can state that an error is returned only after
//! a read failed. It depends on std alone.
#![tactic(auto)]

mod watched;

pub use watched::Watched;
