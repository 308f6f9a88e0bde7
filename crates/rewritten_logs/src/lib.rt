//! A start on a log that was rewritten while its store was served restores what the store had. The crate is proof alone.
#![tactic(auto)]

pub mod laws;
pub mod restart;
