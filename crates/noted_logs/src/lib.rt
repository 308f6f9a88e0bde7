//! A log that has notes of contents in place of their bytes determines a store up to these notes. The crate is proof alone.
#![tactic(auto)]

pub mod laws;
