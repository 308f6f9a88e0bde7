//! A store with contents on disk isolates tenants, although it has not read its contents since the start. The crate is proof alone.
#![tactic(auto)]

pub mod laws;
