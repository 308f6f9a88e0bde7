//! Definitions and lemmas on lists, options, finite maps and sets, ordered rows, and steps that may fail, which std does
//! not have. The crate has no code that runs, and nothing that is specific to blobs.
#![tactic(auto)]
