//! Limits that several layers share.

/// The maximum number of slots of a world, and of a table that is made by `Pins::new`.
pub const MAX_SLOTS: u32 = 65_536;

/// The greatest number of slots of a store, 2^24.
pub const GREATEST_SLOTS: u32 = 16_777_216;
