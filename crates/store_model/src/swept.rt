//! Defines the counts of a sweep.

/// The counts of a sweep, which changes only blobs that no repository contains.
#[derive(Clone, Copy, Debug, PartialEq, Eq, Drop)]
pub struct Swept {
    /// The number of live blobs that the sweep condemned.
    pub condemned: u32,
    /// The number of slots freed.
    pub freed: u32,
    /// The number of slots that leases hold.
    pub held: u32,
    /// The number of slots retired because they were in the last generation.
    pub retired: u32,
}
