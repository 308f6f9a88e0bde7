//! Defines a tenant's blobs and share.

/// The number of a tenant's distinct blobs, and its share of the slots.
#[derive(Clone, Copy, Debug, PartialEq, Eq, Drop)]
pub struct SlotUse {
    /// The number of distinct blobs that the tenant's repositories contain. Each takes a slot.
    pub blobs: u64,
    /// The maximum of that number. It never changes.
    pub share: u32,
}
