//! Defines a tenant's use and quota.

/// A tenant's use and quota, in bytes.
#[derive(Clone, Copy, Debug, PartialEq, Eq, Drop)]
pub struct Usage {
    /// The size of each blob that the tenant's repositories contain, counted once, plus the bytes that its sessions have
    /// received and reserved. Manifests are not counted.
    pub used: u64,
    /// The tenant's quota. It never changes.
    pub quota: u64,
}
