//! Calls on the table under its lock.

use blob_digest::Digest;
use std::snapshot::Snapshot;
use store_api::Extent;
use store_book::{Lease, PinsName};

/// A call on the table under its lock: its arguments and its result.
#[derive(Drop)]
pub enum Call<'a, 'p, N: PinsName> {
    /// `keep`: the lease, and the returned number.
    Keep(Snapshot<Lease<'p, N>>, Option<u32>),
    /// `extent`: the number, the digest, the start, the end, and the returned extent.
    Read(u32, &'a Digest, u64, u64, &'a Option<Extent>),
    /// `give_back`: the number, and whether there was a lease.
    GiveBack(u32, bool),
}
