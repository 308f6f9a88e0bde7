//! The state of a registry's blob store, for one thread: tenants, repositories, links, manifests, blobs and uploads.
//!
//! `Book` combines four layers: `link_table`, `upload_table`, `slot_table`, and the keeper of `pin_table` for the
//! words of the slots. `oci_manifest` reads manifests, and `blob_digest` has names, digests and blobs.
//!
//! Contracts see a book as a catalog of finite sets and maps, with the table of its pins and a view of each slot: its
//! generation, its phase, its digest, a bound on its readers' weights, and a count of looks at its word.
//!
//! Each command's contract is the outcome that `store_model` defines: the first error that applies, with nothing
//! changed, or the reply with the new catalog. A book is well-formed at all times:
//!
//! - Each blob's bytes have its digest, and each linked digest has a blob.
//! - Each reference of a manifest is linked in the manifest's repository.
//! - No tenant's use passes its quota, and no tenant has more distinct blobs than its share.
//! - The running counts and uses of the layers are those that the definitions count.
#![tactic(auto)]

mod book;
mod config;
mod freed;
mod hands;
mod keep;
pub mod laws;
mod lease;
mod manifests;
mod mount;
mod pinned_slots;
mod print;
mod queries;
mod repos;
mod sweep;

pub use book::{Book, MAX_BLOB};
pub use config::Config;
pub use freed::Freed;
pub use lease::{Lease, PinsName};
pub use link_table::{
    GREATEST_LIMITS, MAX_QUOTA, MAX_TENANTS, TenantLimits, TenantSettings, UNLIMITED_SHARE,
    USUAL_LIMITS,
};
pub use slot_table::GREATEST_SLOTS;
pub use store_model::{Mount, SlotUse, Swept, Usage};
pub use sweep::SweptPart;
