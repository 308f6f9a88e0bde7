//! Parses the arguments `TENANT=QUOTA`, `TENANT=QUOTA,BLOBS` or `TENANT=QUOTA,BLOBS,REPOS,MANIFESTS,UPLOADS` of a command
//! line into the tenants of a store.
//!
//! It depends on `spec_lib` for texts, on `blob_digest` for names and numbers, and on `link_table` for the limits. Its
//! contracts state that the tenants are those that the arguments spell, in their order, and that a store accepts them.
//! Unless memory runs out, parsing fails only if an argument is bad or there is none.
#![tactic(auto)]

mod fault;
mod tenants;

pub use fault::TenantFault;
pub use tenants::read_tenants;
