//! Tenants with quotas and shares, repositories, links, manifests, and each tenant's usage.
//!
//! A link is the fact that a repository contains a blob. Of a blob, this crate has only the digest and the size. A
//! tenant's usage is the size of each blob in its repositories, counted once, plus its charges. A charge never
//! exceeds the quota. The manifest returned for a blob is the one with the least digest in the repository that refers
//! to it.
#![tactic(auto)]

mod blobs;
mod holders;
mod linked_blobs;
mod linked_manifests;
mod linked_repos;
mod links;
mod manifest_table;
mod manifests;
mod repo_blobs;
mod repo_manifests;
mod repos;
mod tenant_index;
mod tenant_repos;
mod tenants;
mod usage;

pub use blobs::Blobs;
pub use links::Links;
pub use manifests::Manifests;
pub use repos::Repos;
pub use tenants::{
    GREATEST_LIMITS, MAX_QUOTA, MAX_TENANTS, TenantLimits, TenantSettings, UNLIMITED_SHARE,
    USUAL_LIMITS, are_supported,
};
