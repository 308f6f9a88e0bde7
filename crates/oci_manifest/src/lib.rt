//! Reads manifests, and keeps each as the exact bytes that were given.
//!
//! It depends on `blob_digest` for digests and refusals, on `spec_lib` for the definitions of its contracts, on
//! `serde_json` for JSON (RFC 8259), and on `indexmap` for references without doubles. Its contracts state:
//!
//! - The references of a manifest are those of the definition `refs_of`, on the JSON value of the bytes (OCI Image
//!   Specification 1.1, "Image Manifest" and "Image Index").
//! - Unless memory runs out, `read` fails exactly for more than 4 MiB and for bytes without references.
//! - The digest of a manifest is the SHA-256 of its bytes (FIPS 180-4, section 6.2).
#![tactic(auto)]

mod manifest;
mod references;

pub use manifest::{MAX_MANIFEST, Manifest, read};
