//! The texts and values that every layer of the store uses: digests, repository names, byte ranges, numbers, hashes,
//! sealed blobs, and the enum of refusals.
//!
//! It depends on `spec_lib` for keys, on `sha2` for hashes and on `hex` for digits. Its contracts state:
//!
//! - A text is accepted only if its grammar has it (OCI Distribution Specification 1.1, "Pulling manifests" and
//!   "Pushing a blob in chunks"; OCI Image Specification 1.1, "Digests").
//! - A digest computed of bytes is the value of SHA-256 or SHA-512 (FIPS 180-4), in whichever pieces the bytes came.
//! - The bytes of a sealed blob have its digest.
#![tactic(auto)]

mod algorithm;
mod blob;
mod checksum;
mod digest;
mod limits;
mod name;
mod number;
mod range;
mod refusal;
mod repo_name;
mod running;
mod upload_hashes;

pub use algorithm::Algorithm;
pub use blob::Blob;
pub use digest::Digest;
pub use limits::{GREATEST_SLOTS, MAX_SLOTS};
pub use name::is_component;
pub use number::decimal;
pub use range::ByteRange;
pub use refusal::{Refusal, RefusalText};
pub use repo_name::RepoName;
pub use running::Running;
pub use upload_hashes::UploadHashes;
