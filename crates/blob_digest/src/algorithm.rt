//! Digest algorithms.

/// A digest algorithm (OCI Image Specification 1.1, "Digests", "Registered Algorithms").
#[derive(Clone, Copy, Debug, PartialEq, Eq)]
pub enum Algorithm {
    /// SHA-256 (FIPS 180-4, section 6.2).
    Sha256,
    /// SHA-512 (FIPS 180-4, section 6.4).
    Sha512,
}
