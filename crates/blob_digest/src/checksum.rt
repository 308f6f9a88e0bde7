//! The two parts of a digest: an algorithm (OCI Image Specification 1.1, "Digests", "Registered Algorithms") and the
//! value that it computed.
ghost use Rattle.std.specs.Prelude.{◌≡◌};
ghost use Rattle.blob_digest.specs.Checksums.{checksum_algorithm, prefix_of, value_of};

use crate::algorithm::Algorithm;

/// An algorithm with the value that it computed.
#[derive(Clone, Copy, Debug, PartialEq, Eq, Hash)]
pub enum Checksum {
    /// SHA-256 (FIPS 180-4, section 6.2).
    Sha256([u8; 32]),
    /// SHA-512 (FIPS 180-4, section 6.4).
    Sha512([u8; 64]),
}

impl Checksum {
    /// Returns the algorithm.
    pub fn algorithm(&self) -> Algorithm
        ensures { result ≡ checksum_algorithm self.now }
    {
        match self {
            Checksum::Sha256(_) => Algorithm::Sha256,
            Checksum::Sha512(_) => Algorithm::Sha512,
        }
    }

    /// Returns the identifier of the algorithm and a colon.
    pub fn prefix(&self) -> &'static str
        ensures { result.now ≡ prefix_of self.now }
    {
        match self {
            Checksum::Sha256(_) => "sha256:",
            Checksum::Sha512(_) => "sha512:",
        }
    }

    /// Returns the bytes of the value.
    pub fn value(&self) -> &[u8]
        ensures { result.now ≡ value_of self.now }
    {
        match self {
            Checksum::Sha256(value) => value.as_slice(),
            Checksum::Sha512(value) => value.as_slice(),
        }
    }
}
