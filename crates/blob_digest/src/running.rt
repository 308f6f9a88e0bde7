//! Hashes computed piece by piece.
ghost use Rattle.std.specs.Prelude.{◌≡◌, ℕ, List, []};
ghost use Rattle.blob_digest.specs.Digests.{hash_text};
ghost use Rattle.blob_digest.specs.Hashing.{Hashes, TakesIn};

use crate::algorithm::Algorithm;
use crate::digest::Digest;
use sha2::{Digest as _, Sha256, Sha512};

/// The hashes of the bytes so far, by SHA-256 and by SHA-512 (FIPS 180-4, sections 6.2 and 6.4).
///
/// Contracts relate the value to the bytes by `Hashes`, in whichever pieces they came. An upload uses `UploadHashes`
/// instead, which delays SHA-512.
///
/// # Memory
///
/// No call allocates.
#[derive(Drop)]
pub struct Running {
    sha256: Sha256,
    sha512: Sha512,
}

impl Running {
    /// Returns the hashes of no bytes.
    #[tactic(auto, unfolding(crate::specs::Hashing::Hashes))]
    pub fn new() -> Running
        ensures { Hashes result [] }
    {
        Running {
            sha256: Sha256::new(),
            sha512: Sha512::new(),
        }
    }

    /// Takes in `bytes` after those before.
    ///
    /// # Cost
    ///
    /// Each byte goes through both hashes once.
    #[tactic(auto, unfolding(crate::specs::Hashing::Hashes))]
    pub fn update(&mut self, bytes: &[u8])
        ensures { TakesIn self.old self.new bytes.now }
    {
        self.sha256.update(bytes);
        self.sha512.update(bytes);
    }

    /// Returns the digest of all bytes that were taken in, by one algorithm.
    #[tactic(auto, unfolding(crate::specs::Hashing::Hashes, crate::specs::Digests::sha256_text, crate::specs::Digests::sha512_text))]
    pub fn finish(self, algorithm: Algorithm) -> Digest
        ensures { (bytes : List ℕ) → Hashes self bytes → result ≡ hash_text algorithm bytes }
    {
        match algorithm {
            Algorithm::Sha256 => Digest::of_sha256(self.sha256.finalize()),
            Algorithm::Sha512 => Digest::of_sha512(self.sha512.finalize()),
        }
    }
}
