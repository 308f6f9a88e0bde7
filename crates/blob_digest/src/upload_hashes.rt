//! The hashes of an upload's bytes.

ghost use Rattle.std.specs.Prelude.{◌≡◌, ◌≤◌, [], IfSome, length, take};
ghost use Rattle.blob_digest.specs.Digests.{algorithm_of, hash_text};
ghost use Rattle.blob_digest.specs.Hashing.{HashesUpload, IsSha256Of, IsSha512Of, UploadTakesIn};
ghost use Rattle.sha2.specs.Hashers.{Holds512};

use crate::algorithm::Algorithm;
use crate::digest::Digest;
use sha2::{Digest as _, Sha256, Sha512};

/// The hashes of the bytes of an upload so far.
///
/// SHA-256 (FIPS 180-4, section 6.2) takes in bytes as they come. SHA-512 (section 6.4) takes them in only when its
/// digest is requested. So the bytes of an upload that is closed by SHA-256, as nearly all are, go through one hash.
/// If the bytes are not there when a digest is requested, `update_both` lets SHA-512 take them in as they come too.
/// The value does not store the bytes: the caller passes them to `digest`. Contracts relate it to them by
/// `HashesUpload`.
///
/// # Memory
///
/// No call allocates.
#[derive(Drop)]
pub struct UploadHashes {
    sha256: Sha256,
    sha512: Sha512,
    through_sha512: usize,
    /// Whether SHA-512 has taken in all bytes that SHA-256 has.
    is_through_both: bool,
}

impl UploadHashes {
    /// Returns the hashes of no bytes.
    #[tactic(auto, unfolding(crate::specs::Hashing::HashesUpload))]
    pub fn new() -> UploadHashes
        ensures { HashesUpload result [] }
    {
        UploadHashes {
            sha256: Sha256::new(),
            sha512: Sha512::new(),
            through_sha512: 0,
            is_through_both: true,
        }
    }

    /// Takes in `bytes` after those before, by SHA-256.
    ///
    /// # Cost
    ///
    /// Each byte goes through SHA-256 once.
    pub fn update(&mut self, bytes: &[u8])
        ensures { UploadTakesIn self.old self.new bytes.now }
    {
        if bytes.is_empty() {
            return;
        }
        self.sha256.update(bytes);
        self.is_through_both = false;
    }

    /// Takes in `bytes` after those before, by SHA-256, and by SHA-512 too if it has taken in all bytes before.
    ///
    /// # Cost
    ///
    /// Each byte goes through SHA-256 once, and at most once through SHA-512.
    pub fn update_both(&mut self, bytes: &[u8])
        ensures { UploadTakesIn self.old self.new bytes.now }
    {
        self.sha256.update(bytes);
        match self.through_sha512.checked_add(bytes.len()) {
            Some(through) if self.is_through_both => {
                self.sha512.update(bytes);
                self.through_sha512 = through;
            }
            _ => self.is_through_both = false,
        }
    }

    /// Takes in `bytes` after those before, by `update_both` if `both`, and otherwise by `update`.
    pub fn update_by(&mut self, bytes: &[u8], both: bool)
        ensures { UploadTakesIn self.old self.new bytes.now }
    {
        if both {
            self.update_both(bytes);
        } else {
            self.update(bytes);
        }
    }

    /// Returns the hashes of the bytes before followed by `bytes`, and leaves `self` unchanged.
    ///
    /// # Cost
    ///
    /// A copy of the state, of some hundred bytes, and the cost of `update_by`.
    pub fn updated_by(&self, bytes: &[u8], both: bool) -> UploadHashes
        ensures { UploadTakesIn self.now result bytes.now }
    {
        match self.sha256.clone() {
            Ok(sha256) => match self.sha512.clone() {
                Ok(sha512) => {
                    let mut all = UploadHashes {
                        sha256,
                        sha512,
                        through_sha512: self.through_sha512,
                        is_through_both: self.is_through_both,
                    };
                    all.update_by(bytes, both);
                    all
                }
                Err(_) => unreachable!(),
            },
            Err(_) => unreachable!(),
        }
    }

    /// Makes SHA-512 take in the rest of `bytes`, which are all bytes that SHA-256 has taken in.
    fn catch_up(&mut self, bytes: &[u8])
        requires behind { self.old.through_sha512 ≤ length bytes.now }
        requires all { HashesUpload self.old bytes.now }
        ensures same { HashesUpload self.new bytes.now }
        ensures sha512 { Holds512 self.new.sha512 bytes.now }
    {
        self.sha512.update(&bytes[self.through_sha512..]);
        self.through_sha512 = bytes.len();
        self.is_through_both = true;
    }

    /// Returns the digest of `bytes`, of which the first `received` were taken in before.
    ///
    /// The call takes in no further bytes: `self` remains the hashes of the first `received`.
    ///
    /// # Cost
    ///
    /// The bytes after the first `received` go through the hash of `algorithm`. For SHA-512, so do the bytes taken in
    /// since its digest was last requested: none of the first `received` goes through SHA-512 twice.
    pub fn digest(&mut self, bytes: &[u8], received: usize, algorithm: Algorithm) -> Digest
        requires within { received ≤ length bytes.now }
        requires front { HashesUpload self.old (take received bytes.now) }
        ensures same { HashesUpload self.new (take received bytes.now) }
        ensures value { result ≡ hash_text algorithm bytes.now }
        ensures named { algorithm_of result ≡ algorithm }
    {
        let last = &bytes[received..];
        match algorithm {
            Algorithm::Sha256 => match self.sha256.clone() {
                Ok(mut all) => {
                    all.update(last);
                    Digest::of_sha256(all.finalize())
                }
                Err(_) => unreachable!(),
            },
            Algorithm::Sha512 => {
                self.catch_up(&bytes[..received]);
                match self.sha512.clone() {
                    Ok(mut all) => {
                        all.update(last);
                        Digest::of_sha512(all.finalize())
                    }
                    Err(_) => unreachable!(),
                }
            }
        }
    }

    /// Returns the digest by SHA-256 of all bytes that were taken in.
    #[tactic(auto, unfolding(crate::specs::Hashing::HashesUpload, crate::specs::Digests::sha256_text))]
    pub fn sha256(&self) -> Digest
        ensures { IsSha256Of self.now result }
    {
        match self.sha256.clone() {
            Ok(all) => Digest::of_sha256(all.finalize()),
            Err(_) => unreachable!(),
        }
    }

    /// Returns the digest by SHA-512 of all bytes that were taken in. Returns `None` if SHA-512 has not taken in all of them.
    #[tactic(auto, unfolding(crate::specs::Hashing::HashesUpload, crate::specs::Digests::sha512_text))]
    pub fn sha512(&self) -> Option<Digest>
        ensures { IfSome result (λ d. IsSha512Of self.now d) }
    {
        if !self.is_through_both {
            return None;
        }
        match self.sha512.clone() {
            Ok(all) => Some(Digest::of_sha512(all.finalize())),
            Err(_) => unreachable!(),
        }
    }
}
