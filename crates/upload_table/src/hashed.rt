//! The hash of all bytes of a session, including those of a last chunk.

ghost use Rattle.std.specs.Prelude.{◌≡◌, ◌≤◌, IfSome, drop, length, take};
ghost use Rattle.blob_digest.specs.Digests.{hash_text};
ghost use Rattle.upload_table.specs.Rows.{ExtendsHashes, GivesHashes, IsDigestOfAll, IsHashOf, IsHashWith};
ghost use Rattle.upload_table.specs.Uploaded.{HashesIfAny};

use crate::hashing::{Hashing, digest_after, digest_as, hashes_of};
use blob_digest::{Algorithm, Digest, UploadHashes};
use content_files::Content;

/// The hash of all bytes of a session, once its last chunk is filled.
#[derive(Drop)]
pub(crate) enum ContentHash {
    /// The hashes of the bytes: more chunks can follow, and any digest can be computed.
    All(UploadHashes),
    /// The digest by one algorithm, which is enough for a close that names it.
    One(Digest),
    /// None was computed.
    Missing,
}

impl ContentHash {
    /// Hashes a content that ends with `chunk`, and of which `front` describes the first `received` bytes.
    ///
    /// If the content is not in memory, only the chunk is hashed: by SHA-256, and by SHA-512 too if `both`.
    pub(crate) fn of_content(
        front: &mut Option<UploadHashes>,
        content: &Content,
        chunk: &[u8],
        received: usize,
        hashing: Hashing<'_>,
        both: bool,
    ) -> ContentHash
        requires within { received ≤ length content.now }
        requires chunk { drop received content.now ≡ chunk.now }
        requires front { HashesIfAny front.old (take received content.now) }
        ensures same { HashesIfAny front.new (take received content.now) }
        ensures all { IsHashOf result content.now }
    {
        match content.bytes() {
            Some(bytes) => ContentHash::of(front, bytes, received, hashing, both),
            None => ContentHash::of_chunk(front, chunk, hashing, both),
        }
    }

    /// Hashes a chunk after bytes that `front` describes and that are not in memory.
    ///
    /// A close by SHA-512 needs a hash only if `both`: otherwise SHA-512 has not taken in the bytes before.
    pub(crate) fn of_chunk(
        front: &Option<UploadHashes>,
        chunk: &[u8],
        hashing: Hashing<'_>,
        both: bool,
    ) -> ContentHash
        ensures { IsHashWith result front.now chunk.now }
    {
        let Some(hashes) = front else {
            return ContentHash::Missing;
        };
        match hashing {
            Hashing::Open => ContentHash::All(hashes.updated_by(chunk, both)),
            Hashing::Last(Algorithm::Sha256) => ContentHash::All(hashes.updated_by(chunk, false)),
            Hashing::Last(Algorithm::Sha512) if both => {
                ContentHash::All(hashes.updated_by(chunk, true))
            }
            _ => ContentHash::Missing,
        }
    }

    /// Hashes `bytes`, of which `front` describes the first `received`. If more chunks can follow and `both`, SHA-512 takes in the
    /// bytes too.
    pub(crate) fn of(
        front: &mut Option<UploadHashes>,
        bytes: &[u8],
        received: usize,
        hashing: Hashing<'_>,
        both: bool,
    ) -> ContentHash
        requires within { received ≤ length bytes.now }
        requires front { HashesIfAny front.old (take received bytes.now) }
        ensures same { HashesIfAny front.new (take received bytes.now) }
        ensures all { IsHashOf result bytes.now }
    {
        match hashing {
            Hashing::Open => match front {
                Some(hashes) => ContentHash::All(hashes.updated_by(&bytes[received..], both)),
                None => ContentHash::All(hashes_of(bytes, both)),
            },
            Hashing::Last(algorithm) => {
                ContentHash::One(digest_after(front, bytes, received, algorithm))
            }
            Hashing::Known(blob) => ContentHash::One(digest_as(blob, front, bytes, received)),
            Hashing::Later => ContentHash::Missing,
        }
    }

    /// Turns the hashes of the bytes before the last chunk into those of all bytes.
    ///
    /// Hashes the chunk again if only its digest was computed. There are no hashes if none was computed.
    pub(crate) fn move_into(self, front: &mut Option<UploadHashes>, chunk: &[u8])
        ensures { ExtendsHashes self front.old front.new chunk.now }
    {
        match self {
            ContentHash::All(all) => *front = Some(all),
            ContentHash::One(_) => {
                if let Some(hashes) = front {
                    hashes.update(chunk);
                }
            }
            ContentHash::Missing => *front = None,
        }
    }

    /// Turns the hashes of the bytes before the last chunk into those of all bytes, which are not in memory.
    ///
    /// There are no hashes if only a digest was computed, or none.
    pub(crate) fn move_without_bytes(self, front: &mut Option<UploadHashes>)
        ensures { GivesHashes self front.new }
    {
        match self {
            ContentHash::All(all) => *front = Some(all),
            ContentHash::One(_) | ContentHash::Missing => *front = None,
        }
    }

    /// Returns the digest of all bytes by an algorithm, if it was computed.
    pub(crate) fn digest_without_bytes(self, algorithm: Algorithm) -> Option<Digest>
        ensures { IfSome result (λ d. IsDigestOfAll self algorithm d) }
    {
        match self {
            ContentHash::All(all) => match algorithm {
                Algorithm::Sha256 => Some(all.sha256()),
                Algorithm::Sha512 => all.sha512(),
            },
            ContentHash::One(found) => {
                if found.algorithm() != algorithm {
                    return None;
                }
                Some(found)
            }
            ContentHash::Missing => None,
        }
    }

    /// Returns the digest of all bytes by an algorithm.
    ///
    /// Hashes the chunk again if only the digest by the other algorithm was computed, and if none was. `front` still
    /// describes the bytes before the chunk.
    pub(crate) fn digest(
        self,
        front: &mut Option<UploadHashes>,
        bytes: &[u8],
        received: usize,
        algorithm: Algorithm,
    ) -> Digest
        requires within { received ≤ length bytes.now }
        requires front { HashesIfAny front.old (take received bytes.now) }
        requires all { IsHashOf self bytes.now }
        ensures same { HashesIfAny front.new (take received bytes.now) }
        ensures value { result ≡ hash_text algorithm bytes.now }
    {
        match self {
            ContentHash::All(mut all) => match algorithm {
                Algorithm::Sha256 => all.digest(bytes, bytes.len(), algorithm),
                Algorithm::Sha512 => digest_after(front, bytes, received, algorithm),
            },
            ContentHash::One(found) => {
                if found.algorithm() == algorithm {
                    found
                } else {
                    digest_after(front, bytes, received, algorithm)
                }
            }
            ContentHash::Missing => digest_after(front, bytes, received, algorithm),
        }
    }
}
