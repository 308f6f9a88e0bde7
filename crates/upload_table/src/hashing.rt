//! How a chunk is hashed, and the hashes of a session's chunks.

ghost use Rattle.std.specs.Prelude.{◌≡◌, ◌≤◌, length, take};
ghost use Rattle.blob_digest.specs.Digests.{algorithm_of, hash_text};
ghost use Rattle.blob_digest.specs.Hashing.{HashesUpload};
ghost use Rattle.upload_table.specs.Uploaded.{HashesIfAny};

use blob_digest::{Algorithm, Blob, Digest, UploadHashes};

/// How the bytes of a session are hashed when its chunk is filled.
#[derive(Clone, Copy)]
pub enum Hashing<'b> {
    /// So that more chunks can follow: the chunk goes through SHA-256, and through SHA-512 too if the contents' files ask for it.
    Open,
    /// By one algorithm only, for a close that names it.
    Last(Algorithm),
    /// As `Last`, for a close by the digest of this blob. If the blob has the session's bytes, nothing is hashed.
    Known(&'b Blob),
    /// Not now. The next call that needs a hash hashes all bytes of the session.
    Later,
}

/// Hashes bytes, so that more can follow: by SHA-256, and by SHA-512 too if `both`.
pub(crate) fn hashes_of(bytes: &[u8], both: bool) -> UploadHashes
    ensures { HashesUpload result bytes.now }
{
    let mut hashes = UploadHashes::new();
    hashes.update_by(bytes, both);
    hashes
}

/// Returns the digest of `bytes` by an algorithm.
///
/// `front` describes the first `received`. If it is `None`, they are hashed, and `front` has their hashes then.
pub(crate) fn digest_after(
    front: &mut Option<UploadHashes>,
    bytes: &[u8],
    received: usize,
    algorithm: Algorithm,
) -> Digest
    requires within { received ≤ length bytes.now }
    requires front { HashesIfAny front.old (take received bytes.now) }
    ensures same { HashesIfAny front.new (take received bytes.now) }
    ensures value { result ≡ hash_text algorithm bytes.now }
    ensures named { algorithm_of result ≡ algorithm }
{
    match front {
        Some(hashes) => hashes.digest(bytes, received, algorithm),
        None => {
            let mut hashes = hashes_of(&bytes[..received], false);
            let digest = hashes.digest(bytes, received, algorithm);
            *front = Some(hashes);
            digest
        }
    }
}

/// Returns the digest of `bytes` by the algorithm of a blob's digest. Hashes nothing if the blob has these bytes.
///
/// `front` describes the first `received`, as for `digest_after`.
pub(crate) fn digest_as(
    blob: &Blob,
    front: &mut Option<UploadHashes>,
    bytes: &[u8],
    received: usize,
) -> Digest
    requires within { received ≤ length bytes.now }
    requires front { HashesIfAny front.old (take received bytes.now) }
    ensures same { HashesIfAny front.new (take received bytes.now) }
    ensures value { result ≡ hash_text (algorithm_of result) bytes.now }
{
    let digest = blob.digest();
    if let Some(known) = blob.bytes() {
        if known == bytes {
            return digest;
        }
    }
    digest_after(front, bytes, received, digest.algorithm())
}
