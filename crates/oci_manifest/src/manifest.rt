//! A manifest, and the call that reads it.
ghost use Rattle.std.specs.Prelude.{◌≡◌, ◌<◌, ◌≤◌, IfOk, IfErr, IsSome, Some, length};
ghost use Rattle.blob_digest.specs.Digests.{sha256_text};
ghost use Rattle.oci_manifest.specs.Manifests.{IsReadRefusal, max_manifest, refs_of};

use crate::references::{distinct_digests, named_digests};
use blob_digest::{Algorithm, Digest, Refusal};
use std::alloc::Global;
use std::marker::Model;

/// The maximum length of a manifest, in bytes: 4 MiB.
pub const MAX_MANIFEST: usize = 4_194_304;

/// A manifest: its bytes with their digest and their references.
///
/// Contracts see the bytes alone, because the bytes determine the rest.
#[derive(Debug, Drop)]
pub struct Manifest {
    bytes: Vec<u8>,
    digest: Digest,
    refs: Vec<Digest>,
}

impl Model for Manifest {
    ghost use Rattle.std.specs.Prelude.{List, ℕ};
    ghost use Rattle.oci_manifest.specs.Manifests.{IsManifest};

    ghost Value = { List ℕ };

    ghost view = { λ a. a.bytes.items };

    ghost invariant = { λ a. IsManifest a.bytes.items a.refs.items a.digest };
}

/// Computes the SHA-256 digest of bytes, and no other digest.
fn digest_of(bytes: &[u8]) -> Digest
    ensures { result ≡ sha256_text bytes.now }
{
    Digest::of(Algorithm::Sha256, bytes)
}

/// Reads a manifest and keeps a copy of its bytes (OCI Image Specification 1.1, "Image Manifest" and "Image Index").
///
/// # Errors
///
/// - `SizeInvalid`: there are more than 4,194,304 bytes.
/// - `ManifestInvalid`: the bytes are not a manifest.
/// - `Memory`: allocation fails. It may be returned in place of `ManifestInvalid`.
///
/// # Cost
///
/// The call allocates a copy of the bytes. While it runs, it also allocates a multiple of them for the JSON value.
pub fn read(alloc: Global, bytes: &[u8]) -> Result<Manifest, Refusal>
    ensures value { IfOk result (λ manifest. manifest ≡ bytes.now) }
    ensures accepted { IfOk result (λ _. IsSome (refs_of bytes.now)) }
    ensures too_long { max_manifest < length bytes.now → result ≡ Err Refusal.SizeInvalid }
    ensures refused { IfErr result (λ e. IsReadRefusal bytes.now e) }
{
    if bytes.len() > MAX_MANIFEST {
        return Err(Refusal::SizeInvalid);
    }
    let named = named_digests(alloc, bytes)?;
    let digest = digest_of(bytes);
    let refs = distinct_digests(alloc, &digest, named.as_slice())?;
    let bytes = bytes.to_vec(alloc)?;
    Ok(Manifest {
        bytes,
        digest,
        refs,
    })
}

impl Manifest {
    /// Returns the bytes that were given to `read`.
    pub fn bytes(&self) -> &[u8]
        ensures value { result.now ≡ self.now }
        ensures fits { length self.now ≤ max_manifest }
        ensures manifest { IsSome (refs_of self.now) }
    {
        self.bytes.as_slice()
    }

    /// Returns the SHA-256 digest of the bytes.
    pub fn digest(&self) -> Digest
        ensures { result ≡ sha256_text self.now }
    {
        self.digest
    }

    /// Returns the digests of the blobs that the manifest refers to, each once, in the order of the manifest.
    ///
    /// An image manifest refers to its config and its layers. An index refers to no blob.
    pub fn refs(&self) -> &[Digest]
        ensures { refs_of self.now ≡ Some result.now }
    {
        self.refs.as_slice()
    }
}
