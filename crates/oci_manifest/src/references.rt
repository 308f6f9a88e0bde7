//! The references of a manifest. Each function computes one definition of `specs/Manifests.antt`.
ghost use Rattle.std.specs.Prelude.{◌≡◌, IfOk, IfErr, Some, None};
ghost use Rattle.serde_json.specs.View.{view, items_view};
ghost use Rattle.oci_manifest.specs.Manifests.{IsInvalidOnlyIf, descriptor_digest, document_of, found_digests, image_refs, is_filled, is_skipped, is_version_2, layer_refs, member_items, member_view, named, distinct_texts, refs_of, slice_view};

use blob_digest::{Digest, Refusal};
use indexmap::IndexSet;
use serde_json::Value;
use std::alloc::{AllocError, Global};
use std::hash::{BuildHasher, DefaultHasher, Hash};

/// Returns the digest in a descriptor.
fn descriptor_digest(descriptor: &Value) -> Option<Digest>
    ensures { result ≡ descriptor_digest (view descriptor.now) }
{
    let text = descriptor.get("digest")?.as_str()?;
    Digest::parse(text.as_bytes()).ok()
}

/// Returns whether a list has an element.
fn is_filled(list: &Vec<Value>) -> bool
    ensures { result ≡ is_filled (items_view list.now.items) }
{
    !list.is_empty()
}

/// Returns whether a layer is skipped because it is fetched from elsewhere.
fn is_skipped(layer: &Value) -> bool
    ensures { result ≡ is_skipped (view layer.now) }
{
    match layer.get("urls").and_then(Value::as_array) {
        Some(urls) => is_filled(urls),
        None => false,
    }
}

/// Returns whether `schemaVersion` is the integer 2.
fn is_version_2(root: &Value) -> bool
    ensures { result ≡ is_version_2 (view root.now) }
{
    root.get("schemaVersion").and_then(Value::as_u64) == Some(2)
}

/// Returns the digests of the layers that are not skipped, in order. It returns `None` if one of these has no digest.
fn layer_refs(alloc: Global, layers: &[Value]) -> Result<Option<Vec<Digest>>, AllocError>
    ensures { IfOk result (λ found. found_digests found ≡ layer_refs (items_view layers.now)) }
{
    let mut digests = Vec::new(alloc);
    for layer in layers {
        if !is_skipped(layer) {
            let Some(digest) = descriptor_digest(layer) else {
                return Ok(None);
            };
            digests.push(digest)?;
        }
    }
    Ok(Some(digests))
}

/// Returns the items of a member that is a list. An absent member and null count as an empty list.
fn member_items(member: Option<&Value>) -> Option<&[Value]>
    ensures { slice_view result ≡ member_items (member_view member.entry) }
{
    match member {
        None => Some(&[]),
        Some(Value::Null) => Some(&[]),
        Some(Value::Array(items)) => Some(items.as_slice()),
        Some(_) => None,
    }
}

/// Returns the digests of an image manifest: the digest of the config, then those of the layers.
fn image_refs(alloc: Global, root: &Value) -> Result<Option<Vec<Digest>>, AllocError>
    ensures { IfOk result (λ found. found_digests found ≡ image_refs (view root.now)) }
{
    let Some(config) = root.get("config").and_then(descriptor_digest) else {
        return Ok(None);
    };
    let Some(layers) = member_items(root.get("layers")) else {
        return Ok(None);
    };
    let Some(mut digests) = layer_refs(alloc, layers)? else {
        return Ok(None);
    };
    digests.insert(0, config)?;
    Ok(Some(digests))
}

/// Returns the digests in a JSON value, in order, or `None` if it is not a manifest.
fn named(alloc: Global, root: &Value) -> Result<Option<Vec<Digest>>, AllocError>
    ensures { IfOk result (λ found. found_digests found ≡ named (view root.now)) }
{
    if !root.is_object() || !is_version_2(root) {
        return Ok(None);
    }
    let manifests = root.get("manifests");
    if manifests.is_none() {
        if root.get("config").is_none() {
            return Ok(None);
        }
        return image_refs(alloc, root);
    }
    if root.get("config").is_some() || root.get("layers").is_some() {
        return Ok(None);
    }
    match member_items(manifests) {
        Some(_) => Ok(Some(Vec::new(alloc))),
        None => Ok(None),
    }
}

/// Makes hashers that begin with a seed, so that which digests collide depends on the seed.
#[derive(Clone, Copy)]
struct SeededHasher {
    /// The hasher after the seed.
    seeded: DefaultHasher,
}

impl BuildHasher for SeededHasher {
    type Hasher = DefaultHasher;

    ghost build_hasher = { λ s. s.seeded };

    fn build_hasher(&self) -> DefaultHasher {
        self.seeded
    }
}

/// Returns the hasher that has this digest as its seed.
fn seeded_by(digest: &Digest) -> SeededHasher {
    let mut seeded = DefaultHasher::new();
    digest.hash(&mut seeded);
    SeededHasher { seeded }
}

/// Returns each digest once, at its first position. The seed is the digest of the manifest.
///
/// # Errors
///
/// - `Memory`: allocation fails.
///
/// # Cost
///
/// Each digest takes constant time, unless many of them collide (SipHash-1-3). Clients choose the digests, but the seed is
/// the SHA-256 of all bytes of the manifest: other digests have another seed. So a client finds a manifest in which many
/// digests collide only by trying, as if the seed were drawn at random for each manifest that it tries.
pub(crate) fn distinct_digests(
    alloc: Global,
    seed: &Digest,
    digests: &[Digest],
) -> Result<Vec<Digest>, Refusal>
    ensures value { IfOk result (λ kept. kept.items ≡ distinct_texts digests.now) }
    ensures refused { IfErr result (λ e. e ≡ Refusal.Memory) }
{
    let mut kept = IndexSet::with_hasher(alloc, seeded_by(seed));
    for digest in digests {
        kept.insert(*digest)?;
    }
    let distinct = kept.as_slice().to_vec(alloc)?;
    Ok(distinct)
}

/// Reads bytes as a JSON value.
#[tactic(auto, using(crate::proofs::Documents::document_of_text, crate::proofs::Documents::no_document))]
fn document(alloc: Global, bytes: &[u8]) -> Result<Value, Refusal>
    ensures value { IfOk result (λ root. document_of bytes.now ≡ Some (view root)) }
    ensures refused { IfErr result (λ e. IsInvalidOnlyIf (document_of bytes.now ≡ None) e) }
{
    match Value::from_slice(alloc, bytes) {
        Ok(root) => Ok(root),
        Err(error) => {
            if error.is_memory() {
                return Err(Refusal::Memory);
            }
            Err(Refusal::ManifestInvalid)
        }
    }
}

/// Returns the digests in a manifest's bytes, in order.
#[tactic(auto, unfolding(crate::specs::Manifests::refs_of))]
pub(crate) fn named_digests(alloc: Global, bytes: &[u8]) -> Result<Vec<Digest>, Refusal>
    ensures value { IfOk result (λ digests. refs_of bytes.now
        ≡ Some (distinct_texts digests.items)) }
    ensures refused { IfErr result (λ e. IsInvalidOnlyIf (refs_of bytes.now ≡ None) e) }
{
    let root = document(alloc, bytes)?;
    match named(alloc, &root)? {
        Some(digests) => Ok(digests),
        None => Err(Refusal::ManifestInvalid),
    }
}
