//! The links and manifests of repositories, and what is lost of them.

use blob_digest::Digest;
use std::alloc::{AllocError, Global};
use std::collections::{BTreeMap, BTreeSet};

/// The number of manifests that a repository may have, whatever the limit of its tenant is.
const MOST_MANIFESTS: usize = 1_048_576;

/// A repository.
#[derive(Drop)]
pub struct Repo {
    /// Whether the store has it. Otherwise only its losses are noted.
    pub exists: bool,
    /// The blobs that it links.
    pub links: BTreeSet<Digest>,
    /// The blobs to which each manifest refers.
    pub manifests: BTreeMap<Digest, Vec<Digest>>,
    /// The blobs that it has lost.
    pub lost_blobs: BTreeSet<Digest>,
    /// The manifests that it has lost.
    pub lost_manifests: BTreeSet<Digest>,
}

impl Repo {
    /// Makes a repository that the store does not have.
    pub fn new(alloc: Global) -> Repo {
        Repo {
            exists: false,
            links: BTreeSet::new(alloc),
            manifests: BTreeMap::new(alloc),
            lost_blobs: BTreeSet::new(alloc),
            lost_manifests: BTreeSet::new(alloc),
        }
    }

    /// Adds a link. Returns whether it is new.
    pub fn link(&mut self, digest: Digest) -> Result<bool, AllocError> {
        let _ = self.lost_blobs.remove(&digest);
        self.exists = true;
        Ok(self.links.insert(digest)?)
    }

    /// Returns whether a manifest with these references can be stored.
    pub fn takes(&self, refs: &[Digest]) -> bool {
        self.manifests.len() < MOST_MANIFESTS
            && refs.iter().all(|digest| self.links.contains(digest))
    }

    /// Returns a manifest that refers to a blob.
    pub fn manifest_of(&self, blob: &Digest) -> Option<Digest> {
        for (digest, refs) in self.manifests.iter() {
            if refs.as_slice().contains(blob) {
                return Some(*digest);
            }
        }
        None
    }
}
