//! The changes of repositories that a store can still make: the links of blobs, and the manifests.

use crate::maker::Maker;
use blob_digest::{Digest, Refusal, RepoName};
use log_records::Change;
use log_rewriting::RewriteError;
use oci_manifest::Manifest;
use std::io::Write;

impl<W: Write + Drop> Maker<W> {
    /// Notes the link of a repository to a blob.
    pub(crate) fn add_link(&mut self, repo: &str, digest: Digest) -> Result<(), RewriteError> {
        if !self.repo(repo)?.link(digest)? {
            return Ok(());
        }
        match self.repo_name(repo.as_bytes())? {
            Some(name) => Ok(self.tenant(name.tenant())?.hold(digest)?),
            None => Ok(()),
        }
    }

    /// Links a blob, if the tenant holds it.
    pub(crate) fn link(
        &mut self,
        change: &Change<'_>,
        repo: &[u8],
        digest: &[u8],
    ) -> Result<(), RewriteError> {
        let Some(name) = self.repo_name(repo)? else {
            return Ok(());
        };
        let Ok(digest) = Digest::parse(digest) else {
            return Ok(());
        };
        if self.repo(name.text())?.links.contains(&digest) {
            return Ok(());
        }
        if !self.tenant(name.tenant())?.held.contains_key(&digest) {
            self.repo(name.text())?.lost_blobs.insert(digest)?;
            return Ok(());
        }
        self.records.add(change)?;
        self.add_link(name.text(), digest)
    }

    /// Removes the link of a blob. A manifest that refers to it was deleted before, and the record of that is lost.
    pub(crate) fn unlink(&mut self, repo: &[u8], digest: &[u8]) -> Result<(), RewriteError> {
        let Some(name) = self.repo_name(repo)? else {
            return Ok(());
        };
        let Ok(digest) = Digest::parse(digest) else {
            return Ok(());
        };
        let found = self.repo(name.text())?;
        let _ = found.lost_blobs.remove(&digest);
        if !found.links.contains(&digest) {
            return Ok(());
        }
        let count = found.manifests.len();
        for _ in 0..count {
            match self.repo(name.text())?.manifest_of(&digest) {
                Some(manifest) => self.delete_one(&name, manifest)?,
                None => break,
            }
        }
        self.unlink_one(&name, digest)
    }

    /// Removes a link that exists.
    fn unlink_one(&mut self, name: &RepoName, digest: Digest) -> Result<(), RewriteError> {
        let text = format!(in self.alloc; "{digest}")?;
        self.records.add(&Change::BlobUnlinked {
            repo: name.text().as_bytes(),
            digest: text.as_bytes(),
        })?;
        let _ = self.repo(name.text())?.links.remove(&digest);
        self.tenant(name.tenant())?.release(&digest);
        Ok(())
    }

    /// Stores a manifest, if the repository links what it refers to.
    pub(crate) fn put(
        &mut self,
        change: &Change<'_>,
        repo: &[u8],
        bytes: &[u8],
    ) -> Result<(), RewriteError> {
        let Some(name) = self.repo_name(repo)? else {
            return Ok(());
        };
        match oci_manifest::read(self.alloc, bytes) {
            Ok(manifest) => self.put_read(change, &name, &manifest),
            Err(Refusal::Memory) => Err(RewriteError::Memory),
            Err(_) => Ok(()),
        }
    }

    /// Stores a manifest that was read.
    fn put_read(
        &mut self,
        change: &Change<'_>,
        name: &RepoName,
        manifest: &Manifest,
    ) -> Result<(), RewriteError> {
        let alloc = self.alloc;
        let digest = manifest.digest();
        let found = self.repo(name.text())?;
        if found.manifests.contains_key(&digest) {
            return Ok(());
        }
        if !found.takes(manifest.refs()) {
            found.lost_manifests.insert(digest)?;
            return Ok(());
        }
        let refs = Vec::from_slice(alloc, manifest.refs())?;
        found.manifests.insert(digest, refs)?;
        let _ = found.lost_manifests.remove(&digest);
        found.exists = true;
        self.records.add(change)
    }

    /// Deletes a manifest.
    pub(crate) fn delete(&mut self, repo: &[u8], digest: &[u8]) -> Result<(), RewriteError> {
        let Some(name) = self.repo_name(repo)? else {
            return Ok(());
        };
        let Ok(digest) = Digest::parse(digest) else {
            return Ok(());
        };
        let found = self.repo(name.text())?;
        let _ = found.lost_manifests.remove(&digest);
        if !found.manifests.contains_key(&digest) {
            return Ok(());
        }
        self.delete_one(&name, digest)
    }

    /// Deletes a manifest that exists.
    fn delete_one(&mut self, name: &RepoName, digest: Digest) -> Result<(), RewriteError> {
        let text = format!(in self.alloc; "{digest}")?;
        let _ = self.repo(name.text())?.manifests.remove(&digest);
        self.records.add(&Change::ManifestDeleted {
            repo: name.text().as_bytes(),
            digest: text.as_bytes(),
        })
    }

    /// Removes a repository. What it still has was removed before, and the records of that are lost.
    pub(crate) fn remove(&mut self, repo: &[u8]) -> Result<(), RewriteError> {
        let Some(name) = self.repo_name(repo)? else {
            return Ok(());
        };
        self.empty(&name)?;
        match self.repos.remove(name.text()) {
            Some(removed) if removed.exists => self.records.add(&Change::RepoRemoved { repo }),
            _ => Ok(()),
        }
    }

    /// Removes the manifests, links and sessions of a repository.
    fn empty(&mut self, name: &RepoName) -> Result<(), RewriteError> {
        for _ in 0..u64::MAX {
            match self.repo(name.text())?.manifests.keys().next().copied() {
                Some(manifest) => self.delete_one(name, manifest)?,
                None => break,
            }
        }
        for _ in 0..u64::MAX {
            match self.repo(name.text())?.links.iter().next().copied() {
                Some(blob) => self.unlink_one(name, blob)?,
                None => break,
            }
        }
        for _ in 0..u64::MAX {
            match self.session_of(name)? {
                Some(number) => self.abandon(name.tenant().as_bytes(), number)?,
                None => break,
            }
        }
        Ok(())
    }
}
