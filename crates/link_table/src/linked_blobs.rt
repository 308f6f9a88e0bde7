//! The calls on links and blobs.

ghost use Rattle.std.specs.Prelude.{◌≡◌, ◌+◌, ◌<◌, ◌^◌, length, true, nat_le, slice_get};
ghost use Rattle.std.specs.FinMap as fmap;
ghost use Rattle.spec_lib.specs.Sets as set;
ghost use Rattle.blob_digest.specs.Outcomes.{Does};
ghost use Rattle.link_table.specs.Linked.{blobs_in, blobs_of, first_unlinked, is_repo_of_tenant, link, passes_share, share_in, unlink, used_in, IsSizeOf};

use crate::blobs::Blobs;
use crate::holders::{decrement, digest_count, holders_of, increment};
use crate::links::Links;
use crate::usage::{bytes_with, bytes_without};
use blob_digest::{Digest, Refusal, RepoName};

impl Links {
    /// Adds a link between a tenant's repository and a blob, and returns whether the link is new.
    ///
    /// # Errors
    ///
    /// - `Memory`: out of memory. Nothing changes.
    ///
    /// # Cost
    ///
    /// Searches once for the repository, and once for the digest in it. Also logarithmic in the number of digests in
    /// the tenant's repositories.
    pub fn link(
        &mut self,
        tenant: u16,
        repo: &RepoName,
        digest: &Digest,
        size: u64,
    ) -> Result<bool, Refusal>
        requires there { tenant < length self.old.tenants }
        requires own { is_repo_of_tenant self.old.tenants tenant repo.now ≡ true }
        requires known { set.contains self.old.repos repo.now ≡ true }
        requires size { IsSizeOf self.old.links digest.now size }
        requires room { used_in self.old tenant + size < 2 ^ 64 }
        ensures { Does (λ b. b) result self.old self.new (link self.old repo.now digest.now size) }
    {
        let place = tenant as usize;
        let repos = &mut self.repos[place];
        if !repos.link(repo, digest, size)? {
            return Ok(false);
        }
        match increment(&mut self.holders[place], digest) {
            Ok(count) => {
                self.blob_bytes[place] = bytes_with(self.blob_bytes[place], count > 1, size);
                Ok(true)
            }
            Err(refusal) => {
                repos.unlink(repo, digest);
                Err(refusal)
            }
        }
    }

    /// Removes the link between a tenant's repository and a blob, and returns whether it was there.
    ///
    /// # Cost
    ///
    /// As `link`.
    ///
    /// # Memory
    ///
    /// Allocates nothing.
    pub fn unlink(&mut self, tenant: u16, repo: &RepoName, digest: &Digest) -> bool
        requires there { tenant < length self.old.tenants }
        requires own { is_repo_of_tenant self.old.tenants tenant repo.now ≡ true }
        ensures was { result ≡ fmap.contains_key self.old.links (repo.now, digest.now) }
        ensures gone { self.new ≡ unlink self.old repo.now digest.now }
    {
        let place = tenant as usize;
        match self.repos[place].unlink(repo, digest) {
            Some(size) => {
                let held = decrement(&mut self.holders[place], digest);
                self.blob_bytes[place] = bytes_without(self.blob_bytes[place], held, size);
                true
            }
            None => false,
        }
    }

    /// Returns whether a tenant's repository contains a blob.
    ///
    /// # Cost
    ///
    /// Finds the repository, and is logarithmic in the number of its blobs.
    pub fn holds(&self, tenant: u16, repo: &RepoName, digest: &Digest) -> bool
        requires there { tenant < length self.now.tenants }
        requires own { is_repo_of_tenant self.now.tenants tenant repo.now ≡ true }
        ensures { result ≡ fmap.contains_key self.now.links (repo.now, digest.now) }
    {
        self.repos[tenant as usize].holds(repo, digest)
    }

    /// Returns the first of these digests whose blob the tenant's repository does not contain.
    ///
    /// # Cost
    ///
    /// Finds the repository once. Each digest is logarithmic in the number of its blobs.
    pub fn first_unlinked(&self, tenant: u16, repo: &RepoName, digests: &[Digest]) -> Option<Digest>
        requires there { tenant < length self.now.tenants }
        requires own { is_repo_of_tenant self.now.tenants tenant repo.now ≡ true }
        ensures { result ≡ first_unlinked self.now.links repo.now digests.now }
    {
        self.repos[tenant as usize].first_unlinked(repo, digests)
    }

    /// Returns whether any repository of a tenant contains a blob.
    ///
    /// # Cost
    ///
    /// Logarithmic in the number of digests in the tenant's repositories.
    pub fn tenant_holds(&self, tenant: u16, digest: &Digest) -> bool
        requires { tenant < length self.now.tenants }
        ensures { result ≡ fmap.contains_key (blobs_of self.now tenant) digest.now }
    {
        holders_of(&self.holders[tenant as usize], digest) > 0
    }

    /// Returns whether a digest is new to a tenant whose repositories contain as many distinct blobs as its share.
    ///
    /// # Cost
    ///
    /// Logarithmic in the number of digests in the tenant's repositories.
    pub fn passes_share(&self, tenant: u16, digest: &Digest) -> bool
        requires { tenant < length self.now.tenants }
        ensures { result ≡ passes_share self.now tenant digest.now }
    {
        !self.tenant_holds(tenant, digest) && self.has_full_share(tenant)
    }

    /// Returns whether a tenant's repositories contain as many distinct blobs as its share. Constant time.
    fn has_full_share(&self, tenant: u16) -> bool
        requires { tenant < length self.now.tenants }
        ensures { result ≡ nat_le (share_in self.now.tenants tenant)
            (fmap.len (blobs_of self.now tenant)) }
    {
        u64::from(self.share(tenant)) <= self.blob_count(tenant)
    }

    /// Returns the number of distinct blobs that a tenant's repositories contain. Constant time.
    pub fn blob_count(&self, tenant: u16) -> u64
        requires { tenant < length self.now.tenants }
        ensures { result ≡ fmap.len (blobs_of self.now tenant) }
    {
        digest_count(&self.holders[tenant as usize]) as u64
    }

    /// Returns the blobs of a repository, in the order of their digests, with their sizes in bytes.
    ///
    /// # Cost
    ///
    /// Finds the repository. Each item takes one step.
    pub fn blobs(&self, repo: &RepoName) -> Blobs<'_>
        ensures { result ≡ blobs_in self.now repo.now }
    {
        match self.index.find(repo.tenant()) {
            Some(t) => Blobs {
                rest: self.repos[t as usize].blobs(repo),
            },
            None => Blobs { rest: None },
        }
    }

    /// Returns the blob of a repository at index `i`, with its size in bytes.
    ///
    /// # Cost
    ///
    /// Takes `i` steps. Use `blobs` to read all of them.
    pub fn blob_at(&self, repo: &RepoName, i: usize) -> Option<(Digest, u64)>
        ensures { result ≡ slice_get (blobs_in self.now repo.now) i }
    {
        self.blobs(repo).nth(i)
    }
}
