//! The repositories of one tenant.

ghost use Rattle.std.specs.Prelude.{◌≡◌, ◌≤◌, IfOk, OnOk, OnErr, IfErr, true, []};
ghost use Rattle.std.specs.Option.{option_map_or};
ghost use Rattle.std.specs.FinMap as fmap;
ghost use Rattle.spec_lib.specs.Sets as set;
ghost use Rattle.blob_digest.specs.Outcomes.{Does};
ghost use Rattle.blob_digest.specs.declared.refusal.Refusal.TheVariants.{Memory};
ghost use Rattle.link_table.specs.Linked.{HasNoLinks, first_unlinked};
ghost use Rattle.link_table.specs.TenantRepos.{repo_count, is_new_link, empty_tenant, appear_on, blobs_on, link_on, unlink_on};

use crate::repo_blobs::RepoBlobs;
use crate::repos::Repos;
use blob_digest::{Digest, Refusal, RepoName};
use std::alloc::Global;
use std::collections::BTreeMap;
use std::collections::btree_map::Iter;
use std::marker::Model;

/// The repositories of one tenant, by name, each with its blobs. Contracts see the repositories and their links.
///
/// # Cost
///
/// Each call is logarithmic in the number of repositories. To this is added the cost of the call of `RepoBlobs`.
#[derive(Drop)]
pub struct TenantRepos {
    repos: BTreeMap<RepoName, RepoBlobs>,
}

impl Model for TenantRepos {
    ghost use Rattle.link_table.specs.TenantRepos.{OwnRepos, coded_own_repos};

    ghost Value = { OwnRepos };

    ghost coded = { coded_own_repos };

    ghost use Rattle.link_table.specs.Rows.{own_repos_shown, AreFew};

    ghost view = { λ a. own_repos_shown a.repos };

    ghost invariant = { λ a. AreFew a.repos };
}

impl TenantRepos {
    /// Returns a tenant without repositories. Allocates nothing.
    pub fn new(alloc: Global) -> TenantRepos
        ensures { result ≡ empty_tenant }
    {
        TenantRepos {
            repos: BTreeMap::new(alloc),
        }
    }

    /// Creates a repository if it does not exist, and returns whether it is new. `limit` is the maximum number of
    /// repositories.
    ///
    /// # Errors
    ///
    /// - `LimitReached`: the tenant has `limit` repositories or more, and this is none of them.
    /// - `Memory`: out of memory.
    pub fn appear(&mut self, alloc: Global, repo: &RepoName, limit: u32) -> Result<bool, Refusal>
        requires { limit ≤ 65536 }
        ensures { Does (λ b. b) result self.old self.new (appear_on limit self.old repo.now) }
    {
        if self.repos.contains_key(repo) {
            return Ok(false);
        }
        if self.repos.len() >= limit as usize {
            return Err(Refusal::LimitReached);
        }
        self.repos.insert(repo.clone()?, RepoBlobs::new(alloc))?;
        Ok(true)
    }

    /// Returns whether a repository exists.
    pub fn has(&self, repo: &RepoName) -> bool
        ensures { result ≡ set.contains self.now.repos repo.now }
    {
        self.repos.contains_key(repo)
    }

    /// Removes a repository, which must have no links.
    pub fn vanish(&mut self, repo: &RepoName)
        requires there { set.contains self.old.repos repo.now ≡ true }
        requires unlinked { HasNoLinks self.old.links repo.now }
        ensures { self.new ≡ record self.old { repos = set.remove self.old.repos repo.now } }
    {
        self.repos.remove(repo);
    }

    /// Adds a link between an existing repository and a blob, and returns whether it is new.
    ///
    /// # Errors
    ///
    /// - `Memory`: out of memory. Nothing changes.
    pub fn link(&mut self, repo: &RepoName, digest: &Digest, size: u64) -> Result<bool, Refusal>
        requires { set.contains self.old.repos repo.now ≡ true }
        ensures new { IfOk result (λ b. b ≡ is_new_link self.old repo.now digest.now) }
        ensures ok { OnOk result (self.new ≡ link_on self.old repo.now digest.now size) }
        ensures err { OnErr result (self.new ≡ self.old) }
        ensures refused { IfErr result (λ e. e ≡ Memory) }
        ensures few { repo_count self.old ≤ 65536 }
    {
        match self.repos.get_mut(repo) {
            Some(blobs) => blobs.insert(digest, size),
            None => unreachable!(),
        }
    }

    /// Removes a link, and returns the size of its blob if there was one. Allocates nothing.
    pub fn unlink(&mut self, repo: &RepoName, digest: &Digest) -> Option<u64>
        ensures value { result ≡ fmap.get self.old.links (repo.now, digest.now) }
        ensures gone { self.new ≡ unlink_on self.old repo.now digest.now }
    {
        match self.repos.get_mut(repo) {
            Some(blobs) => blobs.remove(digest),
            None => None,
        }
    }

    /// Returns whether a repository contains a blob.
    pub fn holds(&self, repo: &RepoName, digest: &Digest) -> bool
        ensures { result ≡ fmap.contains_key self.now.links (repo.now, digest.now) }
    {
        match self.repos.get(repo) {
            Some(blobs) => blobs.contains(digest),
            None => false,
        }
    }

    /// Returns the first of these digests whose blob the repository does not contain.
    pub fn first_unlinked(&self, repo: &RepoName, digests: &[Digest]) -> Option<Digest>
        ensures { result ≡ first_unlinked self.now.links repo.now digests.now }
    {
        match self.repos.get(repo) {
            Some(blobs) => blobs.first_missing(digests),
            None => digests.first().copied(),
        }
    }

    /// Returns the number of repositories. Constant time.
    pub fn count(&self) -> usize
        ensures { result ≡ repo_count self.now }
    {
        self.repos.len()
    }

    /// Returns the repositories, in the order of their names.
    pub fn iter(&self) -> Repos<'_>
        ensures { result ≡ set.items self.now.repos }
    {
        Repos {
            rest: self.repos.keys(),
        }
    }

    /// Returns the blobs of a repository, in the order of their digests, with their sizes in bytes.
    pub fn blobs(&self, repo: &RepoName) -> Option<Iter<'_, Digest, u64>>
        ensures { option_map_or (λ rest. rest) result [] ≡ blobs_on self.now repo.now }
    {
        match self.repos.get(repo) {
            Some(blobs) => Some(blobs.iter()),
            None => None,
        }
    }
}
