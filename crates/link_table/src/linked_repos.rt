//! The calls on repositories.

ghost use Rattle.std.specs.Prelude.{◌≡◌, ◌<◌, length, true, slice_get};
ghost use Rattle.std.specs.Option.{option_copied};
ghost use Rattle.spec_lib.specs.Sets as set;
ghost use Rattle.blob_digest.specs.Outcomes.{Does};
ghost use Rattle.link_table.specs.Linked.{appear, has_contents, has_links, has_manifests, is_repo_of_tenant, repos_of, tenant_repo_count, vanish, HasNoLinks};

use crate::links::Links;
use crate::repos::Repos;
use blob_digest::{Refusal, RepoName};

impl Links {
    /// Creates a repository of a tenant if it does not exist, and returns whether it is new.
    ///
    /// # Errors
    ///
    /// - `LimitReached`: the tenant has as many repositories as its limit, and this is none of them.
    /// - `Memory`: out of memory.
    ///
    /// # Cost
    ///
    /// Logarithmic in the number of the tenant's repositories.
    pub fn appear(&mut self, tenant: u16, repo: &RepoName) -> Result<bool, Refusal>
        requires there { tenant < length self.old.tenants }
        requires own { is_repo_of_tenant self.old.tenants tenant repo.now ≡ true }
        ensures { Does (λ b. b) result self.old self.new (appear self.old tenant repo.now) }
    {
        let limit = self.limits(tenant).repos;
        self.repos[tenant as usize].appear(self.alloc, repo, limit)
    }

    /// Returns whether a tenant's repository exists.
    ///
    /// # Cost
    ///
    /// Logarithmic in the number of the tenant's repositories.
    pub fn has_repo(&self, tenant: u16, repo: &RepoName) -> bool
        requires there { tenant < length self.now.tenants }
        requires own { is_repo_of_tenant self.now.tenants tenant repo.now ≡ true }
        ensures { result ≡ set.contains self.now.repos repo.now }
    {
        self.repos[tenant as usize].has(repo)
    }

    /// Returns whether a repository has a link or a manifest.
    ///
    /// # Cost
    ///
    /// Finds the repository.
    pub fn has_contents(&self, repo: &RepoName) -> bool
        ensures { result ≡ has_contents self.now repo.now }
    {
        self.has_links(repo) || self.has_manifests(repo)
    }

    /// Returns whether a repository has a link.
    fn has_links(&self, repo: &RepoName) -> bool
        ensures { result ≡ has_links self.now repo.now }
    {
        self.blobs(repo).next().is_some()
    }

    /// Returns whether a repository has a manifest.
    fn has_manifests(&self, repo: &RepoName) -> bool
        ensures { result ≡ has_manifests self.now repo.now }
    {
        self.manifests(repo).next().is_some()
    }

    /// Removes a tenant's repository, which must have no links.
    ///
    /// # Cost
    ///
    /// As `appear`. Also logarithmic in the number of repositories that had a manifest since they were created.
    ///
    /// # Memory
    ///
    /// Allocates nothing.
    pub fn vanish(&mut self, tenant: u16, repo: &RepoName)
        requires own { is_repo_of_tenant self.old.tenants tenant repo.now ≡ true }
        requires there { set.contains self.old.repos repo.now ≡ true }
        requires unlinked { HasNoLinks self.old.links repo.now }
        ensures { self.new ≡ vanish self.old repo.now }
    {
        self.repos[tenant as usize].vanish(repo);
        self.manifests.forget(repo);
    }

    /// Returns the number of a tenant's repositories. Constant time.
    pub fn repo_count(&self, tenant: u16) -> u64
        requires { tenant < length self.now.tenants }
        ensures { result ≡ tenant_repo_count self.now.tenants self.now.repos tenant }
    {
        self.repos[tenant as usize].count() as u64
    }

    /// Returns a tenant's repositories, in the order of their names.
    ///
    /// # Cost
    ///
    /// Each item takes one step.
    pub fn repos(&self, tenant: u16) -> Repos<'_>
        requires { tenant < length self.now.tenants }
        ensures { result ≡ repos_of self.now tenant }
    {
        self.repos[tenant as usize].iter()
    }

    /// Returns a tenant's repository at index `i`, in the order of their names.
    ///
    /// # Cost
    ///
    /// Takes `i` steps. Use `repos` to read all of them.
    pub fn repo_at(&self, tenant: u16, i: usize) -> Option<&RepoName>
        requires { tenant < length self.now.tenants }
        ensures { option_copied result ≡ slice_get (repos_of self.now tenant) i }
    {
        self.repos(tenant).nth(i)
    }
}
