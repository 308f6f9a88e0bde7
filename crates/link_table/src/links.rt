//! The table of tenants, repositories, links and manifests.

ghost use Rattle.std.specs.Prelude.{◌≡◌, ◌<◌, ◌≤◌, length, replicate, true, slice_index, Some, IfOk, IfErr};
ghost use Rattle.blob_digest.specs.Outcomes.{DoesExactly};
ghost use Rattle.blob_digest.specs.declared.refusal.Refusal.TheVariants.{Memory};
ghost use Rattle.link_table.specs.TenantRepos.{empty_tenant};
ghost use Rattle.link_table.specs.Linked.{charge, discharge, is_repo_of_tenant, known_tenant, limits_in, name_at, quota_in, share_in, used_in};
ghost use Rattle.link_table.specs.Tenancy.{Opens, AreTenants, RefusesTenants, limits_shown, tenants_shown};

use crate::holders::{Holders, no_holders};
use crate::manifest_table::ManifestTable;
use crate::tenant_index::TenantIndex;
use crate::tenant_repos::TenantRepos;
use crate::tenants::{TenantLimits, TenantSettings, in_order};
use blob_digest::{Refusal, RepoName};
use std::alloc::Global;
use std::marker::Model;

/// Tenants with quotas and shares, their repositories, the links of repositories to blobs, the manifests, and each tenant's
/// charges.
///
/// Contracts see these five. Each tenant's usage follows from them. A tenant's number is its position in the list of
/// tenants, from 0 on. Sizes, quotas, charges and usages are in bytes.
///
/// # Cost
///
/// A tenant is found by its name in an ordered map. Each tenant has its repositories in an ordered map. Each repository
/// has its blobs in one ordered map and its manifests in another. Finding, creating or removing a repository is
/// logarithmic in the number of tenants and of the tenant's repositories. For each digest in its repositories, a tenant
/// has the number of repositories that contain it. Finding that number is logarithmic in the number of these digests.
///
/// # Memory
///
/// Only `new`, `appear`, `link` and `put_manifest` allocate.
#[derive(Drop)]
pub struct Links {
    pub(crate) alloc: Global,
    pub(crate) tenants: Vec<TenantSettings>,
    pub(crate) index: TenantIndex,
    pub(crate) repos: Vec<TenantRepos>,
    pub(crate) manifests: ManifestTable,
    pub(crate) holders: Vec<Holders>,
    pub(crate) blob_bytes: Vec<u64>,
    pub(crate) charges: Vec<u64>,
}

impl Model for Links {
    ghost use Rattle.spec_lib.specs.Sets as set;
    ghost use Rattle.link_table.specs.Linked.{Linked, coded_linked};

    ghost Value = { Linked };

    ghost coded = { coded_linked };

    ghost use Rattle.link_table.specs.Tenancy.{tenants_shown};
    ghost use Rattle.link_table.specs.TenantRepos.{repos_shown, links_shown, IsOwned};
    ghost use Rattle.link_table.specs.Usage.{KeepsUsage};
    ghost use Rattle.link_table.specs.Holders.{Counts};
    ghost use Rattle.link_table.specs.TenantIndex.{IsIndexOf};

    ghost view = { λ a. record {
      tenants = tenants_shown a.tenants.items;
      repos = repos_shown a.repos.items;
      links = links_shown a.repos.items;
      manifests = a.manifests;
      charges = a.charges.items;
    } };

    ghost invariant = { λ a. KeepsUsage (tenants_shown a.tenants.items) (links_shown a.repos.items)
        a.blob_bytes.items a.charges.items × IsOwned (tenants_shown a.tenants.items) a.repos.items ×
        Counts (tenants_shown a.tenants.items) (links_shown a.repos.items) a.holders.items ×
        IsIndexOf a.tenants.items a.index };
}

/// Returns `count` tenants without repositories.
fn no_repos(alloc: Global, count: usize) -> Result<Vec<TenantRepos>, Refusal>
    ensures ok { IfOk result (λ v. v.items ≡ replicate count empty_tenant) }
    ensures refused { IfErr result (λ e. e ≡ Memory) }
{
    let mut repos = Vec::new(alloc);
    for _ in 0..count {
        repos.push(TenantRepos::new(alloc))?;
    }
    Ok(repos)
}

impl Links {
    /// Returns a table of these tenants, without repositories. A new table numbers them in the order of their names.
    ///
    /// # Errors
    ///
    /// - `NameInvalid`: a name is not one component of a repository's name (OCI Distribution Specification 1.1,
    ///   "Pulling manifests"), or occurs twice.
    /// - `LimitReached`: there is no tenant, there are more than `MAX_TENANTS`, a quota exceeds 2^50 bytes, or a limit
    ///   exceeds `GREATEST_LIMITS`.
    /// - `Memory`: out of memory.
    pub fn new(alloc: Global, tenants: Vec<TenantSettings>) -> Result<Links, Refusal>
        ensures opened { IfOk result (λ l. Opens (tenants_shown tenants.items) l) }
        ensures refused { IfErr result (λ e. RefusesTenants e (tenants_shown tenants.items)) }
    {
        let tenants = in_order(tenants)?;
        let index = TenantIndex::new(alloc, tenants.as_slice())?;
        let count = tenants.as_slice().len();
        let blob_bytes = vec![in alloc; 0u64; count]?;
        let charges = vec![in alloc; 0u64; count]?;
        let repos = no_repos(alloc, count)?;
        let holders = no_holders(alloc, count)?;
        Ok(Links {
            alloc,
            tenants,
            index,
            repos,
            manifests: ManifestTable::new(alloc),
            holders,
            blob_bytes,
            charges,
        })
    }

    /// Returns the number of a repository's tenant, whose name is the first component of the repository's name.
    ///
    /// # Errors
    ///
    /// - `NameUnknown`: there is no such tenant.
    ///
    /// # Cost
    ///
    /// Logarithmic in the number of tenants.
    pub fn tenant(&self, repo: &RepoName) -> Result<u16, Refusal>
        ensures known { result ≡ known_tenant self.now repo.now }
        ensures there { IfOk result (λ t. t < length self.now.tenants) }
        ensures own { IfOk result (λ t. is_repo_of_tenant self.now.tenants t repo.now ≡ true) }
        ensures short { length repo.now ≤ 255 }
        ensures tenants { AreTenants self.now.tenants }
    {
        match self.index.find(repo.tenant()) {
            Some(t) => Ok(t),
            None => Err(Refusal::NameUnknown),
        }
    }

    /// Returns the number of tenants.
    pub fn tenants(&self) -> u16
        ensures count { result ≡ length self.now.tenants }
        ensures kept { AreTenants self.now.tenants }
    {
        self.tenants.as_slice().len() as u16
    }

    /// Returns the name of a tenant.
    pub fn tenant_name(&self, tenant: u16) -> &str
        requires { tenant < length self.now.tenants }
        ensures { name_at self.now.tenants tenant ≡ Some result.now }
    {
        self.tenants[tenant as usize].name.as_str()
    }

    /// Returns a tenant's quota in bytes.
    pub fn quota(&self, tenant: u16) -> u64
        requires { tenant < length self.now.tenants }
        ensures { result ≡ quota_in self.now.tenants tenant }
    {
        self.tenants[tenant as usize].quota
    }

    /// Returns a tenant's share of the slots: the maximum number of distinct blobs of its repositories.
    pub fn share(&self, tenant: u16) -> u32
        requires { tenant < length self.now.tenants }
        ensures { result ≡ share_in self.now.tenants tenant }
    {
        self.tenants[tenant as usize].share
    }

    /// Returns a tenant's limits.
    pub fn limits(&self, tenant: u16) -> TenantLimits
        requires { tenant < length self.now.tenants }
        ensures { limits_shown result ≡ limits_in self.now.tenants tenant }
    {
        self.tenants[tenant as usize].limits
    }

    /// Returns a tenant's usage in bytes: the size of each blob in its repositories, counted once, plus its charges.
    ///
    /// # Cost
    ///
    /// Constant: both sums are stored.
    pub fn used(&self, tenant: u16) -> u64
        requires { tenant < length self.now.tenants }
        ensures { result ≡ used_in self.now tenant }
    {
        self.blob_bytes[tenant as usize] + self.charges[tenant as usize]
    }

    /// Charges a tenant with `n` bytes.
    ///
    /// # Errors
    ///
    /// - `Quota`: the usage and `n` together exceed the quota.
    ///
    /// # Memory
    ///
    /// Allocates nothing.
    pub fn charge(&mut self, tenant: u16, n: u64) -> Result<(), Refusal>
        requires { tenant < length self.old.tenants }
        ensures { DoesExactly (λ u. u) result self.old self.new (charge self.old tenant n) }
    {
        let used = self.used(tenant);
        let quota = self.quota(tenant);
        if used > quota {
            return Err(Refusal::Quota { used, quota });
        }
        if n > quota - used {
            return Err(Refusal::Quota { used, quota });
        }
        self.charges[tenant as usize] += n;
        Ok(())
    }

    /// Reduces a tenant's charge by `n` bytes.
    pub fn discharge(&mut self, tenant: u16, n: u64)
        requires there { tenant < length self.old.tenants }
        requires charged { n ≤ slice_index self.old.charges tenant }
        ensures { self.new ≡ discharge self.old tenant n }
    {
        self.charges[tenant as usize] -= n;
    }
}
