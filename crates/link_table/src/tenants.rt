//! The checks of the list of tenants that a table is made of.

ghost use Rattle.std.specs.Prelude.{◌≡◌, ◌≤◌, ◌↔◌, IsTrue, IfOk, IfErr, string_bytes};
ghost use Rattle.std.specs.List.{All, IsAllAdjacentAnswer};
ghost use Rattle.blob_digest.specs.Names.{IsComponent};
ghost use Rattle.blob_digest.specs.Tenants.{AreSupported};
ghost use Rattle.link_table.specs.Tenancy.{AreTenants, DoNamesRise, HasNames, IsNameBelow, IsWithinLimits, RefusesTenants, SameTenants, limits_shown, max_quota, tenants_shown};

use blob_digest::{Refusal, is_component};

/// A share that limits nothing: a store has fewer slots.
pub const UNLIMITED_SHARE: u32 = u32::MAX;

/// The maximum numbers of what a tenant has.
#[derive(Clone, Copy, Debug, PartialEq, Eq, PartialOrd, Ord, Drop)]
pub struct TenantLimits {
    /// The maximum number of the tenant's repositories, at most 65,536.
    pub repos: u32,
    /// The maximum number of manifests of each of them, at most 1,048,576.
    pub manifests: u32,
    /// The maximum number of the tenant's open sessions, at most 4,096.
    pub sessions: u32,
}

/// The limits that a tenant has unless it is given others.
pub const USUAL_LIMITS: TenantLimits = TenantLimits {
    repos: 1024,
    manifests: 1024,
    sessions: 64,
};

/// No limit of a tenant is above these.
pub const GREATEST_LIMITS: TenantLimits = TenantLimits {
    repos: 65_536,
    manifests: 1_048_576,
    sessions: 4096,
};

/// The name of a tenant, with its quota, its share and its limits.
#[derive(Debug, PartialEq, Eq, PartialOrd, Ord, Drop)]
pub struct TenantSettings {
    /// One component of a repository's name.
    pub name: String,
    /// The quota in bytes.
    pub quota: u64,
    /// The share of the slots: the maximum number of distinct blobs that the tenant's repositories contain.
    pub share: u32,
    /// The maximum numbers of what the tenant has.
    pub limits: TenantLimits,
}

/// The maximum number of tenants of a table.
pub const MAX_TENANTS: usize = 4096;

/// The maximum quota in bytes.
pub const MAX_QUOTA: u64 = 1 << 50;

/// Returns whether each name is one component of a repository's name.
fn are_components(tenants: &[TenantSettings]) -> bool
    ensures { IsTrue result ↔ All (λ t. IsComponent (string_bytes t.name)) tenants.now }
{
    tenants.iter().all(|t| is_component(t.name.as_bytes()))
}

/// Returns whether each name is below the next.
fn names_rise(tenants: &[TenantSettings]) -> bool
    ensures { IsAllAdjacentAnswer IsNameBelow tenants.now result }
{
    tenants.is_sorted_by(|a, b| a.name.cmp(&b.name).is_lt())
}

/// Returns whether no quota exceeds the limit.
fn are_quotas(tenants: &[TenantSettings]) -> bool
    ensures { IsTrue result ↔ All (λ t. t.quota ≤ max_quota) tenants.now }
{
    tenants.iter().all(|t| t.quota <= MAX_QUOTA)
}

/// Returns whether limits are at most the greatest ones.
pub fn are_supported(limits: TenantLimits) -> bool
    ensures { IsTrue result ↔ AreSupported (limits_shown limits) }
{
    limits.repos <= GREATEST_LIMITS.repos
        && limits.manifests <= GREATEST_LIMITS.manifests
        && limits.sessions <= GREATEST_LIMITS.sessions
}

/// Returns whether the limits of all tenants are supported.
fn are_all_supported(tenants: &[TenantSettings]) -> bool
    ensures { IsTrue result ↔ All (λ t. AreSupported (limits_shown t.limits)) tenants.now }
{
    tenants.iter().all(|t| are_supported(t.limits))
}

/// Returns whether the number, the quotas and the limits of the tenants are within what a table supports.
fn are_within_limits(tenants: &[TenantSettings]) -> bool
    ensures { IsTrue result ↔ IsWithinLimits (tenants_shown tenants.now) }
{
    if tenants.is_empty() || tenants.len() > MAX_TENANTS {
        return false;
    }
    if !are_quotas(tenants) {
        return false;
    }
    are_all_supported(tenants)
}

/// Returns the tenants in the order of their names.
///
/// # Errors
///
/// - `NameInvalid`: a name is not one component of a repository's name, or occurs twice.
/// - `LimitReached`: there is no tenant, there are more than `MAX_TENANTS`, a quota exceeds 2^50 bytes, or a limit
///   exceeds `GREATEST_LIMITS`.
pub fn in_order(mut tenants: Vec<TenantSettings>) -> Result<Vec<TenantSettings>, Refusal>
    ensures names { IfOk result (λ ts. HasNames (tenants_shown tenants.items)) }
    ensures limits { IfOk result (λ ts. IsWithinLimits (tenants_shown tenants.items)) }
    ensures same { IfOk result (λ ts. SameTenants tenants.items ts.items) }
    ensures kept { IfOk result (λ ts. AreTenants (tenants_shown ts.items)) }
    ensures rising { IfOk result (λ ts. DoNamesRise (tenants_shown ts.items)) }
    ensures refused { IfErr result (λ e. RefusesTenants e (tenants_shown tenants.items)) }
{
    tenants.sort_unstable();
    if !are_components(tenants.as_slice()) {
        return Err(Refusal::NameInvalid);
    }
    if !names_rise(tenants.as_slice()) {
        return Err(Refusal::NameInvalid);
    }
    if !are_within_limits(tenants.as_slice()) {
        return Err(Refusal::LimitReached);
    }
    Ok(tenants)
}
