//! Parses tenants from arguments.
ghost use Rattle.std.specs.Prelude.{◌≡◌, ◌<◌, ◌≤◌, ◌↔◌, IsTrue, IfOk, IfErr, OnOk, string_bytes};
ghost use Rattle.std.specs.List.{list_any};
ghost use Rattle.spec_lib.specs.Texts.{same_text};
ghost use Rattle.link_table.specs.Tenancy.{HasNames, IsWithinLimits, tenants_shown};
ghost use Rattle.tenant_args.specs.Tenants.{AddsTenant, HasBadTenant, IsAddFault, IsBadOnlyIf, ReadsTenant, SpellTenants, TakesLimits, bounds_of, most_tenants, numbers_of, quota_of, settings_of, texts_of};

use crate::fault::TenantFault;
use blob_digest::{decimal, is_component};
use link_table::{
    GREATEST_LIMITS, MAX_QUOTA, MAX_TENANTS, TenantLimits, TenantSettings, UNLIMITED_SHARE,
};
use std::alloc::Global;

/// The numbers of repositories, of manifests and of sessions.
type Numbers = (u64, u64, u64);

/// The maximum number of tenants of a script's store.
const SCRIPT_TENANTS: usize = 256;

/// The numbers of the usual limits.
const USUAL_NUMBERS: Numbers = (1024, 1024, 64);

/// Parses three numbers in decimal digits, with commas between them.
fn read_numbers(text: &str) -> Option<Numbers>
    ensures { result ≡ numbers_of text.now }
{
    let (repos, rest) = text.split_once(',')?;
    let (manifests, sessions) = rest.split_once(',')?;
    let repos = decimal(repos.as_bytes())?;
    let manifests = decimal(manifests.as_bytes())?;
    let sessions = decimal(sessions.as_bytes())?;
    Some((repos, manifests, sessions))
}

/// Parses a share in decimal digits and, after a comma, limits.
fn read_bounds(text: &str) -> Option<(u64, Numbers)>
    ensures { result ≡ bounds_of text.now }
{
    let Some((share, limits)) = text.split_once(',') else {
        let share = decimal(text.as_bytes())?;
        return Some((share, USUAL_NUMBERS));
    };
    let share = decimal(share.as_bytes())?;
    let limits = read_numbers(limits)?;
    Some((share, limits))
}

/// Parses a quota in decimal digits, without a share.
fn read_quota(text: &str) -> Option<(u64, (u64, Numbers))>
    ensures { result ≡ quota_of text.now }
{
    let quota = decimal(text.as_bytes())?;
    Some((quota, (UNLIMITED_SHARE as u64, USUAL_NUMBERS)))
}

/// Parses a quota in decimal digits and, if `shares` allows it, a comma, a share and limits.
fn read_settings(text: &str, shares: bool) -> Option<(u64, (u64, Numbers))>
    ensures { result ≡ settings_of shares text.now }
{
    if !shares {
        return read_quota(text);
    }
    let Some((quota, bounds)) = text.split_once(',') else {
        return read_quota(text);
    };
    let quota = decimal(quota.as_bytes())?;
    let bounds = read_bounds(bounds)?;
    Some((quota, bounds))
}

/// Returns whether a number is at least 1 and at most `greatest`.
fn is_accepted(number: u64, greatest: u32) -> bool
    ensures { IsTrue result ↔ ((0 < number) × (number ≤ greatest)) }
{
    number > 0 && number <= u64::from(greatest)
}

/// Returns the limits with these numbers, if each is at least 1 and none is above the greatest limit.
fn limits_from(numbers: Numbers) -> Option<TenantLimits>
    ensures { TakesLimits numbers result }
{
    let (repos, manifests, sessions) = numbers;
    if !is_accepted(repos, GREATEST_LIMITS.repos) {
        return None;
    }
    if !is_accepted(manifests, GREATEST_LIMITS.manifests) {
        return None;
    }
    if !is_accepted(sessions, GREATEST_LIMITS.sessions) {
        return None;
    }
    Some(TenantLimits {
        repos: repos as u32,
        manifests: manifests as u32,
        sessions: sessions as u32,
    })
}

/// Parses an argument: a name, `=`, a quota of at most 2^50, and, if `shares` allows it, a comma, a share below 2^32 and
/// limits.
fn read_tenant(word: &str, shares: bool) -> Option<(&str, u64, u32, TenantLimits)>
    ensures { ReadsTenant shares word.now result }
{
    let (name, settings) = word.split_once('=')?;
    if !is_component(name.as_bytes()) {
        return None;
    }
    let (quota, (share, numbers)) = read_settings(settings, shares)?;
    let limits = limits_from(numbers)?;
    if quota <= MAX_QUOTA && share <= UNLIMITED_SHARE as u64 {
        Some((name, quota, share as u32, limits))
    } else {
        None
    }
}

/// Returns whether a tenant has this name.
fn has_name(tenants: &[TenantSettings], name: &str) -> bool
    ensures { result ≡ list_any (λ t. same_text (string_bytes t.name) name.now) tenants.now }
{
    tenants.iter().any(|t| t.name.as_str() == name)
}

/// Returns the maximum number of tenants: that of a store if shares are allowed, and else that of a script's store.
fn most_tenants(shares: bool) -> usize
    ensures { result ≡ most_tenants shares }
{
    if shares { MAX_TENANTS } else { SCRIPT_TENANTS }
}

/// Adds the tenant that an argument spells.
fn add_tenant(
    alloc: Global,
    word: &str,
    shares: bool,
    tenants: &mut Vec<TenantSettings>,
) -> Result<(), TenantFault>
    ensures added { OnOk result (AddsTenant shares word.now tenants.old.items tenants.new.items) }
    ensures refused { IfErr result (λ e. IsAddFault shares tenants.old.items word.now e) }
{
    let Some((name, quota, share, limits)) = read_tenant(word, shares) else {
        return Err(TenantFault::BadTenant);
    };
    if has_name(tenants, name) {
        return Err(TenantFault::BadTenant);
    }
    let most = most_tenants(shares);
    if tenants.len() >= most {
        return Err(TenantFault::BadTenant);
    }
    let name = String::from_str(alloc, name)?;
    tenants.push(TenantSettings {
        name,
        quota,
        share,
        limits,
    })?;
    Ok(())
}

/// Parses the tenants that the arguments spell, in their order.
///
/// There may be 256 of them, as for a script, or `MAX_TENANTS` if `shares` is set, as for a server.
///
/// An argument is a name, `=` and a quota in bytes. If `shares` allows it, a comma and a share may follow, the maximum
/// number of distinct blobs of the tenant's repositories: 0 to 2^32 - 1. Without one, the number is not limited. After a
/// share, a comma and limits may follow: the maximum numbers of the tenant's repositories, of the manifests of each, and of
/// open sessions, with commas between them. Each is at least 1 and at most its greatest limit. Without them, the tenant has
/// the usual limits.
///
/// # Errors
///
/// - `BadTenant`: there is no argument.
/// - `BadTenant`, for the first such argument: it spells no tenant, its name came before, or as many as there may be came before.
/// - `Memory`: allocation fails. It may be returned before a later argument is checked.
///
/// # Cost
///
/// Each name is compared with those before it, of which there are at most as many as there may be. The call allocates the list and a copy of
/// each name.
pub fn read_tenants(
    alloc: Global,
    words: &[&str],
    shares: bool,
) -> Result<Vec<TenantSettings>, TenantFault>
    ensures spelled { IfOk result (λ v. SpellTenants shares (texts_of words.now)
        (tenants_shown v.items)) }
    ensures names { IfOk result (λ v. HasNames (tenants_shown v.items)) }
    ensures limits { IfOk result (λ v. IsWithinLimits (tenants_shown v.items)) }
    ensures refused { IfErr result (λ e. IsBadOnlyIf (HasBadTenant shares (texts_of words.now)) e) }
{
    if words.is_empty() {
        return Err(TenantFault::BadTenant);
    }
    let mut tenants = Vec::new(alloc);
    for word in words {
        add_tenant(alloc, word, shares, &mut tenants)?;
    }
    Ok(tenants)
}
