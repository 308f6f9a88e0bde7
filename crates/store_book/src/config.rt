ghost use Rattle.std.specs.Prelude.{◌≡◌, IfOk};
ghost use Rattle.link_table.specs.Tenancy.{tenant_shown, tenants_shown};

use link_table::TenantSettings;
use std::alloc::{AllocError, Global};

/// The parameters of a new store. They never change later.
#[derive(Debug, Drop)]
pub struct Config {
    /// The number of blobs that the store can keep: 1 to 2^24.
    pub slots: u32,
    /// The largest size of a blob in bytes: at most 2^40.
    pub max_blob: u64,
    /// The tenants: 1 to 4,096 in any order, no name twice, with quotas of at most 2^50 bytes and limits of at most
    /// `GREATEST_LIMITS`.
    pub tenants: Vec<TenantSettings>,
    /// Whether contents may lie in files. If so, a content that is stored again is compared by its digest and its length
    /// alone, and replaces the stored one.
    pub on_disk: bool,
    /// The first generation of every slot.
    pub first_generation: u32,
}

/// Copies a tenant. Fails only if out of memory.
fn copy_of(tenant: &TenantSettings) -> Result<TenantSettings, AllocError>
    ensures { IfOk result (λ t. tenant_shown t ≡ tenant_shown tenant.now) }
{
    let name = tenant.name.clone()?;
    Ok(TenantSettings {
        name,
        quota: tenant.quota,
        share: tenant.share,
        limits: tenant.limits,
    })
}

/// Copies the tenants. Fails only if out of memory.
pub(crate) fn copy_tenants(
    alloc: Global,
    tenants: &[TenantSettings],
) -> Result<Vec<TenantSettings>, AllocError>
    ensures { IfOk result (λ v. tenants_shown v.items ≡ tenants_shown tenants.now) }
{
    let mut copies = Vec::new(alloc);
    for tenant in tenants {
        copies.push(copy_of(tenant)?)?;
    }
    Ok(copies)
}
