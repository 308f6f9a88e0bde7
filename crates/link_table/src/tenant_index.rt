//! The index of tenants by their names.

ghost use Rattle.std.specs.Prelude.{◌≡◌, ◌≤◌, OnOk, OnErr, IfOk, IfErr, length, string_bytes};
ghost use Rattle.blob_digest.specs.declared.refusal.Refusal.TheVariants.{Memory};
ghost use Rattle.link_table.specs.Tenancy.{AreApart, max_tenants, tenants_shown};
ghost use Rattle.link_table.specs.TenantIndex.{AddsNumber, HasSameNumbers, IsIndexOf, number_at};

use crate::tenants::TenantSettings;
use blob_digest::Refusal;
use std::alloc::Global;
use std::collections::BTreeMap;

/// The number of each tenant, by its name.
///
/// # Cost
///
/// `find` is logarithmic in the number of tenants.
#[derive(Drop)]
pub struct TenantIndex {
    numbers: BTreeMap<String, u16>,
}

impl TenantIndex {
    /// Returns the index of these tenants. The number of a tenant is its position.
    ///
    /// # Errors
    ///
    /// - `Memory`: out of memory.
    pub fn new(alloc: Global, tenants: &[TenantSettings]) -> Result<TenantIndex, Refusal>
        requires few { length tenants.now ≤ max_tenants }
        requires apart { AreApart (tenants_shown tenants.now) }
        ensures ok { IfOk result (λ index. IsIndexOf tenants.now index) }
        ensures refused { IfErr result (λ e. e ≡ Memory) }
    {
        let mut index = TenantIndex {
            numbers: BTreeMap::new(alloc),
        };
        for (number, tenant) in tenants.iter().enumerate() {
            index.add(tenant.name.clone()?, number as u16)?;
        }
        Ok(index)
    }

    /// Adds a tenant with its number. If a tenant has this name already, its number is replaced.
    ///
    /// # Errors
    ///
    /// - `Memory`: out of memory. Nothing changes.
    fn add(&mut self, name: String, number: u16) -> Result<(), Refusal>
        ensures ok { OnOk result (AddsNumber self.old self.new (string_bytes name) number) }
        ensures err { OnErr result (HasSameNumbers self.old self.new) }
        ensures refused { IfErr result (λ e. e ≡ Memory) }
    {
        self.numbers.insert(name, number)?;
        Ok(())
    }

    /// Returns the number of the tenant with a name. Allocates nothing.
    pub fn find(&self, name: &str) -> Option<u16>
        ensures { result ≡ number_at self.now name.now }
    {
        self.numbers.get(name).copied()
    }
}
