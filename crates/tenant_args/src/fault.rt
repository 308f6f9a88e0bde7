//! The reasons why parsing fails.
ghost use Rattle.std.specs.Prelude.{◌≡◌};
ghost use Rattle.tenant_args.specs.declared.fault.TenantFault.TheVariants.{Memory};

use std::alloc::{AllocError, AllocFailed};

/// The reason why parsing the arguments fails.
#[derive(Clone, Copy, Debug, PartialEq, Eq, Drop)]
pub enum TenantFault {
    /// An argument spells no tenant, repeats a name, or is the 257th; or there is no argument.
    BadTenant,
    /// Memory allocation failed.
    Memory,
}

impl From<AllocError> for TenantFault {
    ghost from_gives = { λ _ e. e ≡ Memory };

    fn from(_error: AllocError) -> TenantFault {
        TenantFault::Memory
    }
}

impl<T: Drop> From<AllocFailed<T>> for TenantFault {
    ghost from_gives = { λ _ e. e ≡ Memory };

    fn from(_error: AllocFailed<T>) -> TenantFault {
        TenantFault::Memory
    }
}
