//! The settings that a log needs.
ghost use Rattle.std.specs.Prelude.{◌≡◌};
ghost use Rattle.server_cli.specs.Stops.{need_of};

use blob_digest::Refusal;
use thiserror::Error;

/// The setting that a log needs.
#[derive(Clone, Copy, Debug, PartialEq, Eq, Drop, Error)]
pub enum Need {
    /// The tenant.
    #[error("the tenant is missing")]
    Tenant,
    /// A greater quota than this one, of the tenant.
    #[error("the quota of {0} bytes is too small")]
    Quota(u64),
    /// A greater share of the slots, of the tenant.
    #[error("the tenant's number of blobs is too small")]
    Share,
    /// More slots.
    #[error("there are too few slots")]
    Slots,
    /// A greater limit of blobs.
    #[error("the limit of blobs is too small")]
    MaxBlob,
}

impl Need {
    /// Returns the setting for which a store refuses a change, or `None` if it has another reason.
    ///
    /// Of the limits for which it fails with `LimitReached`, only a share is a setting. The others are the same in each
    /// store, so no log of a store exceeds them.
    pub fn of_refusal(refusal: Refusal) -> Option<Need>
        ensures { result ≡ need_of refusal }
    {
        match refusal {
            Refusal::NameUnknown => Some(Need::Tenant),
            Refusal::Quota { used: _, quota } => Some(Need::Quota(quota)),
            Refusal::LimitReached => Some(Need::Share),
            Refusal::StoreFull => Some(Need::Slots),
            Refusal::SizeInvalid => Some(Need::MaxBlob),
            _ => None,
        }
    }
}
