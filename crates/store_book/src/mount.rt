//! The source of a mount.

ghost use Rattle.std.specs.Prelude.{◌≡◌, ◌<◌, length};
ghost use Rattle.store_book.specs.Internal.Storing.{mount_slot};

use crate::keep::find_linked;
use blob_digest::{Digest, RepoName};
use link_table::Links;
use slot_table::SlotTable;

/// Finds the slot of the blob that a mount links.
///
/// With a source, the source must belong to the tenant and contain the blob. Without one, any repository of the
/// tenant may.
pub(crate) fn find_source(
    links: &Links,
    slots: &SlotTable,
    tenant: u16,
    from: Option<&RepoName>,
    digest: &Digest,
) -> Option<u32>
    requires { tenant < length links.now.tenants }
    ensures { result ≡ mount_slot links.now slots.now tenant from.entry digest.now }
{
    match from {
        Some(from) => match links.tenant(from) {
            Ok(owner) if owner == tenant => find_linked(links, slots, owner, from, digest),
            _ => None,
        },
        None if links.tenant_holds(tenant, digest) => slots.find(digest),
        None => None,
    }
}
