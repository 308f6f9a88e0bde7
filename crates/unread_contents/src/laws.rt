//! States the isolation of tenants in a store that has not read its contents. The theorems are the contract of a function with an empty body.

ghost use Rattle.unread_contents.specs.Unread.{
  HistoriesAreRead,
  ReadCatalogsAreSound,
  ReadContentsAreTheSame,
  TenantsAreIsolatedOnDisk,
  TenantsReadTheirContents,
};

/// States that a store with contents on disk isolates tenants before it has read its contents.
///
/// - `histories`: a legal history of the store is one of the same store with its contents read. Only the contents that
///   leases return may differ, in bytes that were not read.
/// - `sound`: a sound catalog with its contents read is sound, if they have their digests.
/// - `alone`: a tenant's replies and its view at the end are those of its isolated history, in which the other tenants
///   have any quotas, shares and limits. Only contents that leases return, and contents in the view, may differ. They
///   are as long, and have the same bytes where both were read.
/// - `read`: the same, with an isolated history that begins with all contents read. Each byte of the tenant's replies
///   and view that was read is then the byte on the disk.
/// - `agreement`: contents that have the same bytes where both were read are the same if all of both was read.
///
/// The premises of `alone` and `read`:
///
/// - The first catalog is sound, and its contents lie on disk.
/// - No reply to the tenant is one that others may cause, as in `isolation_of_histories` of `store_model`.
/// - No two uploads differ and have the same digest. An upload of a stored digest has the bytes of the stored content
///   that were read. In place of this, `read` has the premise that no two uploads or contents on the disk differ and
///   have the same digest, and that the contents on the disk have their digests.
pub fn unread_contents()
    ensures histories { HistoriesAreRead }
    ensures sound { ReadCatalogsAreSound }
    ensures alone { TenantsAreIsolatedOnDisk }
    ensures read { TenantsReadTheirContents }
    ensures agreement { ReadContentsAreTheSame }
{}
