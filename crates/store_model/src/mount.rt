//! Defines the result of a mount.

/// The result of a mount (OCI Distribution Specification 1.1, "Mounting a blob from another repository").
#[derive(Clone, Copy, Debug, PartialEq, Eq)]
pub enum Mount {
    /// The blob was linked in the repository.
    Mounted,
    /// The source does not contain the blob, so an upload session with this number was opened.
    ///
    /// Without a named source, the source is every repository of the tenant.
    Session(u32),
}
