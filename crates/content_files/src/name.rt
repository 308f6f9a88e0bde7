//! Names of contents.

/// The name of a content: the session that received it. No number of a session is used twice.
#[derive(Clone, Copy, Debug, PartialEq, Eq)]
pub struct ContentName {
    /// The position of the tenant's name in the list of tenants.
    pub tenant: u16,
    /// The number of the session among its tenant's.
    pub number: u32,
}
