//! The totals that a call returns.

/// The totals of all accepted commands and of their bytes.
#[derive(Clone, Copy, PartialEq, Eq, Debug)]
pub struct Totals {
    /// Accepted commands.
    pub commands: u64,
    /// Bytes of accepted chunks.
    pub received: u64,
    /// Bytes received in sessions that are neither closed nor abandoned.
    pub in_sessions: u64,
    /// Bytes of closed sessions.
    pub closed: u64,
    /// Bytes of abandoned sessions.
    pub abandoned: u64,
    /// Unsettled desks.
    pub desks: u64,
}
