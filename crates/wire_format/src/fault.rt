//! The reasons why a connection has no further frame.

/// The reason why no frame could be read. The connection is then of no further use.
#[derive(Clone, Copy, Debug, PartialEq, Eq, Drop)]
pub enum FrameFault {
    /// The connection ended within a frame.
    CutOff,
    /// A read failed.
    Failed,
    /// The bytes are not a frame of this protocol: another greeting, or a body over the limit.
    Malformed,
}
