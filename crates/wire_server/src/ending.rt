//! The reasons why a connection ends.

/// The reason why a connection ended. After `WriteFailed` a part of the last reply may have been written.
#[derive(Clone, Copy, Debug, PartialEq, Eq, Drop)]
pub enum Ending {
    /// The client sent no further request, or no greeting.
    Closed,
    /// The input ended within a request, or within the greeting.
    CutOff,
    /// A read failed.
    ReadFailed,
    /// The client sent no greeting of this version, or a request whose body is over the limit.
    Malformed,
    /// A write failed.
    WriteFailed,
    /// The last request was executed, but its effects could not be made durable. Its reply was not written.
    NotDurable,
}
