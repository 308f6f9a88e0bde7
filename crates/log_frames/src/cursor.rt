//! A place between two frames.

/// A place in a log at which a frame begins, or the log ends.
#[derive(Clone, Copy, Debug, PartialEq, Eq)]
pub struct Cursor {
    /// The offset in the file, in bytes.
    pub place: u64,
    /// The sum of the frame before it, or of the header.
    pub sum: u64,
}
