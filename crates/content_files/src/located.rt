//! Where bytes of a content lie in its file.

use crate::name::ContentName;

/// Where bytes of a content lie in its file, in pieces that follow each other.
#[derive(Drop)]
pub struct Located {
    /// The name of the content, which has the file.
    pub name: ContentName,
    /// The offset at which the first piece begins, in the content and in the file.
    pub offset: u64,
    /// The notes of the pieces: of each its length and its sum, of eight bytes each, the lowest first.
    pub notes: Vec<u8>,
}
