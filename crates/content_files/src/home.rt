//! Where a content moves when it grows.

ghost use Rattle.std.specs.Prelude.{◌≡◌, nat_lt};

use crate::name::ContentName;

/// The file that a content moves into, and the greatest length of a content that stays in memory.
#[derive(Clone, Copy, Debug)]
pub struct Home {
    /// The name of the content.
    pub name: ContentName,
    /// The greatest length of a content in memory, in bytes.
    pub longest: u64,
}

impl Home {
    /// Returns whether a content of this length lies in the file.
    pub fn has_content_of(self, len: u64) -> bool
        ensures { result ≡ nat_lt self.longest len }
    {
        self.longest < len
    }
}
