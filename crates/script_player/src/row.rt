//! The rows of a script.
ghost use Rattle.std.specs.Prelude.{◌≡◌, true};
ghost use Rattle.script_player.specs.Rows.{has_needed_fields};

use store_api::Verb;

/// A well-formed row of a script. A malformed row cannot be constructed.
///
/// The last five fields are the bytes of the record's fields. A field that the command does not use is empty.
#[derive(Debug, Drop)]
pub struct Row {
    /// The lane that the row belongs to.
    pub lane: u8,
    /// The command.
    pub verb: Verb,
    /// A repository's name.
    pub repo: Vec<u8>,
    /// The number of a session, 1 to 4294967295; for a mount the name of the source repository, or nothing; for a
    /// command about a lease the lease's name.
    pub key: Vec<u8>,
    /// A digest's text.
    pub digest: Vec<u8>,
    /// The text of a byte range.
    pub range: Vec<u8>,
    /// The bytes of a chunk or of a manifest; for a share the name of the second lease.
    pub body: Vec<u8>,
    pub ghost fit: { has_needed_fields verb repo.items key.items digest.items range.items body.items
        ≡ true },
}

/// A row that borrows its fields from a list. The fields are those of `Row`.
#[derive(Clone, Copy, Debug)]
pub struct BorrowedRow<'r> {
    /// The lane that the row belongs to.
    pub lane: u8,
    /// The command.
    pub verb: Verb,
    /// A repository's name.
    pub repo: &'r [u8],
    /// The number of a session, the source of a mount or the name of a lease.
    pub key: &'r [u8],
    /// A digest's text.
    pub digest: &'r [u8],
    /// The text of a byte range.
    pub range: &'r [u8],
    /// The bytes of a chunk or of a manifest; for a share the name of the second lease.
    pub body: &'r [u8],
    pub ghost fit: { has_needed_fields verb repo.now key.now digest.now range.now body.now ≡ true },
}

impl<'r> BorrowedRow<'r> {
    /// Returns the total length of the fields in bytes.
    pub fn text_len(&self) -> usize {
        self.repo
            .len()
            .saturating_add(self.key.len())
            .saturating_add(self.digest.len())
            .saturating_add(self.range.len())
            .saturating_add(self.body.len())
    }
}
