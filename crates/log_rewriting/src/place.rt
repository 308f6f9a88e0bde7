//! What a rewritten log has in place of one record.

/// What the rewritten log has in place of a record, or what it has after the seal of a session that is kept.
#[derive(Clone, Copy, Debug)]
pub enum Place {
    /// The manifest that the record puts.
    Manifest,
    /// The link that the record makes, which may be a seal that is kept. Then a repository's link to the blob is removed, if one is given.
    Link {
        /// Number of the repository.
        repo: usize,
        /// Number of the repository whose link is removed: another one, or that of a seal whose link is not kept.
        unlinked: Option<usize>,
    },
    /// The repository of the record, which it creates.
    Repo,
}
