//! An iterator over the open sessions of a repository.

ghost use Rattle.std.specs.Prelude.{◌≡◌, position};
ghost use Rattle.std.specs.Iterator.{YieldsFirst, item_count};
ghost use Rattle.spec_lib.specs.Texts.{same_text};

use crate::upload::{Upload, received_of};
use blob_digest::RepoName;
use std::marker::Model;

/// Returns the index of the first session for the repository.
fn place_of(rows: &[Upload], repo: &RepoName) -> Option<usize>
    ensures { result ≡ position (λ u. same_text u.repo repo.now) rows.now }
{
    rows.iter().position(|row| row.repo == *repo)
}

/// An iterator over the open sessions of a repository, in the order of their numbers.
///
/// It yields each session's number and the number of bytes received. Contracts see the items that remain.
#[derive(Drop)]
pub struct RepoSessions<'a> {
    pub(crate) rest: &'a [Upload],
    pub(crate) repo: &'a RepoName,
}

impl<'a> Model for RepoSessions<'a> {
    ghost use Rattle.std.specs.Prelude.{List, ℕ};
    ghost use Rattle.std.specs.Coded.{coded_list, coded×, coded_ℕ};
    ghost use Rattle.upload_table.specs.Rows.{rows_listed};

    ghost Value = { List (ℕ × ℕ) };

    ghost coded = { coded_list (coded× coded_ℕ coded_ℕ) };

    ghost view = { λ a. rows_listed a.repo.now a.rest.now };
}

impl<'a> Iterator for RepoSessions<'a> {
    type Item = (u32, u64);

    ghost next_gives = { YieldsFirst (λ s. s) };

    ghost remaining = { item_count (λ s. s) };

    fn next(&mut self) -> Option<(u32, u64)> {
        let place = place_of(self.rest, self.repo)?;
        let row = &self.rest[place];
        self.rest = &self.rest[place + 1..];
        Some((row.number, received_of(&row.content)))
    }
}
