//! An iterator over the repositories of a tenant.

ghost use Rattle.std.specs.Iterator.{YieldsFirstBy, item_count};

use crate::repo_blobs::RepoBlobs;
use blob_digest::RepoName;
use std::collections::btree_map::Keys;
use std::marker::Model;

/// An iterator over the repositories of a tenant, in the order of their names.
///
/// Contracts see the names that remain.
#[derive(Drop)]
pub struct Repos<'a> {
    pub(crate) rest: Keys<'a, RepoName, RepoBlobs>,
}

impl<'a> Model for Repos<'a> {
    ghost use Rattle.std.specs.Prelude.{List};
    ghost use Rattle.std.specs.Coded.{coded_list};
    ghost use Rattle.spec_lib.specs.Texts.{Text, coded_text};

    ghost Value = { List Text };

    ghost coded = { coded_list coded_text };

    ghost view = { λ a. a.rest };
}

impl<'a> Iterator for Repos<'a> {
    type Item = &'a RepoName;

    ghost next_gives = { YieldsFirstBy (λ x. x.now) (λ s. s) };

    ghost remaining = { item_count (λ s. s) };

    fn next(&mut self) -> Option<&'a RepoName> {
        self.rest.next()
    }
}
