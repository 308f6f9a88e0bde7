//! An iterator over the blobs of a repository.

ghost use Rattle.std.specs.Iterator.{YieldsFirst, item_count};

use blob_digest::Digest;
use std::collections::btree_map::Iter;
use std::marker::Model;

/// An iterator over the blobs of a repository, in the order of their digests, with their sizes in bytes.
///
/// Contracts see the items that remain.
#[derive(Drop)]
pub struct Blobs<'a> {
    pub(crate) rest: Option<Iter<'a, Digest, u64>>,
}

impl<'a> Model for Blobs<'a> {
    ghost use Rattle.std.specs.Prelude.{List, ℕ, []};
    ghost use Rattle.std.specs.Option.{option_map_or};
    ghost use Rattle.std.specs.Coded.{coded_list, coded×, coded_ℕ};
    ghost use Rattle.spec_lib.specs.Texts.{Text, coded_text};

    ghost Value = { List (Text × ℕ) };

    ghost coded = { coded_list (coded× coded_text coded_ℕ) };

    ghost view = { λ a. option_map_or (λ rest. rest) a.rest [] };
}

impl<'a> Iterator for Blobs<'a> {
    type Item = (Digest, u64);

    ghost next_gives = { YieldsFirst (λ s. s) };

    ghost remaining = { item_count (λ s. s) };

    fn next(&mut self) -> Option<(Digest, u64)> {
        let (digest, size) = self.rest.as_mut()?.next()?;
        Some((*digest, *size))
    }
}
