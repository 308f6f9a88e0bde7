//! An iterator over the manifests of a repository.

ghost use Rattle.std.specs.Iterator.{YieldsFirstBy, item_count};

use blob_digest::Digest;
use oci_manifest::Manifest;
use std::alloc::Global;
use std::collections::btree_map::Iter;
use std::marker::Model;
use std::sync::Arc;

/// An iterator over the manifests of a repository, in the order of their digests.
///
/// Contracts see the items that remain, each as its digest and its bytes.
#[derive(Drop)]
pub struct Manifests<'a> {
    pub(crate) rest: Option<Iter<'a, Digest, Arc<Manifest, Global>>>,
}

impl<'a> Model for Manifests<'a> {
    ghost use Rattle.std.specs.Prelude.{List, []};
    ghost use Rattle.std.specs.Option.{option_map_or};
    ghost use Rattle.std.specs.Coded.{coded_list, coded×};
    ghost use Rattle.spec_lib.specs.Texts.{Text, coded_text};
    ghost use Rattle.link_table.specs.Manifests.{shared_bytes};

    ghost Value = { List (Text × Text) };

    ghost coded = { coded_list (coded× coded_text coded_text) };

    ghost view = { λ a. option_map_or shared_bytes a.rest [] };
}

impl<'a> Iterator for Manifests<'a> {
    type Item = (Digest, &'a Manifest);

    ghost next_gives = { YieldsFirstBy (λ x. (x.0, x.1.now)) (λ s. s) };

    ghost remaining = { item_count (λ s. s) };

    fn next(&mut self) -> Option<(Digest, &'a Manifest)> {
        let (digest, manifest) = self.rest.as_mut()?.next()?;
        Some((*digest, &**manifest))
    }
}
