//! The second pass: the changes of the rewritten log.
ghost use Rattle.std.specs.Prelude.{◌≡◌};
ghost use Rattle.log_records.specs.Changes.{SessionOpened, change_view};
ghost use Rattle.log_rewriting.specs.Keeping.{empty_repo, is_kept, kept_changes, kept_link, kept_opened, kept_seal, kept_view, name_of, place_at};

use crate::empty_index::{EMPTY_INDEX, EMPTY_INDEX_DIGEST};
use crate::inventory::SessionKey;
use crate::kept::Kept;
use crate::names::tenant_text;
use crate::place::Place;
use log_records::Change;
use std::collections::{BTreeMap, BTreeSet};

/// Gives the changes of the rewritten log. It is made by [`Inventory::filter`](crate::Inventory::filter).
///
/// # Memory
///
/// The filter grows with the repositories, blobs, links, manifests and open sessions that exist at the end of the log.
#[derive(Drop)]
pub struct Filter {
    pub(crate) names: Vec<Vec<u8>>,
    pub(crate) tenants: BTreeMap<Vec<u8>, usize>,
    pub(crate) sessions: BTreeSet<SessionKey>,
    pub(crate) places: BTreeMap<u64, Place>,
}

impl Filter {
    /// Returns the changes that the rewritten log has in place of a change of the old one, whose record is at `offset`.
    ///
    /// | Change | In its place |
    /// |---|---|
    /// | a session is opened | the same; then the session is abandoned, if it is not kept |
    /// | a chunk of a kept session | the same |
    /// | a seal of a kept session | the same; then the end of a link, if the place of the record names one |
    /// | a seal of another, a link | the link, if this record made it and it exists at the end |
    /// | a manifest is put | the same, if this record put it and it exists at the end |
    /// | a repository is removed | the same |
    /// | any other | nothing |
    ///
    /// - A session is kept if it is open at the end, or if its seal made a blob that the tenant holds from then to the end.
    /// - It is kept as well if its seal is the last one by notes of a digest that a tenant holds at the end. Its repository may not
    ///   have the link at that place. Then the link is removed at once.
    /// - The repository of that session may not link the blob at the end. Then its link is removed after the first other link.
    /// - If the repository of that session is removed before, the link is removed after the first link that exists at that time.
    ///   This link is kept until another one takes its place in the same way.
    /// - A repository whose first record is not kept gets an empty image index, which is deleted at once.
    ///
    /// # Cost
    ///
    /// At most two look-ups, each logarithmic.
    ///
    /// # Memory
    ///
    /// The call does not allocate.
    pub fn keep<'a>(&'a self, change: &Change<'a>, offset: u64) -> Kept<'a>
        ensures { kept_view result ≡ kept_changes self.now (change_view change.now) offset }
    {
        match *change {
            Change::SessionOpened { repo, number } => self.keep_opened(change, repo, number),
            Change::ChunkReceived { tenant, number, .. }
            | Change::ChunkNoted { tenant, number, .. } => {
                if self.keeps(tenant, number) {
                    Kept::One(*change)
                } else {
                    Kept::Nothing
                }
            }
            Change::SessionSealed {
                tenant,
                number,
                digest,
                ..
            }
            | Change::SealNoted {
                tenant,
                number,
                digest,
                ..
            } => {
                if self.keeps(tenant, number) {
                    self.keep_seal(change, digest, offset)
                } else {
                    self.keep_link(digest, offset)
                }
            }
            Change::BlobLinked { repo, digest } => match self.place(offset) {
                Some(Place::Repo) => empty_repo(repo),
                _ => self.keep_link(digest, offset),
            },
            Change::ManifestPut { repo, .. } => match self.place(offset) {
                Some(Place::Manifest) => Kept::One(*change),
                Some(Place::Repo) => empty_repo(repo),
                _ => Kept::Nothing,
            },
            Change::RepoRemoved { .. } => Kept::One(*change),
            _ => Kept::Nothing,
        }
    }

    /// Returns whether a session is kept.
    fn keeps(&self, tenant: &[u8], number: u64) -> bool
        ensures { result ≡ is_kept self.now tenant.now number }
    {
        match self.tenants.get(tenant) {
            Some(tenant) => self.sessions.contains(&(*tenant, number)),
            None => false,
        }
    }

    /// Returns what is kept in place of the record at an offset.
    fn place(&self, offset: u64) -> Option<Place>
        ensures { result ≡ place_at self.now offset }
    {
        self.places.get(&offset).copied()
    }

    /// Returns the name of a repository.
    fn name(&self, repo: usize) -> &[u8]
        ensures { result.now ≡ name_of self.now repo }
    {
        match self.names.get(repo) {
            Some(name) => name.as_slice(),
            None => &[],
        }
    }

    /// Returns a session's opening, and its end if it is not kept.
    fn keep_opened<'a>(&self, change: &Change<'a>, repo: &'a [u8], number: u64) -> Kept<'a>
        requires { change_view change.now ≡ SessionOpened repo.now number }
        ensures { kept_view result ≡ kept_opened self.now repo.now number }
    {
        let tenant = tenant_text(repo);
        if self.keeps(tenant, number) {
            Kept::One(*change)
        } else {
            Kept::Two(*change, Change::SessionDropped { tenant, number })
        }
    }

    /// Returns the seal of a session that is kept, with the end of the link that its place names.
    fn keep_seal<'a>(&'a self, seal: &Change<'a>, digest: &'a [u8], offset: u64) -> Kept<'a>
        ensures { kept_view result ≡ kept_seal self.now (place_at self.now offset) digest.now
            (change_view seal.now) }
    {
        match self.place(offset) {
            Some(
                Place::Link {
                    repo: _,
                    unlinked: Some(unlinked),
                },
            ) => Kept::Two(
                *seal,
                Change::BlobUnlinked {
                    repo: self.name(unlinked),
                    digest,
                },
            ),
            _ => Kept::One(*seal),
        }
    }

    /// Returns the link that the record at an offset makes, if it is kept.
    fn keep_link<'a>(&'a self, digest: &'a [u8], offset: u64) -> Kept<'a>
        ensures { kept_view result ≡ kept_link self.now (place_at self.now offset) digest.now }
    {
        match self.place(offset) {
            Some(
                Place::Link {
                    repo,
                    unlinked: None,
                },
            ) => Kept::One(Change::BlobLinked {
                repo: self.name(repo),
                digest,
            }),
            Some(
                Place::Link {
                    repo,
                    unlinked: Some(other),
                },
            ) => Kept::Two(
                Change::BlobLinked {
                    repo: self.name(repo),
                    digest,
                },
                Change::BlobUnlinked {
                    repo: self.name(other),
                    digest,
                },
            ),
            _ => Kept::Nothing,
        }
    }
}

/// Returns the changes that create a repository without content.
fn empty_repo<'a>(repo: &'a [u8]) -> Kept<'a>
    ensures { kept_view result ≡ empty_repo repo.now }
{
    Kept::Two(
        Change::ManifestPut {
            repo,
            bytes: EMPTY_INDEX,
        },
        Change::ManifestDeleted {
            repo,
            digest: EMPTY_INDEX_DIGEST,
        },
    )
}
