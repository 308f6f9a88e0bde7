//! Collects the parts of a filter.
ghost use Rattle.std.specs.Prelude.{◌≡◌, OnOk, map};
ghost use Rattle.std.specs.BTreeMap as tree;
ghost use Rattle.log_rewriting.specs.Keeping.{HasSession, HasSessions, KeepsSessions, blob_session, last_session};

use crate::blobs::{Blob, BlobKey, Blobs, Link, Move, Session, first_link};
use crate::inventory::{SessionKey, Stored};
use crate::names::{Names, Tenant};
use crate::place::Place;
use crate::seals::{LastSeal, SealedLink};
use blob_digest::Digest;
use std::alloc::{AllocError, Global};
use std::collections::{BTreeMap, BTreeSet};

/// Adds a session to a set.
fn add_session(kept: &mut BTreeSet<SessionKey>, key: SessionKey) -> Result<(), AllocError>
    ensures there { OnOk result (HasSession kept.new key) }
    ensures kept { KeepsSessions kept.old kept.new }
{
    kept.insert(key)?;
    Ok(())
}

/// Adds the open sessions to a set.
pub fn add_open(
    kept: &mut BTreeSet<SessionKey>,
    sessions: &BTreeMap<SessionKey, Session>,
) -> Result<(), AllocError>
    ensures there { OnOk result (HasSessions kept.new (tree.keys sessions.now)) }
    ensures kept { KeepsSessions kept.old kept.new }
{
    for key in sessions.keys() {
        add_session(kept, *key)?;
    }
    Ok(())
}

/// Adds the sessions whose seals made blobs to a set.
pub fn add_held(
    kept: &mut BTreeSet<SessionKey>,
    blobs: &BTreeMap<BlobKey, Blob>,
) -> Result<(), AllocError>
    ensures there { OnOk result (HasSessions kept.new (map blob_session blobs.now.entries)) }
    ensures kept { KeepsSessions kept.old kept.new }
{
    for (key, blob) in blobs.iter() {
        add_session(kept, (key.0, blob.seal.number))?;
    }
    Ok(())
}

/// Adds the sessions of the last seals of digests to a set.
pub fn add_last(
    kept: &mut BTreeSet<SessionKey>,
    seals: &BTreeMap<Digest, LastSeal>,
) -> Result<(), AllocError>
    ensures there { OnOk result (HasSessions kept.new (map last_session seals.now.entries)) }
    ensures kept { KeepsSessions kept.old kept.new }
{
    for (_digest, last) in seals.iter() {
        add_session(kept, (last.tenant, last.seal.number))?;
    }
    Ok(())
}

/// Adds the places of links. The seal, or a move, makes that of the blob's anchor.
pub fn add_links(
    places: &mut BTreeMap<u64, Place>,
    blobs: &BTreeMap<BlobKey, Blob>,
) -> Result<(), AllocError> {
    for blob in blobs.values() {
        add_links_of(places, &blob.links, blob.anchor.repo)?;
        add_moves(places, blob.moves.as_slice(), blob.seal.session.repo)?;
        if blob.is_moved() {
            add_last_move(places, &blob.links, blob.anchor.repo)?;
        }
    }
    Ok(())
}

/// Adds the places of the last seals of digests that make a link which the rewritten log does not have.
pub fn add_extra(places: &mut BTreeMap<u64, Place>, blobs: &Blobs) -> Result<(), AllocError> {
    for (digest, last) in blobs.last().iter() {
        if blobs.sealed_link(digest, last) == Some(SealedLink::Extra) {
            let repo = last.seal.session.repo;
            let place = Place::Link {
                repo,
                unlinked: Some(repo),
            };
            places.insert(last.seal.offset, place)?;
        }
    }
    Ok(())
}

/// Adds the places of a blob's links.
fn add_links_of(
    places: &mut BTreeMap<u64, Place>,
    links: &BTreeMap<usize, Link>,
    anchor: usize,
) -> Result<(), AllocError> {
    for (repo, link) in links.iter() {
        if *repo != anchor {
            let place = Place::Link {
                repo: *repo,
                unlinked: None,
            };
            places.insert(link.offset, place)?;
        }
    }
    Ok(())
}

/// Adds the places of a blob's moves. Each removes the link of the repository from which the blob moved.
fn add_moves(
    places: &mut BTreeMap<u64, Place>,
    moves: &[Move],
    sealed_in: usize,
) -> Result<(), AllocError> {
    let mut from = sealed_in;
    for step in moves.iter() {
        let place = Place::Link {
            repo: step.repo,
            unlinked: Some(from),
        };
        places.insert(step.offset, place)?;
        from = step.repo;
    }
    Ok(())
}

/// Removes the link of the blob's anchor after the first of the links.
fn add_last_move(
    places: &mut BTreeMap<u64, Place>,
    links: &BTreeMap<usize, Link>,
    anchor: usize,
) -> Result<(), AllocError> {
    if let Some((repo, link)) = first_link(links) {
        let place = Place::Link {
            repo,
            unlinked: Some(anchor),
        };
        places.insert(link.offset, place)?;
    }
    Ok(())
}

/// Adds the places of manifests.
pub fn add_manifests(
    places: &mut BTreeMap<u64, Place>,
    manifests: &BTreeMap<(usize, Digest), Stored>,
) -> Result<(), AllocError> {
    for stored in manifests.values() {
        places.insert(stored.offset, Place::Manifest)?;
    }
    Ok(())
}

/// Adds the places of repositories whose first record is not kept.
pub fn add_repos(places: &mut BTreeMap<u64, Place>, names: &Names) -> Result<(), AllocError> {
    for repo in names.repos().iter() {
        if repo.exists && !repo.is_made {
            places.insert(repo.offset, Place::Repo)?;
        }
    }
    Ok(())
}

/// Adds the places of removed repositories whose first record is not kept.
pub fn add_bare(places: &mut BTreeMap<u64, Place>, names: &Names) -> Result<(), AllocError> {
    for offset in names.bare().iter() {
        places.insert(*offset, Place::Repo)?;
    }
    Ok(())
}

/// Returns the names of repositories, by their numbers.
pub fn names_of(alloc: Global, ids: &BTreeMap<Vec<u8>, usize>) -> Result<Vec<Vec<u8>>, AllocError> {
    let mut names = Vec::with_capacity(alloc, ids.len())?;
    for _ in 0..ids.len() {
        names.push(Vec::new(alloc))?;
    }
    for (name, id) in ids.iter() {
        if let Some(place) = names.get_mut(*id) {
            *place = name.clone()?;
        }
    }
    Ok(names)
}

/// Returns the numbers of tenants, by their names.
pub fn numbers_of(
    alloc: Global,
    tenants: &BTreeMap<Vec<u8>, Tenant>,
) -> Result<BTreeMap<Vec<u8>, usize>, AllocError> {
    let mut numbers = BTreeMap::new(alloc);
    for (name, tenant) in tenants.iter() {
        numbers.insert(name.clone()?, tenant.id)?;
    }
    Ok(numbers)
}
