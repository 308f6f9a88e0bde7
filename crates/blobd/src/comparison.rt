//! The comparison of a store with the files of its contents, at a start.

use crate::contents::Contents;
use crate::serve_fault::ServeFault;
use blob_digest::Digest;
use blob_store::{Naming, Store};
use content_files::ContentName;
use log_folder::{OpenContent, find_holders};
use std::alloc::{AllocError, Global};
use std::collections::BTreeSet;
use std::str;
use std::sync::Wait;
use store_replay::FolderFile;

/// The numbers of contents, by the position of their tenant.
type Numbers = Vec<Vec<u32>>;

/// Returns no numbers, for this number of tenants.
fn no_numbers(alloc: Global, tenants: usize) -> Result<Numbers, AllocError> {
    let mut numbers = Vec::with_capacity(alloc, tenants)?;
    for _ in 0..tenants {
        numbers.push(Vec::new(alloc))?;
    }
    Ok(numbers)
}

/// Adds the number of a content.
fn add(numbers: &mut Numbers, name: ContentName) -> Result<(), AllocError> {
    if let Some(own) = numbers.get_mut(name.tenant as usize) {
        own.push(name.number)?;
    }
    Ok(())
}

/// Sorts the numbers of each tenant.
fn sort(numbers: &mut Numbers) {
    for own in numbers.iter_mut() {
        own.sort_unstable();
    }
}

/// Returns the contents in files that a store's blobs have, sorted.
fn named_by<W: Wait, S: Naming>(
    rt: &W,
    alloc: Global,
    store: &Store<S>,
    contents: &Contents<'_>,
) -> Result<Numbers, AllocError> {
    let mut named = no_numbers(alloc, contents.files.tenants().len())?;
    for slot in 0..contents.slots {
        if let Some(blob) = store.blob_in(rt, slot) {
            if let Some(name) = blob.content().name() {
                add(&mut named, name)?;
            }
        }
    }
    sort(&mut named);
    Ok(named)
}

/// Returns the contents of open sessions, sorted.
fn named_open(
    alloc: Global,
    contents: &Contents<'_>,
    open: &[OpenContent],
) -> Result<Numbers, AllocError> {
    let mut named = no_numbers(alloc, contents.files.tenants().len())?;
    for content in open {
        add(&mut named, content.name)?;
    }
    sort(&mut named);
    Ok(named)
}

/// Returns whether sorted numbers have this one.
fn has(numbers: &[u32], number: u32) -> bool {
    numbers.binary_search(&number).is_ok()
}

/// Adds the contents of a tenant that are among the first numbers, which are sorted, and not among the others, which are too.
fn add_others(
    found: &mut Vec<ContentName>,
    tenant: u16,
    numbers: &[u32],
    others: &[u32],
) -> Result<(), AllocError> {
    for number in numbers {
        if !has(others, *number) {
            found.push(ContentName {
                tenant,
                number: *number,
            })?;
        }
    }
    Ok(())
}

/// The contents whose files are missing, and the files that no content has.
#[derive(Drop)]
pub struct Compared {
    /// Contents of blobs whose files are missing.
    pub missing: Vec<ContentName>,
    /// Files that neither a blob nor an open session has.
    pub orphans: Vec<ContentName>,
}

/// Compares the files of a tenant with the contents that a store names.
fn compare_tenant(
    alloc: Global,
    contents: &Contents<'_>,
    tenant: u16,
    named: &[u32],
    open: &[u32],
    compared: &mut Compared,
) -> Result<(), ServeFault> {
    let mut listed = match contents.files.folder().list(tenant) {
        Ok(listed) => listed.numbers,
        Err(error) => return Err(ServeFault::of_read(FolderFile::Contents, error)),
    };
    listed.sort_unstable();
    let mut unnamed = Vec::new(alloc);
    add_others(&mut compared.missing, tenant, named, listed.as_slice())?;
    add_others(&mut unnamed, tenant, listed.as_slice(), named)?;
    for name in unnamed.iter() {
        if !has(open, name.number) {
            compared.orphans.push(*name)?;
        }
    }
    Ok(())
}

/// Compares the files with the contents that a store and the open sessions name. The names of files alone are looked at.
///
/// # Errors
///
/// - `Memory`
/// - `Read`, if the folder of contents cannot be read.
///
/// # Cost
///
/// A look at each slot, and 8 bytes for each content in a file.
pub fn compare<W: Wait, S: Naming>(
    rt: &W,
    alloc: Global,
    store: &Store<S>,
    contents: &Contents<'_>,
    open: &[OpenContent],
) -> Result<Compared, ServeFault> {
    let named = named_by(rt, alloc, store, contents)?;
    let open = named_open(alloc, contents, open)?;
    let mut compared = Compared {
        missing: Vec::new(alloc),
        orphans: Vec::new(alloc),
    };
    for (tenant, (named, open)) in named.iter().zip(open.iter()).enumerate() {
        let Ok(tenant) = u16::try_from(tenant) else {
            break;
        };
        compare_tenant(
            alloc,
            contents,
            tenant,
            named.as_slice(),
            open.as_slice(),
            &mut compared,
        )?;
    }
    Ok(compared)
}

/// Returns the digests of contents that a store's blobs have, in the order of the slots, with their names.
fn digests_of<W: Wait, S: Naming>(
    rt: &W,
    alloc: Global,
    store: &Store<S>,
    contents: &Contents<'_>,
    missing: &[ContentName],
) -> Result<(Vec<ContentName>, Vec<Digest>), AllocError> {
    let mut names = Vec::new(alloc);
    let mut digests = Vec::new(alloc);
    for slot in 0..contents.slots {
        if let Some(blob) = store.blob_in(rt, slot) {
            if let Some(name) = blob.content().name() {
                if missing.contains(&name) {
                    names.push(name)?;
                    digests.push(blob.digest())?;
                }
            }
        }
    }
    Ok((names, digests))
}

/// Returns the text of the names of repositories, each after a space.
fn names_in(alloc: Global, repos: Option<&BTreeSet<Vec<u8>>>) -> Result<String, AllocError> {
    let mut text = String::new(alloc);
    if let Some(repos) = repos {
        for repo in repos.iter() {
            if let Ok(repo) = str::from_utf8(repo.as_slice()) {
                text.push(' ')?;
                text.push_str(repo)?;
            }
        }
    }
    Ok(text)
}

/// Prints each content whose file is missing, with its digest and the repositories that link it.
///
/// # Errors
///
/// - `Memory`
/// - `Folder`, if the log cannot be read again.
pub fn print_missing<W: Wait, S: Naming>(
    rt: &W,
    host: &HostRuntime,
    folder: &str,
    store: &Store<S>,
    contents: &Contents<'_>,
    missing: &[ContentName],
) -> Result<(), ServeFault> {
    let alloc = host.alloc();
    let (names, digests) = digests_of(rt, alloc, store, contents, missing)?;
    let held = match find_holders(host, folder, digests.as_slice()) {
        Ok(held) => held,
        Err(error) => return Err(ServeFault::Folder(error)),
    };
    for (name, digest) in names.iter().zip(digests.iter()) {
        let path = contents.files.shown(alloc, *name)?;
        let repos = names_in(alloc, held.of(digest))?;
        let _ = eprint!(*host; "blobd: {path} is missing: {digest} of{repos}\n");
    }
    Ok(())
}
