//! What a start does with the contents that earlier processes left.

use crate::comparison::{compare, print_missing};
use crate::contents::{Contents, copied};
use crate::replaying::LeftContents;
use crate::serve_fault::ServeFault;
use blob_store::{Naming, Store};
use content_files::ContentName;
use content_folder::ContentFolder;
use log_folder::OpenContent;
use std::alloc::{AllocError, Global};
use std::io;
use std::sync::Wait;
use std::thread::{self, Threads};
use store_replay::FolderFile;

/// The number of sweeps that free the slots of all blobs without links, of which nobody has a lease.
const SWEEPS: u32 = 2;

/// Frees the slots of the blobs that had no links when the earlier process ended, and drops the sessions whose contents were given up.
fn tidy_store<W: Wait, S: Naming>(
    rt: &W,
    store: &Store<S>,
    open: &[OpenContent],
) -> Result<(), ServeFault> {
    let Ok(mut desks) = store.desks(rt, 1) else {
        return Err(ServeFault::Memory);
    };
    let Some(mut desk) = desks.pop() else {
        unreachable!()
    };
    for content in open {
        if content.is_given_up {
            let _ = store.abandon(rt, &mut desk, &content.repo, content.name.number);
        }
    }
    for _ in 0..SWEEPS {
        let _ = store.sweep_at(rt, &mut desk);
    }
    desks.push_reserved(desk);
    store.settle(rt, desks);
    Ok(())
}

/// Cuts the file of an open session to the length that the log has. What is behind was written by a chunk that was not recorded. If the
/// log has no such chunk at all, the file is removed.
fn cut(folder: &ContentFolder<'_>, content: &OpenContent) -> io::Result<()> {
    if content.has_file {
        let _ = folder.cut(content.name, content.received)?;
    } else {
        let _ = folder.remove(content.name)?;
    }
    Ok(())
}

/// Cuts the files of open sessions to the lengths that the log has.
fn cut_open(contents: &Contents<'_>, open: &[OpenContent]) -> Result<(), ServeFault> {
    for content in open {
        if content.is_given_up {
            continue;
        }
        if let Err(error) = cut(contents.files.folder(), content) {
            return Err(ServeFault::of_read(FolderFile::Contents, error));
        }
    }
    Ok(())
}

/// Prints how many files of contents were removed, if there were any.
fn print_removed(rt: &HostRuntime, data: &str, removed: u64) {
    if removed > 0 {
        let _ = eprint!(*rt;
            "blobd: {data}/contents: {removed} files that the log does not name were removed\n"
        );
    }
}

/// Removes files of contents, and prints how many.
fn remove_all(rt: &HostRuntime, data: &str, folder: &ContentFolder<'_>, orphans: &[ContentName]) {
    let mut removed: u64 = 0;
    for name in orphans {
        if matches!(folder.remove(*name), Ok(true)) {
            removed = removed.saturating_add(1);
        }
    }
    print_removed(rt, data, removed);
}

/// Removes the files of contents whose numbers sessions of this process will have, prints how many, and returns the others.
///
/// # Errors
///
/// - `Memory`
/// - `Read`, if a file cannot be removed.
fn remove_later(
    host: &HostRuntime,
    data: &str,
    contents: &Contents<'_>,
    last_numbers: &[u32],
    orphans: Vec<ContentName>,
) -> Result<Vec<ContentName>, ServeFault> {
    let mut others = Vec::new(host.alloc());
    let mut removed: u64 = 0;
    for name in orphans.iter() {
        let last = last_numbers.get(name.tenant as usize).copied().unwrap_or(0);
        if name.number <= last {
            others.push(*name)?;
            continue;
        }
        if let Err(error) = contents.files.folder().remove(*name) {
            return Err(ServeFault::of_read(FolderFile::Contents, error));
        }
        removed = removed.saturating_add(1);
    }
    print_removed(host, data, removed);
    Ok(others)
}

/// Removes the files of contents that the log does not name, in a thread. If none can be started, they stay until the next start.
fn remove_orphans<W: Threads>(
    rt: &W,
    host: &HostRuntime,
    data: &str,
    contents: &Contents<'_>,
    orphans: Vec<ContentName>,
) -> Result<(), AllocError> {
    if orphans.is_empty() {
        return Ok(());
    }
    let here = *host;
    let alloc = host.alloc();
    let data = String::from_str(alloc, data)?;
    let path = String::from_str(alloc, contents.path)?;
    let tenants = copied(alloc, contents.files.tenants())?;
    let job = move || {
        let folder = ContentFolder::at(&here, path.as_str(), tenants.as_slice());
        remove_all(&here, data.as_str(), &folder, orphans.as_slice());
    };
    let _ = thread::spawn(rt, job);
    Ok(())
}

/// Brings a store that was replayed and the files of its contents together: blobs without links are freed, files of open sessions
/// are cut to what the log has of them, and files that neither a blob nor an open session has are removed: at once if a session may get
/// their number, and else in a thread.
///
/// # Errors
///
/// - `Memory`
/// - `Read`, `Folder`: the folder cannot be used.
/// - `Missing`, if files are missing and that is not accepted. They are printed in any case.
pub fn take_contents<W: Wait + Threads, S: Naming>(
    rt: &W,
    host: &HostRuntime,
    folder: &str,
    store: &Store<S>,
    contents: &Contents<'_>,
    left: &LeftContents,
) -> Result<(), ServeFault> {
    let alloc = host.alloc();
    let open = left.open.as_slice();
    tidy_store(rt, store, open)?;
    cut_open(contents, open)?;
    let compared = compare(rt, alloc, store, contents, open)?;
    let missing = compared.missing.len() as u64;
    if missing > 0 {
        print_missing(
            rt,
            host,
            folder,
            store,
            contents,
            compared.missing.as_slice(),
        )?;
        if !contents.accepts_loss {
            return Err(ServeFault::Missing(missing));
        }
    }
    let orphans = remove_later(
        host,
        folder,
        contents,
        left.last_numbers.as_slice(),
        compared.orphans,
    )?;
    remove_orphans(rt, host, folder, contents, orphans)?;
    Ok(())
}
