//! Removes the files of freed contents while connections are served.
ghost use Rattle.locked_book.specs.Durability.{LearnsDurable};

use crate::service_end::{EndCell, ServiceEnd};
use blob_digest::Blob;
use blob_store::{Desk, Naming, SharedLogDevice, Store};
use content_files::{ContentName, ContentStore, NoFiles};
use log_disk::FileBacked;
use std::alloc::Global;
use std::snapshot::Snapshot;
use std::sync::atomic::{AtomicU64, Ordering};
use std::sync::{Arc, Wait};
use std::time::Duration;
use store_book::Freed;

/// Seconds that the remover pauses between two looks for freed contents.
const PAUSE_SECS: u64 = 1;

/// The files of contents, which can be removed.
pub trait ContentFiles: ContentStore {
    /// Removes the file of a content, if there is one. A failure is reported by the implementation: the file stays until the
    /// next start.
    fn remove(&self, name: ContentName);
}

impl ContentFiles for NoFiles {
    fn remove(&self, _name: ContentName) {}
}

/// Whether all connections have ended, for which the remover waits between its looks.
#[derive(Drop)]
pub struct ConnectionsEnd {
    /// 0 while a connection is served, then 1.
    ended: AtomicU64,
}

impl ConnectionsEnd {
    /// Makes the end of connections that are served.
    pub fn new() -> ConnectionsEnd {
        ConnectionsEnd {
            ended: AtomicU64::new(0),
        }
    }

    /// Sets that all connections have ended, and wakes the remover.
    pub fn set(&self) {
        self.ended.store(1, Ordering::SeqCst);
        self.ended.wake_all();
    }

    /// Returns whether all connections have ended.
    fn is_set(&self) -> bool {
        self.ended.load(Ordering::SeqCst) != 0
    }

    /// Waits for the pause between two looks, or until all connections have ended.
    fn wait(&self, rt: &impl Wait) {
        self.ended
            .park_timeout(rt, 0, Duration::from_secs(PAUSE_SECS));
    }
}

/// Removes the files of freed contents.
///
/// A file is removed only after the change that freed its content is durable, and nobody has a share of its blob. So a crash
/// leaves each file that the log needs. A file that is not removed is removed at the next start.
#[derive(Drop)]
pub struct Remover<'r, W, S: Naming, D: FileBacked, F> {
    rt: &'r W,
    store: &'r Store<S>,
    device: &'r SharedLogDevice<S, D>,
    files: &'r F,
    end: &'r EndCell,
    /// The freed blobs whose files are there, because readers may have shares of them. What freed them is durable.
    shared: Vec<Arc<Blob, Global>>,
}

impl<'r, W: Wait, S: Naming, D: FileBacked, F: ContentFiles> Remover<'r, W, S, D, F> {
    /// Makes the remover of a store with this device of its log.
    pub fn new(
        rt: &'r W,
        alloc: Global,
        store: &'r Store<S>,
        device: &'r SharedLogDevice<S, D>,
        files: &'r F,
        end: &'r EndCell,
    ) -> Remover<'r, W, S, D, F> {
        Remover {
            rt,
            store,
            device,
            files,
            end,
            shared: Vec::new(alloc),
        }
    }

    /// Looks for freed contents once a second, and a last time after all connections have ended. Returns earlier if the log fails.
    pub fn run(&mut self, connections: &ConnectionsEnd) {
        for _ in self.rt.forever() {
            let is_last = connections.is_set();
            if !self.look() || is_last {
                return;
            }
            connections.wait(self.rt);
        }
    }

    /// Removes the files of the contents that were freed since the last look. Returns whether to go on.
    ///
    /// Without a sync of the log, a crash may take back the change that freed a content: then all files stay. If there is no
    /// desk, they stay until the next look.
    fn look(&mut self) -> bool {
        if !self.store.policy().promises_changes() {
            let _ = self.store.take_freed(self.rt);
            return true;
        }
        let Ok(mut desks) = self.store.desks(self.rt, 1) else {
            return true;
        };
        let Some(mut desk) = desks.pop() else {
            unreachable!()
        };
        let goes_on = self.look_at(&mut desk);
        desks.push_reserved(desk);
        self.store.settle(self.rt, desks);
        goes_on
    }

    /// Looks once, with a desk. The list of freed contents is taken first. Then the desk sees the whole history, with the changes
    /// that freed them, and all of it is made durable. Only then are files removed.
    fn look_at(&mut self, desk: &mut Desk<S>) -> bool {
        let freed = self.store.take_freed(self.rt);
        if !freed.blobs.is_empty() || !freed.dropped.is_empty() {
            self.store.reveal_durable_state(self.rt, desk);
            let seen = Snapshot::of(desk);
            if let Err(error) = self.store.commit(self.rt, self.device, desk) {
                self.end.end(self.rt, ServiceEnd::Failed(error));
                return false;
            }
            self.remove(freed, &seen, desk);
        }
        self.remove_unshared();
        true
    }

    /// Removes the files of dropped sessions, and keeps the freed blobs. A blob that is not kept for want of memory leaves its
    /// file until the next start.
    ///
    /// All that the desk had seen, when the list of freed contents had been taken, is durable.
    fn remove(&mut self, freed: Freed, _seen: &Snapshot<Desk<S>>, _desk: &Desk<S>)
        requires durable { LearnsDurable S.names _seen.now.value _desk.now }
    {
        let Freed { mut blobs, dropped } = freed;
        for name in dropped.as_slice() {
            self.files.remove(*name);
        }
        let _ = self.shared.append(&mut blobs);
    }

    /// Removes the files of the blobs of which this list has the last share.
    fn remove_unshared(&mut self) {
        let files = self.files;
        self.shared.retain(|blob| is_shared(files, blob));
    }
}

/// Returns whether anybody else has a share of a freed blob. If not, nobody can get one, and the blob's file is removed.
fn is_shared<F: ContentFiles>(files: &F, blob: &Arc<Blob, Global>) -> bool {
    if Arc::strong_count(blob) > 1 {
        return true;
    }
    if let Some(name) = blob.content().name() {
        files.remove(name);
    }
    false
}
