//! Serves connections on a store whose log is replayed and continued.
ghost use Rattle.std.specs.Prelude.{◌≡◌, [], IfOk, OnOk, true};
ghost use Rattle.blob_store.specs.Parts.{names_of};
ghost use Rattle.blob_store.specs.Starts.{IsStarted};
ghost use Rattle.blob_store.specs.StoreCalls.{AreBalancedTotals};
ghost use Rattle.segmented_disk.specs.Views.{starting};
ghost use Rattle.store_server.specs.Connections.{AreServed, AreServedOn};

use crate::contents::{Contents, ServedContents};
use crate::early_syncs::EarlySyncs;
use crate::leftovers::take_contents;
use crate::replaying::{FolderDisk, FolderLog, replay_contents};
use crate::serve_fault::ServeFault;
use blob_store::{LogPolicy, Naming, Parts, SharedLogDevice, StartedLog, Store, Totals};
use durable_log::CommitError;
use ghost_log::SharedLog;
use lease_table::{LeaseEvent, LeaseNaming};
use log_disk::{Disk, DiskError, ReplayedDisk};
use log_folder::{CloseRequest, NextSegments, OpenLog, Outcome, Watch};
use std::alloc::{AllocError, Global};
use std::io::{Read, Write};
use std::marker::Brand;
use std::snapshot::Snapshot;
use std::sync::{Arc, Wait};
use std::thread::{self, Threads};
use store_server::{Connection, EndCell, ServiceEnd, serve_on};

/// The log of a folder: its files are examined, and not yet replayed.
#[derive(Drop)]
pub struct ExaminedLog<'w> {
    /// The runtime for the files.
    pub host: HostRuntime,
    /// The folder.
    pub folder: &'w str,
    /// The owner of the folder that this process is.
    pub owner: u64,
    /// The files.
    pub log: OpenLog,
    /// The outcome of their examination.
    pub outcome: Outcome,
}

/// Returns the error of a commit after another process has become the owner of the folder.
pub fn lost_folder() -> CommitError {
    CommitError::Disk(DiskError::Content)
}

/// Starts the thread that rewrites the log, and ends the service if another process becomes the owner of the folder.
///
/// Without the thread, the log is rewritten only at a start, and only a commit finds that there is another owner.
fn start_watch<W: Threads + Wait + Copy + Send + 'static>(
    rt: &W,
    watch: Watch,
    end: &Arc<EndCell, Global>,
) {
    let Ok(end) = Arc::try_clone(end) else {
        return;
    };
    let handle = *rt;
    let job = move || {
        watch.run();
        end.end(&handle, ServiceEnd::Failed(lost_folder()));
    };
    let _ = thread::spawn(rt, job);
}

/// Writes what waits, syncs it unless the log is never synced, and marks the end of the log.
fn finish_log<W: Wait, S: Naming>(
    rt: &W,
    store: &Store<S>,
    device: SharedLogDevice<S, FolderDisk>,
) -> Result<(), CommitError> {
    store.flush(rt, &device)?;
    let Some(idle) = device.into_inner() else {
        return Err(CommitError::Closed);
    };
    let mut disk = idle.into_device().into_disk();
    if matches!(store.policy(), LogPolicy::Never) {
        return Ok(());
    }
    disk.sync()?;
    disk.mark()?;
    disk.sync()?;
    Ok(())
}

/// Connections that were served on a store with a log: the store's totals, and, only in the proof, the log after its start.
#[derive(Drop)]
pub struct ServedLog<S: Naming> {
    /// The store's totals.
    pub totals: Totals,
    /// The log after the start.
    pub start: Snapshot<StartedLog<S, FolderDisk>>,
}

/// Returns the files that follow the last one of a folder's log, which has this number and id, and the watch that rewrites the closed ones.
/// The store's tenants are those of its files.
fn following(
    alloc: Global,
    host: HostRuntime,
    folder: &str,
    owner: u64,
    files: &ServedContents<'_>,
    outcome: Outcome,
    number: u64,
    id: u64,
) -> Result<(NextSegments, Watch), AllocError>
    ensures { IfOk result (λ r. r.0 ≡ starting id) }
{
    let tenants = files.copied_tenants(alloc)?;
    let close = CloseRequest::new(alloc)?;
    let path = String::from_str(alloc, folder)?;
    let watch = Watch::new(host, path, owner, tenants, outcome, close.share()?);
    let path = String::from_str(alloc, folder)?;
    let next = NextSegments::after(host, path, owner, number, id, close)?;
    Ok((next, watch))
}

/// Serves all connections on a store whose log was started, with a table of leases that has this log, and writes the end of the log.
fn serve_started<
    W: Threads + Wait + Sync,
    S: Naming + Send + Sync,
    L: LeaseNaming + Send + Sync,
    I: Read + Send + Drop,
    O: Write + Send + Drop,
>(
    rt: &W,
    alloc: Global,
    store: &Store<S>,
    started: FolderLog<S>,
    files: &ServedContents<'_>,
    leases: SharedLog<LeaseEvent>,
    end: &EndCell,
    lines: &mut [Connection<I, O>],
) -> Result<ServedLog<S>, ServeFault>
    requires log { (leases.name ≡ L.log) × (leases.entries ≡ []) }
    ensures start { IfOk result (λ r. IsStarted S.names r.start.value) }
    ensures served { OnOk result (AreServed true S.names L.log I.remaining O.contents lines.old
        lines.new) }
    ensures totals { IfOk result (λ r. AreBalancedTotals r.totals) }
{
    started.reveal_start();
    let start = Snapshot::of(&started);
    let files = EarlySyncs::new(rt, files);
    let (totals, device) = serve_on::<W, S, L, FolderDisk, EarlySyncs<'_, '_, W>, I, O>(
        rt, alloc, store, &files, started, end, leases, lines,
    )?;
    match finish_log(rt, store, device) {
        Ok(()) => Ok(ServedLog { totals, start }),
        Err(error) => Err(ServeFault::Log(error)),
    }
}

/// Replays the log of a folder into a new store of these parts, and serves all connections on it, with a table of leases that has this
/// log. The type parameters name the parts and the log. Otherwise it is `serve_log`.
///
/// The store's history begins with the records that were replayed, and no others, all of them durable on the log's device
/// (`start`). The store of these parts, which is served, and the store of this log are one: they have the same names.
fn serve_log_parts<
    W: Threads + Wait + Sync + Copy + Send + 'static,
    S: Naming + Send + Sync,
    L: LeaseNaming + Send + Sync,
    I: Read + Send + Drop,
    O: Write + Send + Drop,
>(
    rt: &W,
    alloc: Global,
    parts: Parts,
    examined: ExaminedLog<'_>,
    contents: &Contents<'_>,
    leases: SharedLog<LeaseEvent>,
    end: &Arc<EndCell, Global>,
    lines: &mut [Connection<I, O>],
) -> Result<ServedLog<S>, ServeFault>
    requires named { names_of parts ≡ S.names }
    requires log { (leases.name ≡ L.log) × (leases.entries ≡ []) }
    ensures start { IfOk result (λ r. IsStarted S.names r.start.value) }
    ensures served { OnOk result (AreServed true S.names L.log I.remaining O.contents lines.old
        lines.new) }
    ensures totals { IfOk result (λ r. AreBalancedTotals r.totals) }
{
    let ExaminedLog {
        host,
        folder,
        owner,
        log,
        outcome,
    } = examined;
    let (number, id) = (log.number, log.last.id);
    let files = &contents.files;
    let (next, watch) = following(alloc, host, folder, owner, files, outcome, number, id)?;
    let replayed = ReplayedDisk::new(alloc)?;
    let (store, device) = Store::<S>::with_log(parts, replayed);
    let (started, left) = replay_contents(rt, &host, folder, &store, device, log, next, contents)?;
    take_contents(rt, &host, folder, &store, contents, &left)?;
    start_watch(rt, watch, end);
    serve_started::<W, S, L, I, O>(
        rt,
        alloc,
        &store,
        started,
        &contents.files,
        leases,
        end,
        lines,
    )
}

/// Serves as `serve_log_parts` does. Returns the totals alone, so that its caller may name the parts and the log.
fn serve_for_totals<
    W: Threads + Wait + Sync + Copy + Send + 'static,
    S: Naming + Send + Sync,
    L: LeaseNaming + Send + Sync,
    I: Read + Send + Drop,
    O: Write + Send + Drop,
>(
    rt: &W,
    alloc: Global,
    parts: Parts,
    examined: ExaminedLog<'_>,
    contents: &Contents<'_>,
    leases: SharedLog<LeaseEvent>,
    end: &Arc<EndCell, Global>,
    lines: &mut [Connection<I, O>],
) -> Result<Totals, ServeFault>
    requires named { names_of parts ≡ S.names }
    requires log { (leases.name ≡ L.log) × (leases.entries ≡ []) }
    ensures served { OnOk result (AreServed true S.names L.log I.remaining O.contents lines.old
        lines.new) }
    ensures totals { IfOk result (λ t. AreBalancedTotals t) }
{
    let served = serve_log_parts::<W, S, L, I, O>(
        rt, alloc, parts, examined, contents, leases, end, lines,
    )?;
    Ok(served.totals)
}

/// Replays the log of a folder into a new store of these parts, and serves all connections on the store until they end, as `serve_new`
/// does. Each change is recorded in the log, and is durable before its reply if the policy of the parts promises that. Returns
/// the store's totals, in which the replayed changes are counted.
///
/// While the connections are served, a thread rewrites the closed files of the log. It goes on until the program ends, or another
/// process becomes the owner of the folder: then `end` gets that.
///
/// If the log fails, no reply is sent any more, and `end` gets the error at once: the other connections may wait for requests.
///
/// # Errors
///
/// - `Memory`
/// - `Read`, if the log cannot be read.
/// - `Record`, if a record cannot be replayed. Then no connection is served.
/// - `Log`, if the log cannot be written, at the start or at the end.
pub fn serve_log<
    W: Threads + Wait + Sync + Copy + Send + 'static,
    I: Read + Send + Drop,
    O: Write + Send + Drop,
>(
    rt: &W,
    alloc: Global,
    parts: Parts,
    examined: ExaminedLog<'_>,
    contents: &Contents<'_>,
    end: &Arc<EndCell, Global>,
    lines: &mut [Connection<I, O>],
) -> Result<Totals, ServeFault>
    ensures served { OnOk result (AreServedOn true parts I.remaining O.contents lines.old
        lines.new) }
    ensures totals { IfOk result (λ t. AreBalancedTotals t) }
{
    let leases = SharedLog::new(alloc)?;
    serve_for_totals::<W, Brand, Brand, I, O>(
        rt, alloc, parts, examined, contents, leases, end, lines,
    )
}
