//! Serves connections on a store.
ghost use Rattle.std.specs.Prelude.{◌≡◌, ◌⊎◌, ◌+◌, [], false, IfErr, IfOk, OnErr, OnOk};
ghost use Rattle.blob_digest.specs.declared.refusal.Refusal.TheVariants.{LimitReached, Memory};
ghost use Rattle.blob_store.specs.Parts.{names_of};
ghost use Rattle.blob_store.specs.Starts.{IsStarted};
ghost use Rattle.blob_store.specs.StoreBackends.{work_of};
ghost use Rattle.blob_store.specs.Workers.{zero_work};
ghost use Rattle.store_server.specs.Connections.{AreServed, AreServedOn, IsClosedConnection, ServesStreams};
ghost use Rattle.wire_server.specs.Connections.{EndsByRead};
ghost use Rattle.wire_server.specs.ReplyStreams.{output_of};

use crate::connection::{Connection, EndedConnection};
use crate::guard::StoreGuard;
use crate::removal::{ConnectionsEnd, ContentFiles, Remover};
use crate::service_end::{EndCell, ServiceEnd};
use crate::shared::SharedLeases;
use blob_digest::Refusal;
use blob_store::{
    Desk, MAX_DESKS, Naming, Parts, SharedLogDevice, StartedLog, Store, StoreBackend, Totals,
};
use content_files::{ContentStore, NoFiles};
use durable_log::LeaderCell;
use ghost_log::SharedLog;
use lease_table::{LeaseEvent, LeaseNaming, LeaseWriter, LockedLeaseTable};
use locked_book::StorePins;
use log_disk::{FileBacked, FileDisk};
use std::alloc::{AllocError, Global};
use std::io::{Read, Write};
use std::marker::Brand;
use std::sync::{Mutex, Wait};
use std::thread::{self, Threads, join_mut};
use watched_reader::Watched;
use wire_server::{Ending, ReplyStream, serve};

/// Serves a connection with a new desk and a new writer of the table's history. Returns why the connection ended, and the
/// desk. If a commit fails, the connection ends with `NotDurable`, and so does the service, with the error of the log.
fn serve_with_desk<
    's,
    W: Wait,
    S: Naming,
    L: LeaseNaming,
    D: FileBacked,
    F: ContentStore,
    I: Read,
    O: Write,
>(
    rt: &'s W,
    alloc: Global,
    store: &'s Store<S>,
    files: &'s F,
    device: Option<&'s SharedLogDevice<S, D>>,
    end: &EndCell,
    table: &Mutex<LockedLeaseTable<'s, StorePins<S>, L>>,
    desk: Desk<S>,
    writer: LeaseWriter<L>,
    input: &mut Watched<I>,
    output: &mut ReplyStream<StoreGuard<'s, S, D>, O>,
) -> (Ending, Desk<S>)
    requires fresh { work_of desk ≡ zero_work }
    requires unwritten { writer.own ≡ [] }
    requires undurable { desk.trace.durable ≡ [] }
    ensures served { ServesStreams F.on_disk S.names L.log I.remaining O.contents
        input.old (output_of output.old) (output_of output.new) result.0 }
    ensures failed { EndsByRead result.0 input.old input.new }
{
    let mut guard = StoreGuard::new(store, device);
    let mut backend = StoreBackend {
        rt,
        store,
        files,
        desk,
    };
    let mut leases = SharedLeases { rt, table, writer };
    let ending = serve(
        rt,
        files,
        alloc,
        &mut guard,
        &mut backend,
        &mut leases,
        input,
        output,
    );
    if let Some(error) = guard.failure() {
        end.end(rt, ServiceEnd::Failed(error));
    }
    let StoreBackend {
        rt: _,
        store: _,
        files: _,
        desk,
    } = backend;
    desk.reveal_invariant();
    leases.writer.reveal_invariant();
    (ending, desk)
}

/// Serves a connection with a desk of its own, and returns why it ended. The desk is settled at the end.
///
/// # Errors
///
/// Nothing is read or written then.
///
/// - `LimitReached`, if 1,024 desks exist.
/// - `Memory`, if the desk cannot be allocated.
pub fn serve_streams<
    's,
    W: Wait,
    S: Naming,
    L: LeaseNaming,
    D: FileBacked,
    F: ContentStore,
    I: Read,
    O: Write,
>(
    rt: &'s W,
    alloc: Global,
    store: &'s Store<S>,
    files: &'s F,
    device: Option<&'s SharedLogDevice<S, D>>,
    end: &EndCell,
    table: &Mutex<LockedLeaseTable<'s, StorePins<S>, L>>,
    input: &mut Watched<I>,
    output: &mut ReplyStream<StoreGuard<'s, S, D>, O>,
) -> Result<Ending, Refusal>
    ensures served { IfOk result (ServesStreams F.on_disk S.names L.log I.remaining O.contents
        input.old (output_of output.old) (output_of output.new)) }
    ensures failed { IfOk result (λ e. EndsByRead e input.old input.new) }
    ensures same { OnErr result ((input.new ≡ input.old) × (output.new ≡ output.old)) }
    ensures refused { IfErr result (λ e. (e ≡ LimitReached) ⊎ (e ≡ Memory)) }
{
    let mut desks = store.desks(rt, 1)?;
    let Some(desk) = desks.pop() else {
        unreachable!()
    };
    let writer = table.lock(rt).writer();
    let (ending, desk) = serve_with_desk(
        rt, alloc, store, files, device, end, table, desk, writer, input, output,
    );
    desks.push_reserved(desk);
    store.settle(rt, desks);
    Ok(ending)
}

/// The values that all connections share.
#[derive(Drop)]
struct Shared<'s, 'l, W, S: Naming, L: LeaseNaming, D: FileBacked, F> {
    rt: &'s W,
    alloc: Global,
    store: &'s Store<S>,
    files: &'s F,
    device: Option<&'s SharedLogDevice<S, D>>,
    end: &'l EndCell,
    table: &'l Mutex<LockedLeaseTable<'s, StorePins<S>, L>>,
}

/// Serves a connection until it ends, and then drops its input and output.
fn serve_connection<
    's,
    'l,
    W: Wait,
    S: Naming,
    L: LeaseNaming,
    D: FileBacked,
    F: ContentStore,
    I: Read + Drop,
    O: Write + Drop,
>(shared: &Shared<'s, 'l, W, S, L, D, F>, line: &mut Connection<I, O>)
    ensures { IsClosedConnection F.on_disk S.names L.log I.remaining O.contents line.old line.new }
{
    if let Some((mut input, output)) = line.ends.take() {
        let mut replies = ReplyStream::new(output);
        let served = serve_streams(
            shared.rt,
            shared.alloc,
            shared.store,
            shared.files,
            shared.device,
            shared.end,
            shared.table,
            &mut input,
            &mut replies,
        );
        let output = replies.into_output();
        line.ended = Some(EndedConnection::new(input, output, served));
    }
}

/// Serves all connections until they end, each in a thread of its own, at most 1,024 at once. If no thread can be started,
/// it serves them one after another.
fn serve_connections<
    's,
    'l,
    W: Threads + Wait + Sync,
    S: Naming + Send + Sync,
    L: LeaseNaming + Send + Sync,
    D: FileBacked + Send,
    F: ContentStore + Sync,
    I: Read + Send + Drop,
    O: Write + Send + Drop,
>(rt: &'s W, shared: &Shared<'s, 'l, W, S, L, D, F>, lines: &mut [Connection<I, O>])
    ensures { AreServed F.on_disk S.names L.log I.remaining O.contents lines.old lines.new }
{
    thread::for_each_mut(
        rt,
        lines,
        MAX_DESKS as usize,
        &|_, line| serve_connection(shared, line),
    );
}

/// Serves all connections until they end, and then sets their end.
fn serve_until_end<
    's,
    'l,
    W: Threads + Wait + Sync,
    S: Naming + Send + Sync,
    L: LeaseNaming + Send + Sync,
    D: FileBacked + Send,
    F: ContentStore + Sync,
    I: Read + Send + Drop,
    O: Write + Send + Drop,
>(
    rt: &'s W,
    shared: &Shared<'s, 'l, W, S, L, D, F>,
    ended: &ConnectionsEnd,
    lines: &mut [Connection<I, O>],
)
    ensures { AreServed F.on_disk S.names L.log I.remaining O.contents lines.old lines.new }
{
    serve_connections(rt, shared, lines);
    ended.set();
}

/// Removes the files of freed contents until all connections have ended, if the store has a log.
fn remove_freed<'s, 'l, W: Wait, S: Naming, L: LeaseNaming, D: FileBacked, F: ContentFiles>(
    shared: &Shared<'s, 'l, W, S, L, D, F>,
    ended: &ConnectionsEnd,
) {
    if let Some(device) = shared.device {
        let mut remover = Remover::new(
            shared.rt,
            shared.alloc,
            shared.store,
            device,
            shared.files,
            shared.end,
        );
        remover.run(ended);
    }
}

/// Serves all connections until they end, while a further thread removes the files of freed contents. If that thread cannot
/// be started, the files are removed after the end of the connections.
fn serve_removing<
    's,
    'l,
    W: Threads + Wait + Sync,
    S: Naming + Send + Sync,
    L: LeaseNaming + Send + Sync,
    D: FileBacked + Send,
    F: ContentFiles + Sync,
    I: Read + Send + Drop,
    O: Write + Send + Drop,
>(
    rt: &'s W,
    shared: &Shared<'s, 'l, W, S, L, D, F>,
    ended: &ConnectionsEnd,
    lines: &mut [Connection<I, O>],
)
    ensures { AreServed F.on_disk S.names L.log I.remaining O.contents lines.old lines.new }
{
    let mut remove = || remove_freed(shared, ended);
    let mut serve = ||
        ensures { AreServed F.on_disk S.names L.log I.remaining O.contents lines.entry.now
            lines.exit.now }
    { serve_until_end(rt, shared, ended, lines) };
    join_mut(rt, &mut remove, &mut serve);
}

/// Serves all connections until they end. If contents lie in files, those of freed contents are removed meanwhile, unless the
/// connections take all of the 1,024 desks.
fn serve_lines<
    's,
    'l,
    W: Threads + Wait + Sync,
    S: Naming + Send + Sync,
    L: LeaseNaming + Send + Sync,
    D: FileBacked + Send,
    F: ContentFiles + Sync,
    I: Read + Send + Drop,
    O: Write + Send + Drop,
>(rt: &'s W, shared: &Shared<'s, 'l, W, S, L, D, F>, lines: &mut [Connection<I, O>])
    ensures { AreServed F.on_disk S.names L.log I.remaining O.contents lines.old lines.new }
{
    if shared.files.is_on_disk() && lines.len() < MAX_DESKS as usize {
        serve_removing(rt, shared, &ConnectionsEnd::new(), lines);
    } else {
        serve_connections(rt, shared, lines);
    }
}

/// Serves all connections on a store with one new table of leases, gives back the remaining leases, and returns the
/// store's totals. With a device, no reply is sent before what the store promises is durable on it.
fn serve_with<
    's,
    W: Threads + Wait + Sync,
    S: Naming + Send + Sync,
    L: LeaseNaming + Send + Sync,
    D: FileBacked + Send,
    F: ContentFiles + Sync,
    I: Read + Send + Drop,
    O: Write + Send + Drop,
>(
    rt: &'s W,
    alloc: Global,
    store: &'s Store<S>,
    files: &'s F,
    device: Option<&'s SharedLogDevice<S, D>>,
    end: &EndCell,
    log: SharedLog<LeaseEvent>,
    lines: &mut [Connection<I, O>],
) -> Totals
    requires log { (log.name ≡ L.log) × (log.entries ≡ []) }
    ensures served { AreServed F.on_disk S.names L.log I.remaining O.contents lines.old lines.new }
    ensures totals { result.received ≡ result.in_sessions + result.closed + result.abandoned }
{
    let table = Mutex::new(LockedLeaseTable::<'s, StorePins<S>, L>::new(alloc, log));
    serve_lines(
        rt,
        &Shared {
            rt,
            alloc,
            store,
            files,
            device,
            end,
            table: &table,
        },
        lines,
    );
    table.into_inner().end();
    store.totals(rt)
}

/// Serves all connections on a store with a log, which was started, as `serve_new` does. Returns the store's totals, and the
/// device of the log. A file keeps the content of its disk. Contents may lie in these files.
///
/// If they do, the files of freed contents are removed meanwhile, after the changes that freed them are durable. With 1,024
/// connections or more, or with the policy `Never`, all files stay.
///
/// The store's history begins with the records that were replayed, and no others, all of them durable on the log's device
/// (`start`). A reply is sent only if each own step of its desk that the policy promises is durable on this device.
/// `store_replay::reveal_restart` states what a start after a crash restores of this.
///
/// # Errors
///
/// `AllocError`, if a list of one desk cannot be allocated. Then all connections stay open.
pub fn serve_on<
    W: Threads + Wait + Sync,
    S: Naming + Send + Sync,
    L: LeaseNaming + Send + Sync,
    D: FileBacked + Send,
    F: ContentFiles + Sync,
    I: Read + Send + Drop,
    O: Write + Send + Drop,
>(
    rt: &W,
    alloc: Global,
    store: &Store<S>,
    files: &F,
    started: StartedLog<S, D>,
    end: &EndCell,
    log: SharedLog<LeaseEvent>,
    lines: &mut [Connection<I, O>],
) -> Result<(Totals, SharedLogDevice<S, D>), AllocError>
    requires log { (log.name ≡ L.log) × (log.entries ≡ []) }
    ensures start { IsStarted S.names started }
    ensures served { OnOk result (AreServed F.on_disk S.names L.log I.remaining O.contents lines.old
        lines.new) }
    ensures totals { IfOk result (λ r. (r.0).received
        ≡ (r.0).in_sessions + (r.0).closed + (r.0).abandoned) }
    ensures same { OnErr result (lines.new ≡ lines.old) }
{
    started.reveal_start();
    let mut desks = Vec::with_capacity(alloc, 1)?;
    let (desk, device) = started.into_parts();
    desks.push_reserved(desk);
    store.settle(rt, desks);
    let device = LeaderCell::new(device);
    let totals = serve_with::<W, S, L, D, F, I, O>(
        rt,
        alloc,
        store,
        files,
        Some(&device),
        end,
        log,
        lines,
    );
    Ok((totals, device))
}

/// Serves all connections on a new store of these parts, with a table of leases that has this log. The type parameters
/// name the parts and the log.
fn serve_parts<
    W: Threads + Wait + Sync,
    S: Naming + Send + Sync,
    L: LeaseNaming + Send + Sync,
    I: Read + Send + Drop,
    O: Write + Send + Drop,
>(
    rt: &W,
    alloc: Global,
    parts: Parts,
    log: SharedLog<LeaseEvent>,
    lines: &mut [Connection<I, O>],
) -> Totals
    requires named { names_of parts ≡ S.names }
    requires log { (log.name ≡ L.log) × (log.entries ≡ []) }
    ensures served { AreServed false S.names L.log I.remaining O.contents lines.old lines.new }
    ensures totals { result.received ≡ result.in_sessions + result.closed + result.abandoned }
{
    let store = Store::<S>::new(parts);
    let end = EndCell::new();
    serve_with::<W, S, L, FileDisk, NoFiles, I, O>(
        rt, alloc, &store, &NoFiles, None, &end, log, lines,
    )
}

/// Serves all connections on a new store of these parts until they end, and returns the store's totals.
///
/// Each connection has a thread of its own, and at most 1,024 are served at once. If no thread can be started, they are
/// served one after another. Any connection may read or give back a lease that another one has taken. The remaining leases
/// are given back at the end. If memory runs out for the desk of a connection, it is closed without being served.
///
/// # Errors
///
/// `AllocError`, if the history's log cannot be allocated. Then all connections stay open.
///
/// # Cost
///
/// It allocates one log, and for each connection a desk, a thread, and the buffer of its longest request.
pub fn serve_new<W: Threads + Wait + Sync, I: Read + Send + Drop, O: Write + Send + Drop>(
    rt: &W,
    alloc: Global,
    parts: Parts,
    lines: &mut [Connection<I, O>],
) -> Result<Totals, AllocError>
    ensures served { OnOk result (AreServedOn false parts I.remaining O.contents lines.old
        lines.new) }
    ensures totals { IfOk result (λ t. t.received ≡ t.in_sessions + t.closed + t.abandoned) }
    ensures same { OnErr result (lines.new ≡ lines.old) }
{
    let log = SharedLog::new(alloc)?;
    Ok(serve_parts::<W, Brand, Brand, I, O>(rt, alloc, parts, log, lines))
}
