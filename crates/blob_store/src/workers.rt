//! Workers that play the rows of a script on one store, each in a thread of its own.
ghost use Rattle.std.specs.Prelude.{◌≡◌, ◌+◌, ◌≤◌, false, vec_len, vec_capacity};
ghost use Rattle.blob_store.specs.Jobs.{AreWorkerResults, AreReady, AreStarted, HasPlayedIfComplete};
ghost use Rattle.blob_store.specs.Jobs.{IsReady, IsReadyAt, IsRoomFor, KeepsPromise};
ghost use Rattle.blob_store.specs.Workers.{AllAt};

use crate::store::Store;
use crate::store_backend::StoreBackend;
use content_files::NoFiles;
use locked_book::{DroppableDesk, Naming};
use script_player::{Gate, RowList, Worker, run_rows};
use std::alloc::Global;
use std::sync::Wait;
use std::sync::atomic::{AtomicBool, Ordering};
use std::thread;
use std::thread::{Promise, PromisedHandle, Scope, Threads};
use store_api::Reply;

/// The values that a worker begins with: its desk, room for its replies, and its number.
#[derive(Drop)]
pub struct Job<S: Naming> {
    pub desk: DroppableDesk<S>,
    pub replies: Vec<Reply>,
    pub worker: Worker,
}

/// The result of a worker: its desk, its replies, and whether it played all of its rows.
#[derive(Drop)]
pub struct WorkerResult<S: Naming> {
    pub desk: DroppableDesk<S>,
    pub replies: Vec<Reply>,
    pub completed: bool,
}

impl<S: Naming> WorkerResult<S> {
    /// Returns the result of a worker that did not complete.
    fn incomplete(desk: DroppableDesk<S>, replies: Vec<Reply>) -> WorkerResult<S>
        ensures { result.completed ≡ false }
    {
        WorkerResult {
            desk,
            replies,
            completed: false,
        }
    }
}

/// The promise of a worker. If it played all of its rows, its desk has the amounts and the steps of these rows, with
/// its replies.
#[derive(Clone, Copy)]
pub struct PlaysRows<'r, L> {
    rows: &'r L,
    worker: Worker,
}

impl<'r, S: Naming, L: RowList> Promise<WorkerResult<S>> for PlaysRows<'r, L> {
    ghost kept_by = { λ p o. KeepsPromise S.names.opening (L.lines p.rows.now) p.worker o };
}

/// The values that all workers share.
#[derive(Drop)]
struct Shared<'e, W, G, S: Naming, L> {
    rt: &'e W,
    alloc: Global,
    store: &'e Store<S>,
    gate: &'e G,
    rows: &'e L,
    /// Whether a worker could not be started.
    halt: AtomicBool,
}

/// The threads that were started, and the results of the workers without a thread.
#[derive(Drop)]
struct Started<'e, S: Naming, L: RowList> {
    children: Vec<PromisedHandle<WorkerResult<S>, PlaysRows<'e, L>>>,
    outcomes: Vec<WorkerResult<S>>,
}

/// Plays a worker's rows on the store, and gives back the leases that its lanes still hold. The worker plays nothing if
/// another one could not be started before it begins. A worker that has begun does not stop for that reason.
fn work<W: Wait, G: Gate, S: Naming, L: RowList>(
    shared: &Shared<'_, W, G, S, L>,
    job: Job<S>,
) -> WorkerResult<S>
    requires { IsReady (L.lines shared.now.rows.now) job }
    ensures { KeepsPromise S.names.opening (L.lines shared.now.rows.now) job.worker result }
{
    let Job {
        desk,
        replies,
        worker,
    } = job;
    if shared.halt.load(Ordering::SeqCst) {
        return WorkerResult::incomplete(desk, replies);
    }
    let files = NoFiles;
    let mut backend = StoreBackend {
        rt: shared.rt,
        store: shared.store,
        files: &files,
        desk: desk.into_desk(),
    };
    let played = run_rows(
        shared.alloc,
        &mut backend,
        shared.gate,
        shared.rows,
        worker,
        replies,
    );
    let StoreBackend {
        rt: _,
        store: _,
        files: _,
        desk,
    } = backend;
    match played {
        Ok(replies) => {
            desk.reveal_invariant();
            WorkerResult {
                desk: desk.into_droppable(),
                replies,
                completed: true,
            }
        }
        Err(_) => WorkerResult::incomplete(desk.into_droppable(), Vec::new(shared.alloc)),
    }
}

/// Adds the results of workers that are not started.
fn add_unplayed<S: Naming>(
    mut jobs: Vec<Job<S>>,
    mut outcomes: Vec<WorkerResult<S>>,
) -> Vec<WorkerResult<S>>
    requires room { IsRoomFor (vec_len jobs) outcomes }
    ensures len { vec_len result ≡ vec_len jobs }
    ensures capacity { vec_capacity result ≡ vec_capacity outcomes }
    ensures none { AllAt (λ _ o. o.completed ≡ false) result.items }
{
    while let Some(job) = jobs.pop() {
        let Job {
            desk,
            replies,
            worker: _,
        } = job;
        outcomes.push_reserved(WorkerResult::incomplete(desk, replies));
    }
    outcomes
}

/// Starts a thread for each job, the last one first. If one cannot be started, none of the later ones is, and the
/// workers that have not begun play nothing.
fn start_all<
    's,
    'e: 's,
    W: Threads + Wait + Sync + 'e,
    G: Gate + Send + Sync + 'e,
    S: Naming + Send + Sync + 'e,
    L: RowList + Sync + 'e,
>(
    scope: &'s Scope<'s, &'e ()>,
    shared: &'e Shared<'e, W, G, S, L>,
    mut jobs: Vec<Job<S>>,
    started: Started<'e, S, L>,
) -> Started<'e, S, L>
    requires ready { AllAt (IsReadyAt (vec_len jobs + 1) (L.lines shared.now.rows.now)) jobs.items }
    requires children { IsRoomFor (vec_len jobs) started.children }
    requires outcomes { IsRoomFor (vec_len jobs + 1) started.outcomes }
    ensures { AreStarted S.names.opening L.lines (vec_len jobs + 1) shared.now.rows.now result }
{
    let Started {
        mut children,
        outcomes,
    } = started;
    while let Some(job) = jobs.pop() {
        let promise = PlaysRows {
            rows: shared.rows,
            worker: job.worker,
        };
        let there = move || -> WorkerResult<S>
            requires { IsReady (L.lines shared.now.rows.now) job }
            ensures { KeepsPromise S.names.opening (L.lines shared.entry.now.rows.now) job.worker
                result }
        { work(shared, job) };
        match scope.spawn_with(promise, there) {
            Ok(child) => children.push_reserved(child),
            Err(refused) => {
                shared.halt.store(true, Ordering::SeqCst);
                let WorkerResult {
                    desk,
                    replies,
                    completed: _,
                } = (refused.value)();
                let mut outcomes = add_unplayed(jobs, outcomes);
                outcomes.push_reserved(WorkerResult::incomplete(desk, replies));
                return Started { children, outcomes };
            }
        }
    }
    Started { children, outcomes }
}

/// Joins the threads, the last one first, adds the result of each, and then the first worker's.
fn join_all<'e, W: Threads, S: Naming, L: RowList>(
    rt: &W,
    rows: &'e L,
    workers: usize,
    started: Started<'e, S, L>,
    first: WorkerResult<S>,
) -> Vec<WorkerResult<S>>
    requires started { AreStarted S.names.opening L.lines workers rows.now started }
    requires first { HasPlayedIfComplete S.names.opening workers 0 (L.lines rows.now) first }
    ensures { AreWorkerResults S.names.opening workers (L.lines rows.now) result }
{
    let Started {
        mut children,
        mut outcomes,
    } = started;
    while let Some(child) = children.pop() {
        outcomes.push_reserved(child.join(rt));
    }
    outcomes.push_reserved(first);
    outcomes
}

/// Starts the threads of this scope, plays the last job in the calling thread, and joins the threads. The last job is
/// the first worker's.
fn play_in<
    's,
    'e: 's,
    W: Threads + Wait + Sync + 'e,
    G: Gate + Send + Sync + 'e,
    S: Naming + Send + Sync + 'e,
    L: RowList + Sync + 'e,
>(
    scope: &'s Scope<'s, &'e ()>,
    shared: &'e Shared<'e, W, G, S, L>,
    mut jobs: Vec<Job<S>>,
    outcomes: Vec<WorkerResult<S>>,
) -> Vec<WorkerResult<S>>
    requires ready { AreReady (L.lines shared.now.rows.now) jobs }
    requires room { IsRoomFor (vec_len jobs) outcomes }
    ensures { AreWorkerResults S.names.opening (vec_len jobs) (L.lines shared.now.rows.now) result }
{
    let workers = jobs.len();
    let Ok(children) = Vec::with_capacity(shared.alloc, workers) else {
        return add_unplayed(jobs, outcomes);
    };
    let Some(own) = jobs.pop() else {
        return outcomes;
    };
    let started = start_all(scope, shared, jobs, Started { children, outcomes });
    let first = work(shared, own);
    join_all(shared.rt, shared.rows, workers, started, first)
}

/// Plays all jobs: the last one, which is the first worker's, in the calling thread, and each other one in a thread of
/// its own. If a thread cannot be started, the workers that have not begun play nothing, including the first one.
pub fn play_all<
    W: Threads + Wait + Sync,
    G: Gate + Send + Sync,
    S: Naming + Send + Sync,
    L: RowList + Sync,
>(
    rt: &W,
    alloc: Global,
    store: &Store<S>,
    gate: &G,
    rows: &L,
    jobs: Vec<Job<S>>,
    outcomes: Vec<WorkerResult<S>>,
) -> Vec<WorkerResult<S>>
    requires ready { AreReady (L.lines rows.now) jobs }
    requires room { IsRoomFor (vec_len jobs) outcomes }
    ensures { AreWorkerResults S.names.opening (vec_len jobs) (L.lines rows.now) result }
{
    let shared = Shared {
        rt,
        alloc,
        store,
        gate,
        rows,
        halt: AtomicBool::new(false),
    };
    let shared = &shared;
    thread::scope(
        thread::scope_env(),
        rt,
        move |scope| -> Vec<WorkerResult<S>>
            requires ready { AreReady (L.lines shared.now.rows.now) jobs }
            requires room { IsRoomFor (vec_len jobs) outcomes }
        { play_in(scope, shared, jobs, outcomes) },
    )
}
