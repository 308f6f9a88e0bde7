//! Workers that play a whole script.
ghost use Rattle.std.specs.Prelude.{◌≡◌, ◌⊎◌, ◌<◌, ◌≤◌, IfOk, IfErr, MatchResult, length, vec_len, vec_capacity};
ghost use Rattle.blob_digest.specs.declared.refusal.Refusal.TheVariants.{LimitReached, Memory};
ghost use Rattle.locked_book.specs.History.{AreFreshDesks};
ghost use Rattle.blob_store.specs.Parts.{names_of};
ghost use Rattle.blob_store.specs.Jobs.{AreWorkerResults, AreReady, HasRoom, IsRoomFor, IsRoomOfEach};
ghost use Rattle.blob_store.specs.Playing.{EachHasPlayed, HavePlayedIf, HavePlayedIfSome};
ghost use Rattle.blob_store.specs.Playing.{IsEndOf, IsInterleavedTo, SettlesReplies};

use crate::parts::Parts;
use crate::store::Store;
use crate::workers::{Job, WorkerResult, play_all};
use blob_digest::Refusal;
use locked_book::{Desk, Kept, Naming, Settled};
use script_player::{Gate, RepliesByRow, RowList, Worker, count_by_worker};
use std::alloc::Global;
use std::collections::VecDeque;
use std::sync::Wait;
use std::thread::Threads;
use store_api::Reply;

/// The most workers that play a script.
pub const MAX_WORKERS: usize = 64;

/// The result of `play`.
#[derive(Drop)]
pub struct Played {
    /// One reply for each row, in the order of the rows.
    pub replies: Vec<Reply>,
    /// The sums of the workers' shares, and the number of desks still out.
    pub settled: Settled,
}

/// The result of `play_to_end`.
#[derive(Drop)]
pub struct PlayedToEnd<S: Naming, L: RowList> {
    /// One reply for each row, in the order of the rows.
    pub replies: RepliesByRow<L>,
    /// The book after the last row, with its totals and its history.
    pub book: Kept<S>,
}

/// Allocated room for the values that workers begin and end with.
#[derive(Drop)]
struct Room<S: Naming> {
    lists: Vec<Vec<Reply>>,
    queues: Vec<VecDeque<Reply>>,
    jobs: Vec<Job<S>>,
    outcomes: Vec<WorkerResult<S>>,
}

/// Allocates room for the replies of each worker, and no more.
fn lists_for<L: RowList>(
    alloc: Global,
    rows: &L,
    workers: usize,
) -> Result<Vec<Vec<Reply>>, Refusal>
    requires { 0 < workers }
    ensures room { IfOk result (IsRoomOfEach workers (L.lines rows.now)) }
    ensures refused { IfErr result (λ e. e ≡ Memory) }
{
    let counts = count_by_worker(alloc, rows, workers)?;
    let mut lists = Vec::with_capacity(alloc, workers)?;
    for number in 0..workers {
        lists.push_reserved(Vec::with_capacity(alloc, counts[number])?);
    }
    Ok(lists)
}

/// Allocates all room that workers need.
fn room_for<S: Naming, L: RowList>(
    alloc: Global,
    rows: &L,
    workers: usize,
) -> Result<Room<S>, Refusal>
    requires { 0 < workers }
    ensures room { IfOk result (HasRoom workers (L.lines rows.now)) }
    ensures refused { IfErr result (λ e. e ≡ Memory) }
{
    Ok(Room {
        lists: lists_for(alloc, rows, workers)?,
        queues: Vec::with_capacity(alloc, workers)?,
        jobs: Vec::with_capacity(alloc, workers)?,
        outcomes: Vec::with_capacity(alloc, workers)?,
    })
}

/// Returns the jobs of all workers, the last one first. Each has a desk and room for its replies. The vector of the
/// desks is left empty, with its room.
fn jobs_of<S: Naming, L: RowList>(
    rows: &L,
    desks: &mut Vec<Desk<S>>,
    mut lists: Vec<Vec<Reply>>,
    mut jobs: Vec<Job<S>>,
) -> Vec<Job<S>>
    requires fresh { AreFreshDesks desks.old.items }
    requires lists { IsRoomOfEach (vec_len desks.old) (L.lines rows.now) lists }
    requires room { IsRoomFor (vec_len desks.old) jobs }
    ensures len { vec_len result ≡ vec_len desks.old }
    ensures desks { IsRoomFor (vec_len desks.old) desks.new }
    ensures ready { AreReady (L.lines rows.now) result }
{
    let workers = desks.len();
    while let Some(desk) = desks.pop() {
        let number = desks.len();
        let Some(replies) = lists.pop() else {
            unreachable!()
        };
        jobs.push_reserved(Job {
            desk: desk.into_droppable(),
            replies,
            worker: Worker { workers, number },
        });
    }
    jobs
}

/// Moves the workers' desks and replies out of their results, the first worker's first. Returns whether each worker
/// played all of its rows.
fn collect<S: Naming, L: RowList>(
    rows: &L,
    workers: usize,
    mut outcomes: Vec<WorkerResult<S>>,
    desks: &mut Vec<Desk<S>>,
    queues: &mut Vec<VecDeque<Reply>>,
) -> bool
    requires each { AreWorkerResults S.names.opening workers (L.lines rows.now) outcomes }
    requires desks { IsRoomFor workers desks.old }
    requires queues { IsRoomFor workers queues.old }
    ensures len { (vec_len desks.new ≡ workers) × (vec_len queues.new ≡ workers) }
    ensures played { HavePlayedIf result S.names workers (L.lines rows.now) desks.new queues.new }
{
    let mut completed = true;
    while let Some(outcome) = outcomes.pop() {
        let WorkerResult {
            desk,
            replies,
            completed: ended,
        } = outcome;
        desks.push_reserved(desk.into_desk());
        queues.push_reserved(VecDeque::from(replies));
        completed &= ended;
    }
    completed
}

/// Plays a script by one worker for each desk, and puts the desks back in their order. Returns `None` if memory ran out
/// for a row or for a thread.
fn play_with_desks<
    W: Threads + Wait + Sync,
    G: Gate + Send + Sync,
    S: Naming + Send + Sync,
    L: RowList + Sync,
>(
    rt: &W,
    alloc: Global,
    store: &Store<S>,
    rows: &L,
    gate: &G,
    room: Room<S>,
    desks: &mut Vec<Desk<S>>,
) -> Option<RepliesByRow<L>>
    requires fresh { (0 < vec_len desks.old) × AreFreshDesks desks.old.items }
    requires room { HasRoom (vec_len desks.old) (L.lines rows.now) room }
    ensures { HavePlayedIfSome S.names.opening (L.lines rows.now) desks.old desks.new result }
{
    let Room {
        lists,
        mut queues,
        jobs,
        outcomes,
    } = room;
    let workers = desks.len();
    let jobs = jobs_of(rows, desks, lists, jobs);
    let outcomes = play_all(rt, alloc, store, gate, rows, jobs, outcomes);
    let completed = collect(rows, workers, outcomes, desks, &mut queues);
    if completed {
        Some(RepliesByRow::new(*rows, queues))
    } else {
        None
    }
}

/// Plays a script by workers on a store, and returns the replies and the settled amounts. The first worker runs in the
/// calling thread, and each other one in a thread of its own.
///
/// The worker of a row is the one whose number is the row's lane modulo the number of workers. Each worker plays its
/// rows in their order, and gives back the leases that its lanes still hold at its end. The gate is called before and
/// after each row, without the lock. The order of two workers is not specified, and they need not run at the same time.
///
/// # Errors
///
/// - `LimitReached` if more than 1,024 desks would be out.
/// - `Memory` if an allocation fails or a thread cannot be started. The rows that were accepted before remain in
///   effect, all leases are given back, and all desks are settled.
///
/// # Cost
///
/// All room for desks and replies is allocated before a worker is started.
pub fn play<
    W: Threads + Wait + Sync,
    G: Gate + Send + Sync,
    S: Naming + Send + Sync,
    L: RowList + Sync,
>(
    rt: &W,
    alloc: Global,
    store: &Store<S>,
    rows: L,
    workers: usize,
    gate: &G,
) -> Result<Played, Refusal>
    requires { (0 < workers) × (workers ≤ MAX_WORKERS) }
    ensures replies { IfOk result (λ p. length p.replies.items ≡ length (L.lines rows)) }
    ensures each { IfOk result (EachHasPlayed S.names.opening workers (L.lines rows)) }
    ensures room { IfOk result (λ p. vec_capacity p.replies ≡ length (L.lines rows)) }
    ensures settled { IfOk result (SettlesReplies (L.lines rows)) }
    ensures refused { IfErr result (λ e. (e ≡ LimitReached) ⊎ (e ≡ Memory)) }
{
    let room = room_for(alloc, &rows, workers)?;
    let list = Vec::with_capacity(alloc, rows.len())?;
    let mut desks = store.desks(rt, workers as u64)?;
    let played = play_with_desks(rt, alloc, store, &rows, gate, room, &mut desks);
    let settled = store.settle(rt, desks);
    match played {
        Some(replies) => Ok(Played {
            replies: replies.into_list(list),
            settled,
        }),
        None => Err(Refusal::Memory),
    }
}

/// Returns the replies and the book if all rows were played and the history has only the workers' steps.
fn end_of_play<S: Naming, L: RowList>(
    played: Option<RepliesByRow<L>>,
    book: Kept<S>,
    is_exclusive: bool,
) -> Result<PlayedToEnd<S, L>, Refusal>
    ensures { MatchResult result (IsEndOf is_exclusive played book) (λ e. e ≡ Memory) }
{
    match played {
        Some(replies) if is_exclusive => Ok(PlayedToEnd { replies, book }),
        _ => Err(Refusal::Memory),
    }
}

/// Plays a script by workers on a store that has no other user, in this room, and returns the replies and the book.
fn play_exclusively<
    W: Threads + Wait + Sync,
    G: Gate + Send + Sync,
    S: Naming + Send + Sync,
    L: RowList + Sync,
>(
    rt: &W,
    alloc: Global,
    store: Store<S>,
    rows: &L,
    workers: usize,
    gate: &G,
    room: Room<S>,
) -> Result<PlayedToEnd<S, L>, Refusal>
    requires workers { (0 < workers) × (workers ≤ MAX_WORKERS) }
    requires room { HasRoom workers (L.lines rows.now) room }
    ensures replies { IfOk result (λ p. length p.replies ≡ length (L.lines rows.now)) }
    ensures together { IfOk result (IsInterleavedTo S.names.opening workers (L.lines rows.now)) }
    ensures refused { IfErr result (λ e. (e ≡ LimitReached) ⊎ (e ≡ Memory)) }
{
    let mut desks = store.desks(rt, workers as u64)?;
    let played = play_with_desks(rt, alloc, &store, rows, gate, room, &mut desks);
    let mut book = store.into_book();
    let is_exclusive = book.conclude(desks);
    end_of_play(played, book, is_exclusive)
}

/// Plays a script by workers as `play` does, on a new store of these parts, and returns the replies and the book. The
/// workers' steps are one legal history that has no other steps and leads to this book. The names of the parts are
/// those of the type parameter.
///
/// # Errors
///
/// - Those of `play`.
/// - `Memory` if the history has steps that are no worker's. It has none, because the store has no other user; this is
///   not proved.
pub fn play_to_end<
    W: Threads + Wait + Sync,
    G: Gate + Send + Sync,
    S: Naming + Send + Sync,
    L: RowList + Sync,
>(
    rt: &W,
    alloc: Global,
    parts: Parts,
    rows: L,
    workers: usize,
    gate: &G,
) -> Result<PlayedToEnd<S, L>, Refusal>
    requires workers { (0 < workers) × (workers ≤ MAX_WORKERS) }
    requires named { names_of parts ≡ S.names }
    ensures replies { IfOk result (λ p. length p.replies ≡ length (L.lines rows)) }
    ensures together { IfOk result (IsInterleavedTo S.names.opening workers (L.lines rows)) }
    ensures refused { IfErr result (λ e. (e ≡ LimitReached) ⊎ (e ≡ Memory)) }
{
    let room = room_for(alloc, &rows, workers)?;
    play_exclusively(rt, alloc, Store::new(parts), &rows, workers, gate, room)
}
