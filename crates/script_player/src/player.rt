//! Executes the rows of a script.
ghost use Rattle.std.specs.Prelude.{◌≡◌, [], ◌≤◌, ◌<◌, true, IfOk, IfErr, OnOk, IsTrue, ◌↔◌, length, vec_capacity, vec_len};
ghost use Rattle.store_api.specs.Answers.{answer_of, Refused};
ghost use Rattle.store_api.specs.Commands.{is_command};
ghost use Rattle.script_player.specs.JoinedRows.{joined_rows};
ghost use Rattle.script_player.specs.RowViews.{borrowed_view};
ghost use Rattle.script_player.specs.Plays.{AddsRow, AddsRows, IsCommandResult, IsReadResult, ParsesPiece, PlaysAll, PlaysRow, RepliesToRow, WorkerPlays, lease_name_of, second_name_of};
ghost use Rattle.script_player.specs.Rows.{names_lease};
ghost use Rattle.script_player.specs.Workers.{AddsReplies, HasRoomFor, worker_rows};

use crate::command::command_in;
use crate::gate::{Gate, OpenGate};
use crate::lease_name::LeaseName;
use crate::leases::{Leases, lend, verify};
use crate::packed_rows::PackedRows;
use crate::row::BorrowedRow;
use crate::row_list::RowList;
use crate::script_rows::ScriptRows;
use crate::worker::Worker;
use blob_digest::{ByteRange, Refusal};
use content_files::NoFiles;
use std::alloc::Global;
use std::collections::VecDeque;
use store_api::{Backend, Reply, Unread, Verb, digest_in, perform, repo_in};

/// Executes a row that spells a command of the store.
#[tactic(auto, using(store_api::proofs::Commands::no_lease))]
fn try_command<B: Backend>(
    alloc: Global,
    backend: &mut B,
    row: &BorrowedRow<'_>,
) -> Result<Reply, Refusal>
    requires { is_command row.now.verb ≡ true }
    ensures { IsCommandResult B.acts backend.old (borrowed_view row.now) result backend.new }
{
    let command = command_in(alloc, row)?;
    perform(backend, &command)
}

/// Returns the name of the lease that a row is about, with its lane.
#[tactic(auto, using(crate::proofs::LeaseRows::key_within))]
fn lease_name_of(row: &BorrowedRow<'_>) -> LeaseName
    requires { names_lease row.now.verb ≡ true }
    ensures { result ≡ lease_name_of (borrowed_view row.now) }
{
    LeaseName::new(row.lane, row.key)
}

/// Returns the name of the second lease of a share, with its lane.
#[tactic(auto, using(crate::proofs::LeaseRows::body_within))]
fn second_name_of(row: &BorrowedRow<'_>) -> LeaseName
    requires { row.now.verb ≡ Verb.Share }
    ensures { result ≡ second_name_of (borrowed_view row.now) }
{
    LeaseName::new(row.lane, row.body)
}

/// Executes a row that leases a blob.
/// The repository and the digest are checked first, then the name, and only then is the store asked.
fn try_lease<B: Backend>(
    alloc: Global,
    backend: &mut B,
    leases: &mut Leases<B>,
    row: &BorrowedRow<'_>,
) -> Result<Reply, Refusal>
    requires { row.now.verb ≡ Verb.Lease }
    ensures { PlaysRow B.acts backend.old leases.old row.now result backend.new leases.new }
{
    let repo = repo_in(alloc, row.repo)?;
    let digest = digest_in(row.digest)?;
    let name = lease_name_of(row);
    if leases.get(name).is_some() {
        return Ok(Reply::NameTaken);
    }
    let size = lend(backend, leases, name, &repo, &digest)?;
    Ok(Reply::Leased(size))
}

/// The maximum length of a piece that one row reads, in bytes.
const MAX_PIECE: u64 = 65_536;

/// Returns the ends of the piece that a field spells, or `SizeInvalid`.
fn piece_in(text: &[u8]) -> Result<(u64, u64), Refusal>
    ensures { ParsesPiece text.now result }
{
    let range = ByteRange::parse(text)?;
    if range.len() > MAX_PIECE {
        return Err(Refusal::SizeInvalid);
    }
    Ok((range.start, range.end))
}

/// Executes a row that reads a piece of a leased blob, whose content is in memory. The name is checked before the range.
fn try_read<B: Backend>(
    alloc: Global,
    leases: &Leases<B>,
    row: &BorrowedRow<'_>,
) -> Result<Reply, Refusal>
    requires { row.now.verb ≡ Verb.Read }
    ensures { IsReadResult leases.now (borrowed_view row.now) result }
{
    let Some(held) = leases.get(lease_name_of(row)) else {
        return Ok(Reply::NoLease);
    };
    let (start, end) = piece_in(row.range)?;
    match B::extent(held, start, end)?.read(&NoFiles, alloc) {
        Ok(piece) => Ok(Reply::Bytes(piece)),
        Err(Unread::Memory | Unread::Unreadable) => Err(Refusal::Memory),
    }
}

/// Executes a row.
fn try_row<B: Backend>(
    alloc: Global,
    backend: &mut B,
    leases: &mut Leases<B>,
    row: &BorrowedRow<'_>,
) -> Result<Reply, Refusal>
    ensures { PlaysRow B.acts backend.old leases.old row.now result backend.new leases.new }
{
    match row.verb {
        Verb::Lease => try_lease(alloc, backend, leases, row),
        Verb::Read => try_read(alloc, leases, row),
        Verb::Share => leases.share(lease_name_of(row), second_name_of(row)),
        Verb::Verify => Ok(verify(backend, leases, lease_name_of(row))),
        Verb::GiveBack => Ok(leases.give_back(lease_name_of(row))),
        Verb::Sweep => Ok(Reply::Swept(backend.sweep())),
        _ => try_command(alloc, backend, row),
    }
}

/// Executes a row, and returns its reply.
///
/// The fields of a command are checked in the order repository, source, digest, range, before the call itself.
/// If memory runs out, the reply is `Refused(Memory)` and nothing has changed.
pub fn row_reply<B: Backend>(
    alloc: Global,
    backend: &mut B,
    leases: &mut Leases<B>,
    row: &BorrowedRow<'_>,
) -> Reply
    ensures { RepliesToRow B.acts backend.old leases.old row.now result backend.new leases.new }
{
    match try_row(alloc, backend, leases, row) {
        Ok(reply) => reply,
        Err(refusal) => Reply::Refused(refusal),
    }
}

/// Returns whether a reply is `Refused(Memory)`.
fn is_memory(reply: &Reply) -> bool
    ensures { IsTrue result ↔ (answer_of reply.now ≡ Refused Refusal.Memory) }
{
    matches!(reply, Reply::Refused(Refusal::Memory))
}

/// Executes a row between the two calls of a gate, and appends its reply. Its only error is `Memory`.
fn run_row_gated<B: Backend, G: Gate>(
    alloc: Global,
    backend: &mut B,
    leases: &mut Leases<B>,
    gate: &G,
    place: usize,
    row: &BorrowedRow<'_>,
    replies: &mut Vec<Reply>,
) -> Result<(), Refusal>
    requires room { vec_len replies.old < vec_capacity replies.old }
    ensures played { OnOk result (AddsRow B.acts backend.old leases.old row.now replies.old.items
        backend.new leases.new replies.new.items) }
    ensures room { vec_capacity replies.new ≡ vec_capacity replies.old }
    ensures refused { IfErr result (λ e. e ≡ Refusal.Memory) }
{
    gate.before(row.lane, place);
    let reply = row_reply(alloc, backend, leases, row);
    gate.after(row.lane, place);
    if is_memory(&reply) {
        return Err(Refusal::Memory);
    }
    replies.push_reserved(reply);
    Ok(())
}

/// Executes a worker's rows in their order, and appends one reply for each. It ends when memory runs out.
/// It looks up only the lane of another worker's row.
fn run_own_rows<B: Backend, G: Gate, L: RowList>(
    alloc: Global,
    backend: &mut B,
    leases: &mut Leases<B>,
    gate: &G,
    rows: &L,
    worker: Worker,
    replies: &mut Vec<Reply>,
) -> Result<(), Refusal>
    requires room { HasRoomFor replies.old (worker_rows worker (L.lines rows.now)) }
    ensures played { OnOk result (AddsRows B.acts backend.old leases.old
        (worker_rows worker (L.lines rows.now)) replies.old.items backend.new leases.new
        replies.new.items) }
    ensures count { OnOk result (AddsReplies replies.old worker (L.lines rows.now) replies.new) }
    ensures room { vec_capacity replies.new ≡ vec_capacity replies.old }
    ensures refused { IfErr result (λ e. e ≡ Refusal.Memory) }
{
    for place in 0..rows.len() {
        if worker.plays(rows.lane(place)) {
            run_row_gated(
                alloc,
                backend,
                leases,
                gate,
                place,
                &rows.row(place),
                replies,
            )?;
        }
    }
    Ok(())
}

/// Executes a worker's rows in their order, and returns one reply for each in the list `replies`.
///
/// The gate is called before and after each row. At the end the leases that the worker's lanes still hold are given
/// back.
///
/// # Errors
/// - `Memory` if memory runs out at a row. The rows before it keep their effect.
///
/// # Cost
/// Looks up the lane of every row, and the fields of the worker's rows. A row of a lease also looks its name up in a
/// `BTreeMap` of the leases that the lanes hold. The list of replies does not grow.
pub fn run_rows<B: Backend, G: Gate, L: RowList>(
    alloc: Global,
    backend: &mut B,
    gate: &G,
    rows: &L,
    worker: Worker,
    mut replies: Vec<Reply>,
) -> Result<Vec<Reply>, Refusal>
    requires empty { replies.items ≡ [] }
    requires room { length (worker_rows worker (L.lines rows.now)) ≤ vec_capacity replies }
    ensures played { WorkerPlays B.acts backend.old worker (L.lines rows.now) result backend.new }
    ensures room { IfOk result (λ v. vec_capacity v ≡ vec_capacity replies) }
    ensures refused { IfErr result (λ e. e ≡ Refusal.Memory) }
{
    let mut leases = Leases::new(alloc);
    let played = run_own_rows(
        alloc,
        backend,
        &mut leases,
        gate,
        rows,
        worker,
        &mut replies,
    );
    leases.end();
    played?;
    Ok(replies)
}

/// Executes all rows in their order, and returns one reply for each.
///
/// At the end the leases that the lanes still hold are given back.
///
/// # Errors
/// - `Memory` if the list of replies cannot be allocated, or if memory runs out at a row. The rows before it keep
///   their effect.
///
/// # Cost
/// Allocates one list, which has room for exactly one reply per row. Otherwise as `run_rows`.
pub fn play<B: Backend, L: RowList>(
    alloc: Global,
    backend: &mut B,
    rows: L,
) -> Result<Vec<Reply>, Refusal>
    ensures played { PlaysAll B.acts backend.old (L.lines rows) result backend.new }
    ensures room { IfOk result (λ replies. vec_capacity replies ≡ length (L.lines rows)) }
    ensures refused { IfErr result (λ e. e ≡ Refusal.Memory) }
{
    let worker = Worker::alone();
    let replies = Vec::with_capacity(alloc, rows.len())?;
    run_rows(alloc, backend, &OpenGate, &rows, worker, replies)
}

/// Executes the rows of several lists, one list after another, and appends one reply for each row.
/// Each list is dropped after its last row. It ends when memory runs out.
fn run_lists<B: Backend>(
    alloc: Global,
    backend: &mut B,
    leases: &mut Leases<B>,
    mut lists: VecDeque<PackedRows>,
    replies: &mut Vec<Reply>,
) -> Result<(), Refusal>
    requires room { HasRoomFor replies.old (joined_rows lists.items) }
    ensures played { OnOk result (AddsRows B.acts backend.old leases.old (joined_rows lists.items)
        replies.old.items backend.new leases.new replies.new.items) }
    ensures room { vec_capacity replies.new ≡ vec_capacity replies.old }
    ensures refused { IfErr result (λ e. e ≡ Refusal.Memory) }
{
    while let Some(list) = lists.pop_front() {
        run_own_rows(
            alloc,
            backend,
            leases,
            &OpenGate,
            &&list,
            Worker::alone(),
            replies,
        )?;
    }
    Ok(())
}

/// Executes all rows of a script as `play` does, and drops each list of rows after its last row.
///
/// # Errors
/// - As `play`.
///
/// # Cost
/// As `play`. The memory of the rows is freed list by list.
pub fn run_script<B: Backend>(
    alloc: Global,
    backend: &mut B,
    rows: ScriptRows,
) -> Result<Vec<Reply>, Refusal>
    ensures played { PlaysAll B.acts backend.old rows result backend.new }
    ensures room { IfOk result (λ replies. vec_capacity replies ≡ length rows) }
    ensures refused { IfErr result (λ e. e ≡ Refusal.Memory) }
{
    let mut replies = Vec::with_capacity(alloc, (&rows).len())?;
    let mut leases = Leases::new(alloc);
    let played = run_lists(alloc, backend, &mut leases, rows.into_lists(), &mut replies);
    leases.end();
    played?;
    Ok(replies)
}
