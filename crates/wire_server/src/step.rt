//! Plays a request on a store and a table of leases.
ghost use Rattle.std.specs.Prelude.{◌≡◌, ◌⊎◌, ◌^◌, ◌<◌, ◌≤◌, false, true, IfErr, IfOk, None, Some, length};
ghost use Rattle.wire_server.specs.Outcomes.{Answered, IsOutcomeOf, IsResultOf, outcome_of};
ghost use Rattle.wire_server.specs.Requests.{command_in, verb_of};
ghost use Rattle.wire_server.specs.Steps.{IsCommandResult, IsFetchResult, IsLeaseResult, IsQueryResult, IsReadResult, GiveBackStep, HandsOver, IsPieceLen, KeepsLease, LosesLease, PlaysRequest, ReadsExtent, ReadsFetched};
ghost use Rattle.store_api.specs.Answers.{answer_of};
ghost use Rattle.store_api.specs.Commands.{is_command};

use crate::command::{ends_of, lease_target, range_of, request_command, verb_of};
use crate::lease_store::LeaseStore;
use crate::outcome::RequestResult;
use crate::query::{query_store, request_query};
use blob_digest::Refusal;
use content_files::ContentStore;
use std::alloc::Global;
use store_api::{Backend, Extent, Queries, Reply, Unread, Verb, digest_in, perform};
use wire_format::RequestFrame;

/// Plays a request for a command that returns a reply.
fn execute_command<B: Backend>(
    alloc: Global,
    backend: &mut B,
    verb: Verb,
    request: &RequestFrame<'_>,
) -> Result<Reply, Refusal>
    requires { is_command verb ≡ true }
    ensures { IsCommandResult B.acts (command_in verb request.now) backend.old result backend.new }
{
    let command = request_command(alloc, verb, request)?;
    perform(backend, &command)
}

/// The command number of a fetch.
const FETCH: u8 = 21;

/// The command number of a request for the place of a leased blob's bytes.
const LOCATE: u8 = 26;

/// The length in bytes of the longest piece that a fetch replies without a lease.
const MAX_FETCHED: u64 = 1_048_576;

/// Returns the length of the piece that a blob of `size` bytes has from `start` to `end`, both included.
fn piece_len(size: u64, start: u64, end: u64) -> u64
    requires ordered { start ≤ end }
    requires small { end < 2 ^ 63 }
    ensures { IsPieceLen size start end result }
{
    (end - start + 1).min(size.saturating_sub(start))
}

/// Has a lease kept by the table. It fails only with `Memory`; then the lease has been given back.
fn keep<B: Backend, L: LeaseStore<B>>(
    leases: &mut L,
    lease: B::Lease,
) -> Result<RequestResult, Refusal>
    ensures kept { IfOk result (KeepsLease L.does (B.lent lease) leases.old leases.new) }
    ensures failed { IfErr result (LosesLease L.does (B.lent lease) leases.old leases.new) }
{
    let size = B::size(&lease);
    match leases.keep(lease) {
        Some(number) => Ok(RequestResult::NewLease { size, number }),
        None => Err(Refusal::Memory),
    }
}

/// Reads an extent of a blob of `size` bytes. It fails only with `Memory`.
fn read_fetched<F: ContentStore>(
    files: &F,
    alloc: Global,
    size: u64,
    extent: Extent,
) -> Result<RequestResult, Refusal>
    requires { size ≡ length extent.content }
    ensures { ReadsFetched F.on_disk extent result }
{
    match extent.read(files, alloc) {
        Ok(piece) => Ok(RequestResult::Fetched { size, piece }),
        Err(Unread::Memory) => Err(Refusal::Memory),
        Err(Unread::Unreadable) => Ok(RequestResult::Unreadable),
    }
}

/// Reads a piece of a leased blob, and ends the lease. It fails only with `Memory`; the lease has ended then too.
fn end_with_piece<F: ContentStore, B: Backend>(
    files: &F,
    alloc: Global,
    lease: B::Lease,
    start: u64,
    end: u64,
) -> Result<RequestResult, Refusal>
    requires ordered { start ≤ end }
    requires small { end < 2 ^ 63 }
    ensures { HandsOver F.on_disk (B.lent lease) start end result }
{
    let size = B::size(&lease);
    let fetched = match B::extent(&lease, start, end) {
        Ok(extent) => read_fetched(files, alloc, size, extent),
        Err(refusal) => Err(refusal),
    };
    B::give_back(lease);
    fetched
}

/// Leases a blob, and has the lease kept by the table.
fn execute_lease<B: Backend, L: LeaseStore<B>>(
    alloc: Global,
    backend: &mut B,
    leases: &mut L,
    request: &RequestFrame<'_>,
) -> Result<RequestResult, Refusal>
    ensures { IsLeaseResult B.acts L.does request.now (backend.old, leases.old) result
        (backend.new, leases.new) }
{
    let (repo, digest) = lease_target(alloc, request)?;
    let lease = backend.lease(&repo, &digest)?;
    keep::<B, L>(leases, lease)
}

/// Fetches a piece of a blob. It leases the blob, and returns a short piece or has the lease kept.
#[tactic(auto, using(crate::proofs::Fetching::fetches))]
fn execute_fetch<F: ContentStore, B: Backend, L: LeaseStore<B>>(
    files: &F,
    alloc: Global,
    backend: &mut B,
    leases: &mut L,
    request: &RequestFrame<'_>,
) -> Result<RequestResult, Refusal>
    ensures { IsFetchResult F.on_disk B.acts L.does request.now (backend.old, leases.old) result
        (backend.new, leases.new) }
{
    let (repo, digest) = lease_target(alloc, request)?;
    let (start, end) = ends_of(range_of(&request.head)?);
    let lease = backend.lease(&repo, &digest)?;
    if piece_len(B::size(&lease), start, end) > MAX_FETCHED {
        keep::<B, L>(leases, lease)
    } else {
        end_with_piece::<F, B>(files, alloc, lease, start, end)
    }
}

/// Looks where an extent of a leased blob lies. It fails only with `Memory`.
fn locate_leased<F: ContentStore>(
    files: &F,
    alloc: Global,
    extent: Extent,
) -> Result<RequestResult, Refusal>
    ensures { ReadsExtent F.on_disk true extent result }
{
    match extent.locate(files, alloc) {
        Ok(Some(located)) => Ok(RequestResult::Located(located)),
        Ok(None) => Ok(RequestResult::NoFile),
        Err(Unread::Memory) => Err(Refusal::Memory),
        Err(Unread::Unreadable) => Ok(RequestResult::Unreadable),
    }
}

/// Reads an extent of a leased blob. It fails only with `Memory`.
fn read_leased<F: ContentStore>(
    files: &F,
    alloc: Global,
    extent: Extent,
) -> Result<RequestResult, Refusal>
    ensures { ReadsExtent F.on_disk false extent result }
{
    match extent.read(files, alloc) {
        Ok(piece) => Ok(RequestResult::Answered(Reply::Bytes(piece))),
        Err(Unread::Memory) => Err(Refusal::Memory),
        Err(Unread::Unreadable) => Ok(RequestResult::Unreadable),
    }
}

/// Reads a piece of a leased blob, or looks where it lies if `is_located`. The table is asked first, and what it gives is read
/// afterwards, without its lock.
fn execute_read<F: ContentStore, B: Backend, L: LeaseStore<B>>(
    files: &F,
    alloc: Global,
    leases: &mut L,
    request: &RequestFrame<'_>,
    is_located: bool,
) -> Result<RequestResult, Refusal>
    ensures { IsReadResult F.on_disk is_located L.does request.now leases.old result leases.new }
{
    let digest = digest_in(request.digest())?;
    let (start, end) = ends_of(range_of(&request.head)?);
    match leases.extent(request.head.number, &digest, start, end)? {
        Some(extent) if is_located => locate_leased(files, alloc, extent),
        Some(extent) => read_leased(files, alloc, extent),
        None => Ok(RequestResult::Answered(Reply::NoLease)),
    }
}

/// Gives a lease back.
fn execute_give_back<B: Backend, L: LeaseStore<B>>(leases: &mut L, number: u32) -> Reply
    ensures { GiveBackStep L.does number leases.old (Answered (answer_of result)) leases.new }
{
    if leases.give_back(number) {
        Reply::GivenBack
    } else {
        Reply::NoLease
    }
}

/// Returns the outcome that reports the result of a call.
fn answered(played: Result<Reply, Refusal>) -> RequestResult
    ensures { IsResultOf played (outcome_of result) }
{
    match played {
        Ok(reply) => RequestResult::Answered(reply),
        Err(refusal) => RequestResult::Answered(Reply::Refused(refusal)),
    }
}

/// Returns the outcome of a call, or the one that reports its refusal.
fn outcome_or_refusal(played: Result<RequestResult, Refusal>) -> RequestResult
    ensures { IsOutcomeOf played (outcome_of result) }
{
    match played {
        Ok(outcome) => outcome,
        Err(refusal) => RequestResult::Answered(Reply::Refused(refusal)),
    }
}

/// Plays a request for a query. If its first byte names none, the outcome is `NoCommand`.
fn execute_query<B: Queries>(alloc: Global, store: &B, request: &RequestFrame<'_>) -> RequestResult
    ensures { IsQueryResult B.finds store.now request.now result }
{
    match request_query(alloc, request) {
        Ok(Some(query)) => query_store(store, &query),
        Ok(None) => RequestResult::NoCommand,
        Err(refusal) => RequestResult::Answered(Reply::Refused(refusal)),
    }
}

/// Plays a request whose first byte names no verb: a fetch, a request for the place of bytes, or a query.
fn execute_without_verb<F: ContentStore, B: Backend + Queries, L: LeaseStore<B>>(
    files: &F,
    alloc: Global,
    backend: &mut B,
    leases: &mut L,
    request: &RequestFrame<'_>,
) -> RequestResult
    requires { verb_of request.now.head.command ≡ None }
    ensures { PlaysRequest F.on_disk B.acts B.finds L.does (backend.old, leases.old) request.now
        result
        (backend.new, leases.new) }
{
    if request.head.command == FETCH {
        return outcome_or_refusal(execute_fetch(files, alloc, backend, leases, request));
    }
    if request.head.command == LOCATE {
        return outcome_or_refusal(execute_read::<F, B, L>(files, alloc, leases, request, true));
    }
    execute_query(alloc, backend, request)
}

/// Plays a request on a store and a table of leases, and returns its outcome.
///
/// # Errors
///
/// A failure is an outcome too. These are checked in this order:
///
/// - The refusal of the first field that spells nothing, in the order repository, source, digest, range.
/// - The refusal of the store, or `Reply::NoLease` of the table of leases.
/// - `Unreadable`, if the bytes lie in a file that has others, or that cannot be read.
///
/// If memory runs out before the store is called, the outcome is `Memory`, and nothing changes.
///
/// # Cost
///
/// The cost of the call of the store or of the table, and linear in the length of the request's texts. It allocates the
/// request's repository names. It does not copy the bytes of a blob in memory, and reads those of a blob in a file, but not for
/// the place of bytes.
pub fn execute_request<F: ContentStore, B: Backend + Queries, L: LeaseStore<B>>(
    files: &F,
    alloc: Global,
    backend: &mut B,
    leases: &mut L,
    request: &RequestFrame<'_>,
) -> RequestResult
    ensures { PlaysRequest F.on_disk B.acts B.finds L.does (backend.old, leases.old) request.now
        result
        (backend.new, leases.new) }
{
    let Some(verb) = verb_of(request.head.command) else {
        return execute_without_verb(files, alloc, backend, leases, request);
    };
    match verb {
        Verb::Lease => outcome_or_refusal(execute_lease(alloc, backend, leases, request)),
        Verb::Read => {
            outcome_or_refusal(execute_read::<F, B, L>(files, alloc, leases, request, false))
        }
        Verb::GiveBack => RequestResult::Answered(execute_give_back::<B, L>(
            leases,
            request.head.number,
        )),
        Verb::Sweep => RequestResult::Answered(Reply::Swept(backend.sweep_in_parts())),
        Verb::Share | Verb::Verify => unreachable!(),
        _ => answered(execute_command(alloc, backend, verb, request)),
    }
}
