//! Serves a connection.
ghost use Rattle.std.specs.Prelude.{◌≡◌, ◌≢◌, ◌⊎◌, IfErr, IfOk, IfSome, IsNone, OnErr};
ghost use Rattle.wire_format.specs.Frames.{greeting};
ghost use Rattle.wire_server.specs.ReplyStreams.{output_of};
ghost use Rattle.wire_server.specs.Connections.{IsEndReason, EndsByRead, EndsBeforeGreeting, ErrEndsByRead, ServesConnection, ServesRequests, MayEndByRead, PlaysNext, ReadsBytes, ServesNext, WritesBytes};
ghost use Rattle.wire_server.specs.declared.ending.Ending.TheVariants.{NotDurable};
ghost use Rattle.watched_reader.specs.Watching.{inner_of};

use crate::ending::Ending;
use crate::lease_store::LeaseStore;
use crate::outcome::RequestResult;
use crate::reply_guard::ReplyGuard;
use crate::reply_stream::ReplyStream;
use crate::step::execute_request;
use blob_digest::Refusal;
use content_files::ContentStore;
use std::alloc::Global;
use std::io::{Read, Write};
use std::sync::Wait;
use store_api::{Backend, Queries, Reply};
use watched_reader::Watched;
use wire_format::{FrameFault, Incoming, RequestFrame, read_greeting, read_request};

/// Exchanges the greetings. Returns why the connection ended, or `None` if it continues.
fn exchange_greetings<G, I: Read, O: Write>(
    input: &mut Watched<I>,
    output: &mut ReplyStream<G, O>,
) -> Option<Ending>
    ensures greeted { IsNone result → ReadsBytes I.remaining input.old input.new greeting }
    ensures answered { IsNone result →
        WritesBytes O.contents (output_of output.old) (output_of output.new) greeting }
    ensures ended { IfSome result (λ e. EndsBeforeGreeting e (I.remaining (inner_of input.old))) }
    ensures failed { MayEndByRead result input.old input.new }
{
    match read_greeting(input) {
        Ok(true) => {}
        Ok(false) => return Some(Ending::Closed),
        Err(FrameFault::CutOff) => return Some(Ending::CutOff),
        Err(FrameFault::Failed) => return Some(Ending::ReadFailed),
        Err(FrameFault::Malformed) => return Some(Ending::Malformed),
    }
    match output.greet() {
        Ok(()) => None,
        Err(_) => Some(Ending::WriteFailed),
    }
}

/// Reads a request and plays it. `Err` says why the connection has no further request.
fn execute_next<F: ContentStore, B: Backend + Queries, L: LeaseStore<B>, I: Read>(
    files: &F,
    alloc: Global,
    backend: &mut B,
    leases: &mut L,
    input: &mut Watched<I>,
    buffer: &mut Vec<u8>,
) -> Result<RequestResult, Ending>
    ensures played { IfOk result (PlaysNext F.on_disk B.acts B.finds L.does I.remaining
        (backend.old, leases.old, input.old) (backend.new, leases.new, input.new)) }
    ensures same { OnErr result ((backend.new ≡ backend.old) × (leases.new ≡ leases.old)) }
    ensures ended { IfErr result (λ e. IsEndReason e 0 (I.remaining (inner_of input.old))) }
    ensures failed { ErrEndsByRead result input.old input.new }
{
    match read_request(input, buffer) {
        Ok(Incoming::Request(head)) => {
            let request = RequestFrame::new(head, &buffer.as_slice()[..head.payload_len()]);
            Ok(execute_request(files, alloc, backend, leases, &request))
        }
        Ok(Incoming::OutOfMemory) => Ok(RequestResult::Answered(Reply::Refused(Refusal::Memory))),
        Ok(Incoming::End) => Err(Ending::Closed),
        Err(FrameFault::CutOff) => Err(Ending::CutOff),
        Err(FrameFault::Failed) => Err(Ending::ReadFailed),
        Err(FrameFault::Malformed) => Err(Ending::Malformed),
    }
}

/// Reads a request, plays it, makes its effects durable, and sends its reply. Returns why the connection ended, or `None` if
/// it continues.
fn serve_next<
    F: ContentStore,
    B: Backend + Queries,
    G: ReplyGuard<B>,
    L: LeaseStore<B>,
    I: Read,
    O: Write,
>(
    files: &F,
    alloc: Global,
    guard: &mut G,
    backend: &mut B,
    leases: &mut L,
    input: &mut Watched<I>,
    output: &mut ReplyStream<G, O>,
    buffer: &mut Vec<u8>,
) -> Option<Ending>
    requires { G.durable backend.old }
    ensures served { IsNone result → ServesNext F.on_disk B.acts B.finds L.does I.remaining
        O.contents
        (backend.old, leases.old, input.old, output_of output.old)
        (backend.new, leases.new, input.new, output_of output.new) }
    ensures ended { IfSome result (ServesRequests F.on_disk B.acts B.finds L.does
        (backend.old, leases.old)
        (backend.new, leases.new) (I.remaining (inner_of input.old))
        (O.contents (output_of output.old)) (O.contents (output_of output.new))) }
    ensures failed { MayEndByRead result input.old input.new }
    ensures durable { result ≢ Some NotDurable → G.durable backend.new }
    ensures lost { result ≡ Some NotDurable → G.log_failed guard.new }
{
    let outcome = match execute_next(files, alloc, backend, leases, input, buffer) {
        Ok(outcome) => outcome,
        Err(ending) => return Some(ending),
    };
    if !guard.commit(backend) {
        return Some(Ending::NotDurable);
    }
    match output.send(alloc, backend, &outcome) {
        Ok(()) => None,
        Err(_) => Some(Ending::WriteFailed),
    }
}

/// Serves requests until the connection ends. The backend is durable between two requests.
fn serve_requests<
    W: Wait,
    F: ContentStore,
    B: Backend + Queries,
    G: ReplyGuard<B>,
    L: LeaseStore<B>,
    I: Read,
    O: Write,
>(
    rt: &W,
    files: &F,
    alloc: Global,
    guard: &mut G,
    backend: &mut B,
    leases: &mut L,
    input: &mut Watched<I>,
    output: &mut ReplyStream<G, O>,
) -> Ending
    requires { G.durable backend.old }
    ensures served { ServesRequests F.on_disk B.acts B.finds L.does (backend.old, leases.old)
        (backend.new, leases.new) (I.remaining (inner_of input.old))
        (O.contents (output_of output.old)) (O.contents (output_of output.new)) result }
    ensures failed { EndsByRead result input.old input.new }
    ensures durable { result ≢ NotDurable → G.durable backend.new }
    ensures lost { result ≡ NotDurable → G.log_failed guard.new }
{
    let mut buffer = Vec::new(alloc);
    for _ in rt.forever() {
        if let Some(ending) = serve_next(
            files,
            alloc,
            guard,
            backend,
            leases,
            input,
            output,
            &mut buffer,
        ) {
            return ending;
        }
    }
    unreachable!()
}

/// Serves a connection until it ends, and returns why it ended.
///
/// It exchanges the greetings. Then it reads, plays and replies to one request after another. Before each reply the guard
/// makes the backend durable, and each reply is flushed before the next request is read. If the guard fails, the reply is not
/// written, and the connection ends with `NotDurable`. If memory runs out for a request, the reply is `Memory`, and the
/// connection continues. The call does not return while the client sends requests. The bytes of blobs in files are read from `files`.
///
/// # Cost
///
/// Linear in the bytes that are read and written, in addition to the calls of the store, the table and the guard. It allocates
/// one buffer for the longest request, at most 4,390,910 bytes. It does not copy the bytes of a blob in memory or of a manifest.
pub fn serve<
    W: Wait,
    F: ContentStore,
    B: Backend + Queries,
    G: ReplyGuard<B>,
    L: LeaseStore<B>,
    I: Read,
    O: Write,
>(
    rt: &W,
    files: &F,
    alloc: Global,
    guard: &mut G,
    backend: &mut B,
    leases: &mut L,
    input: &mut Watched<I>,
    output: &mut ReplyStream<G, O>,
) -> Ending
    requires { G.durable backend.old }
    ensures served { ServesConnection F.on_disk B.acts B.finds L.does (backend.old, leases.old)
        (backend.new, leases.new) (I.remaining (inner_of input.old))
        (O.contents (output_of output.old)) (O.contents (output_of output.new)) result }
    ensures failed { EndsByRead result input.old input.new }
    ensures durable { result ≢ NotDurable → G.durable backend.new }
    ensures lost { result ≡ NotDurable → G.log_failed guard.new }
{
    match exchange_greetings(input, output) {
        Some(ending) => ending,
        None => serve_requests(rt, files, alloc, guard, backend, leases, input, output),
    }
}
