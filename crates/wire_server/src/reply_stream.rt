//! The output of a connection, to which only the greeting and replies can be written.
ghost use Rattle.std.specs.Prelude.{◌≡◌, OnOk};
ghost use Rattle.std.specs.Io.KnownBytes.{Appends};
ghost use Rattle.wire_format.specs.Frames.{greeting};
ghost use Rattle.wire_server.specs.Outcomes.{SendsOutcome, outcome_of};
ghost use Rattle.wire_server.specs.ReplyStreams.{output_of};

use crate::outcome::{RequestResult, write_outcome};
use crate::reply_guard::ReplyGuard;
use std::alloc::Global;
use std::io::{self, Write};
use std::marker::PhantomData;
use store_api::Backend;
use wire_format::write_greeting;

/// The output of a connection. Only the greeting and replies can be written to it, and a reply only if the backend is durable
/// in the sense of the guard `G`.
pub struct ReplyStream<G, O> {
    output: O,
    guard: PhantomData<G>,
}

impl<G, O> ReplyStream<G, O> {
    /// Wraps an output, to which nothing is written yet.
    pub fn new(output: O) -> ReplyStream<G, O>
        ensures { output_of result ≡ output }
    {
        ReplyStream {
            output,
            guard: PhantomData,
        }
    }

    /// Returns the output, to which no reply is written any more.
    pub fn into_output(self) -> O
        ensures { result ≡ output_of self }
    {
        let ReplyStream { output, guard: _ } = self;
        output
    }
}

impl<G, O: Write> ReplyStream<G, O> {
    /// Writes the greeting, and flushes it.
    pub(crate) fn greet(&mut self) -> io::Result<()>
        ensures { OnOk result (Appends (O.contents (output_of self.old))
            (O.contents (output_of self.new)) greeting) }
    {
        write_greeting(&mut self.output)?;
        self.output.flush()
    }

    /// Writes the reply that reports an outcome of a request to this durable backend, and flushes it.
    ///
    /// # Errors
    ///
    /// A write failed. Then a part of the reply may have been written.
    pub(crate) fn send<B: Backend>(
        &mut self,
        alloc: Global,
        backend: &B,
        outcome: &RequestResult,
    ) -> io::Result<()>
    where
        G: ReplyGuard<B>,
        requires { G.durable backend.now }
        ensures { SendsOutcome O.contents result (output_of self.old) (output_of self.new)
            (outcome_of outcome.now) }
    {
        write_outcome(alloc, &mut self.output, outcome)?;
        self.output.flush()
    }
}
