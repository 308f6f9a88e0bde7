//! A connection that the program serves.
ghost use Rattle.std.specs.Prelude.{◌≡◌, None};
ghost use Rattle.std.specs.Option.{option_map};
ghost use Rattle.store_server.specs.Connections.{IsOpen};

use blob_digest::Refusal;
use std::io::{Read, Write};
use std::snapshot::Snapshot;
use watched_reader::Watched;
use wire_server::Ending;

/// A connection that ended: the reason, and, only in the proof, the final states of its input and its output.
#[derive(Drop)]
pub struct EndedConnection<I, O> {
    input: Snapshot<Watched<I>>,
    output: Snapshot<O>,
    result: Result<Ending, Refusal>,
}

impl<I: Drop, O: Drop> EndedConnection<I, O> {
    /// Drops the input and the output of a connection, so that the client sees its end. Nothing is written afterwards.
    pub fn new(
        input: Watched<I>,
        output: O,
        served: Result<Ending, Refusal>,
    ) -> EndedConnection<I, O>
        ensures input { result.input.value ≡ input }
        ensures output { result.output.value ≡ output }
        ensures result { result.result ≡ served }
    {
        EndedConnection {
            input: Snapshot::of(&input),
            output: Snapshot::of(&output),
            result: served,
        }
    }
}

/// A connection: the input of its requests and the output of its replies.
#[derive(Drop)]
pub struct Connection<I, O> {
    /// The input and the output, while the connection is open.
    pub ends: Option<(Watched<I>, O)>,
    /// The end of the connection, or `None` before.
    pub ended: Option<EndedConnection<I, O>>,
}

impl<I: Read + Drop, O: Write + Drop> Connection<I, O> {
    /// Makes an open connection.
    pub fn new(input: I, output: O) -> Connection<I, O>
        ensures open { IsOpen result input output }
        ensures ended { result.ended ≡ None }
    {
        Connection {
            ends: Some((Watched::new(input), output)),
            ended: None,
        }
    }

    /// Returns why the connection ended, or the error of its desk if it was not served. Returns `None` before its end.
    pub fn served(&self) -> Option<Result<Ending, Refusal>>
        ensures { result ≡ option_map (λ e. e.result) self.now.ended }
    {
        self.ended.as_ref().map(|ended| ended.result)
    }
}
