//! Serves a connection: reads its requests, plays each on a store, and writes its reply.
//!
//! A connection is any `Read` and `Write`. A store is any `Backend` with `Queries` of `store_api`, and the table of
//! leases any `LeaseStore`. The crate depends on `wire_format` for the frames, and on `store_api` for the fields of a
//! request: a request's command means what a script's row means.
//!
//! It guarantees, for every store and table:
//!
//! - Requests are played in order, each once, and each has one reply, written in that order.
//! - A request is refused for its first field that spells nothing, and then changes nothing.
//! - A read of a lease returns bytes of a content that has the named digest.
//! - A fetch returns a short piece of a lent blob and leaves no lease, or it has the lease of a longer piece kept.
//! - A query returns the result of a catalog that the store finds, and changes nothing.
//! - The result of `serve` is the reason of the end. A request that was not read whole was not played.
//! - A reply is written only after a `ReplyGuard` made the store durable.
#![tactic(auto)]

mod command;
mod connection;
mod ending;
mod lease_store;
mod outcome;
mod query;
mod reply_guard;
mod reply_stream;
mod step;

pub use command::{request_command, verb_of};
pub use connection::serve;
pub use ending::Ending;
pub use lease_store::LeaseStore;
pub use outcome::{RequestResult, write_outcome};
pub use query::request_query;
pub use reply_guard::{NoLog, ReplyGuard};
pub use reply_stream::ReplyStream;
pub use step::execute_request;
