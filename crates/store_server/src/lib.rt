//! Serves connections on a store, in memory or with a log.
//!
//! Each connection has a thread and a desk of its own. The crate depends on `wire_server` for a connection, on `blob_store` for
//! the store, and on `lease_table` for the leases.
//!
//! It guarantees, for each connection:
//!
//! - The output is the greeting and one reply for each request that was read, in order, unless a write or the log failed.
//! - The requests' steps are part of a legal sequential history of the store, with these replies.
//! - Each reply was written only after the steps that the store promises to be durable were so, in the sense of its log.
//! - The requests' events of leases are part of a legal history of one table of leases.
//! - The bytes of a read of a lease are of a content that has the digest in the request.
//! - The connection ended with `ReadFailed` if and only if a read failed, and with `NotDurable` only if the store has a log.
#![tactic(auto)]

mod connection;
mod guard;
mod removal;
mod service_end;
mod serving;
mod shared;

pub use connection::{Connection, EndedConnection};
pub use guard::StoreGuard;
pub use removal::ContentFiles;
pub use service_end::{EndCell, ServiceEnd};
pub use serving::{serve_new, serve_on, serve_streams};
pub use shared::SharedLeases;
