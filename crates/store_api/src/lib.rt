//! The requests to a store, the replies to them, and the trait of a store's backends.
//!
//! The rows of a script, the requests of a connection and a caller's own code use the same commands and replies.
//!
//! The contracts guarantee:
//! - A command is that of its verb's fields, or the first malformed field is refused.
//! - `perform` makes one call of the backend, and returns the reply to it.
//! - A piece has the bytes of its blob from a start to an end. If contents may lie in files, it has those that were read in
//!   their place, with the lengths and the sums that were stored.
//! - The text of a reply is that of its answer.
#![tactic(auto)]

mod backend;
mod command;
mod extent;
mod hex_digits;
mod piece;
mod queries;
mod query;
mod reply;
mod verb;

pub use backend::{Backend, perform};
pub use command::{Command, Fields, command_from, digest_in, repo_in};
pub use extent::{Extent, Unread};
pub use piece::Piece;
pub use queries::Queries;
pub use query::Query;
pub use reply::{Reply, mount_reply};
pub use verb::Verb;
