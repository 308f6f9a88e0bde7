//! The frames of a connection: the requests of a client and the replies of the server, byte by byte.
#![tactic(auto)]

mod fault;
mod fill;
mod greeting;
pub mod laws;
mod reply;
mod request;

pub use fault::FrameFault;
pub use greeting::{read_greeting, write_greeting};
pub use reply::{write_digest, write_refusal, write_reply};
pub use request::{Head, Incoming, MAX_BODY, RequestFrame, read_request};
