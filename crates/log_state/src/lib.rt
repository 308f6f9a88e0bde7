//! The state that the records of a log leave, with the notes of contents in place of their bytes, and whether two logs
//! leave the same one.
#![tactic(auto)]

mod bytes;
mod chunk;
mod error;
mod reading;
mod session;
mod state;

pub use bytes::Bytes;
pub use error::StateError;
pub use reading::{LogReading, ReadingError};
pub use state::LogState;
