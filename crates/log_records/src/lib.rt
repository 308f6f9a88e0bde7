//! The records of a log: the changes of a store that survive a restart, byte by byte.
#![tactic(auto)]

mod change;
mod decode;
mod encode;
mod head;
mod kind;
pub mod laws;
mod parts;

pub use change::Change;
pub use decode::{RecordError, announced_len, next_record};
pub use encode::{append_record, append_reserved, record_len};
pub use head::{HEAD_LEN, MAX_BODY};
