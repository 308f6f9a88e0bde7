//! Open upload sessions, by tenant and number (OCI Distribution Specification 1.1, "Pushing blobs").
//!
//! A session is a list of chunks. The table keeps each session's bytes, the lengths of its chunks and the hashes of
//! its bytes. Each tenant has its own sessions, at most 64, and no call reads another tenant's. Every contract is
//! stated with the definitions in `specs/`. A failed call changes nothing, except `finish`.
//!
//! A chunk is appended in three steps. `take` checks a session out into a `Hand` and reserves bytes for one more
//! chunk. `Hand::fill` copies and hashes that chunk without the table. `put_back` checks the session in again. To
//! close a session, `finish` moves the bytes of the hand into a blob. After that, `forget` removes the session, or
//! `reopen` moves the bytes back and restores the session.
//!
//! `fill` alone copies bytes: those of its chunk, and all earlier ones if the buffer has to grow. Each byte passes
//! through SHA-256 once, when it arrives, and through SHA-512 once if a close asks for it. If `Hand::fill_last` names
//! the algorithm of the close, the last chunk passes through that one only, and also through SHA-256 if the hand is
//! put back. `Hand::fill_by` can leave the hash to a later call, or take it from a blob with the same bytes.
#![tactic(auto)]

mod filling;
mod hand;
mod hashed;
mod hashing;
mod last_chunk;
mod repo_sessions;
mod sealing;
mod tenant_sessions;
mod upload;
mod uploads;

pub use hand::Hand;
pub use hashing::Hashing;
pub use repo_sessions::RepoSessions;
pub use sealing::{PendingClose, Sealing};
pub use uploads::Uploads;
