//! Plays the log of a store again: a new store makes the changes that the log describes, and records the same bytes.
//!
//! The replay trusts no record. It plays the changes of each payload by ordinary calls of the store, and then compares the
//! records that the store made with the bytes that were read. So what is proved of a store that writes its log holds of a
//! store whose log was replayed.
#![tactic(auto)]

mod damage;
mod fault;
mod folder_file;
mod observer;
mod open_sessions;
mod player;
mod prefix;
mod replay;
mod replayed;
mod restart;
mod scan;
mod trail;

pub use damage::{Damage, LogPlace};
pub use fault::{Cause, Fault};
pub use folder_file::FolderFile;
pub use observer::{ChangeSink, NoSink};
pub use player::Player;
pub use prefix::PrefixSink;
pub use replay::Replay;
pub use replayed::{ContinueError, Replayed, continue_on, continue_on_file, replay_log};
pub use restart::reveal_restart;
pub use scan::{Scan, scan_log};
