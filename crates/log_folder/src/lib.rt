//! The folder of a store's log: its lock, its files, how they are opened and mended after a crash, which sessions they leave open,
//! and how they are rewritten and converted.
//!
//! `docs/LOG.md` has the layout.
#![tactic(auto)]

mod close_request;
mod conversion;
mod converting;
mod cutting;
mod data_folder;
mod error;
mod fault;
mod holders;
mod last_file;
mod left_open;
mod listing;
mod longest;
mod next_segments;
mod noting;
mod open_contents;
mod opening;
mod ownership;
mod progress;
mod rewriting;
mod room;
mod salvaging;
mod scanning;
mod segment;
mod watch;

pub use close_request::CloseRequest;
pub use conversion::{Conversion, ConvertError};
pub use converting::convert;
pub use cutting::accept_loss;
pub use data_folder::DataFolder;
pub use error::FolderError;
pub use holders::{Holders, find_holders};
pub use left_open::{ContentsObserver, LeftOpen, OpenContent, find_left_open};
pub use longest::{read_longest, write_longest};
pub use next_segments::NextSegments;
pub use noting::Noting;
pub use opening::{OpenLog, open_log};
pub use ownership::Ownership;
pub use progress::{Progress, Work};
pub use rewriting::{Outcome, When, compact};
pub use salvaging::salvage;
pub use segment::Segment;
pub use watch::Watch;
