//! A log of events that is durable, shared by threads.
#![tactic(auto)]

mod backlog;
mod commit_error;
mod device;
mod idle_device;
mod leader_cell;
mod mark;
mod names;
mod opening;
mod pending;
mod segments;
mod writer;

pub use backlog::Backlog;
pub use commit_error::CommitError;
pub use device::LogDevice;
pub use idle_device::IdleDevice;
pub use leader_cell::LeaderCell;
pub use mark::HistoryMark;
pub use names::Naming;
pub use opening::UnopenedDevice;
pub use segments::NoRoom;
pub use writer::LogWriter;
