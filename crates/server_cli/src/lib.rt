//! The command line of `blobd`: its arguments, and the texts and exit statuses with which it stops.
//!
//! The crate depends on `tenant_args` for the tenants, and on `store_replay` for what can be wrong with a log.
//!
//! It guarantees that the options are those that the arguments spell, and which exit status each reason has.
#![tactic(auto)]

mod arguments;
mod flags;
mod need;
mod stop;

pub use arguments::{Options, read_arguments};
pub use flags::LogOptions;
pub use need::Need;
pub use stop::{Stop, StopText};
