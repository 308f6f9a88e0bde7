//! When the changes of a store become durable.

ghost use Rattle.std.specs.Prelude.{◌≡◌};
ghost use Rattle.locked_book.specs.Calls.{step_of};
ghost use Rattle.locked_book.specs.Logging.{has_log, is_change, promises_changes, promises_chunks};

use crate::call::Call;

/// When the changes of a store become durable.
#[derive(Clone, Copy, Debug, PartialEq, Eq, Drop)]
pub enum LogPolicy {
    /// The store has no log: it is in memory alone.
    NoLog,
    /// Each change is written to the log before its reply is sent, and the log is never synced.
    Never,
    /// Each change except a chunk of an upload is durable before its reply is sent.
    Closes,
    /// Each change is durable before its reply is sent.
    Each,
}

impl LogPolicy {
    /// Returns whether the store has a log.
    pub fn has_log(self) -> bool
        ensures { result ≡ has_log self }
    {
        !matches!(self, LogPolicy::NoLog)
    }

    /// Returns whether the store promises that changes other than chunks are durable.
    pub fn promises_changes(self) -> bool
        ensures { result ≡ promises_changes self }
    {
        matches!(self, LogPolicy::Closes | LogPolicy::Each)
    }

    /// Returns whether the store promises that chunks are durable.
    pub fn promises_chunks(self) -> bool
        ensures { result ≡ promises_chunks self }
    {
        matches!(self, LogPolicy::Each)
    }
}

/// Returns whether a call changed something durable in another way than by a chunk.
pub fn is_change(call: &Call<'_>) -> bool
    ensures { result ≡ is_change (step_of call.now) }
{
    match call {
        Call::Start(_, result) => result.is_ok(),
        Call::Finish(_, _, result) => result.is_ok(),
        Call::Abandon(_, _, result) => result.is_ok(),
        Call::Mount(_, _, _, result) => result.is_ok(),
        Call::Delete(_, _, result) => result.is_ok(),
        Call::PutManifest(_, _, result) => result.is_ok(),
        Call::DeleteManifest(_, _, result) => result.is_ok(),
        Call::RemoveRepo(_, result) => result.is_ok(),
        Call::Status(_, _, _)
        | Call::Take(_, _, _, _, _)
        | Call::PutBack(_, _)
        | Call::RefuseManifest(_, _, _)
        | Call::GetManifest(_, _, _)
        | Call::Lease(_, _, _)
        | Call::Sweep(_)
        | Call::SweepPart(_) => false,
    }
}
