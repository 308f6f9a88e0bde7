//! A theorem over all runs of calls.

ghost use Rattle.ghost_log.specs.Laws.{EveryRun};

/// States that after every run of calls by any number of writers, the log is the list of appended entries.
///
/// Each entry is in it once, in the order of the calls. Each writer has seen a prefix of the log, and its own events
/// are the events of the entries with its number. The function does nothing at run time.
#[tactic(auto, using(crate::proofs::Runs::every_run))]
pub fn every_run<E>()
    ensures { EveryRun E }
{}
