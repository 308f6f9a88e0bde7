//! States what the log of a store restores. Each theorem is the contract of a function with an empty body.

ghost use Rattle.locked_book.specs.CutLogs.{CutLogsRestore, SameLogsRestart};

/// States what the first bytes of a store's log restore, such as those that a crash leaves.
///
/// - `cuts`: the first bytes of the log are read as the first changes of the store's history, with a rest that no record
///   begins. A store that starts with these changes has its state after some first steps of the history. If the bytes have
///   all records of some first entries of the history, the changes of these entries are among them.
/// - `restarts`: a store of the same tenants, whose log has the first bytes of another store's log, agrees with the
///   durable state of the other store after such first steps.
///
/// Both hold for stores with a log, if the log restores the history. `Kept::reveal_durable_state` states that it
/// does.
pub fn logs()
    ensures cuts { CutLogsRestore }
    ensures restarts { SameLogsRestart }
{}
