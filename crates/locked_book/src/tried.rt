//! Commands that were tried on a book: they are counted if they were accepted, and their steps are added.
//!
//! `before` is the book before the command, `book` the book after it.

ghost use Rattle.std.specs.Prelude.{◌≡◌};
ghost use Rattle.locked_book.specs.Calls.{step_of};
ghost use Rattle.locked_book.specs.History.{AreRecordsOf};
ghost use Rattle.locked_book.specs.Logging.{IsSmall, IsUnrecorded, promises};
ghost use Rattle.locked_book.specs.Performing.{PerformsStep, Tries, abandoned_bytes};
ghost use Rattle.locked_book.specs.Recording.{IsRecord};

use crate::call::Call;
use crate::checked_out::CheckedOut;
use crate::counters::Counters;
use crate::desk::Desk;
use crate::history::History;
use crate::names::Naming;
use std::snapshot::Snapshot;
use store_book::Book;

/// Returns the bytes that an accepted command abandons, or `None` if the command failed.
fn abandoned_bytes(call: &Call<'_>) -> Option<u64>
    ensures { result ≡ abandoned_bytes (step_of call.now) }
{
    match call {
        Call::Abandon(_, _, Ok(length)) => Some(*length),
        Call::Start(_, Ok(_)) => Some(0),
        Call::Status(_, _, Ok(_)) => Some(0),
        Call::Mount(_, _, _, Ok(_)) => Some(0),
        Call::Delete(_, _, Ok(_)) => Some(0),
        Call::PutManifest(_, _, Ok(_)) => Some(0),
        Call::GetManifest(_, _, Ok(_)) => Some(0),
        Call::DeleteManifest(_, _, Ok(_)) => Some(0),
        Call::RemoveRepo(_, Ok(_)) => Some(0),
        Call::Lease(_, _, Ok(_)) => Some(0),
        _ => None,
    }
}

/// Counts a command, and adds its step with a record that is made from the call.
pub fn add_command<S: Naming>(
    before: &Snapshot<Book>,
    book: &Book,
    out: &CheckedOut,
    counters: &mut Counters<S>,
    history: &mut History<S>,
    desk: &mut Desk<S>,
    call: Call<'_>,
)
    requires records { AreRecordsOf S.names before.now.value out.now.hands out.now.reserve
        counters.old history.old }
    requires tries { Tries before.now.value counters.old (step_of call) book.now }
    requires small { IsSmall call }
    ensures records { AreRecordsOf S.names book.now out.now.hands out.now.reserve counters.new
        history.new }
    ensures performs { PerformsStep S.names.opening (step_of call.entry) before.now.value
        counters.old book.now counters.new desk.old desk.new }
{
    counters.count_command(&mut desk.tally, abandoned_bytes(&call));
    history.add(&mut desk.writer, call);
}

/// Counts a command, and adds its step with its record, which is not copied.
pub fn add_recorded_command<S: Naming>(
    before: &Snapshot<Book>,
    book: &Book,
    out: &CheckedOut,
    counters: &mut Counters<S>,
    history: &mut History<S>,
    desk: &mut Desk<S>,
    call: Call<'_>,
    bytes: Vec<u8>,
    promised: bool,
)
    requires records { AreRecordsOf S.names before.now.value out.now.hands out.now.reserve
        counters.old history.old }
    requires tries { Tries before.now.value counters.old (step_of call) book.now }
    requires bytes { IsRecord S.names bytes.items (step_of call) }
    requires promised { promised ≡ promises S.names.policy (step_of call) }
    ensures records { AreRecordsOf S.names book.now out.now.hands out.now.reserve counters.new
        history.new }
    ensures performs { PerformsStep S.names.opening (step_of call.entry) before.now.value
        counters.old book.now counters.new desk.old desk.new }
{
    counters.count_command(&mut desk.tally, abandoned_bytes(&call));
    history.add_recorded(&mut desk.writer, call, bytes, promised);
}

/// Counts a command, and adds its step, of which nothing is recorded.
pub fn add_unrecorded_command<S: Naming>(
    before: &Snapshot<Book>,
    book: &Book,
    out: &CheckedOut,
    counters: &mut Counters<S>,
    history: &mut History<S>,
    desk: &mut Desk<S>,
    call: Call<'_>,
)
    requires records { AreRecordsOf S.names before.now.value out.now.hands out.now.reserve
        counters.old history.old }
    requires tries { Tries before.now.value counters.old (step_of call) book.now }
    requires unrecorded { IsUnrecorded call }
    ensures records { AreRecordsOf S.names book.now out.now.hands out.now.reserve counters.new
        history.new }
    ensures performs { PerformsStep S.names.opening (step_of call.entry) before.now.value
        counters.old book.now counters.new desk.old desk.new }
{
    counters.count_command(&mut desk.tally, abandoned_bytes(&call));
    history.add_unrecorded(&mut desk.writer, call);
}
