//! The number of checked-out sessions, and the bytes reserved for them.

ghost use Rattle.std.specs.Prelude.{◌≡◌, ◌≢◌, ◌+◌, None, IfOk, OnOk, length, sum_by, not, true};
ghost use Rattle.spec_lib.specs.Outcomes.{refuse};
ghost use Rattle.blob_digest.specs.declared.refusal.Refusal.TheVariants.{LimitReached};
ghost use Rattle.store_model.specs.Amounts.{add_amounts};
ghost use Rattle.store_model.specs.Hands.{filled_length};
ghost use Rattle.store_model.specs.Histories.{FinishCall, PutBackCall, step_amounts};
ghost use Rattle.store_model.specs.Invariant.{Sound};
ghost use Rattle.content_files.specs.Notes.{is_read};
ghost use Rattle.store_model.specs.Sessions.{HasNoOpenReserve, hand_content};
ghost use Rattle.locked_book.specs.Counting.{IsKeptState, has_room};
ghost use Rattle.locked_book.specs.Performing.{ChecksIn, ChecksInUnchanged, ChecksOut, Finishes};
ghost use Rattle.locked_book.specs.Results.{EndsWithRange};

use crate::counters::Counters;
use crate::names::Naming;
use crate::tally::Tally;
use blob_digest::{ByteRange, Digest, Refusal, RepoName};
use pin_table::Pins;
use store_book::Book;
use upload_table::{Hand, Sealing};

/// The number of checked-out sessions, and the bytes reserved for them.
///
/// With them each of their commands can be counted when its session is checked in.
#[derive(Drop)]
pub struct CheckedOut {
    pub(crate) hands: u64,
    pub(crate) reserve: u64,
}

/// Fails with `LimitReached` if one more command with these bytes can't be counted.
pub fn room<S: Naming>(
    book: &Book,
    out: &CheckedOut,
    counters: &Counters<S>,
    bytes: u64,
) -> Result<(), Refusal>
    requires { IsKeptState S.names book.now counters.now out.now.hands out.now.reserve }
    ensures room { result ≡ refuse (not (has_room (record {
      book = book.now;
      counts = counters.now;
    }) bytes)) LimitReached }
    ensures sound { Sound book.now.catalog }
{
    book.reveal_invariant();
    if counters.fits(out.hands, out.reserve, bytes) {
        Ok(())
    } else {
        Err(Refusal::LimitReached)
    }
}

/// Checks a session out of a book, and reserves `len` bytes.
pub fn check_out<S: Naming>(
    book: &mut Book,
    out: &mut CheckedOut,
    counters: &Counters<S>,
    repo: &RepoName,
    number: u32,
    range: Option<ByteRange>,
    len: u64,
) -> Result<Hand, Refusal>
    requires { IsKeptState S.names book.old counters.now out.old.hands out.old.reserve }
    ensures kept { IsKeptState S.names book.new counters.now out.new.hands out.new.reserve }
    ensures does { ChecksOut repo.now number range len result
        (record { book = book.old; counts = counters.now }) (record {
          book = book.new;
          counts = counters.now;
        }) }
    ensures ends { IfOk result (λ h. EndsWithRange h len range) }
{
    room(book, out, counters, len)?;
    let hand = book.take(repo, number, range, len)?;
    out.hands += 1;
    out.reserve += len;
    Ok(hand)
}

/// Checks a session in with its new chunk, and counts the command with that chunk's bytes.
pub fn check_in<S: Naming>(
    book: &mut Book,
    out: &mut CheckedOut,
    counters: &mut Counters<S>,
    desk: &mut Tally<S>,
    hand: Hand,
) -> Result<u64, Refusal>
    requires kept { IsKeptState S.names book.old counters.old out.old.hands out.old.reserve }
    requires filled { hand.last ≢ None }
    ensures kept { IsKeptState S.names book.new counters.new out.new.hands out.new.reserve }
    ensures does { ChecksIn hand result
        (record { book = book.old; counts = counters.old }) (record {
          book = book.new;
          counts = counters.new;
        }) }
    ensures amounts { desk.new ≡ add_amounts desk.old (step_amounts (PutBackCall hand result)) }
    ensures length { IfOk result (λ n. n ≡ sum_by length hand.chunks + filled_length hand) }
{
    let reserved = hand.reserved();
    let after = book.put_back(hand)?;
    out.hands -= 1;
    out.reserve -= reserved;
    counters.add(desk, reserved, 0, 0);
    Ok(after)
}

/// Checks a session in unchanged, and counts nothing.
pub fn check_in_unchanged<S: Naming>(
    book: &mut Book,
    out: &mut CheckedOut,
    counters: &Counters<S>,
    hand: Hand,
) -> Result<u64, Refusal>
    requires kept { IsKeptState S.names book.old counters.now out.old.hands out.old.reserve }
    requires unfilled { hand.last ≡ None }
    ensures kept { IsKeptState S.names book.new counters.now out.new.hands out.new.reserve }
    ensures does { ChecksInUnchanged hand result
        (record { book = book.old; counts = counters.now }) (record {
          book = book.new;
          counts = counters.now;
        }) }
{
    let reserved = hand.reserved();
    let received = book.put_back(hand)?;
    out.hands -= 1;
    out.reserve -= reserved;
    Ok(received)
}

/// Closes a checked-out session, and counts the command.
pub fn close<S: Naming>(
    book: &mut Book,
    out: &mut CheckedOut,
    counters: &mut Counters<S>,
    pins: &Pins,
    desk: &mut Tally<S>,
    hand: Hand,
    digest: &Digest,
    sealing: Sealing,
) -> Result<u64, Refusal>
    requires kept { IsKeptState S.names book.old counters.old out.old.hands out.old.reserve }
    requires table { pins.now ≡ S.names.table }
    requires full { HasNoOpenReserve hand }
    ensures kept { IsKeptState S.names book.new counters.new out.new.hands out.new.reserve }
    ensures does { Finishes hand digest.now result
        (record { book = book.old; counts = counters.old }) (record {
          book = book.new;
          counts = counters.new;
        }) }
    ensures read { OnOk result (sealing ≡ Sealing.ByHash → is_read (hand_content hand) ≡ true) }
    ensures amounts { desk.new ≡ add_amounts desk.old
        (step_amounts (FinishCall hand digest.now result)) }
    ensures length { IfOk result (λ n. n ≡ sum_by length hand.chunks + filled_length hand) }
{
    let reserved = hand.reserved();
    match book.finish(pins, hand, digest, sealing) {
        Ok(size) => {
            out.hands -= 1;
            out.reserve -= reserved;
            counters.add(desk, reserved, size, 0);
            Ok(size)
        }
        Err(refusal) => match refusal {
            Refusal::UploadUnknown => Err(refusal),
            _ => {
                out.hands -= 1;
                out.reserve -= reserved;
                Err(refusal)
            }
        },
    }
}
