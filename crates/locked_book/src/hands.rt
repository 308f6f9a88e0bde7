//! Sessions that are checked out of the book.

ghost use Rattle.std.specs.Prelude.{◌≡◌, ◌≢◌, ◌+◌, None, IfOk, OnOk, length, sum_by, true};
ghost use Rattle.store_model.specs.Hands.{filled_length};
ghost use Rattle.store_model.specs.Histories.{PutBackCall, FinishCall};
ghost use Rattle.store_model.specs.Lanes.{IsHeld};
ghost use Rattle.content_files.specs.Notes.{is_read};
ghost use Rattle.store_model.specs.Sessions.{HasNoOpenReserve, hand_content};
ghost use Rattle.locked_book.specs.History.{Makes, MakesCheckOut};
ghost use Rattle.locked_book.specs.Logging.{IsHandOf, check_in_bytes, finish_bytes};
ghost use Rattle.locked_book.specs.Performing.{ChecksIn, ChecksInUnchanged, ChecksOut, Finishes};
ghost use Rattle.locked_book.specs.Results.{EndsWithRange};

use crate::call::Call;
use crate::checked_out::{check_in, check_in_unchanged, check_out, close};
use crate::desk::Desk;
use crate::kept::Kept;
use crate::manifests::kept_if_ok;
use crate::names::Naming;
use blob_digest::{ByteRange, Digest, Refusal, RepoName};
use pin_table::Pins;
use std::snapshot::Snapshot;
use upload_table::{Hand, Sealing};

impl<S: Naming> Kept<S> {
    /// Checks a session out with `Book::take`, and reserves `len` bytes. The command is counted at check-in.
    ///
    /// # Errors
    ///
    /// - `LimitReached` if one more command with `len` bytes can't be counted in addition to the checked-out sessions.
    /// - Those of `Book::take`.
    pub fn take(
        &mut self,
        desk: &mut Desk<S>,
        repo: &RepoName,
        number: u32,
        range: Option<ByteRange>,
        len: u64,
    ) -> Result<Hand, Refusal>
        ensures does { ChecksOut repo.now number range len result self.old self.new }
        ensures ends { IfOk result (λ h. EndsWithRange h len range) }
        ensures names { IfOk result (λ h. IsHandOf repo.now number h) }
        ensures makes { MakesCheckOut S.names repo.now number range len result desk.old desk.new }
    {
        let result = check_out(
            &mut self.book,
            &mut self.out,
            &self.counters,
            repo,
            number,
            range,
            len,
        );
        self.history.add_unrecorded(
            &mut desk.writer,
            Call::Take(repo, number, range, len, &result),
        );
        result
    }

    /// Checks a session in with its new chunk by `Book::put_back`, and counts the command with that chunk's bytes.
    pub fn put_back(
        &mut self,
        desk: &mut Desk<S>,
        hand: Hand,
        bytes: Vec<u8>,
    ) -> Result<u64, Refusal>
        requires bytes { bytes.items ≡ check_in_bytes S.names.policy S.names.longest hand }
        requires filled { hand.last ≢ None }
        requires held { IsHeld hand desk.old.trace.own }
        ensures does { ChecksIn hand result self.old self.new }
        ensures length { IfOk result (λ n. n ≡ sum_by length hand.chunks + filled_length hand) }
        ensures makes { Makes S.names.opening (PutBackCall hand result) desk.old desk.new }
    {
        let _ = hand.reserved();
        let given = Snapshot::of(&hand);
        let result = check_in(
            &mut self.book,
            &mut self.out,
            &mut self.counters,
            &mut desk.tally,
            hand,
        );
        let promised = self.history.policy().promises_chunks() && result.is_ok();
        let bytes = kept_if_ok(bytes, &result);
        self.history.add_recorded(
            &mut desk.writer,
            Call::PutBack(&given, &result),
            bytes,
            promised,
        );
        result
    }

    /// Checks a session in unchanged by `Book::put_back`, and counts nothing.
    pub fn cancel(&mut self, desk: &mut Desk<S>, hand: Hand) -> Result<u64, Refusal>
        requires unfilled { hand.last ≡ None }
        requires held { IsHeld hand desk.old.trace.own }
        ensures does { ChecksInUnchanged hand result self.old self.new }
        ensures makes { Makes S.names.opening (PutBackCall hand result) desk.old desk.new }
    {
        let given = Snapshot::of(&hand);
        let result = check_in_unchanged(&mut self.book, &mut self.out, &self.counters, hand);
        self.history
            .add_unrecorded(&mut desk.writer, Call::PutBack(&given, &result));
        result
    }

    /// Closes a checked-out session with `Book::finish`, and counts the command.
    ///
    /// The bytes of the last chunk are counted as received, and all bytes of the session as closed. With contents in files, a
    /// content that was not read since the start may be closed by its note.
    ///
    /// # Errors
    ///
    /// Those of `Book::finish`. Each but `UploadUnknown` checks the session in unchanged.
    pub fn finish(
        &mut self,
        pins: &Pins,
        desk: &mut Desk<S>,
        hand: Hand,
        digest: &Digest,
        sealing: Sealing,
        bytes: Vec<u8>,
    ) -> Result<u64, Refusal>
        requires bytes { bytes.items ≡ finish_bytes S.names.policy S.names.longest hand digest.now }
        requires table { pins.now ≡ S.names.table }
        requires full { HasNoOpenReserve hand }
        requires held { IsHeld hand desk.old.trace.own }
        ensures does { Finishes hand digest.now result self.old self.new }
        ensures read { OnOk result (sealing ≡ Sealing.ByHash → is_read (hand_content hand) ≡ true) }
        ensures length { IfOk result (λ n. n ≡ sum_by length hand.chunks + filled_length hand) }
        ensures makes { Makes S.names.opening (FinishCall hand digest.now result)
            desk.old desk.new }
    {
        let _ = hand.reserved();
        let given = Snapshot::of(&hand);
        let result = close(
            &mut self.book,
            &mut self.out,
            &mut self.counters,
            pins,
            &mut desk.tally,
            hand,
            digest,
            sealing,
        );
        let promised = self.history.policy().promises_changes() && result.is_ok();
        let bytes = kept_if_ok(bytes, &result);
        self.history.add_recorded(
            &mut desk.writer,
            Call::Finish(&given, digest, &result),
            bytes,
            promised,
        );
        result
    }
}
