//! Sessions that are checked out of the book.

ghost use Rattle.std.specs.Prelude.{◌≡◌, ◌≢◌, ◌<◌, length, true, IfErr, OnErr, OnOk};
ghost use Rattle.blob_digest.specs.declared.refusal.Refusal.TheVariants.{UploadUnknown};
ghost use Rattle.content_files.specs.Notes.{is_read};
ghost use Rattle.store_model.specs.Sessions.{HasNoOpenReserve, hand_content};
ghost use Rattle.store_book.specs.BookCalls.{ChangesSlots, ChecksIn, ChecksOut, Closes, Finishes, HasCheckedOut, KeepsSlots, PlacesOnly};
ghost use Rattle.store_book.specs.SlotSteps.{KeepsGeneration};

use crate::book::Book;
use crate::keep::keep;
use blob_digest::{ByteRange, Digest, Refusal, RepoName};
use pin_table::Pins;
use upload_table::{Hand, Sealing};

impl Book {
    /// Checks a session out and reserves `len` bytes for one more chunk.
    ///
    /// Until the hand is put back or finished, the session is busy, and the tenant's use includes the reserved bytes.
    ///
    /// # Errors
    /// - `NameUnknown` if the tenant does not exist.
    /// - `UploadUnknown` if the session does not exist or belongs to another repository.
    /// - `Busy` if the session is checked out.
    /// - `SizeInvalid` if the range's length is not `len`, or the session would pass the size limit.
    /// - `RangeInvalid` if the range does not start at the received length.
    /// - `Quota` if the tenant's use would pass its quota.
    ///
    /// # Memory
    /// None is allocated.
    pub fn take(
        &mut self,
        repo: &RepoName,
        number: u32,
        range: Option<ByteRange>,
        len: u64,
    ) -> Result<Hand, Refusal>
        ensures does { ChecksOut result self.old self.new repo.now number range len }
        ensures slots { KeepsSlots self.old self.new }
    {
        let tenant = self.links.tenant(repo)?;
        let (_, place) = self
            .uploads
            .check(tenant, repo, number, range, len, self.max_blob)?;
        self.links.charge(tenant, len)?;
        Ok(self.uploads.take(tenant, number, place, len))
    }

    /// Checks a session in, with its new chunk if that was filled, and returns the received length.
    ///
    /// If the chunk was not filled, the reserved bytes are released.
    ///
    /// # Errors
    /// - `UploadUnknown` if no checked-out session of this book has the hand's number and lengths. The hand is
    ///   dropped, and nothing changes.
    ///
    /// # Memory
    /// None is allocated.
    pub fn put_back(&mut self, hand: Hand) -> Result<u64, Refusal>
        ensures does { ChecksIn result self.old self.new hand }
        ensures slots { KeepsSlots self.old self.new }
    {
        let tenant = hand.tenant();
        let reserved = hand.reserved();
        let spare = if hand.filled() { 0 } else { reserved };
        let after = self.uploads.put_back(hand)?;
        self.links.discharge(tenant, spare);
        Ok(after)
    }

    /// Closes a checked-out session whose last chunk was filled or is empty, and returns the blob's size.
    ///
    /// It is the second half of `close`. With contents in files, a content that was not read since the start may be closed by its
    /// note.
    ///
    /// # Errors
    /// - `UploadUnknown` if no checked-out session of this book has the hand's number and lengths. Nothing changes.
    /// - `DigestInvalid` if the digest is not that of the content, or the store has other bytes with it.
    /// - `LimitReached` if the digest is new to the tenant, whose repositories contain as many distinct blobs as its share.
    /// - `StoreFull` if the digest is new to the store and no slot is free.
    /// - `Memory` if out of memory.
    ///
    /// After the last four, the session is checked in as it was before `take`.
    ///
    /// # Cost
    /// No byte is copied. None is hashed, except a last chunk that `fill_last` hashed by the other algorithm.
    pub fn finish(
        &mut self,
        pins: &Pins,
        hand: Hand,
        digest: &Digest,
        sealing: Sealing,
    ) -> Result<u64, Refusal>
        requires table { self.old.table ≡ pins.now }
        requires full { HasNoOpenReserve hand }
        ensures does { Finishes result self.old self.new hand digest.now }
        ensures read { OnOk result (sealing ≡ Sealing.ByHash → is_read (hand_content hand) ≡ true) }
        ensures taken { IfErr result (λ e. e ≢ UploadUnknown → HasCheckedOut self.old hand) }
        ensures slots { ChangesSlots KeepsGeneration self.old self.new }
        ensures housed { OnOk result (PlacesOnly digest.now self.old self.new) }
        ensures kept { OnErr result (self.new.slots ≡ self.old.slots) }
    {
        let tenant = hand.tenant();
        let reserved = hand.reserved();
        let sealing = sealing.with_files(self.on_disk);
        let (blob, sealed) = match self.uploads.finish(hand, digest, sealing) {
            Ok(both) => both,
            Err(refusal) => match refusal {
                Refusal::UploadUnknown => return Err(refusal),
                _ => {
                    self.links.discharge(tenant, reserved);
                    return Err(refusal);
                }
            },
        };
        let size = blob.len();
        let repo = self.uploads.repo_of(&sealed);
        match keep(
            &mut self.links,
            &mut self.slots,
            pins,
            tenant,
            repo,
            blob,
            self.on_disk,
        ) {
            Ok(()) => {
                self.uploads.forget(sealed);
                self.links.discharge(tenant, size);
                Ok(size)
            }
            Err((refusal, blob)) => {
                self.uploads.reopen(sealed, blob);
                self.links.discharge(tenant, reserved);
                Err(refusal)
            }
        }
    }
}
