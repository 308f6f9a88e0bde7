//! How a close finds that a content has its digest, and moves it into a blob.

ghost use Rattle.std.specs.Prelude.{◌≡◌, IfOk, IfErr, true};
ghost use Rattle.blob_digest.specs.Digests.{is_digest_of};
ghost use Rattle.blob_digest.specs.Vouched.{has_digest};
ghost use Rattle.content_files.specs.Notes.{is_read};
ghost use Rattle.store_model.specs.Sessions.{HasNoOpenReserve, hand_content};
ghost use Rattle.upload_table.specs.Uploaded.{cut_chunks, BeginsWith, IsRemainderOf, is_sealed};
ghost use Rattle.upload_table.specs.Rows.{cut_buffer, IsConsistentBuffer, IsUnsealedFor};

use crate::hand::Hand;
use crate::last_chunk::whole_digest;
use crate::upload::{ChunkBuffer, sum_of};
use blob_digest::{Blob, Digest};
use content_files::Content;
use std::marker::Model;
use std::mem;

/// How a close finds that a content has its digest.
#[derive(Clone, Copy, Debug, PartialEq, Eq)]
pub enum Sealing {
    /// By a hash of all of its bytes.
    ByHash,
    /// As `ByHash` if all of the content was read since the start. Otherwise by the digest alone, which an earlier process has
    /// found. Only a start closes so, what its log has as closed.
    ByNote,
}

/// The remainder of a checked-out session after its bytes moved into a blob.
///
/// `Uploads::forget` or `Uploads::reopen` consumes it.
pub struct PendingClose {
    pub(crate) tenant: u16,
    pub(crate) number: u32,
    /// The session's index among its tenant's sessions at the time of the move.
    pub(crate) place: usize,
    pub(crate) pieces: Box<ChunkBuffer>,
}

impl Model for PendingClose {
    ghost use Rattle.std.specs.Prelude.{◌≡◌, ◌<◌, None};
    ghost use Rattle.std.specs.List.{AllByRecursion};
    ghost use Rattle.upload_table.specs.Uploaded.{HandRemainder, coded_hand_remainder};

    ghost Value = { HandRemainder };

    ghost coded = { coded_hand_remainder };

    ghost view = { λ s. record {
      key = (s.tenant, s.number);
      lens = s.pieces.value.lens.items;
      hashes = s.pieces.value.hashes;
    } };

    ghost invariant = { λ s. AllByRecursion (λ n. 0 < n) s.pieces.value.lens.items ×
        (s.pieces.value.whole ≡ None) };
}

/// Why a hand is not sealed.
#[derive(Clone, Copy, Debug, PartialEq, Eq, Drop)]
pub(crate) enum Unsealed {
    /// The bytes have another digest.
    Differs,
    /// The bytes are not in memory, and not all of them were hashed by the digest's algorithm.
    Unhashed,
}

impl Sealing {
    /// Returns how a store closes that has contents in files or, if not, that has all of them in memory.
    pub fn with_files(self, on_disk: bool) -> Sealing
        ensures by_hash { self ≡ Sealing.ByHash → result ≡ Sealing.ByHash }
        ensures by_note { result ≡ Sealing.ByNote → on_disk ≡ true }
    {
        if on_disk { self } else { Sealing::ByHash }
    }
}

impl Hand {
    /// Moves the bytes into a blob of this digest.
    ///
    /// `place` is the session's current index.
    ///
    /// # Errors
    ///
    /// The cause, and the chunks without the filled one.
    pub(crate) fn seal(
        self,
        digest: &Digest,
        place: usize,
    ) -> Result<(Blob, PendingClose), (Unsealed, Box<ChunkBuffer>)>
        requires full { HasNoOpenReserve self }
        ensures blob { IfOk result (λ r. r.0 ≡ (digest.now, hand_content self)) }
        ensures agrees { IfOk result (λ r. is_digest_of digest.now (hand_content self) ≡ true) }
        ensures read { IfOk result (λ r. is_read (hand_content self) ≡ true) }
        ensures rest { IfOk result (λ r. IsRemainderOf self r.1 r.0.1) }
        ensures other { IfErr result (λ e. IsUnsealedFor e.0 self digest.now) }
        ensures whole { IfErr result (λ e. IsConsistentBuffer e.1.value) }
        ensures chunks { IfErr result (λ e. cut_buffer e.1.value ≡ self.chunks) }
    {
        let Hand {
            repo: _,
            tenant,
            number,
            place: _,
            received,
            reserved: _,
            mut pieces,
        } = self;
        let Some(found) = whole_digest(&mut pieces, received as usize, digest.algorithm()) else {
            pieces.bytes.truncate(received as usize);
            return Err((Unsealed::Unhashed, pieces));
        };
        let none = Content::resident(Vec::new(*pieces.lens.allocator()));
        let bytes = mem::replace(&mut pieces.bytes, none);
        match Blob::seal_found(bytes, found, digest) {
            Ok(blob) => Ok((
                blob,
                PendingClose {
                    tenant,
                    number,
                    place,
                    pieces,
                },
            )),
            Err(mut refused) => {
                refused.truncate(received as usize);
                pieces.bytes = refused;
                Err((Unsealed::Differs, pieces))
            }
        }
    }

    /// Moves a content of which a byte was not read since the start into a blob of this digest, which is not compared.
    ///
    /// `place` is the session's current index.
    ///
    /// # Errors
    ///
    /// The unchanged hand: all of its content was read.
    fn seal_noted(self, digest: &Digest, place: usize) -> Result<(Blob, PendingClose), Hand>
        ensures blob { IfOk result (λ r. r.0 ≡ (digest.now, hand_content self)) }
        ensures agrees { IfOk result (λ r. has_digest digest.now (hand_content self) ≡ true) }
        ensures rest { IfOk result (λ r. IsRemainderOf self r.1 r.0.1) }
        ensures err { IfErr result (λ h. h ≡ self) }
    {
        let Hand {
            repo,
            tenant,
            number,
            place: before,
            received,
            reserved,
            mut pieces,
        } = self;
        let none = Content::resident(Vec::new(*pieces.lens.allocator()));
        let bytes = mem::replace(&mut pieces.bytes, none);
        let whole = mem::replace(&mut pieces.whole, None);
        match Blob::seal_noted(bytes, digest) {
            Ok(blob) => Ok((
                blob,
                PendingClose {
                    tenant,
                    number,
                    place,
                    pieces,
                },
            )),
            Err(bytes) => {
                pieces.bytes = bytes;
                pieces.whole = whole;
                Err(Hand {
                    repo,
                    tenant,
                    number,
                    place: before,
                    received,
                    reserved,
                    pieces,
                })
            }
        }
    }

    /// Moves the bytes into a blob of this digest: as `seal` does or, by their note, as `seal_noted` does if it can.
    ///
    /// `place` is the session's current index.
    ///
    /// # Errors
    ///
    /// The cause, and the chunks without the filled one.
    pub(crate) fn seal_by(
        self,
        digest: &Digest,
        place: usize,
        sealing: Sealing,
    ) -> Result<(Blob, PendingClose), (Unsealed, Box<ChunkBuffer>)>
        requires full { HasNoOpenReserve self }
        ensures blob { IfOk result (λ r. r.0 ≡ (digest.now, hand_content self)) }
        ensures agrees { IfOk result (λ r. is_sealed sealing digest.now (hand_content self)
            ≡ true) }
        ensures read { IfOk result (λ r. sealing ≡ Sealing.ByHash →
            is_read (hand_content self) ≡ true) }
        ensures rest { IfOk result (λ r. IsRemainderOf self r.1 r.0.1) }
        ensures other { IfErr result (λ e. IsUnsealedFor e.0 self digest.now) }
        ensures whole { IfErr result (λ e. IsConsistentBuffer e.1.value) }
        ensures chunks { IfErr result (λ e. cut_buffer e.1.value ≡ self.chunks) }
    {
        match sealing {
            Sealing::ByHash => self.seal(digest, place),
            Sealing::ByNote => match self.seal_noted(digest, place) {
                Ok(sealed) => Ok(sealed),
                Err(hand) => hand.seal(digest, place),
            },
        }
    }
}

impl PendingClose {
    /// Moves the bytes back out of a blob that begins with the chunks.
    pub(crate) fn into_pieces(self, blob: Blob) -> Box<ChunkBuffer>
        requires { BeginsWith self blob.1 }
        ensures whole { IsConsistentBuffer result.value }
        ensures chunks { cut_buffer result.value ≡ cut_chunks self.lens blob.1 }
    {
        let PendingClose {
            tenant: _,
            number: _,
            place: _,
            mut pieces,
        } = self;
        let received = sum_of(pieces.lens.as_slice());
        let mut bytes = blob.into_content();
        bytes.truncate(received as usize);
        pieces.bytes = bytes;
        pieces
    }
}
