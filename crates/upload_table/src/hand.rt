//! A checked-out session: its chunks, outside the table.

ghost use Rattle.std.specs.Prelude.{◌≡◌, ◌≢◌, ◌+◌, ◌<◌, ◌≤◌, ◌^◌, [], IfSome, is_some, length, sum_by};
ghost use Rattle.std.specs.List.{AllByRecursion};
ghost use Rattle.store_model.specs.Sessions.{chunks_of};
ghost use Rattle.upload_table.specs.Uploaded.{total_length};
ghost use Rattle.upload_table.specs.Rows.{cut_buffer, empty_hand, IsConsistentBuffer};

use crate::last_chunk::add_last;
use crate::upload::ChunkBuffer;
use blob_digest::RepoName;
use content_files::ContentName;
use std::marker::Model;
use std::snapshot::Snapshot;

/// The chunks of a checked-out session, with room reserved for one more.
///
/// `fill` and `fill_last` copy and hash that chunk. They do not use the table, so its lock need not be held.
///
/// A hand can be neither copied nor dropped: `Uploads::put_back` or `Uploads::finish` consumes it.
pub struct Hand {
    /// The repository of the session, which only clauses read.
    pub(crate) repo: Snapshot<RepoName>,
    pub(crate) tenant: u16,
    pub(crate) number: u32,
    /// The session's index among its tenant's sessions at the time of the check-out.
    pub(crate) place: usize,
    pub(crate) received: u64,
    pub(crate) reserved: u64,
    pub(crate) pieces: Box<ChunkBuffer>,
}

impl Model for Hand {
    ghost use Rattle.std.specs.Vec.{vec_capacity};
    ghost use Rattle.store_model.specs.Sessions.{HandRecord, coded_taken};

    ghost Value = { HandRecord };

    ghost coded = { coded_taken };

    ghost use Rattle.upload_table.specs.Rows.{hand_shown, IsHand};

    ghost view = { λ h. hand_shown h.repo.value h.tenant h.number h.received h.reserved
        h.pieces.value h.pieces.value.whole };

    ghost invariant = { λ h. IsHand h.received h.reserved h.pieces.value
        (vec_capacity h.pieces.value.lens) h.pieces.value.whole };
}

impl Hand {
    /// Returns the unfilled hand of a session's chunks.
    pub(crate) fn new(
        repo: Snapshot<RepoName>,
        tenant: u16,
        number: u32,
        place: usize,
        reserved: u64,
        pieces: Box<ChunkBuffer>,
    ) -> Hand
        requires whole { IsConsistentBuffer pieces.value }
        requires fits { length pieces.value.bytes + reserved < 2 ^ 64 }
        ensures { result ≡ empty_hand repo.value (tenant, number) reserved pieces.value }
    {
        let received = pieces.bytes.len();
        Hand {
            repo,
            tenant,
            number,
            place,
            received,
            reserved,
            pieces,
        }
    }

    /// Returns the tenant's number.
    pub fn tenant(&self) -> u16
        ensures { result ≡ self.now.key.0 }
    {
        self.tenant
    }

    /// Returns the session's number.
    pub fn number(&self) -> u32
        ensures { result ≡ self.now.key.1 }
    {
        self.number
    }

    /// Returns the session's index among its tenant's sessions at the time of the check-out.
    pub(crate) fn place(&self) -> usize {
        self.place
    }

    /// Returns the number of bytes that the session had received when it was checked out.
    pub fn received(&self) -> u64
        ensures { result ≡ sum_by length self.now.chunks }
    {
        self.received
    }

    /// Returns the number of bytes reserved for the chunk, which is also its length once it is filled.
    ///
    /// No other chunk is empty.
    pub fn reserved(&self) -> u64
        ensures value { result ≡ self.now.reserved }
        ensures pieces { AllByRecursion (λ c. c ≢ []) self.now.chunks }
        ensures last { IfSome self.now.last (λ b. length b ≡ self.now.reserved) }
    {
        self.reserved
    }

    /// Returns the length of the session with the chunk, once it is filled.
    pub fn len_after(&self) -> u64
        ensures { result ≡ sum_by length self.now.chunks + self.now.reserved }
    {
        self.received + self.reserved
    }

    /// Returns whether the chunk was filled.
    pub fn filled(&self) -> bool
        ensures { result ≡ is_some self.now.last }
    {
        self.pieces.whole.is_some()
    }

    /// Returns the name of the session's content.
    pub fn content_name(&self) -> ContentName {
        ContentName {
            tenant: self.tenant,
            number: self.number,
        }
    }

    /// Returns the chunks, including the filled one if it has bytes. Allocates nothing.
    pub(crate) fn into_pieces(self) -> Box<ChunkBuffer>
        ensures whole { IsConsistentBuffer result.value }
        ensures chunks { cut_buffer result.value ≡ chunks_of self }
        ensures fits { total_length (chunks_of self) ≤ total_length self.chunks + self.reserved }
    {
        let Hand {
            repo: _,
            tenant: _,
            number: _,
            place: _,
            received,
            reserved,
            mut pieces,
        } = self;
        add_last(&mut pieces, received as usize, reserved);
        pieces
    }

    /// Drops a hand that matches no session.
    pub(crate) fn discard(self) {
        let Hand {
            repo: _,
            tenant: _,
            number: _,
            place: _,
            received: _,
            reserved: _,
            pieces: _,
        } = self;
    }
}
