//! The open sessions of all tenants.

ghost use Rattle.std.specs.Prelude.{◌≡◌, ◌+◌, ◌<◌, ◌^◌, IsSome, is_some, Some, ◌≤◌, IfOk, IfErr, IfSome, Ok, Err, is_ok, true, length, map, replicate, slice_get, slice_index};
ghost use Rattle.std.specs.Option.{option_map};
ghost use Rattle.std.specs.FinMap as fmap;
ghost use Rattle.blob_digest.specs.Outcomes.{Does, DoesExactly};
ghost use Rattle.blob_digest.specs.declared.refusal.Refusal.TheVariants.{Memory};
ghost use Rattle.store_model.specs.Sessions.{hand_in, checked_in_length, session_charges, is_checked_in, received_in};
ghost use Rattle.upload_table.specs.Uploaded.{ErrIs, Finishes, FirstIs, OkIs, ReopensTo, WasCheckedOut, WasRead, check, has_sessions, is_checked_out, listed_sessions, open_session, repo_session};
ghost use Rattle.upload_table.specs.Uploaded.{checked_in_with, cancel_upload, is_sealed, initial_uploads, put_back_upload, repo_at, start_upload, take_upload, without_upload, CanReopen, reopened_table};
ghost use Rattle.store_model.specs.Sessions.{HasNoOpenReserve};
ghost use Rattle.upload_table.specs.Rows.{cut_buffer, found_session, HasConsistentBuffer, FitsCharge, IsConsistentBuffer};
ghost use Rattle.upload_table.specs.Tenants.{no_sessions};

use crate::hand::Hand;
use crate::repo_sessions::RepoSessions;
use crate::sealing::{PendingClose, Sealing, Unsealed};
use crate::tenant_sessions::TenantSessions;
use crate::upload::{ChunkBuffer, SessionContent, Upload, is_in_hand, length_after, received_of};
use blob_digest::{Blob, ByteRange, Digest, Refusal, RepoName};
use std::alloc::Global;
use std::marker::Model;

/// The open sessions of all tenants.
///
/// A session is identified by its tenant's number and by a number that is unique within the tenant and never reused. A
/// tenant has at most 64 sessions at a time. A session is checked in, with its chunks, or checked out. Of a checked-out
/// session the table has only the received length and the number of reserved bytes. Contracts see each tenant's next
/// number and the open sessions.
///
/// # Cost
///
/// No call reads another tenant's sessions. A session is found by binary search among its tenant's, which are in the
/// order of their numbers. Removing one moves those with higher numbers.
///
/// An append, a close and an abandonment each search for their session once. `check` and `received_home` search, and
/// return the session's index, its *place*. `take` and `remove` accept the place, and a `Hand` keeps it. `put_back`
/// and `finish` look there first. They search again only if a session of the tenant with a lower number was removed
/// in the meantime. `repo_of`, `forget` and `reopen` look at the place at which `finish` found the session.
///
/// # Memory
///
/// Only `new` and `start` allocate.
#[derive(Drop)]
pub struct Uploads {
    alloc: Global,
    tenants: Vec<TenantSessions>,
}

impl Model for Uploads {
    ghost use Rattle.upload_table.specs.Uploaded.{Uploaded, coded_uploaded};

    ghost Value = { Uploaded };

    ghost coded = { coded_uploaded };

    ghost use Rattle.upload_table.specs.Tenants.{tenants_shown};

    ghost view = { λ a. tenants_shown a.tenants.items };
}

/// Returns `count` tenants without sessions, whose first sessions get the same number.
fn tenants_from(
    alloc: Global,
    count: u16,
    first_number: u32,
) -> Result<Vec<TenantSessions>, Refusal>
    ensures ok { IfOk result (λ v. v.items ≡ replicate count (no_sessions first_number)) }
    ensures refused { IfErr result (λ e. e ≡ Memory) }
{
    let mut tenants = Vec::new(alloc);
    for _ in 0..count {
        tenants.push(TenantSessions::new(alloc, first_number))?;
    }
    Ok(tenants)
}

impl Uploads {
    /// Returns a table without sessions, in which each tenant's first session gets `first_number`.
    ///
    /// # Errors
    ///
    /// - `Memory`: out of memory.
    pub fn new(alloc: Global, tenants: u16, first_number: u32) -> Result<Uploads, Refusal>
        ensures value { IfOk result (λ u. u ≡ initial_uploads tenants first_number) }
        ensures refused { IfErr result (λ e. e ≡ Refusal.Memory) }
    {
        let tenants = tenants_from(alloc, tenants, first_number)?;
        Ok(Uploads { alloc, tenants })
    }

    /// Opens a session without chunks for a repository of the tenant, and returns its number (OCI Distribution
    /// Specification 1.1, "Pushing blobs").
    ///
    /// # Errors
    ///
    /// - `LimitReached`: the tenant has `limit` sessions or more, or has used all numbers below 2^32.
    /// - `Memory`: out of memory.
    pub fn start(&mut self, tenant: u16, repo: &RepoName, limit: u32) -> Result<u32, Refusal>
        requires there { tenant < length self.old.next }
        ensures { Does (λ n. n) result self.old self.new
            (start_upload limit self.old tenant repo.now) }
    {
        self.tenants[tenant as usize].start(self.alloc, repo, limit)
    }

    /// Returns the session of a tenant and a number, with its place. Looks at the expected place first.
    fn row(&self, tenant: u16, number: u32, expected: Option<usize>) -> Option<(usize, &Upload)>
        ensures shown { option_map found_session result ≡ open_session self.now tenant number }
        ensures whole { IfSome result (λ r. HasConsistentBuffer r.1.now.content) }
    {
        if (tenant as usize) < self.tenants.as_slice().len() {
            self.tenants[tenant as usize].row(number, expected)
        } else {
            None
        }
    }

    /// Returns a repository's session with its place. Searches for it.
    fn session(
        &self,
        tenant: u16,
        repo: &RepoName,
        number: u32,
    ) -> Result<(usize, &Upload), Refusal>
        ensures ok { OkIs found_session result (repo_session self.now tenant number repo.now) }
        ensures whole { IfOk result (λ r. HasConsistentBuffer r.1.now.content) }
        ensures refused { ErrIs result (repo_session self.now tenant number repo.now) }
    {
        match self.row(tenant, number, None) {
            Some((place, row)) if row.repo == *repo => Ok((place, row)),
            _ => Err(Refusal::UploadUnknown),
        }
    }

    /// Returns the place of the session that is checked out with a hand's number and lengths, if there is one.
    ///
    /// Looks first at the place that the session had when it was checked out.
    fn taken_place(&self, hand: &Hand) -> Option<usize>
        ensures { is_some result ≡ is_checked_out self.now hand.now }
    {
        match self.row(hand.tenant(), hand.number(), Some(hand.place())) {
            Some((place, row)) if is_in_hand(&row.content, hand.received(), hand.reserved()) => {
                Some(place)
            }
            _ => None,
        }
    }

    /// Returns the number of bytes that a repository's session has received.
    ///
    /// # Errors
    ///
    /// - `UploadUnknown`: the tenant has no session of this number, or it belongs to another repository.
    ///
    /// # Memory
    ///
    /// Allocates nothing.
    pub fn received(&self, tenant: u16, repo: &RepoName, number: u32) -> Result<u64, Refusal>
        ensures { result ≡ received_in self.now.sessions (tenant, number) repo.now }
    {
        let (_, row) = self.session(tenant, repo, number)?;
        Ok(received_of(&row.content))
    }

    /// Returns the number of bytes that a checked-in session has received, and the session's place for `remove`.
    ///
    /// # Errors
    ///
    /// - `UploadUnknown`: the tenant has no session of this number, or it belongs to another repository.
    /// - `Busy`: the session is checked out.
    ///
    /// # Memory
    ///
    /// Allocates nothing.
    pub fn received_home(
        &self,
        tenant: u16,
        repo: &RepoName,
        number: u32,
    ) -> Result<(u64, usize), Refusal>
        ensures received { FirstIs result
            (checked_in_length self.now.sessions (tenant, number) repo.now) }
        ensures refused { ErrIs result (checked_in_length self.now.sessions (tenant, number)
            repo.now) }
    {
        let (place, row) = self.session(tenant, repo, number)?;
        match &row.content {
            SessionContent::Home(pieces) => Ok((pieces.bytes.len(), place)),
            SessionContent::InHand { .. } => Err(Refusal::Busy),
        }
    }

    /// Returns the length of a session after a chunk of `len` bytes, and the session's place for `take`.
    ///
    /// # Errors
    ///
    /// - `UploadUnknown`: the tenant has no session of this number, or it belongs to another repository.
    /// - `Busy`: the session is checked out.
    /// - `SizeInvalid`: the range has another length than the chunk, or the new length exceeds `max_blob`.
    /// - `RangeInvalid`, with the received length: the range does not start at the end of the session.
    ///
    /// # Memory
    ///
    /// Allocates nothing.
    pub fn check(
        &self,
        tenant: u16,
        repo: &RepoName,
        number: u32,
        range: Option<ByteRange>,
        len: u64,
        max_blob: u64,
    ) -> Result<(u64, usize), Refusal>
        ensures after { FirstIs result (check self.now tenant number repo.now range len max_blob) }
        ensures refused { ErrIs result (check self.now tenant number repo.now range len max_blob) }
    {
        let (before, place) = self.received_home(tenant, repo, number)?;
        let after = length_after(before, range, len, max_blob)?;
        Ok((after, place))
    }

    /// Checks out a session: moves its chunks into a hand, and reserves `len` bytes for one more chunk.
    ///
    /// `place` is the place that `check` returned; any other value only costs a search. The usage of the tenant's
    /// sessions stays below 2^64 bytes, which any quota implies.
    ///
    /// # Memory
    ///
    /// Allocates nothing.
    pub fn take(&mut self, tenant: u16, number: u32, place: usize, len: u64) -> Hand
        requires home { is_checked_in (fmap.get self.old.sessions (tenant, number)) ≡ true }
        requires room { session_charges self.old.sessions tenant + len < 2 ^ 64 }
        ensures hand { result ≡ hand_in self.old.sessions (tenant, number) len }
        ensures taken { self.new ≡ take_upload self.old (tenant, number) len }
    {
        let (repo, pieces) = self.tenants[tenant as usize].take(number, place, len);
        Hand::new(repo, tenant, number, place, len, pieces)
    }

    /// Checks a session in with the hand's chunks, and returns the number of bytes received.
    ///
    /// The filled chunk is included if it has bytes. Reserved bytes that were not filled are released.
    ///
    /// # Errors
    ///
    /// - `UploadUnknown`: no session of this table is checked out with the hand's number and lengths. The hand is
    ///   dropped, and nothing changes.
    ///
    /// # Cost
    ///
    /// Independent of the number of bytes, except that a chunk from `fill_last` is hashed by SHA-256.
    ///
    /// # Memory
    ///
    /// Allocates nothing.
    pub fn put_back(&mut self, hand: Hand) -> Result<u64, Refusal>
        ensures { DoesExactly (λ n. n) result self.old self.new (put_back_upload self.old hand) }
    {
        let Some(place) = self.taken_place(&hand) else {
            hand.discard();
            return Err(Refusal::UploadUnknown);
        };
        let (tenant, number) = (hand.tenant(), hand.number());
        let pieces = hand.into_pieces();
        Ok(self.bring_home(tenant, number, place, pieces))
    }

    /// Moves the bytes of a hand into a blob of this digest.
    ///
    /// The hand's chunk is filled, or no bytes are reserved. The session stays checked out until `forget`, or until
    /// `reopen` with this blob, which restores the session.
    ///
    /// # Errors
    ///
    /// - `UploadUnknown`: no session of this table is checked out with the hand's number and lengths. The hand is
    ///   dropped, and nothing changes.
    /// - `DigestInvalid`: the bytes have another digest. The session is checked in without the filled chunk.
    /// - `Memory`: the bytes are not in memory, and not all of them were hashed by the digest's algorithm. By their note, this is
    ///   no error if one of them was not read since the start. The session is checked in without the filled chunk.
    ///
    /// # Cost
    ///
    /// Copies no byte. Hashes the chunk if `fill_last` hashed it by another algorithm than the digest's. By SHA-512,
    /// also hashes the bytes that have not passed through SHA-512. Hashes all bytes if `Hashing::Later` left that.
    ///
    /// # Memory
    ///
    /// Allocates nothing.
    pub fn finish(
        &mut self,
        hand: Hand,
        digest: &Digest,
        sealing: Sealing,
    ) -> Result<(Blob, PendingClose), Refusal>
        requires full { HasNoOpenReserve hand }
        ensures does { Finishes sealing result self.old self.new hand digest.now }
        ensures agrees { IfOk result (λ r. is_sealed sealing r.0.0 r.0.1 ≡ true) }
        ensures key { IfOk result (λ r. r.1.key ≡ hand.key) }
        ensures restores { IfOk result (λ r. ReopensTo self.new r (cancel_upload self.old hand)) }
        ensures taken { IfErr result (λ e. WasCheckedOut e self.old hand) }
        ensures read { WasRead sealing result hand }
    {
        let Some(place) = self.taken_place(&hand) else {
            hand.discard();
            return Err(Refusal::UploadUnknown);
        };
        let (tenant, number) = (hand.tenant(), hand.number());
        match hand.seal_by(digest, place, sealing) {
            Ok(sealed) => Ok(sealed),
            Err((why, pieces)) => {
                let _ = self.bring_home(tenant, number, place, pieces);
                match why {
                    Unsealed::Differs => Err(Refusal::DigestInvalid),
                    Unsealed::Unhashed => Err(Refusal::Memory),
                }
            }
        }
    }

    /// Returns the repository of a session whose bytes moved into a blob.
    pub fn repo_of(&self, sealed: &PendingClose) -> &RepoName
        requires { IsSome (fmap.get self.now.sessions sealed.now.key) }
        ensures { result.now ≡ repo_at self.now sealed.now.key }
    {
        match self.row(sealed.tenant, sealed.number, Some(sealed.place)) {
            Some((_, row)) => &row.repo,
            None => unreachable!(),
        }
    }

    /// Checks a session in with the bytes of the blob that `finish` returned for it.
    ///
    /// The session has the chunks that it had before it was checked out.
    ///
    /// # Cost
    ///
    /// Copies and hashes no byte.
    ///
    /// # Memory
    ///
    /// Allocates nothing.
    pub fn reopen(&mut self, sealed: PendingClose, blob: Blob)
        requires { CanReopen self.old sealed blob.1 }
        ensures { self.new ≡ reopened_table self.old sealed blob.1 }
    {
        let (tenant, number, place) = (sealed.tenant, sealed.number, sealed.place);
        let pieces = sealed.into_pieces(blob);
        let _ = self.bring_home(tenant, number, place, pieces);
    }

    /// Checks a session in with these chunks, and returns their length. Allocates nothing.
    ///
    /// The chunks have at most as many bytes as the session counts in the tenant's usage.
    fn bring_home(
        &mut self,
        tenant: u16,
        number: u32,
        place: usize,
        pieces: Box<ChunkBuffer>,
    ) -> u64
        requires there { IsSome (fmap.get self.old.sessions (tenant, number)) }
        requires less { FitsCharge (fmap.get self.old.sessions (tenant, number)) pieces.value }
        requires whole { IsConsistentBuffer pieces.value }
        ensures len { result ≡ length pieces.value.bytes }
        ensures home { self.new ≡ checked_in_with self.old (tenant, number)
            (cut_buffer pieces.value) }
    {
        self.tenants[tenant as usize].put_home(number, place, pieces)
    }

    /// Removes a session whose bytes moved into a blob.
    ///
    /// # Memory
    ///
    /// Allocates nothing.
    pub fn forget(&mut self, sealed: PendingClose)
        requires { IsSome (fmap.get self.old.sessions sealed.key) }
        ensures { self.new ≡ without_upload self.old sealed.key }
    {
        let PendingClose {
            tenant,
            number,
            place,
            pieces: _,
        } = sealed;
        self.tenants[tenant as usize].remove(number, place);
    }

    /// Removes a checked-in session and drops its bytes.
    ///
    /// `place` is the place that `received_home` returned; any other value only costs a search.
    ///
    /// # Memory
    ///
    /// Allocates nothing.
    pub fn remove(&mut self, tenant: u16, number: u32, place: usize)
        requires { is_checked_in (fmap.get self.old.sessions (tenant, number)) ≡ true }
        ensures { self.new ≡ without_upload self.old (tenant, number) }
    {
        self.tenants[tenant as usize].remove(number, place);
    }

    /// Returns the usage of a tenant's sessions: the received and the reserved bytes.
    ///
    /// # Cost
    ///
    /// Constant: the sum is stored.
    pub fn total(&self, tenant: u16) -> u64
        requires there { tenant < length self.now.next }
        ensures { result ≡ session_charges self.now.sessions tenant }
    {
        self.tenants[tenant as usize].charged()
    }

    /// Returns the number that the tenant's next session gets, or 2^32 if all numbers below were used.
    pub fn next(&self, tenant: u16) -> u64
        requires { tenant < length self.now.next }
        ensures { result ≡ slice_index self.now.next tenant }
    {
        self.tenants[tenant as usize].next()
    }

    /// Returns a repository's sessions, in the order of their numbers: each number, and the number of bytes received.
    ///
    /// # Cost
    ///
    /// Reading all of them takes one pass over the tenant's sessions.
    pub fn sessions<'a>(&'a self, tenant: u16, repo: &'a RepoName) -> RepoSessions<'a>
        ensures { result ≡ listed_sessions self.now tenant repo.now }
    {
        if (tenant as usize) < self.tenants.as_slice().len() {
            RepoSessions {
                rest: self.tenants[tenant as usize].rows(),
                repo,
            }
        } else {
            RepoSessions { rest: &[], repo }
        }
    }

    /// Returns whether a repository has an open session, checked in or checked out.
    ///
    /// # Cost
    ///
    /// At most one pass over the tenant's sessions.
    pub fn has_sessions(&self, tenant: u16, repo: &RepoName) -> bool
        ensures { result ≡ has_sessions self.now tenant repo.now }
    {
        self.sessions(tenant, repo).next().is_some()
    }

    /// Returns a repository's session at index `i` of the list that `sessions` returns.
    pub fn session_at(&self, tenant: u16, repo: &RepoName, i: usize) -> Option<(u32, u64)>
        ensures { result ≡ slice_get (listed_sessions self.now tenant repo.now) i }
    {
        self.sessions(tenant, repo).nth(i)
    }
}
