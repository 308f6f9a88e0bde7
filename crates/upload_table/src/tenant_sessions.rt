//! The open sessions of one tenant.

ghost use Rattle.std.specs.Prelude.{◌≡◌, ◌+◌, ◌<◌, ◌≤◌, ◌^◌, IfSome, IsSome, Some, true, length, map};
ghost use Rattle.std.specs.Option.{option_map};
ghost use Rattle.std.specs.List.{AllByRecursion, HoldsAt};
ghost use Rattle.std.specs.List.Sorted.{IsBinarySearchResult, IsSearchInRange};
ghost use Rattle.std.specs.Ordering.{nat_cmp};
ghost use Rattle.std.specs.FinMap as fmap;
ghost use Rattle.blob_digest.specs.Outcomes.{Does};
ghost use Rattle.store_model.specs.Sessions.{is_checked_in};
ghost use Rattle.upload_table.specs.Rows.{entry_of, found_session, home_chunks, home_session, out_chunks, HasConsistentBuffer, FitsCharge, HasNumber, IsConsistentBuffer};
ghost use Rattle.upload_table.specs.Tenants.{charged_in, is_exhausted, no_sessions, start_here, with_chunks_here, without_number};

use crate::upload::{ChunkBuffer, SessionContent, Upload, charge_of, take_chunks};
use blob_digest::{Refusal, RepoName};
use std::alloc::Global;
use std::marker::Model;
use std::snapshot::Snapshot;

/// The exclusive upper bound of session numbers.
const NUMBER_LIMIT: u64 = 1 << 32;

/// The open sessions of one tenant, in the order of their numbers, with the next number and their usage.
///
/// A call looks for a session at the index that its caller expects, and then by binary search. Removing a session moves
/// those with higher numbers. Contracts see the next number and the sessions by number.
#[derive(Drop)]
pub(crate) struct TenantSessions {
    next: u64,
    charged: u64,
    rows: Vec<Upload>,
}

impl Model for TenantSessions {
    ghost use Rattle.upload_table.specs.Tenants.{SessionsByNumber, coded_sessions_by_number};

    ghost Value = { SessionsByNumber };

    ghost coded = { coded_sessions_by_number };

    ghost use Rattle.upload_table.specs.Rows.{sessions_shown, IsSound};

    ghost view = { λ a. sessions_shown a.next a.rows.items };

    ghost invariant = { λ a. IsSound a.next a.charged a.rows.items };
}

/// Returns whether the session at an index has this number.
fn is_at(rows: &[Upload], number: u32, place: usize) -> bool
    ensures within { result ≡ true → place < length rows.now }
    ensures equal { result ≡ true → HoldsAt (HasNumber number) rows.now place }
{
    match rows.get(place) {
        Some(row) => row.number == number,
        None => false,
    }
}

/// Returns the index of a session among rows in the order of their numbers, or the index at which to insert it.
///
/// Looks at the expected index first. Searches by binary search if none is expected or the session is elsewhere.
fn place_of(rows: &[Upload], number: u32, expected: Option<usize>) -> Result<usize, usize>
    ensures within { IsSearchInRange result (length rows.now) }
    ensures place { IsBinarySearchResult (λ u. nat_cmp u.number number) rows.now result }
{
    match expected {
        Some(place) if is_at(rows, number, place) => Ok(place),
        _ => rows.binary_search_by(|u| u.number.cmp(&number)),
    }
}

impl TenantSessions {
    /// Returns a tenant without sessions, whose first session gets `first_number`. Allocates nothing.
    pub(crate) fn new(alloc: Global, first_number: u32) -> TenantSessions
        ensures { result ≡ no_sessions first_number }
    {
        TenantSessions {
            next: u64::from(first_number),
            charged: 0,
            rows: Vec::new(alloc),
        }
    }

    /// Returns whether the tenant cannot open another session, given the maximum number of them.
    fn is_exhausted(&self, limit: u32) -> bool
        ensures { result ≡ is_exhausted limit self.now }
    {
        self.rows.as_slice().len() >= limit as usize || self.next >= NUMBER_LIMIT
    }

    /// Opens a session without chunks for a repository, and returns its number.
    ///
    /// # Errors
    ///
    /// - `LimitReached`: the tenant has `limit` sessions or more, or the next number is 2^32.
    /// - `Memory`: out of memory.
    pub(crate) fn start(
        &mut self,
        alloc: Global,
        repo: &RepoName,
        limit: u32,
    ) -> Result<u32, Refusal>
        ensures { Does (λ n. n) result self.old self.new (start_here limit self.old repo.now) }
    {
        if self.is_exhausted(limit) {
            return Err(Refusal::LimitReached);
        }
        let number = self.next as u32;
        let row = Upload {
            number,
            repo: repo.clone()?,
            content: SessionContent::Home(Box::new(alloc, ChunkBuffer::new(alloc))?),
        };
        self.rows.push(row)?;
        self.next += 1;
        Ok(number)
    }

    /// Returns the session of a number with its index. Looks at the expected index first.
    pub(crate) fn row(&self, number: u32, expected: Option<usize>) -> Option<(usize, &Upload)>
        ensures shown { option_map found_session result ≡ fmap.get self.now.sessions number }
        ensures whole { IfSome result (λ r. HasConsistentBuffer r.1.now.content) }
    {
        match place_of(self.rows.as_slice(), number, expected) {
            Ok(i) => Some((i, &self.rows[i])),
            Err(_) => None,
        }
    }

    /// Returns all sessions, in the order of their numbers.
    pub(crate) fn rows(&self) -> &[Upload]
        ensures shown { map entry_of result.now ≡ fmap.entries self.now.sessions }
        ensures whole { AllByRecursion (λ u. HasConsistentBuffer u.content) result.now }
    {
        self.rows.as_slice()
    }

    /// Moves the chunks out of a checked-in session, and reserves `len` bytes for one more. Allocates nothing.
    ///
    /// Only clauses read the returned repository.
    pub(crate) fn take(
        &mut self,
        number: u32,
        place: usize,
        len: u64,
    ) -> (Snapshot<RepoName>, Box<ChunkBuffer>)
        requires home { is_checked_in (fmap.get self.old.sessions number) ≡ true }
        requires room { charged_in self.old + len < 2 ^ 64 }
        ensures whole { IsConsistentBuffer result.1.value }
        ensures fits { length result.1.value.bytes + len < 2 ^ 64 }
        ensures session { fmap.get self.old.sessions number
            ≡ Some (home_session result.0.value result.1.value) }
        ensures taken { self.new ≡ with_chunks_here self.old number
            (out_chunks result.1.value len) }
    {
        match place_of(self.rows.as_slice(), number, Some(place)) {
            Ok(i) => {
                self.charged += len;
                let row = &mut self.rows[i];
                let repo = Snapshot::of(&row.repo);
                (repo, take_chunks(row, len))
            }
            Err(_) => unreachable!(),
        }
    }

    /// Moves chunks back into a session, and returns their length. Allocates nothing.
    ///
    /// The chunks have at most as many bytes as the session counts in the tenant's usage.
    pub(crate) fn put_home(&mut self, number: u32, place: usize, pieces: Box<ChunkBuffer>) -> u64
        requires there { IsSome (fmap.get self.old.sessions number) }
        requires less { FitsCharge (fmap.get self.old.sessions number) pieces.value }
        requires whole { IsConsistentBuffer pieces.value }
        ensures len { result ≡ length pieces.value.bytes }
        ensures home { self.new ≡ with_chunks_here self.old number (home_chunks pieces.value) }
    {
        match place_of(self.rows.as_slice(), number, Some(place)) {
            Ok(i) => {
                let row = &mut self.rows[i];
                let before = charge_of(&row.content);
                let after = pieces.bytes.len();
                row.content = SessionContent::Home(pieces);
                self.charged -= before - after;
                after
            }
            Err(_) => unreachable!(),
        }
    }

    /// Removes a session and drops its bytes.
    pub(crate) fn remove(&mut self, number: u32, place: usize)
        requires { IsSome (fmap.get self.old.sessions number) }
        ensures { self.new ≡ without_number self.old number }
    {
        match place_of(self.rows.as_slice(), number, Some(place)) {
            Ok(i) => {
                let charge = charge_of(&self.rows[i].content);
                self.charged -= charge;
                drop(self.rows.remove(i));
            }
            Err(_) => unreachable!(),
        }
    }

    /// Returns the usage of the sessions: the received and the reserved bytes. The sum is stored.
    pub(crate) fn charged(&self) -> u64
        ensures { result ≡ charged_in self.now }
    {
        self.charged
    }

    /// Returns the number of the next session.
    pub(crate) fn next(&self) -> u64
        ensures { result ≡ self.now.next }
    {
        self.next
    }
}
