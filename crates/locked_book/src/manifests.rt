//! The commands on manifests.

ghost use Rattle.std.specs.Prelude.{◌≡◌, ◌⊎◌, IfErr, IfOk, OnOk, Err};
ghost use Rattle.std.specs.Arc.{arc_value};
ghost use Rattle.blob_digest.specs.Digests.{sha256_text};
ghost use Rattle.store_model.specs.Runs.{PutManifest, GetManifest, DeleteManifest, Bytes, Done};
ghost use Rattle.locked_book.specs.Calls.{reply};
ghost use Rattle.locked_book.specs.Counting.{common_check};
ghost use Rattle.locked_book.specs.History.{IsUnread, MakesFailedPut};
ghost use Rattle.locked_book.specs.Logging.{bytes_if_ok, manifest_bytes};
ghost use Rattle.locked_book.specs.Performing.{Performs};

use crate::call::Call;
use crate::desk::Desk;
use crate::kept::Kept;
use crate::names::Naming;
use crate::tried::{add_command, add_recorded_command, add_unrecorded_command};
use blob_digest::{Digest, Refusal, RepoName};
use oci_manifest::Manifest;
use std::alloc::Global;
use std::snapshot::Snapshot;
use std::sync::Arc;

/// Returns the record of a call that succeeded, or an empty one.
pub(crate) fn kept_if_ok<A>(bytes: Vec<u8>, called: &Result<A, Refusal>) -> Vec<u8>
    ensures { result.items ≡ bytes_if_ok called.now bytes.items }
{
    let mut bytes = bytes;
    if called.is_err() {
        bytes.clear();
    }
    bytes
}

impl<S: Naming> Kept<S> {
    /// Makes the check that all commands of a repository begin with. Nothing is counted, and no step is made.
    ///
    /// # Errors
    ///
    /// - `LimitReached` if one more command can't be counted.
    /// - `NameUnknown` if the tenant doesn't exist.
    fn common_check(&self, repo: &RepoName) -> Result<(), Refusal>
        ensures { result ≡ common_check self.now repo.now }
    {
        self.room(0)?;
        self.book.check_tenant(repo)
    }

    /// Makes the check that all commands of a repository begin with, for a put of a manifest.
    ///
    /// If it fails, the failed put is a step. Otherwise no step is made.
    pub fn check_tenant(
        &mut self,
        desk: &mut Desk<S>,
        repo: &RepoName,
        bytes: &[u8],
    ) -> Result<(), Refusal>
        ensures answers { result ≡ common_check self.old repo.now }
        ensures ok { OnOk result (desk.new ≡ desk.old) }
        ensures makes { IfErr result (MakesFailedPut S.names repo.now bytes.now desk.old desk.new) }
    {
        match self.common_check(repo) {
            Ok(()) => Ok(()),
            Err(refusal) => {
                self.history.add_unrecorded(
                    &mut desk.writer,
                    Call::RefuseManifest(repo, bytes, &refusal),
                );
                Err(refusal)
            }
        }
    }

    /// Adds the step of a put of a manifest whose bytes could not be parsed, and returns its error.
    ///
    /// The error is that of `check_tenant` if its check fails, and `unread` otherwise.
    pub fn refuse_manifest(
        &mut self,
        desk: &mut Desk<S>,
        repo: &RepoName,
        bytes: &[u8],
        unread: Refusal,
    ) -> Refusal
        requires unread { IsUnread bytes.now unread }
        ensures answers { (result ≡ unread) ⊎ (Err result ≡ common_check self.old repo.now) }
        ensures makes { MakesFailedPut S.names repo.now bytes.now desk.old desk.new result }
    {
        let refusal = match self.common_check(repo) {
            Ok(()) => unread,
            Err(refusal) => refusal,
        };
        self.history.add_unrecorded(
            &mut desk.writer,
            Call::RefuseManifest(repo, bytes, &refusal),
        );
        refusal
    }

    /// Stores a parsed manifest with `Book::keep_manifest`.
    pub fn keep_manifest(
        &mut self,
        desk: &mut Desk<S>,
        repo: &RepoName,
        manifest: Manifest,
        bytes: Vec<u8>,
    ) -> Result<Digest, Refusal>
        requires bytes { bytes.items ≡ manifest_bytes S.names.policy repo.now manifest }
        ensures does { Performs S.names.opening (PutManifest repo.now manifest) (reply Bytes result)
            self.old self.new desk.old desk.new }
        ensures digest { IfOk result (λ d. d ≡ sha256_text manifest) }
    {
        let given = Snapshot::of(&manifest);
        let before = Snapshot::of(&self.book);
        let result = match self.room(0) {
            Ok(()) => self.book.keep_manifest(repo, manifest),
            Err(refusal) => Err(refusal),
        };
        let promised = self.history.policy().promises_changes() && result.is_ok();
        let bytes = kept_if_ok(bytes, &result);
        add_recorded_command(
            &before,
            &self.book,
            &self.out,
            &mut self.counters,
            &mut self.history,
            desk,
            Call::PutManifest(repo, &given, &result),
            bytes,
            promised,
        );
        result
    }

    /// Returns a manifest of a repository from `Book::get_manifest`.
    pub fn get_manifest(
        &mut self,
        desk: &mut Desk<S>,
        repo: &RepoName,
        digest: &Digest,
    ) -> Result<Arc<Manifest, Global>, Refusal>
        ensures does { Performs S.names.opening (GetManifest repo.now digest.now)
            (reply (λ m. Bytes (arc_value m)) result)
            self.old self.new desk.old desk.new }
        ensures digest { IfOk result (λ m. sha256_text (arc_value m) ≡ digest.now) }
    {
        let before = Snapshot::of(&self.book);
        let result = match self.room(0) {
            Ok(()) => self.book.get_manifest(repo, digest),
            Err(refusal) => Err(refusal),
        };
        add_unrecorded_command(
            &before,
            &self.book,
            &self.out,
            &mut self.counters,
            &mut self.history,
            desk,
            Call::GetManifest(repo, digest, &result),
        );
        result
    }

    /// Removes a manifest from a repository with `Book::delete_manifest`.
    pub fn delete_manifest(
        &mut self,
        desk: &mut Desk<S>,
        repo: &RepoName,
        digest: &Digest,
    ) -> Result<(), Refusal>
        ensures does { Performs S.names.opening (DeleteManifest repo.now digest.now)
            (reply (λ _. Done) result)
            self.old self.new desk.old desk.new }
    {
        let before = Snapshot::of(&self.book);
        let result = match self.room(0) {
            Ok(()) => self.book.delete_manifest(repo, digest),
            Err(refusal) => Err(refusal),
        };
        add_command(
            &before,
            &self.book,
            &self.out,
            &mut self.counters,
            &mut self.history,
            desk,
            Call::DeleteManifest(repo, digest, &result),
        );
        result
    }
}
