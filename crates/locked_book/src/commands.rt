//! The commands on repositories, sessions and blobs.

ghost use Rattle.std.specs.Option.{option_copied};
ghost use Rattle.store_model.specs.Runs.{Start, Status, Abandon, Mount as MountCommand, Delete, RemoveRepo, Number, Mounting, Done};
ghost use Rattle.locked_book.specs.Calls.{reply};
ghost use Rattle.locked_book.specs.Performing.{Performs};

use crate::call::Call;
use crate::desk::Desk;
use crate::kept::Kept;
use crate::names::Naming;
use crate::tried::{add_command, add_unrecorded_command};
use blob_digest::{Digest, Refusal, RepoName};
use std::snapshot::Snapshot;
use store_book::Mount;

impl<S: Naming> Kept<S> {
    /// Opens a session with `Book::start`.
    pub fn start(&mut self, desk: &mut Desk<S>, repo: &RepoName) -> Result<u32, Refusal>
        ensures does { Performs S.names.opening (Start repo.now) (reply Number result)
            self.old self.new desk.old desk.new }
    {
        let before = Snapshot::of(&self.book);
        let result = match self.room(0) {
            Ok(()) => self.book.start(repo),
            Err(refusal) => Err(refusal),
        };
        add_command(
            &before,
            &self.book,
            &self.out,
            &mut self.counters,
            &mut self.history,
            desk,
            Call::Start(repo, &result),
        );
        result
    }

    /// Returns the received length of a session from `Book::status`.
    pub fn status(
        &mut self,
        desk: &mut Desk<S>,
        repo: &RepoName,
        number: u32,
    ) -> Result<u64, Refusal>
        ensures does { Performs S.names.opening (Status repo.now number) (reply Number result)
            self.old self.new desk.old desk.new }
    {
        let before = Snapshot::of(&self.book);
        let result = match self.room(0) {
            Ok(()) => self.book.status(repo, number),
            Err(refusal) => Err(refusal),
        };
        add_unrecorded_command(
            &before,
            &self.book,
            &self.out,
            &mut self.counters,
            &mut self.history,
            desk,
            Call::Status(repo, number, &result),
        );
        result
    }

    /// Removes a session with `Book::abandon`.
    pub fn abandon(
        &mut self,
        desk: &mut Desk<S>,
        repo: &RepoName,
        number: u32,
    ) -> Result<u64, Refusal>
        ensures does { Performs S.names.opening (Abandon repo.now number) (reply Number result)
            self.old self.new desk.old desk.new }
    {
        let before = Snapshot::of(&self.book);
        let result = match self.room(0) {
            Ok(()) => self.book.abandon(repo, number),
            Err(refusal) => Err(refusal),
        };
        add_command(
            &before,
            &self.book,
            &self.out,
            &mut self.counters,
            &mut self.history,
            desk,
            Call::Abandon(repo, number, &result),
        );
        result
    }

    /// Links a blob from another repository, or opens a session, with `Book::mount`.
    pub fn mount(
        &mut self,
        desk: &mut Desk<S>,
        repo: &RepoName,
        digest: &Digest,
        from: Option<&RepoName>,
    ) -> Result<Mount, Refusal>
        ensures does { Performs S.names.opening
            (MountCommand repo.now digest.now (option_copied from.entry)) (reply Mounting result)
            self.old self.new desk.old desk.new }
    {
        let before = Snapshot::of(&self.book);
        let result = match self.room(0) {
            Ok(()) => self.book.mount(repo, digest, from),
            Err(refusal) => Err(refusal),
        };
        add_command(
            &before,
            &self.book,
            &self.out,
            &mut self.counters,
            &mut self.history,
            desk,
            Call::Mount(repo, digest, from, &result),
        );
        result
    }

    /// Removes the link between a repository and a blob with `Book::delete`.
    pub fn delete(
        &mut self,
        desk: &mut Desk<S>,
        repo: &RepoName,
        digest: &Digest,
    ) -> Result<(), Refusal>
        ensures does { Performs S.names.opening (Delete repo.now digest.now)
            (reply (λ _. Done) result)
            self.old self.new desk.old desk.new }
    {
        let before = Snapshot::of(&self.book);
        let result = match self.room(0) {
            Ok(()) => self.book.delete(repo, digest),
            Err(refusal) => Err(refusal),
        };
        add_command(
            &before,
            &self.book,
            &self.out,
            &mut self.counters,
            &mut self.history,
            desk,
            Call::Delete(repo, digest, &result),
        );
        result
    }

    /// Removes a repository with `Book::remove_repo`.
    pub fn remove_repo(&mut self, desk: &mut Desk<S>, repo: &RepoName) -> Result<(), Refusal>
        ensures does { Performs S.names.opening (RemoveRepo repo.now)
            (reply (λ _. Done) result)
            self.old self.new desk.old desk.new }
    {
        let before = Snapshot::of(&self.book);
        let result = match self.room(0) {
            Ok(()) => self.book.remove_repo(repo),
            Err(refusal) => Err(refusal),
        };
        add_command(
            &before,
            &self.book,
            &self.out,
            &mut self.counters,
            &mut self.history,
            desk,
            Call::RemoveRepo(repo, &result),
        );
        result
    }
}
