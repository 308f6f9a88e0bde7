//! The removal of repositories.

ghost use Rattle.std.specs.Prelude.{◌≡◌, Ok};
ghost use Rattle.store_book.specs.BookCalls.{KeepsSlots, RemovesRepo};
ghost use Rattle.store_model.specs.Commands.{is_in_use, tenant};

use crate::book::Book;
use blob_digest::{Refusal, RepoName};

impl Book {
    /// Removes a repository that has no link, no manifest and no session.
    ///
    /// Its name no longer counts for the tenant's limit. A later `start`, `mount` or `put_manifest` creates the repository again.
    ///
    /// # Errors
    /// - `NameUnknown` if the tenant or the repository does not exist.
    /// - `RepoInUse` if the repository has a link, a manifest or a session. A session that is checked out counts.
    ///
    /// # Cost
    /// At most one pass over the tenant's sessions. The tenant's repositories after this one are moved.
    ///
    /// # Memory
    /// None is allocated.
    pub fn remove_repo(&mut self, repo: &RepoName) -> Result<(), Refusal>
        ensures does { RemovesRepo result self.old self.new repo.now }
        ensures slots { KeepsSlots self.old self.new }
    {
        let owner = self.links.tenant(repo)?;
        if !self.links.has_repo(owner, repo) {
            return Err(Refusal::NameUnknown);
        }
        if self.is_in_use(owner, repo) {
            return Err(Refusal::RepoInUse);
        }
        self.links.vanish(owner, repo);
        Ok(())
    }

    /// Returns whether a repository of a tenant has a link, a manifest or a session.
    fn is_in_use(&self, owner: u16, repo: &RepoName) -> bool
        requires { tenant self.now.catalog repo.now ≡ Ok owner }
        ensures { result ≡ is_in_use self.now.catalog repo.now }
    {
        self.links.has_contents(repo) || self.uploads.has_sessions(owner, repo)
    }
}
