//! The commands of a store on sessions.

ghost use Rattle.std.specs.Prelude.{◌≡◌, ◌+◌, ◌<◌, Err, None, IfOk, IfSome, OnErr, OnOk, is_some, length};
ghost use Rattle.content_files.specs.Chunks.{is_in_file, read_notes};
ghost use Rattle.blob_store.specs.StoreCalls.{AbandonsSession, AppendsTo, ClosesSession, ReadsStatus, StartsSession};
ghost use Rattle.blob_store.specs.StoreCalls.{CountsCommand, KeepsAmounts};
ghost use Rattle.blob_digest.specs.declared.refusal.Refusal.TheVariants.{Memory};

use crate::store::Store;
use blob_digest::{ByteRange, Digest, Refusal, RepoName};
use content_files::{ContentStore, Home, NoFiles};
use locked_book::{Desk, Naming, chunk_record, noted_chunk_record, noted_seal_record, seal_record};
use std::sync::Wait;
use upload_table::{Hashing, Sealing};

/// Returns the notes of a session's last chunk, if a content of this length lies in its file.
fn notes_if(home: Option<Home>, len: u64, notes: &[u8]) -> Option<&[u8]>
    ensures there { is_some result ≡ is_in_file home len }
    ensures same { IfSome result (λ n. n.now ≡ notes.now) }
{
    match home {
        Some(home) if home.has_content_of(len) => Some(notes),
        _ => None,
    }
}

/// Cuts the file of a session at its content, of this length, if it lies there: a chunk that was refused may follow it.
fn cut_refused<F: ContentStore>(files: &F, home: Option<Home>, len: u64) {
    if let Some(home) = home {
        if home.has_content_of(len) {
            files.cut_behind(home.name, len);
        }
    }
}

impl<S: Naming> Store<S> {
    /// Opens a session in a repository, and returns its number (OCI Distribution Specification 1.1, "Pushing a blob in
    /// chunks", the opening POST). The repository appears with its first session.
    pub fn start(&self, rt: &impl Wait, desk: &mut Desk<S>, repo: &RepoName) -> Result<u32, Refusal>
        ensures { StartsSession S.names repo.now result desk.old desk.new }
    {
        self.locked(rt).start(desk, repo)
    }

    /// Returns how many bytes a session has received (OCI Distribution Specification 1.1, "Pushing a blob in chunks",
    /// the GET of a session's location).
    ///
    /// # Memory
    ///
    /// Allocates nothing.
    pub fn status(
        &self,
        rt: &impl Wait,
        desk: &mut Desk<S>,
        repo: &RepoName,
        number: u32,
    ) -> Result<u64, Refusal>
        ensures { ReadsStatus S.names repo.now number result desk.old desk.new }
    {
        self.locked(rt).status(desk, repo, number)
    }

    /// Adds a chunk to a session, and returns the received length (OCI Distribution Specification 1.1, "Pushing a blob
    /// in chunks"). A chunk without a range goes at the end. The session is checked out, and `Busy` to other calls,
    /// while its bytes are copied and hashed without the lock. If the call fails, the session is unchanged.
    ///
    /// # Cost
    ///
    /// Copies and hashes the chunk, without the lock. The lock is taken at most twice.
    pub fn append(
        &self,
        rt: &impl Wait,
        desk: &mut Desk<S>,
        repo: &RepoName,
        number: u32,
        range: Option<ByteRange>,
        bytes: &[u8],
    ) -> Result<u64, Refusal>
        ensures ok { OnOk result (CountsCommand (length bytes.now) 0 desk.old desk.new) }
        ensures err { OnErr result (KeepsAmounts desk.old desk.new) }
        ensures ends { IfOk result (λ n. IfSome range (λ r. n ≡ r.end + 1)) }
        ensures steps { AppendsTo S.names repo.now number range bytes.now result desk.old desk.new }
    {
        self.append_by(
            rt,
            &NoFiles,
            desk,
            repo,
            number,
            range,
            bytes,
            Hashing::Open,
        )
    }

    /// Adds a chunk to a session as `append` does, but hashes it as `hashing` says. If the content becomes longer than those that stay
    /// in memory, its bytes are written to its file and synced, and the log gets the notes of the chunk's pieces.
    pub fn append_by<F: ContentStore>(
        &self,
        rt: &impl Wait,
        files: &F,
        desk: &mut Desk<S>,
        repo: &RepoName,
        number: u32,
        range: Option<ByteRange>,
        bytes: &[u8],
        hashing: Hashing<'_>,
    ) -> Result<u64, Refusal>
        ensures ok { OnOk result (CountsCommand (length bytes.now) 0 desk.old desk.new) }
        ensures err { OnErr result (KeepsAmounts desk.old desk.new) }
        ensures ends { IfOk result (λ n. IfSome range (λ r. n ≡ r.end + 1)) }
        ensures steps { AppendsTo S.names repo.now number range bytes.now result desk.old desk.new }
    {
        let len = bytes.len() as u64;
        let hand = self.locked(rt).take(desk, repo, number, range, len)?;
        let home = self.home_of(&hand);
        let mut notes = Vec::new(self.alloc);
        let hand = match hand.fill_by(files, home, bytes, hashing, &mut notes) {
            Ok(hand) => hand,
            Err((_, hand)) => {
                let _ = self.locked(rt).cancel(desk, hand);
                return Err(Refusal::Memory);
            }
        };
        let notes = notes_if(home, hand.len_after(), notes.as_slice());
        match chunk_record(self.alloc, self.policy, repo, number, bytes, notes) {
            Ok(record) => self.locked(rt).put_back(desk, hand, record),
            Err(refusal) => {
                let _ = self.locked(rt).cancel(desk, hand.unfill());
                Err(refusal)
            }
        }
    }

    /// Adds a chunk that an earlier process added to a session, by the notes of its pieces, whose length is `len`. Nothing is
    /// written, read or hashed. A start calls this, for a chunk that its log has by its notes.
    ///
    /// # Errors
    ///
    /// Those of `append`, and `Memory` also if these are not the notes of a chunk, or a content of the new length has no file.
    pub fn append_noted(
        &self,
        rt: &impl Wait,
        desk: &mut Desk<S>,
        repo: &RepoName,
        number: u32,
        notes: &[u8],
        len: u64,
    ) -> Result<u64, Refusal>
        requires { length (read_notes notes.now) ≡ len }
        ensures steps { AppendsTo S.names repo.now number None (read_notes notes.now) result
            desk.old desk.new }
    {
        let hand = self.locked(rt).take(desk, repo, number, None, len)?;
        let home = self.home_of(&hand);
        let hand = match hand.fill_noted(notes) {
            Ok(hand) => hand,
            Err((_, hand)) => {
                let _ = self.locked(rt).cancel(desk, hand);
                return Err(Refusal::Memory);
            }
        };
        let Some(notes) = notes_if(home, hand.len_after(), notes) else {
            let _ = self.locked(rt).cancel(desk, hand.unfill());
            return Err(Refusal::Memory);
        };
        match noted_chunk_record(self.alloc, self.policy, repo, number, notes) {
            Ok(record) => self.locked(rt).put_back(desk, hand, record),
            Err(refusal) => {
                let _ = self.locked(rt).cancel(desk, hand.unfill());
                Err(refusal)
            }
        }
    }

    /// Closes a session with its last chunk, which may be empty, and returns the blob's size (OCI Distribution
    /// Specification 1.1, "Pushing a blob in chunks", the closing PUT). The session's bytes become the blob of this
    /// digest, linked in the repository. The session is checked out, and `Busy` to other calls, while the last chunk is
    /// copied and hashed without the lock. If the call fails, the session is unchanged, without the last chunk.
    ///
    /// # Cost
    ///
    /// Copies and hashes only the last chunk, without the lock: the session's bytes move into the blob. The lock is
    /// taken at most twice.
    pub fn close(
        &self,
        rt: &impl Wait,
        desk: &mut Desk<S>,
        repo: &RepoName,
        number: u32,
        digest: &Digest,
        range: Option<ByteRange>,
        bytes: &[u8],
    ) -> Result<u64, Refusal>
        ensures ok { IfOk result (λ n. CountsCommand (length bytes.now) n desk.old desk.new) }
        ensures err { OnErr result (KeepsAmounts desk.old desk.new) }
        ensures ends { IfOk result (λ n. IfSome range (λ r. n ≡ r.end + 1)) }
        ensures steps { ClosesSession S.names repo.now number digest.now range bytes.now
            result desk.old desk.new }
    {
        let hashing = Hashing::Last(digest.algorithm());
        self.close_by(
            rt, &NoFiles, desk, repo, number, digest, range, bytes, hashing,
        )
    }

    /// Closes a session as `close` does, but hashes its bytes as `hashing` says. If they were not hashed by the algorithm
    /// of the digest before the lock is taken again, they are hashed under the lock. The last chunk is written as by `append_by`.
    pub fn close_by<F: ContentStore>(
        &self,
        rt: &impl Wait,
        files: &F,
        desk: &mut Desk<S>,
        repo: &RepoName,
        number: u32,
        digest: &Digest,
        range: Option<ByteRange>,
        bytes: &[u8],
        hashing: Hashing<'_>,
    ) -> Result<u64, Refusal>
        ensures ok { IfOk result (λ n. CountsCommand (length bytes.now) n desk.old desk.new) }
        ensures err { OnErr result (KeepsAmounts desk.old desk.new) }
        ensures ends { IfOk result (λ n. IfSome range (λ r. n ≡ r.end + 1)) }
        ensures steps { ClosesSession S.names repo.now number digest.now range bytes.now
            result desk.old desk.new }
    {
        let len = bytes.len() as u64;
        let hand = self.locked(rt).take(desk, repo, number, range, len)?;
        let home = self.home_of(&hand);
        let mut notes = Vec::new(self.alloc);
        let filled = hand.fill_by(files, home, bytes, hashing, &mut notes);
        let hand = match filled {
            Ok(hand) => hand,
            Err((_, hand)) => {
                let _ = self.locked(rt).cancel(desk, hand);
                return Err(Refusal::Memory);
            }
        };
        if bytes.is_empty() {
            cut_refused(files, home, hand.len_after());
        }
        let notes = notes_if(home, hand.len_after(), notes.as_slice());
        match seal_record(self.alloc, self.policy, repo, number, digest, bytes, notes) {
            Ok(record) => {
                let sealing = Sealing::ByHash;
                self.locked(rt)
                    .finish(&self.pins, desk, hand, digest, sealing, record)
            }
            Err(refusal) => {
                let _ = self.locked(rt).cancel(desk, hand.unfill());
                Err(refusal)
            }
        }
    }

    /// Closes a session as an earlier process closed it, with a last chunk by the notes of its pieces, whose length is `len`. Nothing
    /// is written, read or hashed: the digest is taken as that of the content if not all of it was read since the start. A start
    /// calls this, for a close that its log has by notes.
    ///
    /// # Errors
    ///
    /// Those of `close`, and `Memory` also if these are not the notes of a chunk, or a content of the new length has no file.
    pub fn close_noted(
        &self,
        rt: &impl Wait,
        desk: &mut Desk<S>,
        repo: &RepoName,
        number: u32,
        digest: &Digest,
        notes: &[u8],
        len: u64,
    ) -> Result<u64, Refusal>
        requires { length (read_notes notes.now) ≡ len }
        ensures steps { ClosesSession S.names repo.now number digest.now None (read_notes notes.now)
            result desk.old desk.new }
    {
        let hand = self.locked(rt).take(desk, repo, number, None, len)?;
        let home = self.home_of(&hand);
        let hand = match hand.fill_noted(notes) {
            Ok(hand) => hand,
            Err((_, hand)) => {
                let _ = self.locked(rt).cancel(desk, hand);
                return Err(Refusal::Memory);
            }
        };
        let Some(notes) = notes_if(home, hand.len_after(), notes) else {
            let _ = self.locked(rt).cancel(desk, hand.unfill());
            return Err(Refusal::Memory);
        };
        match noted_seal_record(self.alloc, self.policy, repo, number, digest, notes) {
            Ok(record) => {
                let sealing = Sealing::ByNote;
                self.locked(rt)
                    .finish(&self.pins, desk, hand, digest, sealing, record)
            }
            Err(refusal) => {
                let _ = self.locked(rt).cancel(desk, hand.unfill());
                Err(refusal)
            }
        }
    }

    /// Abandons a session with its bytes, and returns how many it had received. Its number is never used again.
    ///
    /// # Memory
    ///
    /// Allocates nothing, except the name of a content that may lie in a file.
    pub fn abandon(
        &self,
        rt: &impl Wait,
        desk: &mut Desk<S>,
        repo: &RepoName,
        number: u32,
    ) -> Result<u64, Refusal>
        ensures { AbandonsSession S.names repo.now number result desk.old desk.new }
    {
        self.locked(rt).abandon(desk, repo, number)
    }
}
