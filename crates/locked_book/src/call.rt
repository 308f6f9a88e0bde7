//! A call made under the lock, with its arguments and its result.

ghost use Rattle.locked_book.specs.Calls.{step_of};
ghost use Rattle.locked_book.specs.Returns.{ReturnsFilledHand};
ghost use Rattle.store_model.specs.Recovery.{IsWellFormedStep};

use blob_digest::{Blob, ByteRange, Digest, Refusal, RepoName};
use oci_manifest::Manifest;
use pin_table::Pin;
use std::alloc::Global;
use std::snapshot::Snapshot;
use std::sync::Arc;
use store_book::{Mount, Swept};
use upload_table::Hand;

/// A call made under the lock, with its arguments and its result. The proof reads the history's step from it.
#[derive(Clone, Copy)]
pub enum Call<'a> {
    Start(&'a RepoName, &'a Result<u32, Refusal>),
    Status(&'a RepoName, u32, &'a Result<u64, Refusal>),
    Take(&'a RepoName, u32, Option<ByteRange>, u64, &'a Result<Hand, Refusal>),
    PutBack(&'a Snapshot<Hand>, &'a Result<u64, Refusal>),
    Finish(&'a Snapshot<Hand>, &'a Digest, &'a Result<u64, Refusal>),
    Abandon(&'a RepoName, u32, &'a Result<u64, Refusal>),
    Mount(&'a RepoName, &'a Digest, Option<&'a RepoName>, &'a Result<Mount, Refusal>),
    Delete(&'a RepoName, &'a Digest, &'a Result<(), Refusal>),
    PutManifest(&'a RepoName, &'a Snapshot<Manifest>, &'a Result<Digest, Refusal>),
    /// A put of a manifest that failed before or while its bytes were parsed.
    RefuseManifest(&'a RepoName, &'a [u8], &'a Refusal),
    GetManifest(&'a RepoName, &'a Digest, &'a Result<Arc<Manifest, Global>, Refusal>),
    DeleteManifest(&'a RepoName, &'a Digest, &'a Result<(), Refusal>),
    RemoveRepo(&'a RepoName, &'a Result<(), Refusal>),
    Lease(&'a RepoName, &'a Digest, &'a Result<(Pin, Arc<Blob, Global>), Refusal>),
    Sweep(&'a Swept),
    SweepPart(&'a Swept),
}

impl Call<'_> {
    /// Does nothing at run time: it states that the step is well-formed, if a hand that it returns is filled.
    pub(crate) fn reveal_form(&self)
        requires { ReturnsFilledHand (step_of self.now) }
        ensures { IsWellFormedStep (step_of self.now) }
    {
        match self {
            Call::Start(repo, _)
            | Call::Status(repo, _, _)
            | Call::Abandon(repo, _, _)
            | Call::Mount(repo, _, _, _)
            | Call::Delete(repo, _, _)
            | Call::PutManifest(repo, _, _)
            | Call::RefuseManifest(repo, _, _)
            | Call::GetManifest(repo, _, _)
            | Call::DeleteManifest(repo, _, _)
            | Call::RemoveRepo(repo, _)
            | Call::Lease(repo, _, _) => {
                let _ = repo.text();
            }
            Call::Take(_, _, _, _, _)
            | Call::PutBack(_, _)
            | Call::Finish(_, _, _)
            | Call::Sweep(_)
            | Call::SweepPart(_) => {}
        }
    }
}
