//! Queries: requests that read the store and change nothing.
ghost use Rattle.std.specs.Prelude.{◌≡◌, true, IsErrOf};
ghost use Rattle.blob_digest.specs.Outcomes.{Answers};
ghost use Rattle.blob_digest.specs.declared.refusal.Refusal.TheVariants.{Memory};
ghost use Rattle.wire_server.specs.Outcomes.{outcome_of};
ghost use Rattle.wire_server.specs.Queries.{IsQueryOutcome, query_has_fields, query_in, number_outcome, slot_use_outcome, usage_outcome};

use crate::outcome::RequestResult;
use blob_digest::Refusal;
use std::alloc::Global;
use store_api::{Queries, Query, Reply, digest_in, repo_in};
use store_model::{SlotUse, Usage};
use wire_format::RequestFrame;

/// Returns the query that a request spells. Returns `None` if no query has the number of its first byte.
///
/// # Errors
///
/// - The refusal of the first field that spells nothing, in the order repository, digest.
/// - `Memory`, if the query has a field.
pub fn request_query(alloc: Global, request: &RequestFrame<'_>) -> Result<Option<Query>, Refusal>
    ensures spelled { Answers (λ q. q) result (query_in request.now) }
    ensures fields { IsErrOf result Memory → query_has_fields request.now.head.command ≡ true }
{
    match request.head.command {
        17 => Ok(Some(Query::Stat {
            repo: repo_in(alloc, request.repo())?,
            digest: digest_in(request.digest())?,
        })),
        18 => Ok(Some(Query::StatManifest {
            repo: repo_in(alloc, request.repo())?,
            digest: digest_in(request.digest())?,
        })),
        19 => Ok(Some(Query::FreeSlots)),
        20 => Ok(Some(Query::Usage {
            repo: repo_in(alloc, request.repo())?,
        })),
        23 => Ok(Some(Query::SlotUse {
            repo: repo_in(alloc, request.repo())?,
        })),
        24 => Ok(Some(Query::RepoCount {
            repo: repo_in(alloc, request.repo())?,
        })),
        25 => Ok(Some(Query::SyncCount)),
        _ => Ok(None),
    }
}

/// Returns the outcome that reports one number.
fn number_outcome(number: Result<u64, Refusal>) -> RequestResult
    ensures { outcome_of result ≡ number_outcome number }
{
    match number {
        Ok(number) => RequestResult::QueryNumbers {
            first: number,
            second: 0,
        },
        Err(refusal) => RequestResult::Answered(Reply::Refused(refusal)),
    }
}

/// Returns the outcome that reports a tenant's use and quota.
fn usage_outcome(usage: Result<Usage, Refusal>) -> RequestResult
    ensures { outcome_of result ≡ usage_outcome usage }
{
    match usage {
        Ok(usage) => RequestResult::QueryNumbers {
            first: usage.used,
            second: usage.quota,
        },
        Err(refusal) => RequestResult::Answered(Reply::Refused(refusal)),
    }
}

/// Returns the outcome that reports a tenant's blobs and share.
fn slot_use_outcome(slot_use: Result<SlotUse, Refusal>) -> RequestResult
    ensures { outcome_of result ≡ slot_use_outcome slot_use }
{
    match slot_use {
        Ok(slot_use) => RequestResult::QueryNumbers {
            first: slot_use.blobs,
            second: u64::from(slot_use.share),
        },
        Err(refusal) => RequestResult::Answered(Reply::Refused(refusal)),
    }
}

/// Returns the outcome of a query on the store. It does not allocate.
pub(crate) fn query_store<B: Queries>(store: &B, query: &Query) -> RequestResult
    ensures { IsQueryOutcome B.finds store.now query.now (outcome_of result) }
{
    match query {
        Query::Stat { repo, digest } => number_outcome(store.stat(repo, digest)),
        Query::StatManifest { repo, digest } => number_outcome(store.stat_manifest(repo, digest)),
        Query::FreeSlots => RequestResult::QueryNumbers {
            first: u64::from(store.free_slots()),
            second: 0,
        },
        Query::Usage { repo } => usage_outcome(store.usage(repo)),
        Query::SlotUse { repo } => slot_use_outcome(store.slot_use(repo)),
        Query::RepoCount { repo } => number_outcome(store.repo_count(repo)),
        Query::SyncCount => RequestResult::QueryNumbers {
            first: store.sync_count(),
            second: 0,
        },
    }
}
