//! Reads the verb, the range and the command that a request spells.
ghost use Rattle.std.specs.Prelude.{◌≡◌, ◌≢◌, ◌^◌, ◌<◌, ◌≤◌, IfSome, Some, true};
ghost use Rattle.blob_digest.specs.Outcomes.{Answers};
ghost use Rattle.wire_server.specs.Requests.{command_in, ends_of, range_of, verb_of};
ghost use Rattle.store_api.specs.CommandViews.{command_view};
ghost use Rattle.store_api.specs.Commands.{Lease, is_command, range_of_ends};

use blob_digest::{ByteRange, Digest, Refusal, RepoName};
use std::alloc::Global;
use store_api::{Command, Fields, Verb, command_from, digest_in, repo_in};
use wire_format::{Head, RequestFrame};

/// Returns the verb that a request's first byte names. Returns `None` if no verb has the number.
pub fn verb_of(byte: u8) -> Option<Verb>
    ensures verb { result ≡ verb_of byte }
    ensures known { IfSome result (λ v. (v ≢ Verb.Share) × (v ≢ Verb.Verify)) }
{
    match byte {
        1 => Some(Verb::Start),
        2 => Some(Verb::Status),
        3 => Some(Verb::Append),
        4 => Some(Verb::Close),
        5 => Some(Verb::Abandon),
        6 => Some(Verb::Mount),
        7 => Some(Verb::Delete),
        8 => Some(Verb::PutManifest),
        9 => Some(Verb::GetManifest),
        10 => Some(Verb::DeleteManifest),
        11 => Some(Verb::Lease),
        12 => Some(Verb::Read),
        13 => Some(Verb::GiveBack),
        14 => Some(Verb::Sweep),
        22 => Some(Verb::RemoveRepo),
        _ => None,
    }
}

/// Returns the range of two ends. Fails with `SizeInvalid` if the start is past the end, or the end above 2^63 - 1.
fn range_between(start: u64, end: u64) -> Result<Option<ByteRange>, Refusal>
    ensures { result ≡ range_of_ends (Some (start, end)) }
{
    if start <= end && end < 9_223_372_036_854_775_808 {
        Ok(Some(ByteRange { start, end }))
    } else {
        Err(Refusal::SizeInvalid)
    }
}

/// Returns the range that a head names. Returns `None` if its flag is not set.
///
/// # Errors
///
/// `SizeInvalid`, if the start is past the end, or the end is above 2^63 - 1.
pub fn range_of(head: &Head) -> Result<Option<ByteRange>, Refusal>
    ensures { result ≡ range_of head.now }
{
    if head.flags % 2 == 1 {
        range_between(head.start, head.end)
    } else {
        Ok(None)
    }
}

/// Returns the first and the last place that a read names. Without a range these are the places 0 and 2^63 - 1.
pub fn ends_of(range: Option<ByteRange>) -> (u64, u64)
    ensures ends { result ≡ ends_of range }
    ensures ordered { result.0 ≤ result.1 }
    ensures small { result.1 < 2 ^ 63 }
{
    match range {
        Some(range) => (range.start, range.end),
        None => (0, 9_223_372_036_854_775_807),
    }
}

/// Returns the command that a request spells, by the rules of a script's row.
///
/// # Errors
///
/// - The refusal of the first field that spells nothing, in the order repository, source, digest, range. Fields that the
///   command does not use are not read.
/// - `Memory`, which may replace an error of a later field.
pub fn request_command<'b>(
    alloc: Global,
    verb: Verb,
    request: &RequestFrame<'b>,
) -> Result<Command<'b>, Refusal>
    requires { is_command verb ≡ true }
    ensures { Answers (λ c. Some (command_view c)) result (command_in verb request.now) }
{
    command_from(
        alloc,
        verb,
        Fields {
            repo: request.repo(),
            source: request.source(),
            digest: request.digest(),
            range: range_of(&request.head),
            number: Some(request.head.number),
            body: request.body(),
        },
    )
}

/// Returns the repository and the digest of a request for a lease.
pub fn lease_target(
    alloc: Global,
    request: &RequestFrame<'_>,
) -> Result<(RepoName, Digest), Refusal>
    ensures { Answers (λ p. Some (Lease p.0 p.1)) result (command_in Verb.Lease request.now) }
{
    let repo = repo_in(alloc, request.repo())?;
    let digest = digest_in(request.digest())?;
    Ok((repo, digest))
}
