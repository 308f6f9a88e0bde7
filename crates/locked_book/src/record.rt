//! The records of calls.

ghost use Rattle.std.specs.Prelude.{◌≡◌, ◌++◌, ◌≤◌, ◌^◌, IfErr, IfOk, IfSome, OnOk, [], is_some, length, string_bytes};
ghost use Rattle.content_files.specs.Chunks.{chunk_notes};
ghost use Rattle.blob_digest.specs.Digests.{IsDigestText};
ghost use Rattle.blob_digest.specs.Names.{tenant_name};
ghost use Rattle.blob_digest.specs.declared.refusal.Refusal.TheVariants.{Memory};
ghost use Rattle.log_records.specs.Changes as logged;
ghost use Rattle.log_records.specs.Changes.{IsChange, change_view, max_body};
ghost use Rattle.log_records.specs.Records.{record_bytes};
ghost use Rattle.locked_book.specs.Calls.{step_of};
ghost use Rattle.locked_book.specs.Logging.{IsSmall, chunk_bytes, logged_chunk, logged_seal, manifest_bytes, mount_bytes, seal_bytes, step_bytes};
ghost use Rattle.locked_book.specs.Recording.{IsRecordOf, RecordsNotedChunk, RecordsNotedSeal};

use crate::call::Call;
use crate::names::{Naming, StoreLog};
use crate::policy::LogPolicy;
use crate::step::Step;
use blob_digest::{Digest, Refusal, RepoName};
use durable_log::Backlog;
use log_records::{Change, MAX_BODY, append_record};
use std::alloc::Global;
use store_book::Mount;

/// Returns the text of a digest.
fn digest_text(alloc: Global, digest: &Digest) -> Result<String, Refusal>
    ensures text { IfOk result (λ t. (string_bytes t ≡ digest.now) × IsDigestText digest.now) }
    ensures refused { IfErr result (λ e. e ≡ Memory) }
{
    let mut text = String::new(alloc);
    digest.write(&mut text)?;
    Ok(text)
}

/// Fails with `Memory` if bytes are longer than the longest blob. No session has room for such a chunk.
fn check_body(bytes: &[u8]) -> Result<(), Refusal>
    ensures ok { OnOk result (length bytes.now ≤ max_body) }
    ensures refused { IfErr result (λ e. e ≡ Memory) }
{
    if bytes.len() as u64 > MAX_BODY {
        return Err(Refusal::Memory);
    }
    Ok(())
}

/// Appends the record of a change.
fn append(out: &mut Vec<u8>, change: &Change<'_>) -> Result<(), Refusal>
    requires { IsChange (change_view change.now) }
    ensures ok { OnOk result (out.new.items ≡ out.old.items
        ++ record_bytes (change_view change.now)) }
    ensures refused { IfErr result (λ e. e ≡ Memory) }
{
    append_record(out, change)?;
    Ok(())
}

/// Appends the record of a session that was opened.
fn append_opened(out: &mut Vec<u8>, repo: &RepoName, number: u32) -> Result<(), Refusal>
    ensures ok { OnOk result (out.new.items ≡ out.old.items
        ++ record_bytes (logged.SessionOpened repo.now number)) }
{
    let change = Change::SessionOpened {
        repo: repo.text().as_bytes(),
        number: u64::from(number),
    };
    append(out, &change)
}

/// Appends the record of a session that was abandoned.
fn append_dropped(out: &mut Vec<u8>, repo: &RepoName, number: u32) -> Result<(), Refusal>
    ensures ok { OnOk result (out.new.items ≡ out.old.items
        ++ record_bytes (logged.SessionDropped (tenant_name repo.now) number)) }
{
    let change = Change::SessionDropped {
        tenant: repo.tenant().as_bytes(),
        number: u64::from(number),
    };
    append(out, &change)
}

/// Appends the record of a blob that was linked.
fn append_linked(
    alloc: Global,
    out: &mut Vec<u8>,
    repo: &RepoName,
    digest: &Digest,
) -> Result<(), Refusal>
    ensures ok { OnOk result (out.new.items ≡ out.old.items
        ++ record_bytes (logged.BlobLinked repo.now digest.now)) }
{
    let text = digest_text(alloc, digest)?;
    let change = Change::BlobLinked {
        repo: repo.text().as_bytes(),
        digest: text.as_str().as_bytes(),
    };
    append(out, &change)
}

/// Appends the record of a mount: of the link, or of the session that it opened.
fn append_mounted(
    alloc: Global,
    out: &mut Vec<u8>,
    repo: &RepoName,
    digest: &Digest,
    mount: &Mount,
) -> Result<(), Refusal>
    ensures ok { OnOk result (out.new.items ≡ out.old.items
        ++ mount_bytes repo.now digest.now mount.now) }
{
    match mount {
        Mount::Mounted => append_linked(alloc, out, repo, digest),
        Mount::Session(number) => append_opened(out, repo, *number),
    }
}

/// Appends the record of a link that was removed.
fn append_unlinked(
    alloc: Global,
    out: &mut Vec<u8>,
    repo: &RepoName,
    digest: &Digest,
) -> Result<(), Refusal>
    ensures ok { OnOk result (out.new.items ≡ out.old.items
        ++ record_bytes (logged.BlobUnlinked repo.now digest.now)) }
{
    let text = digest_text(alloc, digest)?;
    let change = Change::BlobUnlinked {
        repo: repo.text().as_bytes(),
        digest: text.as_str().as_bytes(),
    };
    append(out, &change)
}

/// Appends the record of a manifest that was deleted.
fn append_deleted(
    alloc: Global,
    out: &mut Vec<u8>,
    repo: &RepoName,
    digest: &Digest,
) -> Result<(), Refusal>
    ensures ok { OnOk result (out.new.items ≡ out.old.items
        ++ record_bytes (logged.ManifestDeleted repo.now digest.now)) }
{
    let text = digest_text(alloc, digest)?;
    let change = Change::ManifestDeleted {
        repo: repo.text().as_bytes(),
        digest: text.as_str().as_bytes(),
    };
    append(out, &change)
}

/// Appends the record of a repository that was removed.
fn append_removed(out: &mut Vec<u8>, repo: &RepoName) -> Result<(), Refusal>
    ensures ok { OnOk result (out.new.items ≡ out.old.items
        ++ record_bytes (logged.RepoRemoved repo.now)) }
{
    let change = Change::RepoRemoved {
        repo: repo.text().as_bytes(),
    };
    append(out, &change)
}

/// Appends the record of a call without a body, if the call changed something durable.
pub fn append_call<S: Naming>(
    alloc: Global,
    out: &mut Vec<u8>,
    call: &Call<'_>,
) -> Result<(), Refusal>
    requires small { IsSmall call.now }
    ensures ok { OnOk result (out.new.items ≡ out.old.items
        ++ step_bytes S.names.longest (step_of call.now)) }
{
    match call {
        Call::Start(repo, Ok(number)) => append_opened(out, repo, *number),
        Call::Abandon(repo, number, Ok(_)) => append_dropped(out, repo, *number),
        Call::Mount(repo, digest, _, Ok(mount)) => append_mounted(alloc, out, repo, digest, mount),
        Call::Delete(repo, digest, Ok(())) => append_unlinked(alloc, out, repo, digest),
        Call::DeleteManifest(repo, digest, Ok(())) => append_deleted(alloc, out, repo, digest),
        Call::RemoveRepo(repo, Ok(())) => append_removed(out, repo),
        _ => Ok(()),
    }
}

/// Makes the record of a call without a body, if the log records. If there is no memory for it, the log is closed.
pub fn record_call<S: Naming>(
    alloc: Global,
    policy: LogPolicy,
    backlog: &mut Backlog<Step, StoreLog<S>>,
    bytes: &mut Vec<u8>,
    call: &Call<'_>,
)
    requires policy { policy ≡ S.names.policy }
    requires small { IsSmall call.now }
    ensures same { (backlog.new.history ≡ backlog.old.history) ×
        (backlog.new.writers ≡ backlog.old.writers) }
    ensures bytes { IsRecordOf S.names backlog.new bytes.new.items (step_of call.now) }
{
    bytes.clear();
    if !policy.has_log() || !backlog.is_recording() {
        return;
    }
    if append_call::<S>(alloc, bytes, call).is_err() {
        backlog.close();
    }
}

/// Appends the record of a chunk in a file, with the notes of its pieces.
fn append_noted(
    out: &mut Vec<u8>,
    repo: &RepoName,
    number: u32,
    notes: &[u8],
) -> Result<(), Refusal>
    requires short { length notes.now ≤ max_body }
    ensures ok { OnOk result (out.new.items ≡ out.old.items
        ++ record_bytes (logged.ChunkNoted (tenant_name repo.now) number notes.now)) }
    ensures refused { IfErr result (λ e. e ≡ Memory) }
{
    let change = Change::ChunkNoted {
        tenant: repo.tenant().as_bytes(),
        number: u64::from(number),
        notes,
    };
    append(out, &change)
}

/// Appends the record of a session that was closed and lies in a file, with the notes of its last chunk's pieces.
fn append_noted_seal(
    out: &mut Vec<u8>,
    repo: &RepoName,
    number: u32,
    digest: &str,
    notes: &[u8],
) -> Result<(), Refusal>
    requires digest { IsDigestText digest.now }
    requires short { length notes.now ≤ max_body }
    ensures ok { OnOk result (out.new.items ≡ out.old.items
        ++ record_bytes (logged.SealNoted (tenant_name repo.now) number digest.now notes.now)) }
    ensures refused { IfErr result (λ e. e ≡ Memory) }
{
    let change = Change::SealNoted {
        tenant: repo.tenant().as_bytes(),
        number: u64::from(number),
        digest: digest.as_bytes(),
        notes,
    };
    append(out, &change)
}

/// Appends the record of a chunk: of its notes if there are some, and otherwise of its bytes.
#[tactic(auto, using(crate::proofs::NoteLengths::notes_short))]
fn append_chunk(
    out: &mut Vec<u8>,
    repo: &RepoName,
    number: u32,
    bytes: &[u8],
    notes: Option<&[u8]>,
) -> Result<(), Refusal>
    requires notes { IfSome notes (λ n. n.now ≡ chunk_notes bytes.now) }
    requires short { length bytes.now ≤ max_body }
    ensures ok { OnOk result (out.new.items ≡ out.old.items
        ++ record_bytes (logged_chunk (is_some notes.entry) (tenant_name repo.now) number
        bytes.now)) }
    ensures refused { IfErr result (λ e. e ≡ Memory) }
{
    match notes {
        None => append(
            out,
            &Change::ChunkReceived {
                tenant: repo.tenant().as_bytes(),
                number: u64::from(number),
                bytes,
            },
        ),
        Some(notes) => append_noted(out, repo, number, notes),
    }
}

/// Appends the record of a session that was closed: with the notes of its last chunk if there are some, and otherwise with the bytes.
#[tactic(auto, using(crate::proofs::NoteLengths::notes_short))]
fn append_sealed(
    alloc: Global,
    out: &mut Vec<u8>,
    repo: &RepoName,
    number: u32,
    digest: &Digest,
    last: &[u8],
    notes: Option<&[u8]>,
) -> Result<(), Refusal>
    requires notes { IfSome notes (λ n. n.now ≡ chunk_notes last.now) }
    requires short { length last.now ≤ max_body }
    ensures ok { OnOk result (out.new.items ≡ out.old.items
        ++ record_bytes (logged_seal (is_some notes.entry) (tenant_name repo.now) number digest.now
        last.now)) }
    ensures refused { IfErr result (λ e. e ≡ Memory) }
{
    let text = digest_text(alloc, digest)?;
    match notes {
        None => append(
            out,
            &Change::SessionSealed {
                tenant: repo.tenant().as_bytes(),
                number: u64::from(number),
                digest: text.as_str().as_bytes(),
                last,
            },
        ),
        Some(notes) => append_noted_seal(out, repo, number, text.as_str(), notes),
    }
}

/// Returns the record of a chunk that a session received. It is empty if the store has no log, or the chunk no bytes.
///
/// With notes, the content of the session lies in a file, and the record has the notes in place of the bytes.
pub fn chunk_record(
    alloc: Global,
    policy: LogPolicy,
    repo: &RepoName,
    number: u32,
    bytes: &[u8],
    notes: Option<&[u8]>,
) -> Result<Vec<u8>, Refusal>
    requires notes { IfSome notes (λ n. n.now ≡ chunk_notes bytes.now) }
    ensures made { IfOk result (λ r.
        r.items ≡ chunk_bytes policy (is_some notes.entry) (tenant_name repo.now) number
        bytes.now) }
    ensures refused { IfErr result (λ e. e ≡ Memory) }
{
    let mut record = Vec::new(alloc);
    if policy.has_log() && !bytes.is_empty() {
        check_body(bytes)?;
        append_chunk(&mut record, repo, number, bytes, notes)?;
    }
    Ok(record)
}

/// Returns the record of a session that was closed with a last chunk. It is empty if the store has no log.
///
/// With notes, the content of the session lies in a file, and the record has the notes in place of the last bytes.
pub fn seal_record(
    alloc: Global,
    policy: LogPolicy,
    repo: &RepoName,
    number: u32,
    digest: &Digest,
    last: &[u8],
    notes: Option<&[u8]>,
) -> Result<Vec<u8>, Refusal>
    requires notes { IfSome notes (λ n. n.now ≡ chunk_notes last.now) }
    ensures made { IfOk result (λ r.
        r.items ≡ seal_bytes policy (is_some notes.entry) (tenant_name repo.now) number digest.now
        last.now) }
    ensures refused { IfErr result (λ e. e ≡ Memory) }
{
    let mut record = Vec::new(alloc);
    if policy.has_log() {
        check_body(last)?;
        append_sealed(alloc, &mut record, repo, number, digest, last, notes)?;
    }
    Ok(record)
}

/// Returns the record of a chunk that a session received and whose content lies in a file, from the notes of its pieces. It is
/// empty if the store has no log, or there are no notes.
pub fn noted_chunk_record(
    alloc: Global,
    policy: LogPolicy,
    repo: &RepoName,
    number: u32,
    notes: &[u8],
) -> Result<Vec<u8>, Refusal>
    ensures made { IfOk result (λ r.
        RecordsNotedChunk policy (tenant_name repo.now) number notes.now r.items) }
    ensures refused { IfErr result (λ e. e ≡ Memory) }
{
    let mut record = Vec::new(alloc);
    if !policy.has_log() {
        return Ok(record);
    }
    if notes.is_empty() {
        return Ok(record);
    }
    check_body(notes)?;
    append_noted(&mut record, repo, number, notes)?;
    Ok(record)
}

/// Returns the record of a session that was closed and whose content lies in a file, from the notes of its last chunk's pieces. It
/// is empty if the store has no log.
pub fn noted_seal_record(
    alloc: Global,
    policy: LogPolicy,
    repo: &RepoName,
    number: u32,
    digest: &Digest,
    notes: &[u8],
) -> Result<Vec<u8>, Refusal>
    ensures made { IfOk result (λ r.
        RecordsNotedSeal policy (tenant_name repo.now) number digest.now notes.now r.items) }
    ensures refused { IfErr result (λ e. e ≡ Memory) }
{
    let mut record = Vec::new(alloc);
    if policy.has_log() {
        check_body(notes)?;
        let text = digest_text(alloc, digest)?;
        append_noted_seal(&mut record, repo, number, text.as_str(), notes)?;
    }
    Ok(record)
}

/// Returns the record of a manifest that was put. It is empty if the store has no log.
pub fn manifest_record(
    alloc: Global,
    policy: LogPolicy,
    repo: &RepoName,
    bytes: &[u8],
) -> Result<Vec<u8>, Refusal>
    ensures made { IfOk result (λ r. r.items ≡ manifest_bytes policy repo.now bytes.now) }
    ensures refused { IfErr result (λ e. e ≡ Memory) }
{
    let mut record = Vec::new(alloc);
    if policy.has_log() {
        check_body(bytes)?;
        let change = Change::ManifestPut {
            repo: repo.text().as_bytes(),
            bytes,
        };
        append(&mut record, &change)?;
    }
    Ok(record)
}
