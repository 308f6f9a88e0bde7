//! Commands, and the fields that spell them.
ghost use Rattle.std.specs.Prelude.{◌≡◌, true, IsSome, Some};
ghost use Rattle.blob_digest.specs.Outcomes.{Answers};
ghost use Rattle.store_api.specs.CommandViews.{command_of_fields, command_view};
ghost use Rattle.store_api.specs.Commands.{digest_in, is_command, repo_in, source_in, uses_session};

use crate::verb::Verb;
use blob_digest::{ByteRange, Digest, Refusal, RepoName};
use std::alloc::Global;

/// A command of a store that returns a reply: its repository and its other arguments.
///
/// A request for a lease is not a command. The bytes of a chunk or of a manifest are borrowed from the request.
#[derive(Drop)]
pub enum Command<'r> {
    /// Opens an upload session.
    Start {
        repo: RepoName,
    },
    /// Reads the number of bytes that a session has received.
    Status {
        repo: RepoName,
        number: u32,
    },
    /// Adds a chunk to a session.
    Append {
        repo: RepoName,
        number: u32,
        range: Option<ByteRange>,
        bytes: &'r [u8],
    },
    /// Closes a session with its last chunk.
    Close {
        repo: RepoName,
        number: u32,
        digest: Digest,
        range: Option<ByteRange>,
        bytes: &'r [u8],
    },
    /// Abandons a session.
    Abandon {
        repo: RepoName,
        number: u32,
    },
    /// Links a blob from the source repository or, without a source, from any repository of the tenant.
    /// If the tenant has no such blob, it opens an upload session.
    Mount {
        repo: RepoName,
        digest: Digest,
        from: Option<RepoName>,
    },
    /// Removes the link between a repository and a blob.
    Delete {
        repo: RepoName,
        digest: Digest,
    },
    /// Stores a manifest in a repository.
    PutManifest {
        repo: RepoName,
        bytes: &'r [u8],
    },
    /// Reads a manifest of a repository.
    GetManifest {
        repo: RepoName,
        digest: Digest,
    },
    /// Removes a manifest from a repository.
    DeleteManifest {
        repo: RepoName,
        digest: Digest,
    },
    /// Removes a repository that is not in use.
    RemoveRepo {
        repo: RepoName,
    },
}

/// Returns the repository name that a field spells.
///
/// # Errors
/// - `NameInvalid` if the name is malformed.
/// - `Memory` if allocation fails.
pub fn repo_in(alloc: Global, text: &[u8]) -> Result<RepoName, Refusal>
    ensures { Answers (λ r. r) result (repo_in text.now) }
{
    RepoName::parse(alloc, text)
}

/// Returns the digest that a field spells.
///
/// # Errors
/// - `DigestInvalid` if the digest is malformed.
///
/// # Memory
/// Allocates nothing.
pub fn digest_in(text: &[u8]) -> Result<Digest, Refusal>
    ensures { result ≡ digest_in text.now }
{
    Digest::parse(text)
}

/// Returns the source repository that a field spells, or none if the field is empty.
#[tactic(auto, using(crate::proofs::FieldTexts::source_ok, crate::proofs::FieldTexts::source_bad))]
fn source_in(alloc: Global, text: &[u8]) -> Result<Option<RepoName>, Refusal>
    ensures { Answers (λ r. r) result (source_in text.now) }
{
    if text.is_empty() {
        return Ok(None);
    }
    let from = RepoName::parse(alloc, text)?;
    Ok(Some(from))
}

/// The fields that spell a command.
#[derive(Drop)]
pub struct Fields<'r> {
    /// The repository's name.
    pub repo: &'r [u8],
    /// The name of the repository that a blob is mounted from, or nothing.
    pub source: &'r [u8],
    /// The digest's text.
    pub digest: &'r [u8],
    /// The range of a chunk, or the error of its text.
    pub range: Result<Option<ByteRange>, Refusal>,
    /// The number of a session.
    pub number: Option<u32>,
    /// The bytes of a chunk or of a manifest.
    pub body: &'r [u8],
}

/// Returns the number of a session.
fn session_in(number: Option<u32>) -> u32
    requires { IsSome number }
    ensures { number ≡ Some result }
{
    match number {
        Some(number) => number,
        None => unreachable!(),
    }
}

/// Returns the command that a verb and its fields spell.
///
/// # Errors
/// - The refusal of the first malformed field that the verb uses, in the order repository, source, digest, range.
/// - `Memory` if a name cannot be allocated.
///
/// # Cost
/// Copies the names of repositories. The bytes of a chunk or of a manifest are borrowed.
pub fn command_from<'r>(
    alloc: Global,
    verb: Verb,
    fields: Fields<'r>,
) -> Result<Command<'r>, Refusal>
    requires command { is_command verb ≡ true }
    requires session { uses_session verb ≡ true → IsSome fields.number }
    ensures { Answers (λ c. Some (command_view c)) result (command_of_fields verb fields.entry) }
{
    let Fields {
        repo,
        source,
        digest,
        range,
        number,
        body,
    } = fields;
    let repo = repo_in(alloc, repo)?;
    match verb {
        Verb::Start => Ok(Command::Start { repo }),
        Verb::Status => Ok(Command::Status {
            repo,
            number: session_in(number),
        }),
        Verb::Append => Ok(Command::Append {
            repo,
            number: session_in(number),
            range: range?,
            bytes: body,
        }),
        Verb::Close => Ok(Command::Close {
            repo,
            number: session_in(number),
            digest: digest_in(digest)?,
            range: range?,
            bytes: body,
        }),
        Verb::Abandon => Ok(Command::Abandon {
            repo,
            number: session_in(number),
        }),
        Verb::Mount => Ok(Command::Mount {
            repo,
            from: source_in(alloc, source)?,
            digest: digest_in(digest)?,
        }),
        Verb::Delete => Ok(Command::Delete {
            repo,
            digest: digest_in(digest)?,
        }),
        Verb::PutManifest => Ok(Command::PutManifest { repo, bytes: body }),
        Verb::GetManifest => Ok(Command::GetManifest {
            repo,
            digest: digest_in(digest)?,
        }),
        Verb::DeleteManifest => Ok(Command::DeleteManifest {
            repo,
            digest: digest_in(digest)?,
        }),
        Verb::RemoveRepo => Ok(Command::RemoveRepo { repo }),
        _ => unreachable!(),
    }
}
