//! Checks that a row has the fields that its command needs.
ghost use Rattle.std.specs.Prelude.{◌≡◌};
ghost use Rattle.std.specs.List.{list_all};
ghost use Rattle.blob_digest.specs.Names.{is_alnum};
ghost use Rattle.script_player.specs.Rows.{has_needed_fields, is_lease_name, session_number};

use blob_digest::decimal;
use store_api::Verb;

/// Returns the session number that a field spells: 1 to 4,294,967,295, in at most ten digits.
pub fn session(text: &[u8]) -> Option<u32>
    ensures { result ≡ session_number text.now }
{
    let value = decimal(text)?;
    if text.len() <= 10 && 1 <= value && value <= 4_294_967_295 {
        Some(value as u32)
    } else {
        None
    }
}

/// Returns whether a byte may occur in a lease's name: a lower-case letter or a digit.
fn is_name_byte(c: u8) -> bool
    ensures { result ≡ is_alnum c }
{
    matches!(c, b'a'..=b'z' | b'0'..=b'9')
}

/// Returns whether every byte of a text may occur in a lease's name.
fn all_name_bytes(text: &[u8]) -> bool
    ensures { result ≡ list_all is_alnum text.now }
{
    text.iter().all(|c| is_name_byte(*c))
}

/// Returns whether a text is a lease's name: 1 to 32 lower-case letters and digits.
fn is_lease_name(text: &[u8]) -> bool
    ensures { result ≡ is_lease_name text.now }
{
    1 <= text.len() && text.len() <= 32 && all_name_bytes(text)
}

/// Returns whether a command has the fields that it needs, and no field that it does not use.
///
/// It does not check the syntax of repositories, sources, digests and ranges.
///
/// # Memory
/// Allocates nothing.
pub fn has_fields(
    verb: Verb,
    repo: &[u8],
    key: &[u8],
    digest: &[u8],
    range: &[u8],
    body: &[u8],
) -> bool
    ensures { result ≡ has_needed_fields verb repo.now key.now digest.now range.now body.now }
{
    match verb {
        Verb::Start | Verb::RemoveRepo => {
            key.is_empty() && digest.is_empty() && range.is_empty() && body.is_empty()
        }
        Verb::Status | Verb::Abandon => {
            session(key).is_some() && digest.is_empty() && range.is_empty() && body.is_empty()
        }
        Verb::Append => session(key).is_some() && digest.is_empty(),
        Verb::Close => session(key).is_some(),
        Verb::Mount => range.is_empty() && body.is_empty(),
        Verb::Delete | Verb::GetManifest | Verb::DeleteManifest => {
            key.is_empty() && range.is_empty() && body.is_empty()
        }
        Verb::PutManifest => key.is_empty() && digest.is_empty() && range.is_empty(),
        Verb::Lease => is_lease_name(key) && range.is_empty() && body.is_empty(),
        Verb::Read => {
            is_lease_name(key) && repo.is_empty() && digest.is_empty() && body.is_empty()
        }
        Verb::Share => {
            is_lease_name(key)
                && is_lease_name(body)
                && repo.is_empty()
                && digest.is_empty()
                && range.is_empty()
        }
        Verb::Verify | Verb::GiveBack => {
            is_lease_name(key)
                && repo.is_empty()
                && digest.is_empty()
                && range.is_empty()
                && body.is_empty()
        }
        Verb::Sweep => {
            repo.is_empty()
                && key.is_empty()
                && digest.is_empty()
                && range.is_empty()
                && body.is_empty()
        }
    }
}
