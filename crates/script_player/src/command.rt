//! The command that a row spells.
ghost use Rattle.std.specs.Prelude.{◌≡◌, true, Some};
ghost use Rattle.blob_digest.specs.Outcomes.{Answers};
ghost use Rattle.script_player.specs.RowCommands.{command_of, range_in};
ghost use Rattle.script_player.specs.RowViews.{borrowed_view};
ghost use Rattle.store_api.specs.CommandViews.{command_view};
ghost use Rattle.store_api.specs.Commands.{is_command};

use crate::fields::session;
use crate::row::BorrowedRow;
use blob_digest::{ByteRange, Refusal};
use std::alloc::Global;
use store_api::{Command, Fields, command_from};

/// Returns the range that a field spells, or none if the field is empty.
#[tactic(auto, using(crate::proofs::FieldTexts::range_ok, crate::proofs::FieldTexts::range_bad))]
fn range_in(text: &[u8]) -> Result<Option<ByteRange>, Refusal>
    ensures { result ≡ range_in text.now }
{
    if text.is_empty() {
        return Ok(None);
    }
    let range = ByteRange::parse(text)?;
    Ok(Some(range))
}

/// Returns the command that a row spells.
///
/// # Errors
/// - The refusal of the first malformed field, in the order repository, source, digest, range.
/// - `Memory` if allocation fails.
pub fn command_in<'r>(alloc: Global, row: &BorrowedRow<'r>) -> Result<Command<'r>, Refusal>
    requires { is_command row.now.verb ≡ true }
    ensures { Answers (λ c. Some (command_view c)) result (command_of (borrowed_view row.now)) }
{
    command_from(
        alloc,
        row.verb,
        Fields {
            repo: row.repo,
            source: row.key,
            digest: row.digest,
            range: range_in(row.range),
            number: session(row.key),
            body: row.body,
        },
    )
}
