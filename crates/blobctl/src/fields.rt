//! The row that a record's fields spell.
ghost use Rattle.std.specs.Prelude.{◌≡◌, option_map};
ghost use Rattle.csv.specs.Records.{fields_of};
ghost use Rattle.script_player.specs.RowViews.{borrowed_view};
ghost use Rattle.blobctl.specs.Records.{field_or_empty, head_of, lane_of, row_of, verb_of};

use blob_digest::decimal;
use csv::ByteRecord;
use script_player::{BorrowedRow, has_fields};
use store_api::Verb;

/// Returns the command of a name.
fn verb_named(name: &[u8]) -> Option<Verb>
    ensures { result ≡ verb_of name.now }
{
    if name == b"start".as_slice() {
        Some(Verb::Start)
    } else if name == b"status".as_slice() {
        Some(Verb::Status)
    } else if name == b"append".as_slice() {
        Some(Verb::Append)
    } else if name == b"close".as_slice() {
        Some(Verb::Close)
    } else if name == b"abandon".as_slice() {
        Some(Verb::Abandon)
    } else if name == b"mount".as_slice() {
        Some(Verb::Mount)
    } else if name == b"delete".as_slice() {
        Some(Verb::Delete)
    } else if name == b"put_manifest".as_slice() {
        Some(Verb::PutManifest)
    } else if name == b"get_manifest".as_slice() {
        Some(Verb::GetManifest)
    } else if name == b"delete_manifest".as_slice() {
        Some(Verb::DeleteManifest)
    } else if name == b"lease".as_slice() {
        Some(Verb::Lease)
    } else if name == b"read".as_slice() {
        Some(Verb::Read)
    } else if name == b"share".as_slice() {
        Some(Verb::Share)
    } else if name == b"verify".as_slice() {
        Some(Verb::Verify)
    } else if name == b"give_back".as_slice() {
        Some(Verb::GiveBack)
    } else if name == b"sweep".as_slice() {
        Some(Verb::Sweep)
    } else {
        None
    }
}

/// Returns the lane that a field spells: one to three digits of a value up to 255.
fn lane(text: &[u8]) -> Option<u8>
    ensures { result ≡ lane_of text.now }
{
    let value = decimal(text)?;
    if text.len() <= 3 && value <= 255 {
        Some(value as u8)
    } else {
        None
    }
}

/// Returns the bytes of a record's field, or no bytes if there is no such field.
fn field_at(fields: &ByteRecord, place: usize) -> &[u8]
    ensures { result.now ≡ field_or_empty (fields_of fields.now) place }
{
    fields.get(place).unwrap_or(&[])
}

/// Returns the lane and the command of a record of seven fields.
fn lane_and_verb(fields: &ByteRecord) -> Option<(u8, Verb)>
    ensures { result ≡ head_of (fields_of fields.now) }
{
    if fields.len() != 7 {
        return None;
    }
    let lane = lane(field_at(fields, 0))?;
    let verb = verb_named(field_at(fields, 1))?;
    Some((lane, verb))
}

/// Returns the row that a record spells, or `None` if the record is bad.
pub fn read_row(fields: &ByteRecord) -> Option<BorrowedRow<'_>>
    ensures { option_map borrowed_view result ≡ row_of (fields_of fields.now) }
{
    let (lane, verb) = lane_and_verb(fields)?;
    let repo = field_at(fields, 2);
    let key = field_at(fields, 3);
    let digest = field_at(fields, 4);
    let range = field_at(fields, 5);
    let body = field_at(fields, 6);
    if !has_fields(verb, repo, key, digest, range, body) {
        return None;
    }
    Some(BorrowedRow {
        lane,
        verb,
        repo,
        key,
        digest,
        range,
        body,
    })
}
