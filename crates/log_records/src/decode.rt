//! Reads records.
ghost use Rattle.std.specs.Prelude.{◌≡◌, IfErr, IfOk};
ghost use Rattle.log_records.specs.Decoding.{AnnouncesRecord, IsNext, Next, error_view, next_view};

use crate::change::Change;
use crate::head::{HEAD_LEN, split_head};
use crate::kind::Kind;
use crate::parts::{change_of, parts_in};

/// Why bytes do not begin with a record.
#[derive(Clone, Copy, Debug, PartialEq, Eq, Drop)]
pub enum RecordError {
    /// The record is of a kind that this version does not know.
    UnknownKind {
        /// The number of the kind.
        kind: u32,
    },
    /// No change has a record with such a head: a field that the kind does not use is not empty, or the body is too long.
    Malformed,
    /// The bytes end within a record.
    CutOff,
}

/// Returns the length of the record that begins with these bytes.
///
/// # Errors
///
/// - `UnknownKind` if the kind is of a later version.
/// - `Malformed` if no change has a record with such a head.
///
/// # Memory
///
/// The call never allocates.
pub fn announced_len(head: &[u8; HEAD_LEN]) -> Result<u64, RecordError>
    ensures ok { IfOk result (AnnouncesRecord head.now) }
    ensures err { IfErr result (λ e. IsNext head.now (error_view e)) }
{
    let (head, _) = split_head(head);
    let kind = match Kind::from_number(head.kind) {
        Some(kind) => kind,
        None => return Err(RecordError::UnknownKind { kind: head.kind }),
    };
    if !head.is_plain(kind) {
        return Err(RecordError::Malformed);
    }
    Ok(HEAD_LEN as u64 + head.payload_len() as u64)
}

/// Returns the change whose record begins the bytes, with the bytes after it, or `None` if there are no bytes.
///
/// # Errors
///
/// - `CutOff` if there is less than a head.
/// - `UnknownKind` if the kind is of a later version.
/// - `Malformed` if no change has a record with such a head.
/// - `CutOff` if there are fewer bytes than the head announces.
///
/// # Memory
///
/// The call never allocates.
pub fn next_record<'a>(bytes: &'a [u8]) -> Result<Option<(Change<'a>, &'a [u8])>, RecordError>
    ensures next { IsNext bytes.now (next_view result) }
    ensures only { (n : Next) → IsNext bytes.now n → next_view result ≡ n }
{
    if bytes.is_empty() {
        return Ok(None);
    }
    if bytes.len() < HEAD_LEN {
        return Err(RecordError::CutOff);
    }
    let (head, rest) = split_head(bytes);
    let kind = match Kind::from_number(head.kind) {
        Some(kind) => kind,
        None => return Err(RecordError::UnknownKind { kind: head.kind }),
    };
    if !head.is_plain(kind) {
        return Err(RecordError::Malformed);
    }
    let len = head.payload_len();
    if rest.len() < len {
        return Err(RecordError::CutOff);
    }
    let (payload, rest) = rest.split_at(len);
    Ok(Some((change_of(&parts_in(kind, &head, payload)), rest)))
}
