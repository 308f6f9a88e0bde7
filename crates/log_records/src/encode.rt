//! Appends records to a vector.
ghost use Rattle.std.specs.Prelude.{◌≡◌, ◌≤◌, ◌+◌, ◌++◌, IsOk, OnErr, OnOk, length, vec_capacity, vec_len};
ghost use Rattle.log_records.specs.Changes.{IsChange, change_view};
ghost use Rattle.log_records.specs.Records.{record_for, record_length};

use crate::change::Change;
use crate::head::{HEAD_LEN, Head, head_bytes};
use crate::parts::{Parts, parts_of};
use std::alloc::AllocError;

/// Returns the length of a change's record, in bytes.
pub fn record_len(change: &Change<'_>) -> u64
    requires { IsChange (change_view change.now) }
    ensures { result ≡ record_length change.now }
{
    let parts = parts_of(change);
    HEAD_LEN as u64 + parts.name.len() as u64 + parts.digest.len() as u64 + parts.body.len() as u64
}

/// Appends bytes to a vector that has room for them.
fn put(out: &mut Vec<u8>, bytes: &[u8])
    requires { vec_len out.old + length bytes.now ≤ vec_capacity out.old }
    ensures items { out.new.items ≡ out.old.items ++ bytes.now }
    ensures capacity { vec_capacity out.old ≤ vec_capacity out.new }
{
    match out.extend_from_slice(bytes) {
        Ok(()) => {}
        Err(_) => unreachable!(),
    }
}

/// Appends the record of a change to a vector that has room for it.
///
/// # Memory
///
/// The call never allocates.
pub fn append_reserved(out: &mut Vec<u8>, change: &Change<'_>)
    requires change { IsChange (change_view change.now) }
    requires room { vec_len out.old + record_length change.now ≤ vec_capacity out.old }
    ensures items { out.new.items ≡ out.old.items ++ record_for change.now }
    ensures capacity { vec_capacity out.old ≤ vec_capacity out.new }
{
    let Parts {
        kind,
        name,
        digest,
        number,
        body,
    } = parts_of(change);
    let head = Head {
        kind: kind.number(),
        name_len: name.len() as u16,
        digest_len: digest.len() as u16,
        number,
        body_len: body.len() as u64,
    };
    put(out, &head_bytes(&head));
    put(out, name);
    put(out, digest);
    put(out, body);
}

/// Appends the record of a change to a vector.
///
/// # Errors
///
/// - `AllocError` if the vector cannot grow. Then its elements are unchanged.
///
/// # Memory
///
/// The call reserves room for the record once. It allocates only if the vector has less room than that.
pub fn append_record(out: &mut Vec<u8>, change: &Change<'_>) -> Result<(), AllocError>
    requires { IsChange (change_view change.now) }
    ensures ok { OnOk result (out.new.items ≡ out.old.items ++ record_for change.now) }
    ensures err { OnErr result (out.new.items ≡ out.old.items) }
    ensures capacity { vec_capacity out.old ≤ vec_capacity out.new }
    ensures succeeds { vec_len out.old + record_length change.now ≤ vec_capacity out.old →
        IsOk result }
{
    out.reserve(record_len(change) as usize)?;
    append_reserved(out, change);
    Ok(())
}
