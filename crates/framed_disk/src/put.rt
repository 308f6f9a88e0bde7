//! Writes the parts of a frame to a disk.

ghost use Rattle.std.specs.Prelude.{◌≡◌, ◌≤◌, ◌+◌, ◌++◌, length, IfOk, OnOk, OnErr, vec_len, vec_capacity};
ghost use Rattle.log_disk.specs.Torn.{IsTorn};
ghost use Rattle.log_frames.specs.Frames.{IsFrame, cursor_after, frame_bytes, frame_of};

use log_disk::{Disk, DiskError};
use log_frames::{Cursor, frame_head, frame_sum};

/// The length of the longest frame that is written by one call, in bytes.
pub const TOGETHER: usize = 65_536;

/// Appends bytes to a vector that has room for them.
fn append(out: &mut Vec<u8>, bytes: &[u8])
    requires { vec_len out.old + length bytes.now ≤ vec_capacity out.old }
    ensures items { out.new.items ≡ out.old.items ++ bytes.now }
    ensures length { vec_len out.new ≡ vec_len out.old + length bytes.now }
    ensures capacity { vec_capacity out.old ≤ vec_capacity out.new }
{
    match out.extend_from_slice(bytes) {
        Ok(()) => {}
        Err(_) => unreachable!(),
    }
}

/// Puts three parts together in a buffer that has room for them.
fn join(buffer: &mut Vec<u8>, head: &[u8], payload: &[u8], sum: &[u8])
    requires { length head.now + length payload.now + length sum.now ≤ vec_capacity buffer.old }
    ensures items { buffer.new.items ≡ head.now ++ payload.now ++ sum.now }
    ensures capacity { vec_capacity buffer.old ≤ vec_capacity buffer.new }
{
    buffer.clear();
    append(buffer, head);
    append(buffer, payload);
    append(buffer, sum);
}

/// Writes three parts by three calls.
fn write_in_turn<D: Disk>(
    disk: &mut D,
    head: &[u8],
    payload: &[u8],
    sum: &[u8],
) -> Result<(), DiskError>
    ensures ok { OnOk result (D.written disk.new ≡ D.written disk.old
        ++ (head.now ++ payload.now ++ sum.now)) }
    ensures err { OnErr result (IsTorn (D.written disk.old) (head.now ++ payload.now
        ++ sum.now) (D.written disk.new)) }
    ensures kept { D.synced disk.new ≡ D.synced disk.old }
{
    disk.write(head)?;
    disk.write(payload)?;
    disk.write(sum)
}

/// Writes the parts of a frame: by one call if they are short, in a buffer that has room for them, or by three calls.
fn write_parts<D: Disk>(
    disk: &mut D,
    buffer: &mut Vec<u8>,
    head: &[u8; 32],
    payload: &[u8],
    sum: &[u8; 8],
) -> Result<(), DiskError>
    requires { 65536 ≤ vec_capacity buffer.old }
    ensures ok { OnOk result (D.written disk.new ≡ D.written disk.old
        ++ (head.now ++ payload.now ++ sum.now)) }
    ensures err { OnErr result (IsTorn (D.written disk.old) (head.now ++ payload.now
        ++ sum.now) (D.written disk.new)) }
    ensures kept { D.synced disk.new ≡ D.synced disk.old }
    ensures capacity { vec_capacity buffer.old ≤ vec_capacity buffer.new }
{
    if payload.len() > TOGETHER - 40 {
        return write_in_turn(disk, head, payload, sum);
    }
    join(buffer, head, payload, sum);
    disk.write(buffer.as_slice())
}

/// Writes the frame at a cursor with this payload, which states this synced offset, and returns the cursor after it.
///
/// # Errors
///
/// The error of a call on the disk. A prefix of the frame may have been written.
#[tactic(auto, unfolding(log_frames::specs::Sums::tagged))]
pub fn write_frame<D: Disk>(
    disk: &mut D,
    buffer: &mut Vec<u8>,
    id: u64,
    cursor: Cursor,
    synced: u64,
    payload: &[u8],
) -> Result<Cursor, DiskError>
    requires frame { IsFrame cursor (frame_of synced payload.now) }
    requires room { 65536 ≤ vec_capacity buffer.old }
    ensures after { IfOk result (λ after. after
        ≡ cursor_after id cursor (frame_of synced payload.now)) }
    ensures ok { OnOk result (D.written disk.new ≡ D.written disk.old
        ++ frame_bytes id cursor (frame_of synced payload.now)) }
    ensures err { OnErr result (IsTorn (D.written disk.old)
        (frame_bytes id cursor (frame_of synced payload.now)) (D.written disk.new)) }
    ensures kept { D.synced disk.new ≡ D.synced disk.old }
    ensures capacity { vec_capacity buffer.old ≤ vec_capacity buffer.new }
{
    let length = payload.len() as u64;
    let head = frame_head(id, cursor, synced, length);
    let sum = frame_sum(cursor.sum, &head, payload);
    write_parts(disk, buffer, &head, payload, &sum.to_le_bytes())?;
    Ok(Cursor {
        place: cursor.place + length + 40,
        sum,
    })
}
