//! Finds the frames in the bytes of a damaged file.

use log_frames::{Cursor, HEADER_LENGTH, MAX_PAYLOAD, frame_head, frame_sum};

/// The length of a frame's head, in bytes.
const HEAD: usize = 32;

/// The bytes of a frame without its payload.
const AROUND: usize = 40;

/// A part of a file in which no frame is found.
#[derive(Clone, Copy, Debug, PartialEq, Eq)]
pub struct Gap {
    /// The offset of its first byte in the file.
    pub start: u64,
    /// The offset after its last byte.
    pub end: u64,
}

/// A frame that was found.
#[derive(Clone, Copy)]
pub struct Found<'b> {
    /// Its payload.
    pub payload: &'b [u8],
    /// The place after it, with its sum.
    pub next: Cursor,
}

/// What a file has at a place.
#[derive(Clone, Copy)]
pub enum Part<'b> {
    /// A frame.
    Frame(Found<'b>),
    /// No frame. The next one, if there is one, begins at the cursor.
    Gap(Cursor),
    /// Nothing: the file ends.
    End,
}

/// A head at its place, and the frame with it, whose sum may be another one than it states.
#[derive(Clone, Copy)]
struct Candidate<'b> {
    found: Found<'b>,
    /// Whether the frame states the sum that its bytes have.
    is_summed: bool,
}

/// Returns the number in eight bytes.
pub fn word(bytes: &[u8]) -> Option<u64> {
    match bytes {
        [a, b, c, d, e, f, g, h, ..] => Some(u64::from_le_bytes([*a, *b, *c, *d, *e, *f, *g, *h])),
        _ => None,
    }
}

/// Returns the bytes from a place on.
pub fn after(bytes: &[u8], place: usize) -> &[u8] {
    if place > bytes.len() {
        return &[];
    }
    let (_, rest) = bytes.split_at(place);
    rest
}

/// Returns the length of the payload that a head at a place announces. Returns `None` if there is no head of a log with this id, or if the
/// file ends before the frame does.
fn announced(bytes: &[u8], id: u64, place: usize) -> Option<usize> {
    let rest = after(bytes, place);
    let synced = word(after(rest, 8))?;
    let length = word(after(rest, 16))?;
    if rest.len() < AROUND || length > MAX_PAYLOAD {
        return None;
    }
    let payload = length as usize;
    if payload > rest.len() - AROUND {
        return None;
    }
    let cursor = Cursor {
        place: place as u64,
        sum: 0,
    };
    let (head, _) = rest.split_at(HEAD);
    if head != frame_head(id, cursor, synced, length).as_slice() {
        return None;
    }
    Some(payload)
}

/// Returns the frame at a place, after a frame with this sum, if there is a head.
fn find_candidate(bytes: &[u8], id: u64, place: usize, before: u64) -> Option<Candidate<'_>> {
    let length = announced(bytes, id, place)?;
    let rest = after(bytes, place);
    let head = rest.first_chunk::<32>()?;
    let behind = after(rest, HEAD);
    if length > behind.len() {
        return None;
    }
    let (payload, behind) = behind.split_at(length);
    let stated = word(behind)?;
    let sum = frame_sum(before, head, payload);
    let next = Cursor {
        place: (place as u64)
            .saturating_add(length as u64)
            .saturating_add(AROUND as u64),
        sum,
    };
    Some(Candidate {
        found: Found { payload, next },
        is_summed: sum == stated,
    })
}

/// Returns the frame at a cursor, if it states the sum that its bytes have.
fn summed(bytes: &[u8], id: u64, cursor: Cursor) -> Option<Found<'_>> {
    let candidate = find_candidate(bytes, id, cursor.place as usize, cursor.sum)?;
    if candidate.is_summed {
        Some(candidate.found)
    } else {
        None
    }
}

/// Returns the frame at a cursor. A frame that states another sum than its bytes have is one if the frame after it continues the sum of
/// its bytes: then only the statement is damaged.
fn frame_at(bytes: &[u8], id: u64, cursor: Cursor) -> Option<Found<'_>> {
    let candidate = find_candidate(bytes, id, cursor.place as usize, cursor.sum)?;
    if candidate.is_summed || summed(bytes, id, candidate.found.next).is_some() {
        Some(candidate.found)
    } else {
        None
    }
}

/// Returns the cursor of the first frame from a place on that continues the sum which is stated in front of it, or the end of the file.
fn next_frame(bytes: &[u8], id: u64, place: usize) -> Cursor {
    let length = bytes.len();
    for at in place..length {
        let rest = after(bytes, at);
        if word(rest) != Some(at as u64) {
            continue;
        }
        let Some(sum) = word(after(bytes, at.saturating_sub(8))) else {
            continue;
        };
        let cursor = Cursor {
            place: at as u64,
            sum,
        };
        if summed(bytes, id, cursor).is_some() {
            return cursor;
        }
    }
    Cursor {
        place: length as u64,
        sum: 0,
    }
}

/// Returns what the bytes of a file of a log with this id have at a cursor.
pub fn part_at(bytes: &[u8], id: u64, cursor: Cursor) -> Part<'_> {
    let place = cursor.place as usize;
    if place >= bytes.len() {
        return Part::End;
    }
    if let Some(found) = frame_at(bytes, id, cursor) {
        return Part::Frame(found);
    }
    let behind = match announced(bytes, id, place) {
        Some(length) => place.saturating_add(length).saturating_add(AROUND),
        None => place.saturating_add(1),
    };
    Part::Gap(next_frame(bytes, id, behind))
}

/// Returns whether the first frame of a file is one of a log with this id.
pub fn begins(bytes: &[u8], id: u64) -> bool {
    let start = log_frames::start_of(id);
    let place = HEADER_LENGTH as usize;
    find_candidate(bytes, id, place, start.sum).is_some()
}
