//! Defines the parts of a pin world: slots and pins.

use blob_digest::Digest;

/// The phase of a slot.
#[derive(Clone, Copy, Debug, PartialEq, Eq)]
pub enum Phase {
    /// The slot is empty and may be given a digest.
    Free,
    /// The slot holds the blob of its digest, and new pins may be made on it.
    Live,
    /// The slot holds the blob of its digest. It gets no new pin, and may be reclaimed once no pin is on it.
    Condemned,
    /// The slot is never given a digest again.
    Retired,
}

/// A slot: its generation, its phase, and the digest of its blob if it is used.
///
/// A slot is used if it is live or condemned. Each reclaim raises the generation by one, up to the last one.
#[derive(Clone, Copy, Debug, PartialEq, Eq)]
pub struct PinRow {
    pub generation: u32,
    pub phase: Phase,
    pub digest: Option<Digest>,
}

/// The contents of a pin: a slot in one generation, the digest of that slot, and the pin's weight.
#[derive(Clone, Copy, Debug, PartialEq, Eq)]
pub struct PinRecord {
    pub slot: u32,
    pub generation: u32,
    pub digest: Digest,
    pub weight: u32,
}

/// A pin with its name.
#[derive(Clone, Copy, Debug, PartialEq, Eq)]
pub struct PinEntry {
    pub name: u64,
    pub hold: PinRecord,
}
