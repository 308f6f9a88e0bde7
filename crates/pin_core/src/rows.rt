//! Reads the rows of a pin world, and computes changed rows.

ghost use Rattle.std.specs.Prelude.{◌≡◌, ◌↔◌, Some, IsTrue};
ghost use Rattle.pin_core.specs.World.{IsUsed};
ghost use Rattle.pin_core.specs.Events.{IsNew, given_row, in_phase, reclaimed_row};

use crate::word::LAST_GENERATION;
use crate::world::{Phase, PinRow};
use blob_digest::Digest;

/// Returns whether a row is used and has the digest.
fn has(row: PinRow, digest: Digest) -> bool
    ensures { IsTrue result ↔ (IsUsed row.phase × (row.digest ≡ Some digest)) }
{
    match row.phase {
        Phase::Live | Phase::Condemned => row.digest == Some(digest),
        Phase::Free | Phase::Retired => false,
    }
}

/// Returns whether no used slot has the digest.
pub fn is_new(rows: &[PinRow], digest: Digest) -> bool
    ensures { IsTrue result ↔ IsNew digest rows.now }
{
    !rows.iter().any(|row| has(*row, digest))
}

/// Returns the row of a free slot after it was given a digest.
pub fn given(row: PinRow, digest: Digest) -> PinRow
    ensures { result ≡ given_row digest row }
{
    PinRow {
        generation: row.generation,
        phase: Phase::Live,
        digest: Some(digest),
    }
}

/// Returns the row with another phase.
pub fn in_phase(row: PinRow, phase: Phase) -> PinRow
    ensures { result ≡ in_phase phase row }
{
    PinRow {
        generation: row.generation,
        phase,
        digest: row.digest,
    }
}

/// Returns the row after it was reclaimed: free in the next generation, or retired after the last one.
pub fn reclaimed(row: PinRow) -> PinRow
    ensures { result ≡ reclaimed_row row }
{
    if row.generation == LAST_GENERATION {
        return PinRow {
            generation: row.generation,
            phase: Phase::Retired,
            digest: None,
        };
    }
    PinRow {
        generation: row.generation + 1,
        phase: Phase::Free,
        digest: None,
    }
}
