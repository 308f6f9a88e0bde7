//! The sweep of the slots: it condemns blobs without links, and reclaims slots that no pin holds.

ghost use Rattle.std.specs.Prelude.{◌≡◌, ◌+◌, ◌<◌, ◌≤◌, ◌^◌, ◌==◌, None, if◌then◌else◌, length};
ghost use Rattle.blob_digest.specs.Slots.{greatest_slots};
ghost use Rattle.slot_table.specs.Slots.{orphan_from};
ghost use Rattle.store_book.specs.Internal.SweptSlots.{counts_with, Sweeps};
ghost use Rattle.store_book.specs.SweepParts.{IsBoundedPart, end_of};

use crate::pinned_slots::PinnedSlots;
use pin_table::{Pins, Reclaim};
use store_model::Swept;

/// A part of a sweep: its counts, and where the next part starts.
#[derive(Clone, Copy, Debug, PartialEq, Eq, Drop)]
pub struct SweptPart {
    /// The counts of the blobs that the part visited.
    pub swept: Swept,
    /// The first slot that the part did not reach, or `None` after the last slot.
    pub next: Option<u32>,
}

/// Counts one more blob, by whether it was live and what became of its slot.
fn count(swept: &mut Swept, was_live: bool, became: Reclaim)
    requires condemned { swept.old.condemned + 1 < 2 ^ 32 }
    requires reclaimed { swept.old.freed + swept.old.held + swept.old.retired + 1 < 2 ^ 32 }
    ensures { swept.new ≡ counts_with was_live became swept.old }
{
    if was_live {
        swept.condemned += 1;
    }
    match became {
        Reclaim::Freed => swept.freed += 1,
        Reclaim::Retired => swept.retired += 1,
        Reclaim::Held { .. } => swept.held += 1,
    }
}

/// Returns the first slot, from `from` on, that has a blob without links, or `None` if no more may be visited.
fn next_orphan(slots: &PinnedSlots, from: u32, left: u32) -> Option<u32>
    ensures { result ≡ (if left == 0 then None else orphan_from slots.now.slots from) }
{
    if left == 0 {
        return None;
    }
    slots.table().orphans_from(from)
}

/// Goes over the blobs without links, in the order of their slots, from the slot `from` on. It visits at most `most`.
///
/// It condemns a live one. It frees or retires the slot of each condemned one that no pin holds. Memory is allocated only for
/// the entries of freed blobs in files.
pub(crate) fn sweep_slots(slots: &mut PinnedSlots, pins: &Pins, from: u32, most: u32) -> SweptPart
    requires table { slots.old.table ≡ pins.now }
    requires few { length slots.old.slots ≤ greatest_slots }
    requires within { from ≤ length slots.old.slots }
    ensures sweeps { Sweeps from (end_of (length slots.old.slots) result)
        slots.old slots.new result.swept }
    ensures bounded { IsBoundedPart from most (length slots.old.slots) result }
{
    let mut swept = Swept {
        condemned: 0,
        freed: 0,
        held: 0,
        retired: 0,
    };
    let mut next = from;
    let mut left = most;
    'orphans: while let Some(slot) = next_orphan(slots, next, left) {
        let was_live = slots.condemn(pins, slot);
        let became = slots.reclaim(pins, slot);
        count(&mut swept, was_live, became);
        next = slot + 1;
        left -= 1;
    }
    let next = if left > 0 { None } else { Some(next) };
    SweptPart { swept, next }
}
