//! Defines the keeper: the exclusive owner of the slot words' bookkeeping.

ghost use Rattle.std.specs.Prelude.{◌≡◌, ◌<◌, length, slice_index};
ghost use Rattle.pin_core.specs.World.{row};

use crate::padded::Padded;
use crate::rule::PinSeat;
use blob_digest::Digest;
use pin_core::{Phase, PinRow};
use std::marker::Model;

/// The keeper of a table's slots: each slot's row, and a bound on its sum of weights.
///
/// Only the holder of `&mut Keeper` can give, lend, condemn, revive and reclaim slots. No other thread changes a row,
/// so the phases, generations and digests that it returns are exact at every moment. Between its calls the sums only
/// fall, because other threads can release and share pins but not make them.
#[derive(Drop)]
pub struct Keeper {
    pub(crate) rows: Padded<PinRow>,
    pub(crate) bounds: Padded<u32>,
    pub(crate) seat: PinSeat,
}

impl Model for Keeper {
    ghost use Rattle.std.specs.Prelude.{◌≡◌, [], length, None};
    ghost use Rattle.std.specs.List.{All};
    ghost use Rattle.pin_core.specs.World.{HasDigest};
    ghost use Rattle.pin_table.specs.Rule.{keeper_view, lent_by, looks_by};
    ghost use Rattle.pin_table.specs.Calls.{KeeperValue};
    ghost use Rattle.pin_table.specs.declared.view.View.TheVariants.{Keeper as KeeperSeat};

    ghost Value = { KeeperValue };

    ghost view = { λ k. record {
      table = k.seat.table_id;
      rows = k.rows;
      bounds = k.bounds;
      looks = looks_by k.seat.me.0;
      lent = lent_by k.seat.me.0;
    } };

    ghost invariant = { λ k. (k.seat.id ≡ 0) ×
        (k.seat.me ≡ (
          KeeperSeat (keeper_view k.rows k.bounds (looks_by k.seat.me.0)
              (lent_by k.seat.me.0) None),
          [],
        )) × (k.seat.table_id.words ≡ length k.rows) ×
        (length k.bounds ≡ length k.rows) × All HasDigest k.rows };
}

impl Keeper {
    /// Returns the phase of a slot.
    ///
    /// # Memory
    ///
    /// Never allocates.
    pub fn phase(&self, slot: u32) -> Phase
        requires { slot < length self.now.rows }
        ensures { result ≡ (row self.now.rows slot).phase }
    {
        self.rows.get(slot as usize).phase
    }

    /// Returns the generation of a slot. Each reclaim raises it by one, up to the last one.
    ///
    /// # Memory
    ///
    /// Never allocates.
    pub fn generation(&self, slot: u32) -> u32
        requires { slot < length self.now.rows }
        ensures { result ≡ (row self.now.rows slot).generation }
    {
        self.rows.get(slot as usize).generation
    }

    /// Returns the digest of a slot, if the slot is used.
    ///
    /// # Memory
    ///
    /// Never allocates.
    pub fn digest(&self, slot: u32) -> Option<Digest>
        requires { slot < length self.now.rows }
        ensures { result ≡ (row self.now.rows slot).digest }
    {
        self.rows.get(slot as usize).digest
    }

    /// Returns an upper bound on the sum of weights on a slot.
    ///
    /// It is the sum that the keeper's last look found, plus the weight lent since. After a give or a reclaim it is 0.
    ///
    /// # Memory
    ///
    /// Never allocates.
    pub fn bound(&self, slot: u32) -> u32
        requires { slot < length self.now.rows }
        ensures { result ≡ slice_index self.now.bounds slot }
    {
        self.bounds.get(slot as usize)
    }
}
