//! Defines pins and released pins.

ghost use Rattle.std.specs.Prelude.{◌≡◌};

use crate::rule::PinSeat;
use blob_digest::Digest;
use pin_core::PinRecord;
use std::marker::Model;

/// A pin on a slot. While the pin exists, the slot is used and has the pin's generation and digest.
///
/// It can be neither copied nor dropped. `Pins::share` splits it in two, and `Pins::leave` releases it.
pub struct Pin {
    pub(crate) hold: PinRecord,
    pub(crate) seat: PinSeat,
}

impl Model for Pin {
    ghost use Rattle.std.specs.Prelude.{◌≡◌, ◌<◌, []};
    ghost use Rattle.pin_core.specs.World.{IsWeight};
    ghost use Rattle.pin_table.specs.Calls.{PinValue};
    ghost use Rattle.pin_table.specs.declared.view.View.TheVariants.{Pin as PinView};

    ghost Value = { PinValue };

    ghost view = { λ p. record { table = p.seat.table_id; hold = p.hold } };

    ghost invariant = { λ p. (p.seat.me ≡ (PinView p.hold, [])) ×
        (p.hold.slot < p.seat.table_id.words) × IsWeight p.hold };
}

/// The seat of a released pin. It weighs nothing and may be dropped.
#[derive(Drop)]
pub struct Left {
    pub(crate) seat: PinSeat,
}

impl Model for Left {
    ghost use Rattle.pin_table.specs.Calls.{SeatValue, seat_value};

    ghost Value = { SeatValue };

    ghost view = { λ l. seat_value l.seat.table_id l.seat.me.0 };
}

impl Pin {
    /// Returns the slot that the pin is on.
    ///
    /// # Memory
    ///
    /// Never allocates.
    pub fn slot(&self) -> u32
        ensures { result ≡ self.now.hold.slot }
    {
        self.hold.slot
    }

    /// Returns the generation of the pin's slot.
    ///
    /// # Memory
    ///
    /// Never allocates.
    pub fn generation(&self) -> u32
        ensures { result ≡ self.now.hold.generation }
    {
        self.hold.generation
    }

    /// Returns the digest of the pin's slot.
    ///
    /// # Memory
    ///
    /// Never allocates.
    pub fn digest(&self) -> Digest
        ensures { result ≡ self.now.hold.digest }
    {
        self.hold.digest
    }

    /// Returns the pin's weight in its slot's word: 1,024 for a new pin, halved by each share.
    ///
    /// # Memory
    ///
    /// Never allocates.
    pub fn weight(&self) -> u32
        ensures { result ≡ self.now.hold.weight }
    {
        self.hold.weight
    }
}
