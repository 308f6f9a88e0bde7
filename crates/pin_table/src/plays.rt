//! Defines how each kind of step changes the view of its seat. All types here exist only in proofs.

use crate::view::View;
use atomic_table::{Join, Play, Split};
use std::marker::{Brand, PhantomData};

/// A step by which the keeper reads a word.
pub struct Look;

impl Play<(), View> for Look {
    ghost use Rattle.pin_table.specs.Plays.{IsLookStep};

    ghost then = { IsLookStep };
}

/// Names the digest that a slot is given. It is part of the keeper's row, but not of the word.
pub trait Given {
    ghost use Rattle.spec_lib.specs.Texts.{Text};

    ghost digest: { Text };
}

impl Given for Brand {
    ghost use Rattle.std.specs.Prelude.{[]};

    ghost digest = { [] };
}

/// A step by which the keeper gives a slot a digest.
pub struct Give<D> {
    digest: PhantomData<D>,
}

impl<D: Given> Play<(), View> for Give<D> {
    ghost use Rattle.pin_table.specs.Plays.{IsGiveStep};

    ghost then = { IsGiveStep D.digest };
}

/// A step by which the keeper makes a pin, which is then in transit.
pub struct Lend;

impl Play<(), View> for Lend {
    ghost use Rattle.pin_table.specs.Plays.{lent};

    ghost then = { lent };
}

/// A step that releases a pin.
pub struct Leave;

impl Play<(), View> for Leave {
    ghost use Rattle.pin_table.specs.Plays.{IsLeaveStep};

    ghost then = { IsLeaveStep };
}

/// A step by which the keeper condemns a slot.
pub struct Condemn;

impl Play<(), View> for Condemn {
    ghost use Rattle.pin_table.specs.Plays.{IsCondemnStep};

    ghost then = { IsCondemnStep };
}

/// A step by which the keeper makes a slot live again.
pub struct Revive;

impl Play<(), View> for Revive {
    ghost use Rattle.pin_table.specs.Plays.{IsReviveStep};

    ghost then = { IsReviveStep };
}

/// A step by which the keeper reclaims a slot, or reads its word if pins hold it.
pub struct Reclaiming;

impl Play<(), View> for Reclaiming {
    ghost use Rattle.pin_table.specs.Plays.{IsReclaimStep};

    ghost then = { IsReclaimStep };
}

/// A move of a pin between the keeper's seat and a seat of its own.
pub struct Transit;

impl Split<View> for Transit {
    ghost use Rattle.pin_table.specs.Plays.{without_transit, transit_pin};

    ghost left = { without_transit };

    ghost right = { transit_pin };
}

impl Join<View> for Transit {
    ghost use Rattle.pin_table.specs.Plays.{with_pin_taken};
    ghost use Rattle.pin_table.specs.declared.view.View.TheVariants.{Empty};

    ghost both = { with_pin_taken };

    ghost spent = { Empty };
}

/// A split of a pin's seat into two halves.
pub struct Share;

impl Split<View> for Share {
    ghost use Rattle.pin_table.specs.Plays.{halved};

    ghost left = { halved };

    ghost right = { halved };
}
