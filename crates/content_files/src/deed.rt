//! What the pieces of a content are. These values exist in the proof alone.

use ghost_log::Event;
use std::marker::{Brand, Model, PhantomData};

/// The pieces of a content. At run time there are no values of it.
pub(crate) struct Shown {
    none: (),
}

impl Model for Shown {
    ghost use Rattle.std.specs.Prelude.{ℕ, List, []};

    ghost Value = { List (List ℕ) };

    ghost view = { λ _. [] };
}

/// A type that names the pieces of a content.
pub(crate) trait PiecesName {
    ghost use Rattle.std.specs.Prelude.{ℕ, List};

    ghost pieces: { List (List ℕ) };
}

impl PiecesName for Brand {
    ghost use Rattle.std.specs.Prelude.{[]};

    ghost pieces = { [] };
}

/// The event that the pieces are those that `P` names.
pub(crate) struct Shows<P> {
    of: PhantomData<P>,
}

impl<P: PiecesName> Event<Shown> for Shows<P> {
    ghost event = { P.pieces };
}
