//! The names of a durable log, and how its events are recorded.

ghost use Rattle.std.specs.Prelude.{ℕ, List, [], Bool, false};
ghost use Rattle.durable_log.specs.Names.{Names, no_names};

use std::marker::Brand;

/// The names of a durable log, the bytes that are recorded of each event, and whether the log promises that an event is
/// durable before anybody is told of it.
///
/// A type with such a parameter belongs to the log of these names. They exist in the proof alone.
pub trait Naming<E> {
    ghost names: { Names };

    ghost bytes: { E → List ℕ };

    ghost promises: { E → Bool };
}

impl<E> Naming<E> for Brand {
    ghost names = { no_names };

    ghost bytes = { λ _. [] };

    ghost promises = { λ _. false };
}
