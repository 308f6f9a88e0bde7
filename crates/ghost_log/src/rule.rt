//! The rule of the table, and the kinds of steps on it. All of this exists for the proof alone.

ghost use Rattle.std.specs.Prelude.{List};

use crate::view::View;
use atomic_table::{Badge, Join, Play, Seat, Split, Table, TableRule};
use std::alloc::Global;
use std::marker::PhantomData;

/// A type that names an event to append.
pub trait Event<E> {
    ghost event: { E };
}

/// A type that names the events that one step appends.
pub trait Events<E> {
    ghost events: { List E };
}

/// A single event.
pub struct OneEvent<D> {
    event: PhantomData<D>,
}

impl<E, D: Event<E>> Events<E> for OneEvent<D> {
    ghost use Rattle.std.specs.Prelude.{[], ◌∷◌};

    ghost events = { D.event ∷ [] };
}

/// An empty list of events.
pub struct NoEvent;

impl<E> Events<E> for NoEvent {
    ghost use Rattle.std.specs.Prelude.{[]};

    ghost events = { [] };
}

/// The rule: each writer has seen a prefix of the log, and its own events are those of the entries with its number.
pub struct Logged<E> {
    event: PhantomData<E>,
}

impl<E> TableRule<(), View<E>, ()> for Logged<E> {
    ghost use Rattle.ghost_log.specs.Rule.{FollowsRule, initial_view};

    ghost holds = { λ _ s. FollowsRule s.views };

    ghost first = { λ _. initial_view };
}

/// The move of a writer between the owner's seat and a seat of its own.
pub struct Transit;

impl<E> Split<View<E>> for Transit {
    ghost use Rattle.ghost_log.specs.Steps.{without_transit, transit_view};

    ghost left = { without_transit };

    ghost right = { transit_view };
}

impl<E> Join<View<E>> for Transit {
    ghost use Rattle.ghost_log.specs.Steps.{view_taken_in};
    ghost use Rattle.ghost_log.specs.declared.view.View.TheVariants.{Empty};

    ghost both = { view_taken_in };

    ghost spent = { Empty };
}

/// The creation of a writer.
pub struct NewWriter;

impl<E> Split<View<E>> for NewWriter {
    ghost use Rattle.ghost_log.specs.Steps.{view_with_writer, new_writer_view};

    ghost left = { view_with_writer };

    ghost right = { new_writer_view };
}

/// The step in which the writer in transit appends the events of `D` and sees the whole log.
pub struct Append<D> {
    events: PhantomData<D>,
}

impl<E, D: Events<E>> Play<(), View<E>> for Append<D> {
    ghost use Rattle.ghost_log.specs.Steps.{appends};

    ghost then = { appends D.events };
}

/// The table: one word and no slot, under the rule.
pub type Words<E> = Table<(), View<E>, (), Logged<E>, Global>;

/// The owner's seat.
pub type OwnerSeat<E> = Seat<(), View<E>>;

/// A writer's seat.
pub type WriterSeat<E> = Badge<View<E>>;
