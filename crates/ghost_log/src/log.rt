//! The owner of a log, and its writers.

ghost use Rattle.std.specs.Prelude.{◌≡◌, [], IfOk};
ghost use Rattle.ghost_log.specs.Entries.{events_by};
ghost use Rattle.ghost_log.specs.Calls.{Agrees, with_writer, new_writer, with_entry, writer_after_append, writer_after_catch_up, with_entries, writer_after_events};

use crate::rule::{
    Append, Event, Events, NewWriter, NoEvent, OneEvent, OwnerSeat, Transit, Words, WriterSeat,
};
use atomic_table::Badge;
use std::alloc::{AllocError, Global};
use std::marker::Model;
use std::mem;

/// The owner of a log, which is stored under a lock next to the value that the log describes.
///
/// Contracts see the log's name, all its entries, and the number of writers.
#[derive(Drop)]
pub struct SharedLog<E> {
    words: Words<E>,
    place: OwnerSeat<E>,
}

impl<E> Model for SharedLog<E> {
    ghost use Rattle.std.specs.Prelude.{◌≡◌, ◌<◌, [], None};
    ghost use Rattle.ghost_log.specs.Rule.{contents};
    ghost use Rattle.ghost_log.specs.Calls as calls;
    ghost use Rattle.ghost_log.specs.declared.view.View.TheVariants.{Owner};

    ghost Value = { calls.Log E };

    ghost view = { λ l. calls.log l.words.shared.table_id (calls.contents_of l.place.me.0) };

    ghost invariant = { λ l. (l.place.id ≡ 0) × (l.place.table_id ≡ l.words.shared.table_id) ×
        (l.place.me ≡ (
          Owner (contents (calls.contents_of l.place.me.0).entries
              (calls.contents_of l.place.me.0).writers None),
          [],
        )) ×
        (0 < l.words.shared.table_id.words) };
}

/// The right to append to a log under one number.
///
/// Contracts see the log's name, the number, the prefix of the log that the writer has seen, and its own events.
///
/// A writer can't be copied. If it is dropped, its entries stay in the log.
#[derive(Drop)]
pub struct Writer<E> {
    token: WriterSeat<E>,
}

impl<E> Model for Writer<E> {
    ghost use Rattle.std.specs.Prelude.{◌≡◌, [], ◌∷◌};
    ghost use Rattle.ghost_log.specs.Entries.{events_by};
    ghost use Rattle.ghost_log.specs.Calls as calls;
    ghost use Rattle.ghost_log.specs.declared.view.View.TheVariants.{OfWriter};

    ghost Value = { calls.Writer E };

    ghost view = { λ w. calls.writer w.token.table_id (calls.known_in w.token.views) };

    ghost invariant = { λ w. (w.token.views ≡ OfWriter (calls.known_in w.token.views) ∷ []) ×
        (events_by (calls.known_in w.token.views).number (calls.known_in w.token.views).seen
        ≡ (calls.known_in w.token.views).own) };
}

impl<E> Writer<E> {
    /// Does nothing at run time: it gives the caller the invariant of writers as a fact.
    ///
    /// The entries with the writer's number in the prefix that it has seen are its own events, in order.
    pub fn reveal_invariant(&self)
        ensures { events_by self.now.number self.now.seen ≡ self.now.own }
    {
        let _ = &self.token;
    }
}

impl<E> SharedLog<E> {
    /// Creates an empty log without writers.
    ///
    /// # Errors
    ///
    /// `AllocError` if memory runs out.
    ///
    /// # Cost
    ///
    /// Two small allocations. No other call allocates.
    pub fn new(alloc: Global) -> Result<SharedLog<E>, AllocError>
        ensures { IfOk result (λ l. (l.entries ≡ []) × (l.writers ≡ 0)) }
    {
        let (words, place) = Words::of_words(alloc, &[0], &())?;
        Ok(SharedLog { words, place })
    }

    /// Creates a writer with the next number, which has seen the whole log and appended nothing.
    ///
    /// # Cost
    ///
    /// Two loads of an atomic word; never allocates.
    pub fn writer(&mut self) -> Writer<E>
        ensures log { self.new ≡ with_writer self.old }
        ensures writer { result ≡ new_writer self.old }
    {
        let words = &self.words;
        let shared = &words.shared;
        shared.load::<Append<NoEvent>>(&mut self.place, 0);
        let seat = shared.split_seat::<NewWriter>(&mut self.place);
        Writer {
            token: seat.into_badge(),
        }
    }

    /// Appends the event that `D` names at the end of the log. The writer has then seen the whole log.
    ///
    /// # Cost
    ///
    /// Three loads of an atomic word; never allocates.
    pub fn append<D: Event<E>>(&mut self, writer: &mut Writer<E>)
        requires { writer.old.name ≡ self.old.name }
        ensures agrees { Agrees self.old writer.old }
        ensures log { self.new ≡ with_entry writer.old.number D.event self.old }
        ensures writer { writer.new ≡ writer_after_append D.event self.old.entries writer.old }
    {
        self.write::<OneEvent<D>>(writer);
    }

    /// Shows a writer the whole log.
    ///
    /// # Cost
    ///
    /// Three loads of an atomic word; never allocates.
    pub fn catch_up(&mut self, writer: &mut Writer<E>)
        requires { writer.old.name ≡ self.old.name }
        ensures agrees { Agrees self.old writer.old }
        ensures log { self.new ≡ self.old }
        ensures writer { writer.new ≡ writer_after_catch_up self.old.entries writer.old }
    {
        self.write::<NoEvent>(writer);
    }

    /// Appends the events that `D` names, and shows the writer the whole log.
    fn write<D: Events<E>>(&mut self, writer: &mut Writer<E>)
        requires { writer.old.name ≡ self.old.name }
        ensures agrees { Agrees self.old writer.old }
        ensures log { self.new ≡ with_entries writer.old.number D.events self.old }
        ensures writer { writer.new ≡ writer_after_events D.events self.old.entries writer.old }
    {
        let words = &self.words;
        let shared = &words.shared;
        let token = mem::replace(&mut writer.token, Badge::blank());
        shared.join_seat::<Transit>(&mut self.place, token.into_seat());
        shared.load::<Append<D>>(&mut self.place, 0);
        let seat = shared.split_seat::<Transit>(&mut self.place);
        writer.token = seat.into_badge();
    }
}
