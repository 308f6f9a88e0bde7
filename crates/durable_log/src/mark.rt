//! Marks of prefixes of the history. These values exist in the proof alone.

ghost use Rattle.std.specs.Prelude.{◌≡◌, []};
ghost use Rattle.ghost_log.specs.Calls.{Agrees, with_entry, writer_after_append};
ghost use Rattle.durable_log.specs.Views.{last_of};

use ghost_log::{Event, SharedLog, Writer};
use std::marker::{Brand, Model, PhantomData};

/// A prefix of the history that was marked as durable or as taken over. At run time there are no values of it.
pub struct HistoryMark<E> {
    of: PhantomData<E>,
}

impl<E> Model for HistoryMark<E> {
    ghost use Rattle.std.specs.Prelude.{List, []};
    ghost use Rattle.ghost_log.specs.declared.view.Entry.{Entry};

    ghost Value = { List (Entry E) };

    ghost view = { λ _. [] };
}

/// A type that names a prefix of the history.
pub trait PrefixName<E> {
    ghost use Rattle.std.specs.Prelude.{List};
    ghost use Rattle.ghost_log.specs.declared.view.Entry.{Entry};

    ghost entries: { List (Entry E) };
}

impl<E> PrefixName<E> for Brand {
    ghost use Rattle.std.specs.Prelude.{[]};

    ghost entries = { [] };
}

/// The mark of the prefix that `P` names.
struct NamedMark<P> {
    of: PhantomData<P>,
}

impl<E, P: PrefixName<E>> Event<HistoryMark<E>> for NamedMark<P> {
    ghost event = { P.entries };
}

// The prefix is picked in the proof alone.
fn mark_seen_as<E, P: PrefixName<E>>(
    marks: &mut SharedLog<HistoryMark<E>>,
    marker: &mut Writer<HistoryMark<E>>,
    writer: &Writer<E>,
)
    requires entries { P.entries ≡ writer.now.seen }
    requires name { marker.old.name ≡ marks.old.name }
    ensures agrees { Agrees marks.old marker.old }
    ensures log { marks.new ≡ with_entry marker.old.number P.entries marks.old }
    ensures writer { marker.new ≡ writer_after_append P.entries marks.old.entries marker.old }
{
    let _ = writer;
    marks.append::<NamedMark<P>>(marker);
}

/// Marks what a writer has seen of the history.
pub fn mark_seen<E>(
    marks: &mut SharedLog<HistoryMark<E>>,
    marker: &mut Writer<HistoryMark<E>>,
    writer: &Writer<E>,
)
    requires { marker.old.name ≡ marks.old.name }
    ensures agrees { Agrees marks.old marker.old }
    ensures log { marks.new ≡ with_entry marker.old.number writer.now.seen marks.old }
    ensures writer { marker.new ≡ writer_after_append writer.now.seen marks.old.entries marker.old }
{
    mark_seen_as::<E, Brand>(marks, marker, writer);
}

// The prefix is picked in the proof alone.
fn mark_all_as<E, P: PrefixName<E>>(
    marks: &mut SharedLog<HistoryMark<E>>,
    marker: &mut Writer<HistoryMark<E>>,
    history: &SharedLog<E>,
)
    requires entries { P.entries ≡ history.now.entries }
    requires name { marker.old.name ≡ marks.old.name }
    ensures agrees { Agrees marks.old marker.old }
    ensures log { marks.new ≡ with_entry marker.old.number P.entries marks.old }
    ensures writer { marker.new ≡ writer_after_append P.entries marks.old.entries marker.old }
{
    let _ = history;
    marks.append::<NamedMark<P>>(marker);
}

/// Marks the whole history.
pub fn mark_all<E>(
    marks: &mut SharedLog<HistoryMark<E>>,
    marker: &mut Writer<HistoryMark<E>>,
    history: &SharedLog<E>,
)
    requires { marker.old.name ≡ marks.old.name }
    ensures agrees { Agrees marks.old marker.old }
    ensures log { marks.new ≡ with_entry marker.old.number history.now.entries marks.old }
    ensures writer { marker.new ≡ writer_after_append history.now.entries marks.old.entries
        marker.old }
{
    mark_all_as::<E, Brand>(marks, marker, history);
}

// The prefix is picked in the proof alone.
fn mark_last_as<E, P: PrefixName<E>>(
    marks: &mut SharedLog<HistoryMark<E>>,
    marker: &mut Writer<HistoryMark<E>>,
    other: &Writer<HistoryMark<E>>,
)
    requires entries { P.entries ≡ last_of [] other.now.own }
    requires name { marker.old.name ≡ marks.old.name }
    ensures agrees { Agrees marks.old marker.old }
    ensures log { marks.new ≡ with_entry marker.old.number P.entries marks.old }
    ensures writer { marker.new ≡ writer_after_append P.entries marks.old.entries marker.old }
{
    let _ = other;
    marks.append::<NamedMark<P>>(marker);
}

/// Marks the prefix that another marker marked last.
pub fn mark_last<E>(
    marks: &mut SharedLog<HistoryMark<E>>,
    marker: &mut Writer<HistoryMark<E>>,
    other: &Writer<HistoryMark<E>>,
)
    requires { marker.old.name ≡ marks.old.name }
    ensures agrees { Agrees marks.old marker.old }
    ensures log { marks.new ≡ with_entry marker.old.number (last_of [] other.now.own) marks.old }
    ensures writer { marker.new ≡ writer_after_append (last_of [] other.now.own) marks.old.entries
        marker.old }
{
    mark_last_as::<E, Brand>(marks, marker, other);
}
