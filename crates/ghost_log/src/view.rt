//! The views of the seats. These values exist in the proof alone.

use std::collections::LinkedList;

/// An entry of the log: the number of the writer that appended it, and the event.
pub struct Entry<E> {
    pub writer: u64,
    pub event: E,
}

/// A writer's view: its number, the prefix of the log that it has seen, and its own events.
pub struct WriterView<E> {
    pub number: u64,
    pub seen: LinkedList<Entry<E>>,
    pub own: LinkedList<E>,
}

/// The owner's view: all entries, the number of writers, and the view of the writer in transit during a call.
pub struct Contents<E> {
    pub entries: LinkedList<Entry<E>>,
    pub writers: u64,
    pub transit: Option<WriterView<E>>,
}

/// The view of a seat.
pub enum View<E> {
    /// The owner, at the first seat.
    Owner(Contents<E>),
    /// A writer.
    OfWriter(WriterView<E>),
    /// A seat whose writer is in transit.
    Empty,
}
