//! The book of a store with its totals and its history.

ghost use Rattle.std.specs.Prelude.{◌≡◌, OnOk, [], not};
ghost use Rattle.blob_digest.specs.declared.refusal.Refusal.TheVariants.{LimitReached};
ghost use Rattle.spec_lib.specs.Outcomes.{refuse};
ghost use Rattle.store_model.specs.Amounts.{zero_amounts};
ghost use Rattle.store_model.specs.Invariant.{Sound};
ghost use Rattle.locked_book.specs.Counting.{IsBalanced, has_room};
ghost use Rattle.locked_book.specs.Found.{IsBookOf, IsContentOf};
ghost use Rattle.locked_book.specs.History.{KeepsAmounts, LogLeadsTo, OneBegins, SeeOneHistory, state_of};
ghost use Rattle.locked_book.specs.Names.{BelongsTo, IsNewCatalog};
ghost use Rattle.locked_book.specs.Results.{PrintsBook};

use crate::checked_out::{CheckedOut, room};
use crate::counters::Counters;
use crate::desk::Desk;
use crate::history::History;
use crate::names::{Naming, StoreLog};
use crate::policy::LogPolicy;
use crate::step::Step;
use blob_digest::Refusal;
use durable_log::Backlog;
use std::alloc::Global;
use std::io::{self, Write};
use std::marker::Model;
use store_book::{Book, Freed};

/// The book of a store with the totals of its commands and its history.
///
/// The history leads from the opening catalog to the catalog of the book and to the totals. A call with a desk adds its
/// step under the desk's number, also if it fails. A sweep without a desk adds its step under a number of its own. The
/// bytes received are those in sessions, closed and abandoned.
///
/// # Errors
///
/// A command fails with `LimitReached` if one more command can't be counted, and then with the errors of the call of
/// `Book` that has its name. A failed command counts nothing.
///
/// # Cost
///
/// That of the call of `Book`, and for a step three loads of an atomic word. Counting takes constant time and never
/// allocates.
#[derive(Drop)]
pub struct Kept<S: Naming> {
    pub(crate) book: Book,
    pub(crate) out: CheckedOut,
    pub(crate) counters: Counters<S>,
    pub(crate) history: History<S>,
}

impl<S: Naming> Model for Kept<S> {
    ghost use Rattle.locked_book.specs.Counting.{StoreContent, coded_store_content};
    ghost use Rattle.locked_book.specs.History.{AreRecordsOf};

    ghost Value = { StoreContent };

    ghost coded = { coded_store_content };

    ghost view = { λ b. record { book = b.book; counts = b.counters } };

    ghost invariant = { λ b. AreRecordsOf S.names b.book b.out.hands b.out.reserve b.counters
        b.history };
}

impl<S: Naming> Kept<S> {
    /// Creates the state of a store with a new book, with nothing counted and no step made.
    pub fn new(
        alloc: Global,
        book: Book,
        counters: Counters<S>,
        policy: LogPolicy,
        backlog: Backlog<Step, StoreLog<S>>,
    ) -> Kept<S>
        requires book { IsNewCatalog book.catalog }
        requires named { BelongsTo book S.names }
        requires counters { counters ≡ record {
          totals = zero_amounts;
          settled = zero_amounts;
          desks = 0;
        } }
        requires backlog { (backlog.history ≡ []) × (backlog.writers ≡ 0) }
        requires policy { policy ≡ S.names.policy }
        requires opening { book.catalog ≡ S.names.opening }
        ensures { result ≡ record { book = book; counts = counters } }
    {
        book.reveal_invariant();
        Kept {
            book,
            out: CheckedOut {
                hands: 0,
                reserve: 0,
            },
            counters,
            history: History::new(alloc, policy, backlog),
        }
    }

    /// Does nothing at run time: it gives the caller the invariant as a fact.
    ///
    /// A legal history of the store leads to the book and the totals, the book is sound, and the totals are balanced. In the
    /// history every hand is returned as it was taken.
    pub fn reveal_invariant(&self)
        ensures found { IsBookOf S.names self.now.book }
        ensures balanced { IsBalanced self.now }
        ensures content { IsContentOf S.names self.now }
    {
        self.history.reveal_durable_state();
        self.book.reveal_invariant();
    }

    /// Returns the book, for queries of sizes, uses and free slots. No step is made.
    pub fn book(&self) -> &Book
        ensures found { IsBookOf S.names self.now.book }
        ensures same { result.now ≡ self.now.book }
    {
        self.reveal_invariant();
        &self.book
    }

    /// Returns what was freed since the last call and may lie in files, with `Book::take_freed`. No step is made.
    pub fn take_freed(&mut self) -> Freed
        ensures { self.new ≡ self.old }
    {
        self.book.take_freed()
    }

    /// Fails with `LimitReached` if one more command with these bytes can't be counted.
    pub(crate) fn room(&self, bytes: u64) -> Result<(), Refusal>
        ensures room { result ≡ refuse (not (has_room self.now bytes)) LimitReached }
        ensures sound { Sound self.now.book.catalog }
    {
        room(&self.book, &self.out, &self.counters, bytes)
    }

    /// Shows two desks the whole history, of which each had seen a prefix.
    ///
    /// No step is made, and nothing is counted.
    ///
    /// # Memory
    ///
    /// Never allocates.
    pub fn compare(&mut self, one: &mut Desk<S>, other: &mut Desk<S>)
        ensures content { self.new ≡ self.old }
        ensures same { KeepsAmounts one.old one.new × KeepsAmounts other.old other.new }
        ensures one_history { SeeOneHistory S.names.opening one.old one.new other.old other.new }
        ensures begins { OneBegins one.old.trace.seen other.old.trace.seen }
        ensures leads { LogLeadsTo S.names.opening one.new.trace.seen (state_of self.new) }
    {
        self.history.catch_up(&mut one.writer);
        self.history.catch_up(&mut other.writer);
    }

    /// Writes the text of the book with `Book::print`.
    pub fn print<W: Write>(&self, writer: &mut W) -> io::Result<()>
        ensures found { IsBookOf S.names self.now.book }
        ensures text { OnOk result (PrintsBook W.contents writer.old writer.new self.now.book) }
    {
        self.reveal_invariant();
        self.book.print(writer)
    }
}
