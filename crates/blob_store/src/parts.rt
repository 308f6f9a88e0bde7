//! The parts that a store is made of.

ghost use Rattle.std.specs.Prelude.{◌≡◌, None, Some, IfOk, IfErr};
ghost use Rattle.blob_store.specs.Parts.{AreOfNewStore, OpensParts, RefusesParts, names_of};

use blob_digest::Refusal;
use durable_log::{Backlog, HistoryMark, UnopenedDevice};
use ghost_log::SharedLog;
use locked_book::{Counters, LEDGER_PARTS, LogPolicy, Naming, Step, StoreLog};
use pin_table::Pins;
use std::alloc::Global;
use std::marker::Model;
use std::sync::ledger::Blank;
use store_book::{Book, Config};

/// The parts of a store: a new book with its pins, four new ledgers, an empty history, and the policy of its log.
/// `Store::new` gives them the names of a store.
#[derive(Drop)]
pub struct Parts {
    pub(crate) alloc: Global,
    pub(crate) book: Book,
    pub(crate) pins: Pins,
    pub(crate) commands: Blank,
    pub(crate) received: Blank,
    pub(crate) closed: Blank,
    pub(crate) abandoned: Blank,
    pub(crate) log: SharedLog<Step>,
    pub(crate) durable_marks: SharedLog<HistoryMark<Step>>,
    pub(crate) taken_marks: SharedLog<HistoryMark<Step>>,
    pub(crate) policy: LogPolicy,
    /// The length of the longest content whose bytes the log has. Longer ones lie in files, and the log has notes of them. Without
    /// one, all contents are in memory and in the log.
    pub(crate) longest: Option<u64>,
}

impl Model for Parts {
    ghost use Rattle.std.specs.Prelude.{◌≡◌, []};
    ghost use Rattle.locked_book.specs.Names.{IsNewCatalog};
    ghost use Rattle.locked_book.specs.Totals.{ledger_parts};
    ghost use Rattle.blob_store.specs.Parts.{IsNewMarks, PartsView, coded_parts};

    ghost Value = { PartsView };

    ghost coded = { coded_parts };

    ghost view = { λ p. record {
      book = p.book;
      commands = record { name = p.commands.name; parts = p.commands.parts };
      received = record { name = p.received.name; parts = p.received.parts };
      closed = record { name = p.closed.name; parts = p.closed.parts };
      abandoned = record { name = p.abandoned.name; parts = p.abandoned.parts };
      log = record {
        history = p.log.name;
        durable_marks = p.durable_marks.name;
        taken_marks = p.taken_marks.name;
        base = [];
      };
      policy = p.policy;
      longest = p.longest;
    } };

    ghost invariant = { λ p. (p.book.table ≡ p.pins) × IsNewCatalog p.book.catalog ×
        (p.commands.parts ≡ ledger_parts) × (p.received.parts ≡ ledger_parts) ×
        (p.closed.parts ≡ ledger_parts) × (p.abandoned.parts ≡ ledger_parts) ×
        (p.log.entries ≡ []) × (p.log.writers ≡ 0) × IsNewMarks p.durable_marks ×
        IsNewMarks p.taken_marks };
}

impl Parts {
    /// Makes the parts of a new store in memory alone: its tenants in the order of their names, no repository, and every
    /// slot free.
    ///
    /// # Errors
    ///
    /// - Those of `store_book::Book::new`, in their order.
    /// - `Memory` if the history cannot be allocated.
    pub fn new(alloc: Global, config: &Config) -> Result<Parts, Refusal>
        ensures opened { IfOk result (λ p. OpensParts config.now p) }
        ensures policy { IfOk result (λ p. p.policy ≡ LogPolicy.NoLog) }
        ensures longest { IfOk result (λ p. p.longest ≡ None) }
        ensures refused { IfErr result (λ e. RefusesParts config.now e) }
    {
        Parts::with_policy(alloc, config, LogPolicy::NoLog)
    }

    /// Makes the parts of a new store with a log of this policy, as `new` does.
    pub fn with_policy(alloc: Global, config: &Config, policy: LogPolicy) -> Result<Parts, Refusal>
        ensures opened { IfOk result (λ p. OpensParts config.now p) }
        ensures policy { IfOk result (λ p. p.policy ≡ policy) }
        ensures longest { IfOk result (λ p. p.longest ≡ None) }
        ensures refused { IfErr result (λ e. RefusesParts config.now e) }
    {
        let (book, pins) = Book::new(alloc, config)?;
        let log = SharedLog::new(alloc)?;
        let durable_marks = SharedLog::new(alloc)?;
        let taken_marks = SharedLog::new(alloc)?;
        Ok(Parts {
            alloc,
            book,
            pins,
            commands: Blank::new(LEDGER_PARTS),
            received: Blank::new(LEDGER_PARTS),
            closed: Blank::new(LEDGER_PARTS),
            abandoned: Blank::new(LEDGER_PARTS),
            log,
            durable_marks,
            taken_marks,
            policy,
            longest: None,
        })
    }

    /// Lets contents of more bytes than `longest` lie in files, of which the log has notes. The store is opened with a
    /// configuration whose contents may lie in files.
    pub fn with_files(self, longest: u64) -> Parts
        ensures { result ≡ record self { longest = Some longest } }
    {
        let mut parts = self;
        parts.longest = Some(longest);
        parts
    }

    /// Gives the parts the names of a store. Also returns the right to open the device of its log.
    pub(crate) fn named<S: Naming>(self) -> (NamedParts<S>, UnopenedDevice<Step, StoreLog<S>>)
        requires named { names_of self ≡ S.names }
        ensures { AreOfNewStore S.names (result.0).pins (result.0).book (result.0).counters
            (result.0).backlog (result.0).policy
            (result.0).longest }
    {
        let Parts {
            alloc,
            book,
            pins,
            commands,
            received,
            closed,
            abandoned,
            log,
            durable_marks,
            taken_marks,
            policy,
            longest,
        } = self;
        let counters = Counters::new(commands, received, closed, abandoned);
        let (backlog, unopened) = Backlog::new(alloc, log, durable_marks, taken_marks);
        let parts = NamedParts {
            alloc,
            pins,
            book,
            counters,
            backlog,
            policy,
            longest,
        };
        (parts, unopened)
    }
}

/// The parts of a store with the names of the type parameter.
#[derive(Drop)]
pub(crate) struct NamedParts<S: Naming> {
    pub(crate) alloc: Global,
    pub(crate) pins: Pins,
    pub(crate) book: Book,
    pub(crate) counters: Counters<S>,
    pub(crate) backlog: Backlog<Step, StoreLog<S>>,
    pub(crate) policy: LogPolicy,
    pub(crate) longest: Option<u64>,
}
