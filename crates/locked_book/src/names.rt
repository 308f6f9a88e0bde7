//! Types that name a store, its pins and its ledgers.

ghost use Rattle.locked_book.specs.Names.{StoreNames, no_names};

use crate::step::Step;
use std::marker::{Brand, PhantomData};
use std::sync::ledger::Ledger;
use store_book::PinsName;

/// The names of a store: its table of pins, its setting, its four ledgers and its log.
///
/// A type with such a parameter belongs to the store of these names. The names exist in the proof alone.
pub trait Naming {
    ghost names: { StoreNames };
}

impl Naming for Brand {
    ghost names = { no_names };
}

/// A name for the pins of a store.
pub struct StorePins<S: Naming> {
    of: PhantomData<S>,
}

impl<S: Naming> PinsName for StorePins<S> {
    ghost table = { S.names.table };
}

/// A name for the log of a store: what it records of each step, and which steps it promises to be durable.
pub struct StoreLog<S: Naming> {
    of: PhantomData<S>,
}

impl<S: Naming> durable_log::Naming<Step> for StoreLog<S> {
    ghost use Rattle.locked_book.specs.Logging.{promises, recorded_bytes};

    ghost names = { S.names.log };

    ghost bytes = { recorded_bytes S.names.policy S.names.longest };

    ghost promises = { promises S.names.policy };
}

/// A name for the ledger of accepted commands.
pub struct Commands<S: Naming> {
    of: PhantomData<S>,
}

impl<S: Naming> Ledger for Commands<S> {
    ghost name = { S.names.commands.name };

    ghost parts = { S.names.commands.parts };
}

/// A name for the ledger of received bytes.
pub struct Received<S: Naming> {
    of: PhantomData<S>,
}

impl<S: Naming> Ledger for Received<S> {
    ghost name = { S.names.received.name };

    ghost parts = { S.names.received.parts };
}

/// A name for the ledger of the bytes of closed sessions.
pub struct Closed<S: Naming> {
    of: PhantomData<S>,
}

impl<S: Naming> Ledger for Closed<S> {
    ghost name = { S.names.closed.name };

    ghost parts = { S.names.closed.parts };
}

/// A name for the ledger of the bytes of abandoned sessions.
pub struct Abandoned<S: Naming> {
    of: PhantomData<S>,
}

impl<S: Naming> Ledger for Abandoned<S> {
    ghost name = { S.names.abandoned.name };

    ghost parts = { S.names.abandoned.parts };
}
