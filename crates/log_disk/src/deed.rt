//! The calls on a file. These values exist in the proof alone.

ghost use Rattle.std.specs.Prelude.{◌≡◌, Some, None};
ghost use Rattle.ghost_log.specs.Calls.{with_entry};

use ghost_log::{Event, SharedLog, Writer};
use std::marker::{Brand, Model, PhantomData};

/// A call on a file: bytes were written, or all bytes were synced. At run time there are no values of it.
pub struct Deed {
    none: (),
}

impl Model for Deed {
    ghost use Rattle.std.specs.Prelude.{ℕ, List, Option, None};

    ghost Value = { Option (List ℕ) };

    ghost view = { λ _. None };
}

/// A type that names bytes.
pub trait BytesName {
    ghost use Rattle.std.specs.Prelude.{ℕ, List};

    ghost bytes: { List ℕ };
}

impl BytesName for Brand {
    ghost use Rattle.std.specs.Prelude.{[]};

    ghost bytes = { [] };
}

/// The deed that the bytes which `P` names were written.
pub struct Writes<P> {
    of: PhantomData<P>,
}

impl<P: BytesName> Event<Deed> for Writes<P> {
    ghost use Rattle.std.specs.Prelude.{Some};

    ghost event = { Some P.bytes };
}

/// The deed that all bytes were synced.
pub struct Syncs;

impl Event<Deed> for Syncs {
    ghost use Rattle.std.specs.Prelude.{None};

    ghost event = { None };
}

/// Adds the deed that the bytes which `P` names were written.
pub fn add_named<P: BytesName>(log: &mut SharedLog<Deed>, writer: &mut Writer<Deed>)
    requires { writer.old.name ≡ log.old.name }
    ensures log { log.new ≡ with_entry writer.old.number (Some P.bytes) log.old }
    ensures writer { writer.new.name ≡ writer.old.name }
{
    log.append::<Writes<P>>(writer);
}

// The bytes are picked in the proof alone.
fn add_write_as<P: BytesName>(log: &mut SharedLog<Deed>, writer: &mut Writer<Deed>, bytes: &[u8])
    requires bytes { P.bytes ≡ bytes.now }
    requires name { writer.old.name ≡ log.old.name }
    ensures log { log.new ≡ with_entry writer.old.number (Some P.bytes) log.old }
    ensures writer { writer.new.name ≡ writer.old.name }
{
    let _ = bytes;
    add_named::<P>(log, writer);
}

/// Adds the deed that these bytes were written.
pub fn add_write(log: &mut SharedLog<Deed>, writer: &mut Writer<Deed>, bytes: &[u8])
    requires { writer.old.name ≡ log.old.name }
    ensures log { log.new ≡ with_entry writer.old.number (Some bytes.now) log.old }
    ensures writer { writer.new.name ≡ writer.old.name }
{
    add_write_as::<Brand>(log, writer, bytes);
}
