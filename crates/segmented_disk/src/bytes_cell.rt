//! Bytes that exist in the proof alone.

ghost use Rattle.std.specs.Prelude.{◌≡◌, ◌++◌, [], IfOk};
ghost use Rattle.framed_disk.specs.Views.{attempted};

use framed_disk::FramedDisk;
use ghost_log::{Event, SharedLog, Writer};
use log_disk::{BytesName, Disk};
use std::alloc::{AllocError, Global};
use std::marker::{Brand, Model, PhantomData};

/// No bytes.
pub struct NoBytes;

impl BytesName for NoBytes {
    ghost use Rattle.std.specs.Prelude.{[]};

    ghost bytes = { [] };
}

/// The bytes that a cell was set to. At run time there are no values of it.
pub struct BytesSet {
    none: (),
}

impl Model for BytesSet {
    ghost use Rattle.std.specs.Prelude.{ℕ, List, []};

    ghost Value = { List ℕ };

    ghost view = { λ _. [] };
}

/// The event that a cell was set to the bytes which `P` names.
struct Sets<P> {
    of: PhantomData<P>,
}

impl<P: BytesName> Event<BytesSet> for Sets<P> {
    ghost event = { P.bytes };
}

/// Bytes, in the proof alone. At run time it has no content.
#[derive(Drop)]
pub struct BytesCell {
    sets: SharedLog<BytesSet>,
    writer: Writer<BytesSet>,
}

impl Model for BytesCell {
    ghost use Rattle.std.specs.Prelude.{◌≡◌, ℕ, List, []};
    ghost use Rattle.segmented_disk.specs.Cells.{last_of};

    ghost Value = { List ℕ };

    ghost view = { λ c. last_of [] c.sets.entries };

    ghost invariant = { λ c. c.writer.name ≡ c.sets.name };
}

impl BytesCell {
    /// Creates a cell of the bytes that `P` names.
    pub fn new<P: BytesName>(alloc: Global) -> Result<BytesCell, AllocError>
        ensures { IfOk result (λ c. c ≡ P.bytes) }
    {
        let mut sets = SharedLog::new(alloc)?;
        let writer = sets.writer();
        let mut cell = BytesCell { sets, writer };
        cell.set::<P>();
        Ok(cell)
    }

    /// Sets the cell to the bytes that `P` names.
    pub fn set<P: BytesName>(&mut self)
        ensures { self.new ≡ P.bytes }
    {
        self.sets.append::<Sets<P>>(&mut self.writer);
    }

    /// Adds the payloads of a segment.
    pub fn add_payloads<D: Disk>(&mut self, segment: &FramedDisk<D>)
        ensures { self.new ≡ self.old ++ attempted segment.now }
    {
        add_payloads_as::<Brand, D>(self, segment);
    }

    /// Sets the cell to the bytes of another one and the payloads of a segment after them.
    pub fn set_payloads<D: Disk>(&mut self, front: &BytesCell, segment: &FramedDisk<D>)
        ensures { self.new ≡ front.now ++ attempted segment.now }
    {
        set_payloads_as::<Brand, D>(self, front, segment);
    }
}

/// Sets a cell to the bytes of another one and the payloads of a segment. The bytes are picked in the proof alone.
fn set_payloads_as<P: BytesName, D: Disk>(
    cell: &mut BytesCell,
    front: &BytesCell,
    last: &FramedDisk<D>,
)
    requires { P.bytes ≡ front.now ++ attempted last.now }
    ensures { cell.new ≡ front.now ++ attempted last.now }
{
    let _ = front;
    let _ = last;
    cell.set::<P>();
}

/// Adds the payloads of a segment to a cell. The bytes are picked in the proof alone.
fn add_payloads_as<P: BytesName, D: Disk>(cell: &mut BytesCell, segment: &FramedDisk<D>)
    requires { P.bytes ≡ cell.old ++ attempted segment.now }
    ensures { cell.new ≡ cell.old ++ attempted segment.now }
{
    let _ = segment;
    cell.set::<P>();
}
