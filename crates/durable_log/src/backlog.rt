//! The history, with the bytes of it that the device has not taken over.

ghost use Rattle.std.specs.Prelude.{◌≡◌, ◌+◌, ◌≤◌, [], length, true, false, OnOk};
ghost use Rattle.durable_log.specs.Encoding.{encode};
ghost use Rattle.durable_log.specs.Views.{AddsEvent, AgreesWith, Confirms, HasRoom, HasSlot, IsNewLog, KeepsBytes, KeepsHistory, KeepsProgress, RecordsIfOpen, StaysOpen, Waits, trace_seeing, trace_with};

use crate::mark::{HistoryMark, mark_seen};
use crate::names::Naming;
use crate::opening::UnopenedDevice;
use crate::pending::Pending;
use crate::segments::NoRoom;
use crate::writer::LogWriter;
use ghost_log::{Event, SharedLog};
use std::alloc::Global;
use std::marker::{Model, PhantomData};

/// The history of a durable log, which is stored under a lock next to the value that the history describes.
///
/// A log records after its device was opened. It stops recording if memory runs out, if its history would have 2^64
/// bytes, or if its disk fails. Then no more of the history becomes durable, and commits fail. A log without a device
/// costs no more than its ghost log.
#[derive(Drop)]
pub struct Backlog<E, N: Naming<E>> {
    pub(crate) history: SharedLog<E>,
    pub(crate) pending: Pending,
    /// The number of bytes of the history that are durable.
    pub(crate) synced: u64,
    /// The number of syncs of the device.
    pub(crate) syncs: u64,
    /// What is known to be durable.
    pub(crate) durable_marks: SharedLog<HistoryMark<E>>,
    /// What the device took over.
    pub(crate) taken_marks: SharedLog<HistoryMark<E>>,
    pub(crate) of: PhantomData<N>,
}

impl<E, N: Naming<E>> Model for Backlog<E, N> {
    ghost use Rattle.durable_log.specs.Invariants.{HoldsBacklog, last_mark};
    ghost use Rattle.durable_log.specs.Views.{BacklogView};

    ghost Value = { BacklogView E };

    ghost view = { λ b. record {
      history = b.history.entries;
      writers = b.history.writers;
      taken = last_mark b.taken_marks.entries;
      pending = b.pending;
      synced = b.synced;
    } };

    ghost invariant = { λ b. HoldsBacklog N.names N.bytes b.history b.pending b.synced
        b.durable_marks b.taken_marks };
}

impl<E, N: Naming<E>> Backlog<E, N> {
    /// Creates a log that does not record, with the right to open its device.
    ///
    /// Without a device the log is one in memory alone.
    pub fn new(
        alloc: Global,
        history: SharedLog<E>,
        mut durable_marks: SharedLog<HistoryMark<E>>,
        mut taken_marks: SharedLog<HistoryMark<E>>,
    ) -> (Backlog<E, N>, UnopenedDevice<E, N>)
        requires history { history.name ≡ N.names.history }
        requires durable { IsNewLog durable_marks N.names.durable_marks }
        requires taken { IsNewLog taken_marks N.names.taken_marks }
        ensures history { (result.0).history ≡ history.entries }
        ensures writers { (result.0).writers ≡ history.writers }
        ensures closed { (result.0).pending.recording ≡ false }
    {
        let marker = durable_marks.writer();
        let taker = taken_marks.writer();
        let backlog = Backlog {
            history,
            pending: Pending::new(alloc),
            synced: 0,
            syncs: 0,
            durable_marks,
            taken_marks,
            of: PhantomData,
        };
        (
            backlog,
            UnopenedDevice {
                marker,
                taker,
                of: PhantomData,
            },
        )
    }

    /// Creates a writer with the next number, which has seen the whole history and added no event.
    pub fn writer(&mut self) -> LogWriter<E, N>
        ensures same { self.new ≡ record self.old { writers = self.old.writers + 1 } }
        ensures writer { result ≡ record {
          number = self.old.writers;
          seen = self.old.history;
          own = [];
          durable = [];
        } }
    {
        let position = self.pending.position();
        LogWriter {
            writer: self.history.writer(),
            position,
            unconfirmed: false,
            marker: self.durable_marks.writer(),
            of: PhantomData,
        }
    }

    /// Returns whether the log records.
    pub fn is_recording(&self) -> bool
        ensures { result ≡ self.now.pending.recording }
    {
        self.pending.is_recording()
    }

    /// Returns the number of recorded bytes that the device has not taken over.
    pub fn pending_len(&self) -> u64
        ensures { result ≡ length self.now.pending.segments.bytes }
    {
        self.pending.len()
    }

    /// Returns how often the device has made known that what it took over is durable. No contract describes this number.
    pub fn sync_count(&self) -> u64 {
        self.syncs
    }

    /// Makes room for a record of this number of bytes, if the log records.
    ///
    /// A call of `append` with a record of at most `bytes` bytes, or of `append_owned`, right after it does not allocate.
    ///
    /// # Errors
    ///
    /// `NoRoom` if memory runs out, or if the history would have 2^64 bytes.
    pub fn reserve(&mut self, bytes: usize) -> Result<(), NoRoom>
        ensures history { KeepsHistory self.old self.new }
        ensures device { KeepsProgress self.old self.new }
        ensures bytes { KeepsBytes self.old.pending self.new.pending }
        ensures room { OnOk result (self.old.pending.recording ≡ true →
            HasRoom self.new.pending bytes) }
        ensures slot { OnOk result (self.old.pending.recording ≡ true →
            HasSlot self.new.pending bytes) }
    {
        self.pending.reserve(bytes)
    }

    /// Adds the event that `D` names, and records its bytes. If they have no room, the log is closed.
    pub fn append<D: Event<E>>(
        &mut self,
        writer: &mut LogWriter<E, N>,
        bytes: &[u8],
        promised: bool,
    )
        requires bytes { self.old.pending.recording ≡ true → bytes.now ≡ N.bytes D.event }
        requires promised { promised ≡ N.promises D.event }
        ensures agrees { AgreesWith N.names.history self.old writer.old }
        ensures history { AddsEvent writer.old.number D.event self.old self.new }
        ensures device { KeepsProgress self.old self.new }
        ensures writer { writer.new ≡ trace_with D.event self.old.history writer.old }
        ensures bytes { RecordsIfOpen self.old.pending bytes.now self.new.pending }
        ensures room { HasRoom self.old.pending (length bytes.now) → StaysOpen self.old self.new }
    {
        self.pending.append(bytes);
        let position = self.pending.position();
        writer.add::<D>(&mut self.history, position, promised);
    }

    /// Adds the event that `D` names, and records its bytes. Long ones are not copied. If they have no room, the log is closed.
    pub fn append_owned<D: Event<E>>(
        &mut self,
        writer: &mut LogWriter<E, N>,
        bytes: Vec<u8>,
        promised: bool,
    )
        requires bytes { self.old.pending.recording ≡ true → bytes.items ≡ N.bytes D.event }
        requires promised { promised ≡ N.promises D.event }
        ensures agrees { AgreesWith N.names.history self.old writer.old }
        ensures history { AddsEvent writer.old.number D.event self.old self.new }
        ensures device { KeepsProgress self.old self.new }
        ensures writer { writer.new ≡ trace_with D.event self.old.history writer.old }
        ensures bytes { RecordsIfOpen self.old.pending bytes.items self.new.pending }
        ensures room { HasSlot self.old.pending (length bytes.items) → StaysOpen self.old self.new }
    {
        self.pending.append_owned(bytes);
        let position = self.pending.position();
        writer.add::<D>(&mut self.history, position, promised);
    }

    /// Adds the event that `D` names, of which nothing is recorded.
    pub fn append_unrecorded<D: Event<E>>(&mut self, writer: &mut LogWriter<E, N>, promised: bool)
        requires bytes { N.bytes D.event ≡ [] }
        requires promised { promised ≡ N.promises D.event }
        ensures agrees { AgreesWith N.names.history self.old writer.old }
        ensures history { AddsEvent writer.old.number D.event self.old self.new }
        ensures same { self.new.pending ≡ self.old.pending }
        ensures device { KeepsProgress self.old self.new }
        ensures writer { writer.new ≡ trace_with D.event self.old.history writer.old }
    {
        let position = self.pending.position();
        writer.add::<D>(&mut self.history, position, promised);
    }

    /// Shows a writer the whole history, of which it had seen a prefix.
    pub fn catch_up(&mut self, writer: &mut LogWriter<E, N>)
        ensures agrees { AgreesWith N.names.history self.old writer.old }
        ensures same { self.new ≡ self.old }
        ensures writer { writer.new ≡ trace_seeing self.old.history writer.old }
    {
        let position = self.pending.position();
        writer.catch_up(&mut self.history, position);
    }

    /// Marks for a writer that all that it has seen is durable, and shows it the whole history.
    pub(crate) fn mark_durable(&mut self, writer: &mut LogWriter<E, N>)
        requires { length (encode N.bytes writer.old.seen) ≤ self.old.synced }
        ensures waits { Waits writer.old writer.new }
        ensures durable { Confirms N.promises writer.old writer.new }
        ensures sees { writer.new.seen ≡ self.old.history }
        ensures same { self.new ≡ self.old }
    {
        writer.reveal_invariant();
        mark_seen(&mut self.durable_marks, &mut writer.marker, &writer.writer);
        self.history.catch_up(&mut writer.writer);
        writer.position = self.pending.position();
        writer.unconfirmed = false;
    }

    /// Returns whether all that the writer has seen is durable. If so, the writer then knows it.
    pub fn confirm(&mut self, writer: &mut LogWriter<E, N>) -> bool
        ensures waits { Waits writer.old writer.new }
        ensures durable { result ≡ true → Confirms N.promises writer.old writer.new }
        ensures sees { result ≡ true → writer.new.seen ≡ self.old.history }
        ensures same { self.new ≡ self.old }
        ensures kept { result ≡ false → writer.new ≡ writer.old }
    {
        let Some(position) = writer.position() else {
            return false;
        };
        if position > self.synced {
            return false;
        }
        self.mark_durable(writer);
        true
    }

    /// Stops recording: no more of the history becomes durable, and commits fail.
    pub fn close(&mut self)
        ensures history { KeepsHistory self.old self.new }
        ensures device { KeepsProgress self.old self.new }
        ensures closed { self.new.pending.recording ≡ false }
    {
        self.pending.close();
    }
}
