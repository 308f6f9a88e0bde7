//! The history of a store, and its writers.

ghost use Rattle.std.specs.Prelude.{◌≡◌, ◌+◌, ◌++◌, ◌≤◌, ℕ, [], IfOk, IfSome, OnErr, Some, true, false};
ghost use Rattle.ghost_log.specs.Entries.{IsPrefix, events_by};
ghost use Rattle.durable_log.specs.Views.{IsReady, IsSynced, KeepsDisk, Waits};
ghost use Rattle.store_model.specs.Histories.{IsLegal, State};
ghost use Rattle.locked_book.specs.Calls.{step_of};
ghost use Rattle.locked_book.specs.History.{Adds, Allows, IsPart, LeadsOn, LogLeadsTo, SeesAll, steps_of};
ghost use Rattle.locked_book.specs.Durability.{IsConfirmed, log_trace};
ghost use Rattle.locked_book.specs.Logging.{IsSmall, IsUnrecorded, promises, recorded_bytes};
ghost use Rattle.locked_book.specs.Names.{OpensNew};
ghost use Rattle.locked_book.specs.Recording.{IsRecord};
ghost use Rattle.locked_book.specs.Restoring.{IsRestorable, RestoresItsStates, records_of};
ghost use Rattle.locked_book.specs.Returns.{AreReturned, AreWellFormed, MayReturn, ReturnsFilledHand};

use crate::call::Call;
use crate::names::{Naming, StoreLog};
use crate::policy::{LogPolicy, is_change};
use crate::record::record_call;
use crate::step::{Step, append, append_owned};
use durable_log::{Backlog, CommitError, LogDevice, LogWriter};
use log_disk::Disk;
use std::alloc::Global;
use std::marker::{Model, PhantomData};

/// The history of a store: all steps made under its lock, with the records of them that the log has not taken over.
///
/// The steps exist in the proof alone. At run time a history without a log is three atomic words and the number of its
/// writers.
#[derive(Drop)]
pub struct History<S: Naming> {
    alloc: Global,
    pub(crate) backlog: Backlog<Step, StoreLog<S>>,
    policy: LogPolicy,
    /// Room for the record of a step, which is made before it is appended.
    scratch: Vec<u8>,
    /// The number of writers, or `None` if it exceeded 64 bits.
    writers: Option<u64>,
    of: PhantomData<S>,
}

impl<S: Naming> Model for History<S> {
    ghost use Rattle.std.specs.Prelude.{◌≡◌, IfSome, List};
    ghost use Rattle.ghost_log.specs.declared.view.Entry.{Entry};
    ghost use Rattle.store_model.specs.Histories as histories;
    ghost use Rattle.locked_book.specs.Names.{OpensNew};
    ghost use Rattle.locked_book.specs.Returns.{AreReturned, AreWellFormed};

    ghost Value = { List (Entry histories.Step) };

    ghost view = { λ h. h.backlog.history };

    ghost invariant = { λ h. IfSome h.writers (λ n. n ≡ h.backlog.writers) ×
        AreReturned h.backlog.history × (h.policy ≡ S.names.policy) ×
        AreWellFormed h.backlog.history × OpensNew S.names };
}

/// The right to add steps to a store's history under a number of its own.
#[derive(Drop)]
pub struct HistoryWriter<S: Naming> {
    pub(crate) writer: LogWriter<Step, StoreLog<S>>,
    /// Its number, or `None` if that exceeded 64 bits.
    number: Option<u64>,
    of: PhantomData<S>,
}

impl<S: Naming> Model for HistoryWriter<S> {
    ghost use Rattle.std.specs.Prelude.{◌≡◌, IfSome};
    ghost use Rattle.ghost_log.specs.Entries.{events_by};
    ghost use Rattle.store_model.specs.Histories.{IsLegal};
    ghost use Rattle.locked_book.specs.History.{Trace, steps_of};

    ghost Value = { Trace };

    ghost view = { λ w. record {
      number = w.writer.number;
      seen = w.writer.seen;
      own = w.writer.own;
      durable = w.writer.durable;
    } };

    ghost invariant = { λ w. (events_by w.writer.number w.writer.seen ≡ w.writer.own) ×
        IsLegal S.names.opening (steps_of w.writer.seen) ×
        IfSome w.number (λ n. n ≡ w.writer.number) };
}

impl<S: Naming> HistoryWriter<S> {
    /// Does nothing at run time: it gives the caller the invariant of writers as a fact.
    pub fn reveal_invariant(&self)
        ensures { IsPart S.names.opening self.now }
    {
        let _ = &self.writer;
    }
}

/// Returns the count plus one, or `None` if that exceeds 64 bits.
fn one_more(count: Option<u64>) -> Option<u64>
    ensures { IfSome result (λ n. (m : ℕ) × (count ≡ Some m) × (n ≡ m + 1)) }
{
    count?.checked_add(1)
}

impl<S: Naming> History<S> {
    /// Creates a history without steps and writers, whose log does not record.
    pub fn new(alloc: Global, policy: LogPolicy, backlog: Backlog<Step, StoreLog<S>>) -> History<S>
        requires empty { (backlog.history ≡ []) × (backlog.writers ≡ 0) }
        requires policy { policy ≡ S.names.policy }
        requires opening { OpensNew S.names }
        ensures { result ≡ [] }
    {
        History {
            alloc,
            backlog,
            policy,
            scratch: Vec::new(alloc),
            writers: Some(0),
            of: PhantomData,
        }
    }

    /// Returns the policy of the log.
    pub fn policy(&self) -> LogPolicy
        ensures { result ≡ S.names.policy }
    {
        self.policy
    }

    /// Creates a writer with a number of its own, which has seen the whole history and made no step.
    pub fn writer(&mut self) -> HistoryWriter<S>
        requires { IsLegal S.names.opening (steps_of self.old) }
        ensures same { self.new ≡ self.old }
        ensures writer { (result.own ≡ []) × (result.seen ≡ self.old) × (result.durable ≡ []) }
    {
        let number = self.writers;
        self.writers = one_more(number);
        let writer = self.backlog.writer();
        writer.reveal_invariant();
        HistoryWriter {
            writer,
            number,
            of: PhantomData,
        }
    }

    /// Does nothing at run time: it gives the caller the invariant of histories as a fact.
    pub fn reveal_invariant(&self)
        ensures returned { AreReturned self.now }
        ensures formed { AreWellFormed self.now }
        ensures opening { OpensNew S.names }
    {
        let _ = &self.backlog;
    }

    /// Does nothing at run time: it states that the log restores each state to which the history leads.
    pub fn reveal_durable_state(&self)
        ensures { (s : State) → LogLeadsTo S.names.opening self.now s →
            IsRestorable S.names self.now s }
    {
        self.reveal_invariant();
    }

    /// Shows a writer the whole history, and states that its log restores each state to which it leads.
    pub fn reveal_restored(&mut self, writer: &mut HistoryWriter<S>)
        requires { IsLegal S.names.opening (steps_of self.old) }
        ensures same { self.new ≡ self.old }
        ensures sees { SeesAll self.old writer.old writer.new }
        ensures restores { RestoresItsStates S.names writer.new.seen }
    {
        self.reveal_durable_state();
        self.catch_up(writer);
    }

    /// Does nothing at run time: it states what the disk has of the history's log.
    pub fn reveal_disk<D: Disk>(&mut self, device: &mut LogDevice<Step, StoreLog<S>, D>)
        ensures same { (self.new ≡ self.old) × (device.new ≡ device.old) }
        ensures taken { IsPrefix device.old.taken self.old }
        ensures written { IsPrefix device.old.written (S.names.log.base
            ++ records_of S.names self.old) }
    {
        device.reveal_order(&mut self.backlog);
    }

    /// Returns whether the disk has the whole log of the history: the log records, no record waits, and no call on the disk
    /// has failed.
    pub fn is_on_disk<D: Disk>(&mut self, device: &mut LogDevice<Step, StoreLog<S>, D>) -> bool
        requires { device.old.buffer ≡ [] }
        ensures same { (self.new ≡ self.old) × (device.new ≡ device.old) }
        ensures whole { result ≡ true → device.old.written ≡ S.names.log.base
            ++ records_of S.names self.old }
    {
        device.reveal_order(&mut self.backlog);
        if device.check().is_err() {
            return false;
        }
        if !self.backlog.is_recording() {
            return false;
        }
        self.backlog.pending_len() == 0
    }

    /// Adds the step that a call is, under the writer's number. The writer has then seen the whole history.
    ///
    /// The record is made from the call. If there is no memory for it, the log is closed.
    pub fn add(&mut self, writer: &mut HistoryWriter<S>, call: Call<'_>)
        requires small { IsSmall call }
        requires allows { Allows S.names.opening self.old (step_of call) }
        ensures adds { Adds S.names.opening writer.old (step_of call.entry) writer.new }
        ensures all { writer.new.seen ≡ self.new }
        ensures leads { LeadsOn S.names.opening self.old (step_of call.entry) self.new }
    {
        call.reveal_form();
        let promised = self.policy.promises_changes() && is_change(&call);
        record_call(
            self.alloc,
            self.policy,
            &mut self.backlog,
            &mut self.scratch,
            &call,
        );
        append(
            &mut self.backlog,
            &mut writer.writer,
            call,
            self.scratch.as_slice(),
            promised,
        );
    }

    /// Adds the step that a call is, with its record. The writer has then seen the whole history.
    ///
    /// The record is not copied. If the step returns a hand, the writer took it last.
    pub fn add_recorded(
        &mut self,
        writer: &mut HistoryWriter<S>,
        call: Call<'_>,
        bytes: Vec<u8>,
        promised: bool,
    )
        requires bytes { IsRecord S.names bytes.items (step_of call) }
        requires promised { promised ≡ promises S.names.policy (step_of call) }
        requires allows { Allows S.names.opening self.old (step_of call) }
        requires returns { MayReturn writer.old.own (step_of call) }
        requires filled { ReturnsFilledHand (step_of call) }
        ensures adds { Adds S.names.opening writer.old (step_of call.entry) writer.new }
        ensures all { writer.new.seen ≡ self.new }
        ensures leads { LeadsOn S.names.opening self.old (step_of call.entry) self.new }
    {
        call.reveal_form();
        append_owned(&mut self.backlog, &mut writer.writer, call, bytes, promised);
    }

    /// Adds the step that a call is, of which nothing is recorded. The writer has then seen the whole history.
    ///
    /// If the step returns a hand, the writer took it last.
    pub fn add_unrecorded(&mut self, writer: &mut HistoryWriter<S>, call: Call<'_>)
        requires unrecorded { IsUnrecorded call }
        requires allows { Allows S.names.opening self.old (step_of call) }
        requires returns { MayReturn writer.old.own (step_of call) }
        requires filled { ReturnsFilledHand (step_of call) }
        ensures adds { Adds S.names.opening writer.old (step_of call.entry) writer.new }
        ensures all { writer.new.seen ≡ self.new }
        ensures leads { LeadsOn S.names.opening self.old (step_of call.entry) self.new }
    {
        call.reveal_form();
        append(&mut self.backlog, &mut writer.writer, call, &[], false);
    }

    /// Shows a writer the whole history, of which it had seen a prefix.
    pub fn catch_up(&mut self, writer: &mut HistoryWriter<S>)
        requires { IsLegal S.names.opening (steps_of self.old) }
        ensures same { self.new ≡ self.old }
        ensures sees { SeesAll self.old writer.old writer.new }
    {
        self.backlog.catch_up(&mut writer.writer);
    }

    /// Consumes a writer, and returns whether its number is `number` and exactly `writers` writers exist.
    ///
    /// If so, its own steps are all steps under `number`, and no step has the number `writers` or a greater one.
    pub fn take_back(&mut self, writer: HistoryWriter<S>, number: u64, writers: u64) -> bool
        ensures same { self.new ≡ self.old }
        ensures own { result ≡ true → events_by number self.old ≡ writer.own }
        ensures others { result ≡ true → (n : ℕ) → writers ≤ n → events_by n self.old ≡ [] }
    {
        let HistoryWriter {
            mut writer,
            number: of_writer,
            of: _,
        } = writer;
        self.backlog.catch_up(&mut writer);
        match (of_writer, self.writers) {
            (Some(its), Some(count)) => its == number && count == writers,
            _ => false,
        }
    }

    /// Returns whether all that the writer has seen is durable. If so, the writer then knows it.
    pub fn confirm(&mut self, writer: &mut HistoryWriter<S>) -> bool
        requires { IsLegal S.names.opening (steps_of self.old) }
        ensures same { self.new ≡ self.old }
        ensures waits { Waits (log_trace writer.old) (log_trace writer.new) }
        ensures durable { result ≡ true → IsConfirmed S.names writer.old writer.new }
        ensures kept { result ≡ false → writer.new ≡ writer.old }
    {
        let done = self.backlog.confirm(&mut writer.writer);
        writer.writer.reveal_invariant();
        done
    }

    /// Returns whether all that the writer has seen is durable. If not, gives the device the records that wait for it, and
    /// shows the writer the whole history.
    pub fn confirm_or_take<D: Disk>(
        &mut self,
        device: &mut LogDevice<Step, StoreLog<S>, D>,
        writer: &mut HistoryWriter<S>,
    ) -> Result<bool, CommitError>
        requires legal { IsLegal S.names.opening (steps_of self.old) }
        requires device { IsReady device.old }
        ensures same { self.new ≡ self.old }
        ensures waits { Waits (log_trace writer.old) (log_trace writer.new) }
        ensures sound { device.new.failed ≡ false }
        ensures confirmed { IfOk result (λ done. done ≡ true →
            IsConfirmed S.names writer.old writer.new) }
        ensures idle { IfOk result (λ done. done ≡ true → device.new.buffer ≡ []) }
        ensures taken { IfOk result (λ done. done ≡ false → device.new.taken ≡ writer.new.seen) }
        ensures durable { IfOk result (λ done. done ≡ false →
            writer.new.durable ≡ writer.old.durable) }
        ensures err { OnErr result ((writer.new ≡ writer.old) × (device.new ≡ device.old)) }
    {
        let done = device.confirm_or_take(&mut self.backlog, &mut writer.writer);
        writer.writer.reveal_invariant();
        done
    }

    /// Gives the device the records that wait for it, and shows the writer the whole history, if the log records. Returns
    /// whether it does.
    #[tactic(auto, using(crate::proofs::SeenHistories::waits_seeing, crate::proofs::SeenHistories::waits_nothing))]
    pub fn take_over_at<D: Disk>(
        &mut self,
        device: &mut LogDevice<Step, StoreLog<S>, D>,
        writer: &mut HistoryWriter<S>,
    ) -> bool
        requires legal { IsLegal S.names.opening (steps_of self.old) }
        requires device { IsReady device.old }
        ensures same { self.new ≡ self.old }
        ensures waits { Waits (log_trace writer.old) (log_trace writer.new) }
        ensures sound { device.new.failed ≡ false }
        ensures disk { KeepsDisk device.old device.new }
        ensures taken { result ≡ true → device.new.taken ≡ writer.new.seen }
        ensures kept { result ≡ false → (writer.new ≡ writer.old) × (device.new ≡ device.old) }
    {
        if !device.take_over(&mut self.backlog) {
            return false;
        }
        self.catch_up(writer);
        true
    }

    /// Makes known that all that the device took over is durable: to the history, and to a writer that has seen no more.
    pub fn publish<D: Disk>(
        &mut self,
        device: &mut LogDevice<Step, StoreLog<S>, D>,
        writer: &mut HistoryWriter<S>,
    )
        requires legal { IsLegal S.names.opening (steps_of self.old) }
        requires synced { IsSynced (recorded_bytes S.names.policy S.names.longest)
            S.names.log.base device.old }
        requires seen { writer.old.seen ≡ device.old.taken }
        ensures same { self.new ≡ self.old }
        ensures device { device.new ≡ device.old }
        ensures waits { Waits (log_trace writer.old) (log_trace writer.new) }
        ensures durable { IsConfirmed S.names writer.old writer.new }
    {
        device.publish(&mut self.backlog, &mut writer.writer);
        writer.writer.reveal_invariant();
    }

    /// Does nothing at run time: it states what a crash leaves of the history.
    ///
    /// `left` is what the disk has after a crash: a prefix of what was written, with all that was synced.
    pub fn reveal_survivors<D: Disk>(
        &mut self,
        device: &mut LogDevice<Step, StoreLog<S>, D>,
        writer: &mut HistoryWriter<S>,
        left: &[u8],
    )
        requires synced { IsPrefix device.old.durable left.now }
        requires written { IsPrefix left.now device.old.written }
        ensures same { (self.new ≡ self.old) × (device.new ≡ device.old) ×
            (writer.new ≡ writer.old) }
        ensures returned { AreReturned self.old }
        ensures known { IsPrefix writer.old.durable self.old }
        ensures durable { IsPrefix (S.names.log.base
            ++ records_of S.names writer.old.durable) left.now }
        ensures in_order { IsPrefix left.now (S.names.log.base ++ records_of S.names self.old) }
    {
        device.reveal_survivors(&mut self.backlog, &mut writer.writer, left);
    }
}
