//! Two writers that append in turn, and two threads that append under a lock.

ghost use Rattle.std.specs.Prelude.{◌≡◌, ◌+◌, ◌++◌, [], ◌∷◌, IfOk, IfSome, IfNone};
ghost use Rattle.atomic_table.specs.Seated.{TableId};
ghost use Rattle.ghost_log.specs.Entries.{entry};
ghost use Rattle.ghost_log.specs.Calls.{with_entry, writer_after_append};

use crate::{Event, SharedLog, Writer, laws};
use std::alloc::{AllocError, Global};
use std::marker::{Brand, Model, PhantomData};
use std::process::Abort;
use std::sync::{Mutex, Wait};
use std::test::*;
use std::thread::{Threads, join};

/// The number seven.
struct Seven;

impl Event<u64> for Seven {
    ghost event = { 7 };
}

/// The number nine.
struct Nine;

impl Event<u64> for Nine {
    ghost event = { 9 };
}

/// Appends seven by the first of two writers, then nine by the second, and shows the first the whole log.
fn in_turn(alloc: Global) -> Result<(Writer<u64>, Writer<u64>), AllocError>
    ensures first_seen { IfOk result (λ t. (t.0).seen ≡ entry 0 7 ∷ entry 1 9 ∷ []) }
    ensures first_own { IfOk result (λ t. (t.0).own ≡ 7 ∷ []) }
    ensures second_seen { IfOk result (λ t. (t.1).seen ≡ entry 0 7 ∷ entry 1 9 ∷ []) }
    ensures second_own { IfOk result (λ t. (t.1).own ≡ 9 ∷ []) }
{
    let mut log = SharedLog::new(alloc)?;
    let mut one = log.writer();
    let mut two = log.writer();
    log.append::<Seven>(&mut one);
    log.append::<Nine>(&mut two);
    log.catch_up(&mut one);
    Ok((one, two))
}

#[test]
fn each_call_once(rt: HostRuntime) -> Result<(), Fail> {
    let (one, two) = in_turn(rt.alloc())?;
    one.reveal_invariant();
    two.reveal_invariant();
    laws::every_run::<u64>();
    Ok(())
}

/// The name of a tally's log.
pub trait Naming {
    ghost name: { TableId };
}

impl Naming for Brand {
    ghost name = { record {
      words = 0;
      slots = 0;
      views_name = 0;
      atom = 0;
      block = 0;
      offset = 0;
      slot_names = [];
    } };
}

/// A type that names a number to append.
pub trait Picking {
    ghost use Rattle.std.specs.Prelude.{ℕ};

    ghost number: { ℕ };
}

impl Picking for Brand {
    ghost number = { 0 };
}

/// The event that is the number named by `P`.
struct Picked<P> {
    picking: PhantomData<P>,
}

impl<P: Picking> Event<u64> for Picked<P> {
    ghost event = { P.number };
}

fn append_as<P: Picking>(log: &mut SharedLog<u64>, writer: &mut Writer<u64>, number: u64)
    requires number { P.number ≡ number }
    requires name { writer.old.name ≡ log.old.name }
    ensures log { log.new ≡ with_entry writer.old.number number log.old }
    ensures writer { writer.new ≡ writer_after_append number log.old.entries writer.old }
{
    let _ = number;
    log.append::<Picked<P>>(writer);
}

/// Appends a number.
fn append(log: &mut SharedLog<u64>, writer: &mut Writer<u64>, number: u64)
    requires { writer.old.name ≡ log.old.name }
    ensures log { log.new ≡ with_entry writer.old.number number log.old }
    ensures writer { writer.new ≡ writer_after_append number log.old.entries writer.old }
{
    append_as::<Brand>(log, writer, number);
}

/// A count of votes with its log, which has an entry for each vote.
#[derive(Drop)]
pub struct Tally<N: Naming> {
    count: u64,
    log: SharedLog<u64>,
    of: PhantomData<N>,
}

impl<N: Naming> Model for Tally<N> {
    ghost use Rattle.std.specs.Prelude.{◌≡◌, ℕ, length};

    ghost Value = { ℕ };

    ghost view = { λ t. t.count };

    ghost invariant = { λ t. (t.log.name ≡ N.name) × (length t.log.entries ≡ t.count) };
}

/// The right to vote.
#[derive(Drop)]
pub struct Voter<N: Naming> {
    writer: Writer<u64>,
    of: PhantomData<N>,
}

impl<N: Naming> Model for Voter<N> {
    ghost use Rattle.std.specs.Prelude.{◌≡◌, ℕ, List};

    ghost Value = { List ℕ };

    ghost view = { λ c. c.writer.own };

    ghost invariant = { λ c. c.writer.name ≡ N.name };
}

impl<N: Naming> Tally<N> {
    fn new(log: SharedLog<u64>) -> Tally<N>
        requires { (log.name ≡ N.name) × (log.entries ≡ []) }
    {
        Tally {
            count: 0,
            log,
            of: PhantomData,
        }
    }

    fn voter(&mut self) -> Voter<N>
        ensures { result ≡ [] }
    {
        Voter {
            writer: self.log.writer(),
            of: PhantomData,
        }
    }

    /// Counts a vote and appends the new count. At 1,000 it returns `None` and appends nothing.
    fn vote(&mut self, voter: &mut Voter<N>) -> Option<u64>
        ensures some { IfSome result (λ n. voter.new ≡ voter.old ++ n ∷ []) }
        ensures none { IfNone result (voter.new ≡ voter.old) }
    {
        if self.count >= 1000 {
            return None;
        }
        self.count += 1;
        append(&mut self.log, &mut voter.writer, self.count);
        Some(self.count)
    }
}

/// Votes `times` times, and returns the counts that this voter appended, in order.
fn work<N: Naming>(
    rt: &impl Wait,
    alloc: Global,
    tally: &Mutex<Tally<N>>,
    mut voter: Voter<N>,
    times: u32,
) -> Result<(Voter<N>, Vec<u64>), AllocError>
    requires { voter ≡ [] }
    ensures { IfOk result (λ t. (t.0) ≡ (t.1).items) }
{
    let mut numbers = Vec::new(alloc);
    for _ in 0..times {
        let counted = tally.lock(rt).vote(&mut voter);
        if let Some(number) = counted {
            numbers.push(number)?;
        }
    }
    Ok((voter, numbers))
}

fn sum_of(numbers: &[u64]) -> u64 {
    let mut sum: u64 = 0;
    for number in numbers {
        sum = sum.saturating_add(*number);
    }
    sum
}

fn in_two_threads<N: Naming + Send + Sync, R: Threads + Wait + Abort + Sync>(
    rt: &R,
    alloc: Global,
    log: SharedLog<u64>,
) -> Result<(), Fail>
    requires { (log.name ≡ N.name) × (log.entries ≡ []) }
{
    let mut tally = Tally::<N>::new(log);
    let one = tally.voter();
    let two = tally.voter();
    let tally = Mutex::new(tally);
    let (first, second) = join(
        rt,
        || work(rt, alloc, &tally, one, 300),
        || work(rt, alloc, &tally, two, 200),
    );
    let (_, first) = first?;
    let (_, second) = second?;
    assert_eq!(rt; first.len(), 300);
    assert_eq!(rt; second.len(), 200);
    let sum = sum_of(first.as_slice()).saturating_add(sum_of(second.as_slice()));
    assert_eq!(rt; sum, 125_250);
    Ok(())
}

#[test]
fn two_threads_append_under_a_lock(rt: HostRuntime) -> Result<(), Fail> {
    let log = SharedLog::new(rt.alloc())?;
    in_two_threads::<Brand, _>(&rt, rt.alloc(), log)
}
