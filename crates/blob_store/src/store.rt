//! The store that threads share.

ghost use Rattle.std.specs.Prelude.{◌≡◌, ◌⊎◌, IfErr, IfOk, OnOk, vec_len};
ghost use Rattle.std.specs.Option.{option_map};
ghost use Rattle.locked_book.specs.History.{AreFreshDesks, OneBegins};
ghost use Rattle.locked_book.specs.Found.{AreTotalsOfSome};
ghost use Rattle.blob_store.specs.Parts.{AreOfNewStore, names_of};
ghost use Rattle.blob_store.specs.StoreCalls.{DeletesBlob, MountsBlob, RemovesRepo};
ghost use Rattle.blob_store.specs.StoreCalls.{AreBalancedTotals, AreSumsOfDesks};
ghost use Rattle.blob_store.specs.StoreCalls.{KeepsAmounts, SeeOneHistory};
ghost use Rattle.blob_store.specs.StoreCalls.{FailsWith, IsNoDeskCount, PrintsBook};
ghost use Rattle.blob_digest.specs.declared.refusal.Refusal.TheVariants.{LimitReached, Memory};

use crate::parts::{NamedParts, Parts};
use blob_digest::{Digest, Refusal, RepoName};
use content_files::Home;
use durable_log::IdleDevice;
use locked_book::{Desk, Kept, LogPolicy, Naming, Settled, Step, StoreLog, Totals};
use log_disk::Disk;
use pin_table::Pins;
use std::alloc::Global;
use std::hint::spin_loop;
use std::io::{self, Write};
use std::marker::Model;
use std::sync::atomic::AtomicU64;
use std::sync::{Mutex, MutexGuard, Wait};
use std::time::Duration;
use store_book::{Freed, Mount};
use upload_table::Hand;

/// A store that threads share: the pins, and one lock around the book with the totals.
///
/// Each command calls the function of its name of `Kept` under the lock. `append`, `close` and `put_manifest`
/// take the lock for two such calls, and copy and hash between them without it. The contract of a command states that
/// the caller's desk makes the command's step with this result (`Makes`). The desk's amounts grow by what the step
/// counts, and the step is added to the store's history. Every call may wait for the lock.
///
/// # Errors
///
/// A command fails with `LimitReached` if it cannot be counted. This is so if it could raise the accepted commands or
/// the received bytes to 2^64, sessions that are checked out included. Its other errors are those of the function of
/// its name of `store_book::Book`, in the same order. A command that fails changes nothing in the book, except that
/// `append` and `close` check their session out and in again.
#[derive(Drop)]
pub struct Store<S: Naming> {
    pub(crate) pins: Pins,
    book: Mutex<Kept<S>>,
    pub(crate) policy: LogPolicy,
    /// The length of the longest content whose bytes the log has, if longer ones lie in files.
    longest: Option<u64>,
    /// Stays 0: a thread that waits for the lock sleeps on it until its pause is over.
    pub(crate) rest: AtomicU64,
    pub(crate) alloc: Global,
}

impl<S: Naming> Model for Store<S> {
    ghost use Rattle.std.specs.Prelude.{◌≡◌};
    ghost use Rattle.atomic_table.specs.Seated.{TableId};

    ghost Value = { TableId };

    ghost view = { λ s. s.pins };

    ghost invariant = { λ s. (s.pins ≡ S.names.table) × (s.policy ≡ S.names.policy) ×
        (s.longest ≡ S.names.longest) };
}

/// Rounds that a thread waits for the lock before it sleeps until it is woken. In a round it tries the lock, spins,
/// tries again and pauses. With `REST_MICROS` the rounds take about ten milliseconds in all. Only a call that holds the
/// lock for that long, such as `print`, lets the others sleep until they are woken.
const LOCK_ROUNDS: u32 = 64;

/// Turns that a thread spins between the two tries of a round. They take a tenth of a microsecond to a microsecond,
/// depending on the processor. A command holds the lock for about as long. More turns would burn time that the holder
/// of the lock may need.
const SPINS_PER_ROUND: u32 = 30;

/// Microseconds that a thread pauses at the end of a round. The pause is a system call of a few microseconds, so a
/// waiting thread uses a few hundredths of a processor, and no thread has to wake it. The lock may be free for up to
/// one pause before the thread sees it, and longer if the system wakes the thread late.
pub(crate) const REST_MICROS: u64 = 100;

/// Waits for a moment without giving up the processor.
fn spin_wait() {
    for _ in 0..SPINS_PER_ROUND {
        spin_loop();
    }
}

impl<S: Naming> Store<S> {
    /// Makes the store of these parts, whose names are those of the type parameter. It is in memory alone.
    pub fn new(parts: Parts) -> Store<S>
        requires named { names_of parts ≡ S.names }
    {
        let (parts, _) = parts.named();
        Store::of_parts(parts)
    }

    /// Makes the store of these parts, whose names are those of the type parameter, with an empty log on a disk.
    ///
    /// Also returns the device of its log, which `commit` shares among threads.
    pub fn with_log<D: Disk>(parts: Parts, disk: D) -> (Store<S>, IdleDevice<Step, StoreLog<S>, D>)
        requires named { names_of parts ≡ S.names }
        requires written { D.written disk ≡ S.names.log.base }
        requires synced { D.synced disk ≡ S.names.log.base }
        ensures { (result.1.written ≡ D.written disk) × (result.1.durable ≡ D.synced disk) }
    {
        let (mut parts, unopened) = parts.named();
        let device = unopened.open(parts.alloc, &mut parts.backlog, disk, 0);
        (Store::of_parts(parts), IdleDevice::new(device))
    }

    /// Makes the store of parts that have its names.
    fn of_parts(parts: NamedParts<S>) -> Store<S>
        requires { AreOfNewStore S.names parts.pins parts.book parts.counters parts.backlog
            parts.policy parts.longest }
    {
        let NamedParts {
            alloc,
            pins,
            book,
            counters,
            backlog,
            policy,
            longest,
        } = parts;
        let book = Kept::new(alloc, book, counters, policy, backlog);
        Store {
            pins,
            book: Mutex::new(book),
            policy,
            longest,
            rest: AtomicU64::new(0),
            alloc,
        }
    }

    /// Returns the value under the lock, after the last use of the store.
    pub(crate) fn into_book(self) -> Kept<S> {
        let Store {
            pins: _,
            book,
            policy: _,
            longest: _,
            rest: _,
            alloc: _,
        } = self;
        book.into_inner()
    }

    /// Acquires the lock: spins, then pauses, then sleeps. Most commands hold the lock for a microsecond, so a waiting
    /// thread first spins for about that long. A thread that pauses is not woken: the holder pays for no wake, and
    /// continues while the book's memory is in its cache. After `LOCK_ROUNDS` rounds the thread sleeps until it is
    /// woken.
    pub(crate) fn locked(&self, rt: &impl Wait) -> MutexGuard<'_, Kept<S>> {
        for _ in 0..LOCK_ROUNDS {
            if let Some(book) = self.book.try_lock() {
                return book;
            }
            spin_wait();
            if let Some(book) = self.book.try_lock() {
                return book;
            }
            self.rest
                .park_timeout(rt, 0, Duration::from_micros(REST_MICROS));
        }
        self.book.lock(rt)
    }

    /// Returns when the store's changes become durable.
    pub fn policy(&self) -> LogPolicy
        ensures { result ≡ S.names.policy }
    {
        self.policy
    }

    /// Returns the file of a session's content, and the length up to which the content stays in memory. `None` if all contents stay
    /// there.
    pub(crate) fn home_of(&self, hand: &Hand) -> Option<Home>
        ensures { option_map (λ h. h.longest) result ≡ S.names.longest }
    {
        match self.longest {
            Some(longest) => Some(Home {
                name: hand.content_name(),
                longest,
            }),
            None => None,
        }
    }

    /// Returns what was freed since the last call and may lie in files (`store_book::Book::take_freed`).
    pub fn take_freed(&self, rt: &impl Wait) -> Freed {
        self.locked(rt).take_freed()
    }

    /// Makes `count` desks with empty shares.
    ///
    /// # Errors
    ///
    /// - `LimitReached` if `count` is 0, or more than 1,024 desks would be out.
    /// - `Memory` if the desks cannot be allocated.
    pub fn desks(&self, rt: &impl Wait, count: u64) -> Result<Vec<Desk<S>>, Refusal>
        ensures made { IfOk result (λ v. (vec_len v ≡ count) × AreFreshDesks v.items) }
        ensures limit { IsNoDeskCount count → FailsWith (λ e. e ≡ LimitReached) result }
        ensures refused { IfErr result (λ e. (e ≡ LimitReached) ⊎ (e ≡ Memory)) }
    {
        self.locked(rt).desks(self.alloc, count)
    }

    /// Settles desks, and returns the sums of their shares and the number of desks still out. If that number is 0, the
    /// totals are the sums of all shares settled so far.
    ///
    /// # Memory
    ///
    /// Allocates nothing.
    pub fn settle(&self, rt: &impl Wait, desks: Vec<Desk<S>>) -> Settled
        ensures { AreSumsOfDesks desks.items result }
    {
        self.locked(rt).settle(desks)
    }

    /// Returns the totals. A legal history of this store leads to them, and to a book with as many bytes in its
    /// sessions.
    ///
    /// # Memory
    ///
    /// Allocates nothing.
    pub fn totals(&self, rt: &impl Wait) -> Totals
        ensures balanced { AreBalancedTotals result }
        ensures found { AreTotalsOfSome S.names result }
    {
        self.locked(rt).totals()
    }

    /// Lets two desks see the store's whole history. Each had seen a beginning of it, so one of these beginnings begins
    /// the other. No step is made, and nothing is counted.
    ///
    /// # Memory
    ///
    /// Allocates nothing.
    pub fn compare(&self, rt: &impl Wait, one: &mut Desk<S>, other: &mut Desk<S>)
        ensures same { KeepsAmounts one.old one.new × KeepsAmounts other.old other.new }
        ensures one_history { SeeOneHistory S.names.opening one.old one.new other.old other.new }
        ensures begins { OneBegins one.old.trace.seen other.old.trace.seen }
    {
        self.locked(rt).compare(one, other);
    }

    /// Links a blob that the tenant has in the source repository, without an upload (OCI Distribution Specification
    /// 1.1, "Mounting a blob from another repository"). Without a source, any repository of the tenant may supply the
    /// blob. If the blob is not there, or the source is another tenant's, the call opens a session, as `start` does.
    pub fn mount(
        &self,
        rt: &impl Wait,
        desk: &mut Desk<S>,
        repo: &RepoName,
        digest: &Digest,
        from: Option<&RepoName>,
    ) -> Result<Mount, Refusal>
        ensures { MountsBlob S.names repo.now digest.now from.entry result desk.old desk.new }
    {
        self.locked(rt).mount(desk, repo, digest, from)
    }

    /// Removes the link between a repository and a blob (OCI Distribution Specification 1.1, "Deleting Blobs").
    ///
    /// # Memory
    ///
    /// Allocates nothing.
    pub fn delete(
        &self,
        rt: &impl Wait,
        desk: &mut Desk<S>,
        repo: &RepoName,
        digest: &Digest,
    ) -> Result<(), Refusal>
        ensures { DeletesBlob S.names repo.now digest.now result desk.old desk.new }
    {
        self.locked(rt).delete(desk, repo, digest)
    }

    /// Removes a repository that has no link, no manifest and no session. Its name no longer counts for the limit of 1,024.
    ///
    /// # Memory
    ///
    /// Allocates nothing.
    pub fn remove_repo(
        &self,
        rt: &impl Wait,
        desk: &mut Desk<S>,
        repo: &RepoName,
    ) -> Result<(), Refusal>
        ensures { RemovesRepo S.names repo.now result desk.old desk.new }
    {
        self.locked(rt).remove_repo(desk, repo)
    }

    /// Writes the text of the book, as `store_book::Book::print` does, under the lock. It is the text of some book of
    /// this store: one to which a legal history leads.
    ///
    /// # Errors
    ///
    /// Those of the writer.
    ///
    /// # Memory
    ///
    /// Allocates nothing.
    pub fn print<W: Write>(&self, rt: &impl Wait, writer: &mut W) -> io::Result<()>
        ensures { OnOk result (PrintsBook S.names (W.contents writer.old) (W.contents writer.new)) }
    {
        self.locked(rt).print(writer)
    }
}
