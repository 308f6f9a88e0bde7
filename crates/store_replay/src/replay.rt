//! A replay: a sink of payloads that makes their changes in a store.

ghost use Rattle.std.specs.Prelude.{◌≡◌, ◌≤◌, ◌++◌, [], IfOk, length, true};
ghost use Rattle.store_replay.specs.Replays.{Continues, HasDurable, fresh};

use crate::fault::{Cause, Fault};
use crate::observer::ChangeSink;
use crate::player::Player;
use blob_store::{Desk, DroppableDesk, Naming, Store};
use durable_log::IdleDevice;
use locked_book::{Step, StoreLog};
use log_disk::{Disk, ReplayedDisk};
use log_frames::FrameSink;
use log_records::{RecordError, next_record};
use std::alloc::Global;
use std::marker::Model;
use std::mem;
use std::sync::Wait;

/// How far a log is replayed: the desk that made the changes, and the device that has their records.
#[derive(Drop)]
struct Progress<S: Naming> {
    desk: DroppableDesk<S>,
    device: IdleDevice<Step, StoreLog<S>, ReplayedDisk>,
    /// The number of bytes of these records.
    replayed: u64,
}

/// What plays a log: the player, and the observer of its changes.
#[derive(Drop)]
struct Players<'s, W: Wait, S: Naming, O: ChangeSink> {
    rt: &'s W,
    store: &'s Store<S>,
    player: Player<'s, W, S>,
    observer: O,
}

impl<'s, W: Wait, S: Naming, O: ChangeSink> Players<'s, W, S, O> {
    /// Plays the whole records that the bytes begin with, and returns their length. `start` is the offset of the bytes in
    /// the joined payloads of the log.
    fn play_records(&mut self, desk: &mut Desk<S>, start: u64, bytes: &[u8]) -> Result<usize, Fault>
        ensures { IfOk result (λ n. n ≤ length bytes.now) }
    {
        let mut count: usize = 0;
        for _turn in 0..u64::MAX {
            let offset = start.saturating_add(count as u64);
            let (_, rest) = bytes.split_at(count);
            let (change, after) = match next_record(rest) {
                Ok(Some(next)) => next,
                Ok(None) | Err(RecordError::CutOff) => return Ok(count),
                Err(RecordError::UnknownKind { kind }) => {
                    return Err(Cause::UnknownKind(kind).at(offset));
                }
                Err(RecordError::Malformed) => return Err(Cause::Malformed.at(offset)),
            };
            if let Err(cause) = self.player.play(desk, &mut self.observer, &change) {
                return Err(cause.at(offset));
            }
            if self.observer.note(&change, offset).is_err() {
                return Err(Cause::Memory.at(offset));
            }
            count = bytes.len() - after.len();
        }
        Ok(count)
    }

    /// Plays the whole records that the bytes begin with. The device then has these records, and they are durable.
    /// Returns also the bytes after them.
    #[tactic(auto, using(crate::proofs::Taking::continues))]
    fn replay_records<'b>(
        &mut self,
        progress: Progress<S>,
        bytes: &'b [u8],
    ) -> Result<(Progress<S>, &'b [u8]), Fault>
        ensures { IfOk result (λ r. Continues progress.device r.0.device bytes.now r.1.now) }
    {
        let Progress {
            desk,
            device,
            replayed,
        } = progress;
        let mut desk = desk.into_desk();
        let played = self.play_records(&mut desk, replayed, bytes);
        let count = match played {
            Ok(count) => count,
            Err(fault) => {
                let _ = desk.into_droppable();
                return Err(fault);
            }
        };
        let (records, rest) = bytes.split_at(count);
        let (device, done) = self
            .store
            .commit_exactly(self.rt, device, &mut desk, records);
        let desk = desk.into_droppable();
        match done {
            Ok(true) => Ok((
                Progress {
                    desk,
                    device,
                    replayed: replayed.saturating_add(count as u64),
                },
                rest,
            )),
            Ok(false) => Err(Cause::Differs.at(replayed)),
            Err(_) => Err(Cause::Memory.at(replayed)), // The disk does not fail, so the log is closed.
        }
    }

    /// Plays the whole records that the bytes begin with, and copies the bytes after them.
    fn replay_copied(
        &mut self,
        alloc: Global,
        progress: Progress<S>,
        bytes: &[u8],
    ) -> Result<(Progress<S>, Vec<u8>), Fault>
        ensures { IfOk result (λ r. Continues progress.device r.0.device bytes.now r.1.items) }
    {
        match self.replay_records(progress, bytes) {
            Ok((progress, rest)) => match copied(alloc, rest, progress.replayed) {
                Ok(rest) => Ok((progress, rest)),
                Err(fault) => Err(fault),
            },
            Err(fault) => Err(fault),
        }
    }

    /// Plays the whole records that the joined bytes begin with: those that were left over, and a payload. Returns also
    /// the bytes that are left over then.
    fn replay_payload(
        &mut self,
        alloc: Global,
        progress: Progress<S>,
        left: Vec<u8>,
        payload: &[u8],
    ) -> Result<(Progress<S>, Vec<u8>), Fault>
        ensures { IfOk result (λ r. Continues progress.device r.0.device (left.items
            ++ payload.now) r.1.items) }
    {
        if left.is_empty() {
            return self.replay_copied(alloc, progress, payload);
        }
        let mut joined = left;
        if joined.extend_from_slice(payload).is_err() {
            return Err(Cause::Memory.at(progress.replayed));
        }
        self.replay_copied(alloc, progress, joined.as_slice())
    }
}

/// Copies the bytes that are left over. They begin at this offset.
fn copied(alloc: Global, rest: &[u8], offset: u64) -> Result<Vec<u8>, Fault>
    ensures { IfOk result (λ v. v.items ≡ rest.now) }
{
    match Vec::from_slice(alloc, rest) {
        Ok(rest) => Ok(rest),
        Err(_) => Err(Cause::Memory.at(offset)),
    }
}

/// A store that plays a log again. It takes the payloads of the log's frames.
///
/// After each payload it compares the records that the store made with the bytes that it read. Only if they are equal, the
/// device of the store's log takes them as written. So no record is trusted.
///
/// Contracts see the bytes that were replayed, those that are left over, and whether the replay goes on.
#[derive(Drop)]
pub struct Replay<'s, W: Wait, S: Naming, O: ChangeSink> {
    alloc: Global,
    players: Players<'s, W, S, O>,
    /// `None` after a fault.
    progress: Option<Progress<S>>,
    left: Vec<u8>,
    fault: Option<Fault>,
}

impl<'s, W: Wait, S: Naming, O: ChangeSink> Model for Replay<'s, W, S, O> {
    ghost use Rattle.std.specs.Prelude.{◌≡◌, [], IfSome, is_some};
    ghost use Rattle.std.specs.Option.{option_map_or};
    ghost use Rattle.store_replay.specs.Replays.{ReplayView};

    ghost Value = { ReplayView };

    ghost view = { λ r. record {
      goes_on = is_some r.progress;
      replayed = option_map_or (λ p. p.device.written) r.progress [];
      left = r.left.items;
    } };

    ghost invariant = { λ r. IfSome r.progress (λ p. p.device.durable ≡ p.device.written) };
}

impl<'s, W: Wait, S: Naming, O: ChangeSink> Replay<'s, W, S, O> {
    /// Creates a replay into a new store, with a desk of the store, the device of its log, and an observer of the changes.
    pub fn new(
        rt: &'s W,
        store: &'s Store<S>,
        alloc: Global,
        desk: Desk<S>,
        device: IdleDevice<Step, StoreLog<S>, ReplayedDisk>,
        observer: O,
    ) -> Replay<'s, W, S, O>
        requires written { device.written ≡ [] }
        requires durable { device.durable ≡ [] }
        ensures { result ≡ fresh }
    {
        Replay {
            alloc,
            players: Players {
                rt,
                store,
                player: Player::new(rt, store, alloc),
                observer,
            },
            progress: Some(Progress {
                desk: desk.into_droppable(),
                device,
                replayed: 0,
            }),
            left: Vec::new(alloc),
            fault: None,
        }
    }

    /// Returns whether the replay goes on: there was no fault.
    pub fn goes_on(&self) -> bool
        ensures { result ≡ self.now.goes_on }
    {
        self.progress.is_some()
    }

    /// Returns the reason why the replay does not go on.
    pub fn fault(&self) -> Option<&Fault> {
        self.fault.as_ref()
    }

    /// Returns the reason why the replay does not go on.
    pub fn into_fault(self) -> Option<Fault> {
        let Replay {
            alloc: _,
            players: _,
            progress: _,
            left: _,
            fault,
        } = self;
        fault
    }

    /// Returns the allocator.
    pub(crate) fn allocator(&self) -> Global {
        self.alloc
    }

    /// Returns the runtime and the store.
    pub(crate) fn store(&self) -> (&'s W, &'s Store<S>) {
        (self.players.rt, self.players.store)
    }

    /// Returns the observer of the changes.
    pub fn observer(&self) -> &O {
        &self.players.observer
    }

    /// Returns the number of bytes that were replayed, up to 2^64 - 1, or 0 after a fault.
    pub fn replayed(&self) -> u64 {
        match &self.progress {
            Some(progress) => progress.replayed,
            None => 0,
        }
    }

    /// Returns the number of bytes that are left over: they begin a record that is not whole.
    pub fn left_over(&self) -> usize
        ensures { result ≡ length self.now.left }
    {
        self.left.len()
    }

    /// Returns the desk, and the device with a disk that holds the bytes that were replayed.
    pub fn finish<D: Disk>(self, disk: D) -> (Desk<S>, IdleDevice<Step, StoreLog<S>, D>)
        requires goes_on { self.goes_on ≡ true }
        requires written { D.written disk ≡ self.replayed }
        requires synced { D.synced disk ≡ self.replayed }
        ensures { HasDurable self.entry.replayed result.1 }
    {
        let Replay {
            alloc: _,
            players: _,
            progress,
            left: _,
            fault: _,
        } = self;
        match progress {
            Some(progress) => {
                let Progress {
                    desk,
                    device,
                    replayed: _,
                } = progress;
                (desk.into_desk(), device.replace_disk(disk))
            }
            None => unreachable!(),
        }
    }
}

impl<'s, W: Wait, S: Naming, O: ChangeSink> FrameSink for Replay<'s, W, S, O> {
    ghost use Rattle.store_replay.specs.Replays.{Stops, TakesPayload};

    ghost takes = { TakesPayload };

    ghost refuses = { Stops };

    /// Plays the records that are whole with this payload, and compares the records that the store made.
    ///
    /// # Errors
    ///
    /// - if there is or was a fault.
    #[tactic(auto, using(crate::proofs::Taking::takes))]
    fn take(&mut self, payload: &[u8]) -> Result<(), ()> {
        let Some(progress) = self.progress.take() else {
            return Err(());
        };
        let left = mem::replace(&mut self.left, Vec::new(self.alloc));
        match self
            .players
            .replay_payload(self.alloc, progress, left, payload)
        {
            Ok((progress, left)) => {
                self.progress = Some(progress);
                self.left = left;
                Ok(())
            }
            Err(fault) => {
                self.fault = Some(fault);
                Err(())
            }
        }
    }
}
