//! A cell from which one thread at a time takes a value out, to use it while no lock is held.

use std::sync::atomic::AtomicU64;
use std::sync::{Condvar, Mutex, Wait};
use std::time::Duration;

/// Microseconds that a leader rests before it uses the value, if other threads have waited.
const REST_MICROS: u64 = 50;

/// The value, unless a thread has taken it out.
#[derive(Drop)]
struct Place<T: Drop> {
    value: Option<T>,
    /// How often the value was put back.
    rounds: u64,
    /// Whether other threads have waited since it was last taken out.
    waited: bool,
}

/// A cell from which one thread at a time, the leader, takes the value out. The other threads wait until it is put back.
///
/// The lock of the cell is held only to take the value out, to put it back and to begin to wait.
#[derive(Drop)]
pub struct LeaderCell<T: Drop> {
    place: Mutex<Place<T>>,
    put_back: Condvar,
    /// Stays 0: a leader that rests sleeps on it until its rest is over.
    rest: AtomicU64,
}

impl<T: Drop> LeaderCell<T> {
    /// Creates a cell with this value.
    pub fn new(value: T) -> LeaderCell<T> {
        LeaderCell {
            place: Mutex::new(Place {
                value: Some(value),
                rounds: 0,
                waited: false,
            }),
            put_back: Condvar::new(),
            rest: AtomicU64::new(0),
        }
    }

    /// Takes the value out. If another thread has it, waits until it is put back, and returns `None`.
    ///
    /// If other threads have waited, the new leader first rests for a moment, so that the threads of the last round can
    /// take part in this one. Otherwise those threads and the waiting ones take turns, half of them in each round.
    pub fn take_or_wait(&self, rt: &impl Wait) -> Option<T> {
        let (value, waited) = self.take(rt);
        if waited {
            self.rest
                .park_timeout(rt, 0, Duration::from_micros(REST_MICROS));
        }
        value
    }

    /// Takes the value out as `take_or_wait` does, without a rest.
    pub fn take_at_once_or_wait(&self, rt: &impl Wait) -> Option<T> {
        self.take(rt).0
    }

    /// Takes the value out, and returns whether other threads have waited since it was last taken out. If another thread
    /// has it, waits until it is put back.
    fn take(&self, rt: &impl Wait) -> (Option<T>, bool) {
        let mut place = self.place.lock(rt);
        let value = place.value.take();
        if value.is_some() {
            let waited = place.waited;
            place.waited = false;
            return (value, waited);
        }
        place.waited = true;
        let rounds = place.rounds;
        let _ = self
            .put_back
            .wait_while(rt, place, |now| now.rounds == rounds);
        (None, false)
    }

    /// Puts the value back, and wakes all waiting threads.
    pub fn put_back(&self, rt: &impl Wait, value: T) {
        let mut place = self.place.lock(rt);
        place.value = Some(value);
        place.rounds = place.rounds.wrapping_add(1);
        drop(place);
        self.put_back.notify_all();
    }

    /// Returns the value, unless the thread that took it out has not put it back.
    pub fn into_inner(self) -> Option<T> {
        let LeaderCell {
            place,
            put_back: _,
            rest: _,
        } = self;
        place.into_inner().value
    }
}
