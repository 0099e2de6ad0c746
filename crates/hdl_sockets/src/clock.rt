//! The machine's clock, and its pauses: short while what is waited for comes soon, and asleep otherwise.

use crate::idle_poll::{IdlePoll, LoopWaker};
use hdl_workers::LoopClock;
use std::sync::Arc;
use std::thread;
use std::time::{Duration, Instant, SystemTime};

/// How many microseconds a worker's long pause sleeps at least, and at most.
const SLEEP_LEAST_MICROS: u64 = 100;

const SLEEP_MOST_MICROS: u64 = 2_000;

/// A worker's long pause sleeps for one part in so many of what it waited: many workers that wait for a disk or for other machines would take the processors that these need.
const SLEEP_PART: u32 = 16;

/// For how many microseconds a wait has short pauses.
const SPIN_MICROS: u64 = 30;

/// If a long pause begins this many milliseconds after its wait, it says nothing of the next wait: no client asked.
const IDLE_MILLIS: u64 = 10;

/// Of the waits after one that needed a long pause, each so-manieth begins with short pauses again.
const SPIN_AGAIN_EACH: u32 = 8;

/// What a pause is to a thread.
#[derive(Drop)]
pub enum ThreadRole {
    /// The thread serves: its long pause ends once a worker wakes it.
    Serving(IdlePoll),
    /// The thread is a worker's: it wakes the one that serves at each pause, and its long one sleeps a little.
    Worker(Arc<LoopWaker>),
}

/// The machine's clock in milliseconds, and pauses.
///
/// A short pause only lets other threads run. While clients ask, what is waited for is often a few microseconds away, and the
/// shortest sleep takes more than a hundred; so a wait begins with short pauses if the one before ended within them.
#[derive(Drop)]
pub struct MachineClock<R> {
    rt: R,
    role: ThreadRole,
    /// The last moment that was returned.
    last_moment: u64,
    /// When the wait began, if one is under way.
    began: Option<Instant>,
    /// Whether the wait begins with short pauses, and whether it had a long one.
    is_short: bool,
    has_slept: bool,
    /// How many waits in a row had a long pause.
    long_waits: u32,
}

impl<R: std::rt::Clock> MachineClock<R> {
    /// The clock of a thread with this role.
    pub fn new(rt: R, role: ThreadRole) -> MachineClock<R> {
        MachineClock {
            rt,
            role,
            last_moment: 0,
            began: None,
            is_short: true,
            has_slept: false,
            long_waits: 0,
        }
    }

    /// Begins a wait, with short pauses if the one before had no long one, or if it is time to try them again.
    fn begin_wait(&mut self) {
        self.long_waits = if self.has_slept {
            self.long_waits.wrapping_add(1)
        } else {
            0
        };
        self.has_slept = false;
        self.is_short = self.long_waits.is_multiple_of(SPIN_AGAIN_EACH);
    }

    /// When the wait of a pause at this moment began: now, if none is under way.
    fn begin_of_wait(&mut self, now: Instant) -> Instant {
        match self.began {
            Some(began) => began,
            None => {
                self.begin_wait();
                self.began = Some(now);
                now
            }
        }
    }

    /// A long pause of a wait that began so long ago.
    fn sleep(&mut self, waited: Duration) {
        let slept = match &mut self.role {
            ThreadRole::Serving(idle_poll) => idle_poll.wait(),
            ThreadRole::Worker(_) => false,
        };
        if !slept {
            let least = Duration::from_micros(SLEEP_LEAST_MICROS);
            let most = Duration::from_micros(SLEEP_MOST_MICROS);
            let part = waited / SLEEP_PART;
            thread::sleep(&self.rt, part.max(least).min(most));
        }
    }

    /// Pauses, by how long ago the wait began. A wait's first pause is short in any case: a worker may have outcomes in hand.
    fn pause_after(&mut self, waited: Duration) {
        let short = if self.is_short { SPIN_MICROS } else { 0 };
        if waited <= Duration::from_micros(short) {
            thread::yield_now();
        } else {
            self.has_slept = waited < Duration::from_millis(IDLE_MILLIS);
            self.sleep(waited);
        }
    }
}

impl<R: std::rt::Clock> LoopClock for MachineClock<R> {
    ghost use Rattle.std.specs.Prelude.{false, []};

    ghost is_observed = { false };

    ghost answers = { λ _. [] };

    fn now(&mut self) -> u64 {
        if let Ok(now) = SystemTime::now(&self.rt) {
            if let Ok(since) = now.duration_since(SystemTime::UNIX_EPOCH) {
                if let Ok(moment) = u64::try_from(since.as_millis()) {
                    self.last_moment = moment;
                }
            }
        }
        self.last_moment
    }

    fn pause(&mut self) {
        if let ThreadRole::Worker(waker) = &self.role {
            waker.wake();
        }
        match Instant::now(&self.rt) {
            Ok(now) => {
                let began = self.begin_of_wait(now);
                self.pause_after(now.saturating_duration_since(began));
            }
            Err(_) => self.sleep(Duration::ZERO),
        }
    }

    fn waited(&self) -> Duration {
        match (self.began, Instant::now(&self.rt)) {
            (Some(began), Ok(now)) => now.saturating_duration_since(began),
            _ => Duration::ZERO,
        }
    }

    fn note_work(&mut self) {
        self.began = None;
    }
}
