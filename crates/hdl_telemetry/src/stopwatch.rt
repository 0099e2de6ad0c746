//! How long a lane takes for a reply.

use std::rt::Clock;
use std::time::{Duration, Instant};

/// Measures replies to requests that are alone on their lane: of requests in flight together it isn't known how long each one takes.
#[derive(Clone, Copy)]
pub struct Stopwatch {
    /// How many requests came, of which no reply went yet.
    waiting: u64,
    /// When the only one of them came, where the clock said it.
    came: Option<Instant>,
}

impl Stopwatch {
    /// No request came yet.
    pub fn new() -> Stopwatch {
        Stopwatch {
            waiting: 0,
            came: None,
        }
    }

    /// A request came.
    pub fn begin<R: Clock>(&mut self, rt: &R) {
        self.came = if self.waiting == 0 {
            Instant::now(rt).ok()
        } else {
            None
        };
        self.waiting = self.waiting.saturating_add(1);
    }

    /// A reply goes: how long it took, if that is known.
    pub fn end<R: Clock>(&mut self, rt: &R) -> Option<Duration> {
        self.waiting = self.waiting.saturating_sub(1);
        let came = self.came.take()?;
        let now = Instant::now(rt).ok()?;
        Some(now.saturating_duration_since(came))
    }
}
