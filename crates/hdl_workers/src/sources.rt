//! A clock and a source of nonces in memory.

ghost use Rattle.std.specs.Prelude.{true};

use crate::{LoopClock, Nonces};
use std::collections::VecDeque;
use std::time::Duration;

/// A clock that gives these answers, and zeros after their end.
#[derive(Drop)]
pub struct MemoryClock {
    pub coming: VecDeque<u64>,
}

impl LoopClock for MemoryClock {
    ghost is_observed = { true };

    ghost answers = { λ c. c.coming.items };

    fn now(&mut self) -> u64 {
        match self.coming.pop_front() {
            Some(moment) => moment,
            None => 0,
        }
    }

    fn pause(&mut self) {}

    fn waited(&self) -> Duration {
        Duration::ZERO
    }

    fn note_work(&mut self) {}
}

/// A source that gives these nonces, and zeros after their end.
#[derive(Drop)]
pub struct MemoryNonces {
    pub coming: VecDeque<[u8; 16]>,
}

impl Nonces for MemoryNonces {
    ghost is_observed = { true };

    ghost answers = { λ n. n.coming.items };

    fn next(&mut self) -> [u8; 16] {
        match self.coming.pop_front() {
            Some(nonce) => nonce,
            None => [0; 16],
        }
    }
}
