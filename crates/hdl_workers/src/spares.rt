//! Buffers that go round a lane: what an outcome was written from takes a frame that comes.

ghost use Rattle.std.specs.Prelude.{◌≡◌, IfOk};

use hdl_events::Outcome;
use hdl_limits::Octets;
use std::alloc::{AllocError, Global};

/// The most buffers that a lane keeps, and the most octets that each has room for.
const BUFFERS_MOST: usize = 16;

const ROOM_MOST: usize = 1_024;

/// Buffers of outcomes that were written. A frame that is copied into one asks for no memory.
#[derive(Drop)]
pub(crate) struct Spares {
    alloc: Global,
    buffers: Vec<Vec<u8>>,
}

impl Spares {
    /// No buffer yet. It takes no memory.
    pub(crate) fn new(alloc: Global) -> Spares {
        Spares {
            alloc,
            buffers: Vec::new(alloc),
        }
    }

    /// A copy of the octets, in a buffer that is kept, if there is one.
    pub(crate) fn copy(&mut self, octets: &[u8]) -> Result<Octets, AllocError>
        ensures copied { IfOk result (λ copy. copy ≡ octets.now) }
    {
        let mut copy = match self.buffers.pop() {
            Some(buffer) => buffer,
            None => Vec::new(self.alloc),
        };
        copy.clear();
        copy.extend_from_slice(octets)?;
        Ok(Octets::new(copy))
    }

    /// Keeps the buffer of an outcome that was written. Without memory for the list it is let go.
    pub(crate) fn keep(&mut self, outcome: Outcome) {
        let Outcome::Reply(octets) = outcome else {
            return;
        };
        let buffer = octets.into_vec();
        if self.buffers.len() < BUFFERS_MOST && buffer.capacity() <= ROOM_MOST {
            let _ = self.buffers.push(buffer);
        }
    }
}
