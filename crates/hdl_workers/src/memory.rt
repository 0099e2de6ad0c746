//! A stream door in memory.

ghost use Rattle.std.specs.Prelude.{◌≡◌, ◌≤◌, ◌<◌, [], length, take, map, true, vec_len, vec_capacity, IsTrue, IsFalse};
ghost use Rattle.hdl_workers.specs.Door.{hear, say, break_off, fresh};

use crate::failing::Faults;
use crate::{Door, DoorFault};
use std::alloc::Global;
use std::collections::VecDeque;
use std::mem;

/// A connection of a door in memory: what its peer sends, how much of that was read, and what was written.
#[derive(Drop)]
pub struct MemoryConnection {
    pub(crate) incoming: Vec<u8>,
    pub(crate) at: usize,
    pub(crate) written: Vec<u8>,
    pub(crate) broken: bool,
    ghost within: { at ≤ length incoming.items },
}

impl MemoryConnection {
    ghost use Rattle.hdl_workers.specs.Memory.{connection_of};

    /// A connection on which nothing happened yet.
    pub(crate) fn new(alloc: Global, incoming: Vec<u8>) -> MemoryConnection
        ensures { connection_of result ≡ fresh }
    {
        MemoryConnection {
            incoming,
            at: 0,
            written: Vec::new(alloc),
            broken: false,
        }
    }

    /// Reads at most `most` octets.
    pub(crate) fn read(&mut self, buffer: &mut [u8], most: usize) -> usize
        ensures fits { result ≤ length buffer.new }
        ensures heard { connection_of self.new ≡ hear (take result buffer.new) (connection_of self.old) }
    {
        let count = buffer.len().min(most).min(self.incoming.len() - self.at);
        buffer[..count].copy_from_slice(&self.incoming[self.at..self.at + count]);
        self.at += count;
        count
    }

    /// Writes the octets, where there is room.
    pub(crate) fn write(&mut self, octets: &[u8]) -> bool
        ensures said { IsTrue result → connection_of self.new ≡ say octets.now (connection_of self.old) }
        ensures broken { IsFalse result → connection_of self.new ≡ break_off (connection_of self.old) }
    {
        match self.written.extend_from_slice(octets) {
            Ok(()) => true,
            Err(_) => {
                self.broken = true;
                false
            }
        }
    }

    /// What was written on it.
    pub fn written(&self) -> &[u8]
        ensures { result.now ≡ self.now.written.items }
    {
        self.written.as_slice()
    }
}

/// A door in memory: each peer sends these octets on a connection of its own. One of its calls fails.
#[derive(Drop)]
pub struct MemoryDoor {
    alloc: Global,
    coming: VecDeque<Vec<u8>>,
    left: Vec<MemoryConnection>,
    current: MemoryConnection,
    live: bool,
    most: usize,
    faults: Faults,
    ghost room: { IsTrue live → vec_len left < vec_capacity left },
}

impl MemoryDoor {
    /// A door at which these peers come, one after the other. A read gives at most `most` octets; call number
    /// `fails` fails, counted from 1.
    pub fn new(alloc: Global, coming: VecDeque<Vec<u8>>, most: usize, fails: u64) -> MemoryDoor
        ensures fresh { result.left.items ≡ [] }
    {
        MemoryDoor {
            alloc,
            coming,
            left: Vec::new(alloc),
            current: MemoryConnection::new(alloc, Vec::new(alloc)),
            live: false,
            most,
            faults: Faults {
                until: fails,
                count: 0,
            },
        }
    }

    /// The connections that were left, oldest first.
    pub fn left(&self) -> &[MemoryConnection]
        ensures { result.now ≡ self.now.left.items }
    {
        self.left.as_slice()
    }
}

impl Door for MemoryDoor {
    ghost use Rattle.hdl_workers.specs.Memory.{connection_of};

    ghost is_observed = { true };

    ghost ended = { λ d. map connection_of d.left.items };

    ghost current = { λ d. connection_of d.current };

    ghost is_open = { λ d. d.live };

    ghost fault_count = { λ d. d.faults.count };

    fn accept(&mut self) -> Result<bool, DoorFault> {
        self.faults.call()?;
        if self.live {
            return Ok(false);
        }
        if self.left.reserve(1).is_err() {
            return Err(self.faults.raise());
        }
        match self.coming.pop_front() {
            None => Ok(false),
            Some(incoming) => {
                self.current = MemoryConnection::new(self.alloc, incoming);
                self.live = true;
                Ok(true)
            }
        }
    }

    fn read(&mut self, buffer: &mut [u8]) -> Result<usize, DoorFault> {
        self.faults.call()?;
        Ok(self.current.read(buffer, self.most))
    }

    fn write(&mut self, octets: &[u8]) -> Result<usize, DoorFault> {
        if let Err(fault) = self.faults.call() {
            self.current.broken = true;
            return Err(fault);
        }
        if self.current.write(octets) {
            Ok(octets.len())
        } else {
            Err(self.faults.raise())
        }
    }

    fn give_up(&mut self) {
        let _ = self.faults.raise();
        self.current.broken = true;
    }

    fn leave(&mut self) {
        let idle = MemoryConnection::new(self.alloc, Vec::new(self.alloc));
        let left = mem::replace(&mut self.current, idle);
        self.live = false;
        self.left.push_reserved(left);
    }

    fn faults(&self) -> u64 {
        self.faults.count
    }
}
