//! A place for datagrams in memory.

ghost use Rattle.std.specs.Prelude.{◌≡◌, [], map, true};

use crate::failing::Faults;
use crate::{DoorFault, Packets};
use hdl_limits::PEERS_MAX;
use std::alloc::Global;
use std::collections::VecDeque;

/// A datagram and its peer.
#[derive(Drop)]
pub struct Datagram {
    pub peer: u16,
    pub octets: Vec<u8>,
}

/// A place in memory where these datagrams come in. One of its calls fails.
#[derive(Drop)]
pub struct MemoryPackets {
    alloc: Global,
    coming: VecDeque<Datagram>,
    received: Vec<Datagram>,
    sent: Vec<Datagram>,
    faults: Faults,
    under_way: usize,
}

impl MemoryPackets {
    /// A place where these datagrams come in, with `under_way` frames at most without a reply. Call number `fails` fails, counted from 1.
    pub fn new(
        alloc: Global,
        coming: VecDeque<Datagram>,
        fails: u64,
        under_way: usize,
    ) -> MemoryPackets
        ensures fresh { (result.received.items ≡ []) × (result.sent.items ≡ []) }
    {
        MemoryPackets {
            alloc,
            coming,
            received: Vec::new(alloc),
            sent: Vec::new(alloc),
            faults: Faults {
                until: fails,
                count: 0,
            },
            under_way,
        }
    }

    /// What was sent, oldest first.
    pub fn sent(&self) -> &[Datagram]
        ensures { result.now ≡ self.now.sent.items }
    {
        self.sent.as_slice()
    }
}

impl Packets for MemoryPackets {
    ghost use Rattle.hdl_workers.specs.MemoryPackets.{datagram_of};

    ghost is_observed = { true };

    ghost received = { λ p. map datagram_of p.received.items };

    ghost sent = { λ p. map datagram_of p.sent.items };

    ghost fault_count = { λ p. p.faults.count };

    fn receive(
        &mut self,
        buffer: &mut [u8],
        _may_wait: bool,
    ) -> Result<Option<(u16, usize)>, DoorFault> {
        self.faults.call()?;
        if self.received.reserve(1).is_err() {
            return Err(self.faults.raise());
        }
        let Some(datagram) = self.coming.pop_front() else {
            return Ok(None);
        };
        let Datagram { peer, mut octets } = datagram;
        if peer == 0 || peer as usize > PEERS_MAX {
            return Ok(None);
        }
        octets.truncate(buffer.len());
        let count = octets.len();
        buffer[..count].copy_from_slice(&octets);
        self.received.push_reserved(Datagram { peer, octets });
        Ok(Some((peer, count)))
    }

    fn send(&mut self, peer: u16, octets: &[u8]) -> Result<(), DoorFault> {
        self.faults.call()?;
        let Ok(octets) = Vec::from_slice(self.alloc, octets) else {
            return Err(self.faults.raise());
        };
        match self.sent.push(Datagram { peer, octets }) {
            Ok(()) => Ok(()),
            Err(_) => Err(self.faults.raise()),
        }
    }

    fn end_reply(&mut self) {}

    fn most_under_way(&self) -> usize {
        self.under_way
    }

    fn faults(&self) -> u64 {
        self.faults.count
    }
}
