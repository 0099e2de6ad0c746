//! Rings by themselves, both ends on one thread.

ghost use Rattle.hdl_lanes.specs.Lane.{AreEnds};

use hdl_lanes::{Inlet, Outlet, lane};
use std::alloc::{AllocError, Global};
use std::io::{self, Write};

/// Both ends of a ring.
#[derive(Drop)]
struct Ring {
    inlet: Inlet<u32>,
    outlet: Outlet<u32>,
    ghost ends: { AreEnds inlet outlet },
}

fn ring_of(alloc: Global, capacity: usize) -> Result<Ring, AllocError> {
    let (inlet, outlet) = lane(alloc, capacity)?;
    Ok(Ring { inlet, outlet })
}

impl Ring {
    /// Puts an item, and tells whether there was room, whether it was put, and what came back.
    #[tactic(auto, using(crate::proofs::Same::still))]
    fn put(&mut self, item: u32, told: &mut Vec<u8>) -> io::Result<()> {
        let room = self.inlet.has_room();
        match self.inlet.put(item) {
            Ok(()) => write!(told, " {room}"),
            Err(full) => write!(told, " {room} {} back", full.0),
        }
    }

    #[tactic(auto, using(crate::proofs::Same::still))]
    fn take(&mut self, told: &mut Vec<u8>) -> io::Result<()> {
        match self.outlet.take() {
            Some(item) => write!(told, " takes {item}"),
            None => write!(told, " takes nothing"),
        }
    }

    /// Tells what is left.
    #[tactic(auto, using(crate::proofs::Same::still))]
    fn tell_rest(self, told: &mut Vec<u8>) -> io::Result<()> {
        let Ring { inlet, outlet } = self;
        write!(told, " leaves")?;
        for item in outlet.settle(inlet.finish()) {
            write!(told, " {item}")?;
        }
        writeln!(told)
    }
}

/// Puts so many items, takes one, puts one more, and tells what is left.
fn fill_ring(alloc: Global, capacity: usize, count: u32, told: &mut Vec<u8>) -> io::Result<()> {
    let mut ring = ring_of(alloc, capacity)?;
    write!(told, "ring of {capacity}:")?;
    for item in 0..count {
        ring.put(item, told)?;
    }
    ring.take(told)?;
    ring.put(count, told)?;
    ring.tell_rest(told)
}

/// Passes items one at a time.
fn pass_items(alloc: Global, capacity: usize, count: u32, told: &mut Vec<u8>) -> io::Result<()> {
    let mut ring = ring_of(alloc, capacity)?;
    write!(told, "ring of {capacity}:")?;
    for item in 0..count {
        ring.put(item, told)?;
        ring.take(told)?;
    }
    ring.tell_rest(told)
}

/// Rings of room for three items, for one and for none.
pub fn run(alloc: Global, told: &mut Vec<u8>) -> io::Result<()> {
    fill_ring(alloc, 3, 5, told)?;
    pass_items(alloc, 1, 5, told)?;
    fill_ring(alloc, 0, 2, told)
}
