//! What serves lanes' ends, by whoever calls.

ghost use Rattle.std.specs.Prelude.{All, List};
ghost use Rattle.hdl_workers.specs.declared.ends.LaneEnds.{LaneEnds};
ghost use Rattle.hdl_workers.specs.Ends.{AreDistinct};
ghost use Rattle.hdl_scripts.specs.Same.{IsEach};

use crate::lanes::words::bad;
use crate::opening::Opening;
use hdl_core::Tenants;
use hdl_serve::{LaneEnds, LoopClock, Owing, Served, Service, WriteQueue, serve};
use std::alloc::Global;
use std::time::Duration;
use std::{io, mem};

/// A service that is opened, and serves lanes.
pub trait Serving {
    /// Opens the service of a tenants text over an empty table, in place of the one before.
    fn open(&mut self, tenants: &str) -> io::Result<()>;

    /// Serves so many turns, and answers how many of them served nothing. The lanes stay the same.
    fn serve(&mut self, lanes: &mut Vec<LaneEnds>, turns: u64) -> u64
        requires { AreDistinct lanes.old.items }
        ensures distinct { AreDistinct lanes.new.items }
        ensures same { (firsts : List LaneEnds) → All (IsEach firsts) lanes.old.items → All (IsEach firsts) lanes.new.items };

    /// The write that is made beside, if one is, may end now.
    fn end_write(&mut self);
}

/// A clock that stands at 1000 and counts its pauses.
#[derive(Drop)]
pub struct Pauses {
    pub count: u64,
}

impl LoopClock for Pauses {
    ghost use Rattle.std.specs.Prelude.{false, []};

    ghost is_observed = { false };

    ghost answers = { λ _. [] };

    fn now(&mut self) -> u64 {
        1000
    }

    fn pause(&mut self) {
        self.count = self.count.saturating_add(1);
    }

    fn waited(&self) -> Duration {
        Duration::ZERO
    }

    fn note_work(&mut self) {}
}

/// A service, once it was opened, and the queue of its lanes.
#[derive(Drop)]
pub struct Held<O: Opening + Drop> {
    alloc: Global,
    opening: O,
    service: Option<Service<O::Rows>>,
    queue: WriteQueue,
}

/// A service that isn't opened yet.
pub fn without_service<O: Opening + Drop>(alloc: Global, opening: O) -> Held<O> {
    Held {
        alloc,
        opening,
        service: None,
        queue: WriteQueue::new(alloc),
    }
}

/// Serves lanes, which stay the same, and counts the pauses.
fn serve_lanes<R: Owing + Drop>(
    alloc: Global,
    service: Service<R>,
    lanes: Vec<LaneEnds>,
    queue: &mut WriteQueue,
    turns: u64,
) -> (Served<R>, u64)
    requires { AreDistinct lanes.items }
    ensures distinct { AreDistinct result.0.lanes.items }
    ensures same { (firsts : List LaneEnds) → All (IsEach firsts) lanes.items → All (IsEach firsts) result.0.lanes.items }
{
    let mut clock = Pauses { count: 0 };
    let served = serve(alloc, service, lanes, &mut clock, queue, turns);
    (served, clock.count)
}

impl<O: Opening + Drop> Serving for Held<O> {
    fn open(&mut self, tenants: &str) -> io::Result<()> {
        let Ok(tenants) = Tenants::read(self.alloc, tenants) else {
            return Err(bad());
        };
        self.service = self.opening.open(tenants).ok();
        Ok(())
    }

    fn serve(&mut self, lanes: &mut Vec<LaneEnds>, turns: u64) -> u64 {
        let Some(service) = self.service.take() else {
            return turns;
        };
        let ends = mem::replace(lanes, Vec::new(self.alloc));
        let (served, pauses) = serve_lanes(self.alloc, service, ends, &mut self.queue, turns);
        let Served {
            service,
            lanes: ends,
            ..
        } = served;
        *lanes = ends;
        self.service = Some(service);
        pauses
    }

    fn end_write(&mut self) {
        self.opening.end_write();
    }
}
