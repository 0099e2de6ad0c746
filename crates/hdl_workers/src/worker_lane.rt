//! A worker's side of its lane: events go in, and each has one outcome. The worker's turns and its allocator go with it.

ghost use Rattle.std.specs.Prelude.{◌≡◌, ◌+◌, length};
ghost use Rattle.hdl_lanes.specs.Lane.{put_into, taken_from};

use crate::spares::Spares;
use crate::{Item, WorkerSide};
use hdl_events::{Outcome, What};
use hdl_lanes::{Inlet, Outlet};
use std::alloc::Global;

#[derive(Drop)]
pub(crate) struct WorkerLane {
    pub(crate) inlet: Inlet<Item>,
    pub(crate) outcomes: Outlet<Outcome>,
    /// How many events have no outcome yet.
    pub(crate) waiting: u64,
    /// How many turns are left.
    pub(crate) turns: u64,
    pub(crate) alloc: Global,
    /// In which copies of frames are made.
    pub(crate) spares: Spares,
    ghost balanced: { length (taken_from outcomes) + waiting ≡ length (put_into inlet) },
}

impl WorkerLane {
    ghost use Rattle.std.specs.Prelude.{◌≡◌, ◌<◌, ◌++◌, ◌∷◌, [], IsSome, IsTrue, MatchOption};
    ghost use Rattle.hdl_workers.specs.declared.item.Item.TheVariants.{Event};
    ghost use Rattle.hdl_workers.specs.WorkerLane.{put_by, taken_by, HasPlace, SameWorkerLane};

    /// The line of a lane through which nothing went yet.
    pub(crate) fn new(alloc: Global, side: WorkerSide, turns: u64) -> WorkerLane
        ensures ends { (result.inlet ≡ side.inlet) × (result.outcomes ≡ side.outcomes) }
        ensures empty { (put_by result ≡ []) × (taken_by result ≡ []) }
    {
        let WorkerSide { inlet, outcomes } = side;
        WorkerLane {
            inlet,
            outcomes,
            waiting: 0,
            turns,
            alloc,
            spares: Spares::new(alloc),
        }
    }

    /// Whether the next event is put at once.
    pub(crate) fn has_room(&mut self) -> bool
        ensures line { SameWorkerLane self.old self.new }
        ensures room { IsTrue result → HasPlace self.new }
        ensures put { put_by self.new ≡ put_by self.old }
        ensures taken { taken_by self.new ≡ taken_by self.old }
    {
        self.waiting < u64::MAX && self.inlet.has_room()
    }

    /// Puts an event.
    pub(crate) fn put(&mut self, what: What)
        requires room { HasPlace self.old }
        ensures line { SameWorkerLane self.old self.new }
        ensures put { put_by self.new ≡ put_by self.old ++ Event what ∷ [] }
        ensures taken { taken_by self.new ≡ taken_by self.old }
    {
        match self.inlet.put(Item::Event(what)) {
            Ok(()) => self.waiting += 1,
            Err(_) => unreachable!(),
        }
    }

    /// One try to take the outcome of the oldest event that waits for one.
    pub(crate) fn next(&mut self) -> Option<Outcome>
        ensures line { SameWorkerLane self.old self.new }
        ensures taken { MatchOption result (taken_by self.new ≡ taken_by self.old) (λ outcome. taken_by self.new ≡ taken_by self.old ++ outcome ∷ []) }
        ensures put { put_by self.new ≡ put_by self.old }
        ensures waiting { IsSome result → self.new.waiting < self.old.waiting }
    {
        if self.waiting == 0 {
            return None;
        }
        let outcome = self.outcomes.take()?;
        self.waiting -= 1;
        Some(outcome)
    }
}
