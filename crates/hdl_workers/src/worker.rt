//! What both workers share: turns, the ends of the lane, Open and End.

ghost use Rattle.std.specs.Prelude.{◌≡◌, ◌+◌, ◌++◌, ◌∷◌, [], ◌≤◌, IsTrue, IsFalse};
ghost use Rattle.hdl_workers.specs.declared.item.Item.TheVariants.{Event};
ghost use Rattle.hdl_events.specs.declared.What.TheVariants.{Open};
ghost use Rattle.hdl_lanes.specs.Lane.{put_into, all_put, SameInlet};
ghost use Rattle.hdl_workers.specs.Joined.{EndsLane};
ghost use Rattle.hdl_workers.specs.Sign.{WithEnd};
ghost use Rattle.hdl_workers.specs.WorkerLane.{put_by, taken_by, SameWorkerLane};

use crate::worker_lane::WorkerLane;
use crate::{Item, LoopClock};
use hdl_events::{Outcome, What};
use hdl_lanes::{Ended, Inlet, Outlet};

#[derive(Clone, Copy, PartialEq, Eq)]
pub enum EndReason {
    /// Its turns are spent.
    Turns,
    /// Its door failed.
    Device,
}

/// Why a worker ended, and its ends of the lane, for the thread that joins it: by them both rings are settled.
#[derive(Drop)]
pub struct WorkerEnd {
    pub why: EndReason,
    pub ended: Ended<Item>,
    pub outlet: Outlet<Outcome>,
}

/// Why a conversation stopped before its peer closed it.
#[derive(Clone, Copy, PartialEq, Eq)]
pub(crate) enum Stop {
    Turns,
    Broken,
}

/// Spends a turn, if one is left.
pub(crate) fn spend(turns: &mut u64) -> bool
    ensures spent { IsTrue result → turns.old ≡ turns.new + 1 }
    ensures none { IsFalse result → turns.new ≡ turns.old }
{
    if *turns == 0 {
        return false;
    }
    *turns -= 1;
    true
}

/// Puts Open, when no outcome is waited for.
pub(crate) fn open<C: LoopClock>(line: &mut WorkerLane, clock: &mut C) -> bool
    ensures line { SameWorkerLane line.old line.new }
    ensures taken { taken_by line.new ≡ taken_by line.old }
    ensures put { IsTrue result → put_by line.new ≡ put_by line.old ++ Event Open ∷ [] }
    ensures unchanged { IsFalse result → put_by line.new ≡ put_by line.old }
    ensures answers { IsTrue C.is_observed → C.answers clock.new ≡ C.answers clock.old }
{
    while spend(&mut line.turns) {
        if line.has_room() {
            line.put(What::Open);
            clock.note_work();
            return true;
        }
        clock.pause();
    }
    false
}

/// Tries to put End until it is put or the turns are spent.
pub(crate) fn put_end<C: LoopClock>(inlet: &mut Inlet<Item>, clock: &mut C, turns: &mut u64)
    ensures inlet { SameInlet inlet.old inlet.new }
    ensures put { WithEnd (put_into inlet.old) (put_into inlet.new) }
    ensures answers { IsTrue C.is_observed → C.answers clock.new ≡ C.answers clock.old }
{
    while spend(turns) {
        if inlet.put(Item::End).is_ok() {
            return;
        }
        clock.pause();
    }
}

/// Puts End where the device ended the worker, and gives the ends of its lane.
pub(crate) fn finish<C: LoopClock>(line: WorkerLane, clock: &mut C, why: EndReason) -> WorkerEnd
    ensures why { result.why ≡ why }
    ensures inlet { EndsLane line.inlet result.ended }
    ensures outlet { result.outlet ≡ line.outcomes }
    ensures put { WithEnd (put_by line) (all_put result.ended) }
    ensures answers { IsTrue C.is_observed → C.answers clock.new ≡ C.answers clock.old }
{
    let WorkerLane {
        mut inlet,
        outcomes,
        waiting: _,
        mut turns,
        alloc: _,
        spares: _,
    } = line;
    if why == EndReason::Device {
        put_end(&mut inlet, clock, &mut turns);
    }
    WorkerEnd {
        why,
        ended: inlet.finish(),
        outlet: outcomes,
    }
}
