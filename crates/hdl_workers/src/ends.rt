//! The service's side of a lane.

ghost use Rattle.std.specs.Prelude.{◌≡◌, ◌<◌, ◌++◌, ◌∷◌, [], IfErr, IsOk, IsSome, OnOk, MatchOption};
ghost use Rattle.hdl_lanes.specs.Lane.{put_into, taken_from, all_put, known_room, SameInlet, SameOutlet};
ghost use Rattle.hdl_workers.specs.Ends.{Meet};

use crate::{Item, WorkerEnd};
use hdl_events::Outcome;
use hdl_lanes::{Full, Inlet, Outlet};

/// The ends of one lane that the serving thread has, and the lane's number.
#[derive(Drop)]
pub struct LaneEnds {
    pub lane: u16,
    pub items: Outlet<Item>,
    pub outcomes: Inlet<Outcome>,
}

impl LaneEnds {
    /// The lane's next item, where the inlet for outcomes has room and an item is seen. Else nothing is taken. It takes no memory.
    pub fn next(&mut self) -> Option<Item>
        ensures lane { (self.new.lane ≡ self.old.lane) × SameOutlet self.old.items self.new.items × SameInlet self.old.outcomes self.new.outcomes }
        ensures put { put_into self.new.outcomes ≡ put_into self.old.outcomes }
        ensures taken { MatchOption result (taken_from self.new.items ≡ taken_from self.old.items) (λ item. taken_from self.new.items ≡ taken_from self.old.items ++ item ∷ []) }
        ensures room { IsSome result → 0 < known_room self.new.outcomes }
    {
        if !self.outcomes.has_room() {
            return None;
        }
        self.items.take()
    }

    /// Puts an outcome, or hands it back where the ring is full. The first one after a `next` that gave an item succeeds.
    pub fn answer(&mut self, outcome: Outcome) -> Result<(), Full<Outcome>>
        ensures lane { (self.new.lane ≡ self.old.lane) × SameOutlet self.old.items self.new.items × SameInlet self.old.outcomes self.new.outcomes }
        ensures taken { taken_from self.new.items ≡ taken_from self.old.items }
        ensures put { OnOk result (put_into self.new.outcomes ≡ put_into self.old.outcomes ++ outcome ∷ []) }
        ensures full { IfErr result (λ full. (full.0 ≡ outcome) × (put_into self.new.outcomes ≡ put_into self.old.outcomes)) }
        ensures succeeds { 0 < known_room self.old.outcomes → IsOk result }
    {
        self.outcomes.put(outcome)
    }

    /// What is left in both rings of a lane whose two threads were joined: the items that were not taken, and the outcomes that the
    /// worker did not take.
    #[tactic(auto, using(crate::proofs::Settled::still))]
    pub fn settle(self, end: WorkerEnd) -> (Vec<Item>, Vec<Outcome>)
        requires { Meet end self }
        ensures unserved { all_put end.ended ≡ taken_from self.items ++ result.0.items }
        ensures untaken { put_into self.outcomes ≡ taken_from end.outlet ++ result.1.items }
    {
        let LaneEnds {
            lane: _,
            items,
            outcomes,
        } = self;
        let WorkerEnd {
            why: _,
            ended,
            outlet,
        } = end;
        (items.settle(ended), outlet.settle(outcomes.finish()))
    }
}
