//! A lane with both sides.

ghost use Rattle.std.specs.Prelude.{◌≡◌, All, length};
ghost use Rattle.hdl_lanes.specs.Lane.{AreEnds};

use hdl_lanes::lane;
use hdl_serve::{LaneEnds, WorkerSide};
use std::alloc::{AllocError, Global};

/// A lane through which nothing went yet, with both sides.
#[derive(Drop)]
pub struct LanePair {
    pub side: WorkerSide,
    /// The service's side, one lane.
    pub ends: Vec<LaneEnds>,
    ghost single: { length ends.items ≡ 1 },
    ghost pair: { All (λ a. AreEnds side.inlet a.items × AreEnds a.outcomes side.outcomes) ends.items },
}

/// A lane with this number, whose rings have room for so many items.
pub fn pair_of(alloc: Global, number: u16, capacity: usize) -> Result<LanePair, AllocError> {
    let (inlet, items) = lane(alloc, capacity)?;
    let (given, outcomes) = lane(alloc, capacity)?;
    let mut ends = Vec::new(alloc);
    ends.push(LaneEnds {
        lane: number,
        items,
        outcomes: given,
    })?;
    let side = WorkerSide { inlet, outcomes };
    Ok(LanePair { side, ends })
}
