//! The lanes between workers and the service, each with its two sides.

ghost use Rattle.std.specs.Prelude.{◌≡◌, length, IfOk};
ghost use Rattle.hdl_workers.specs.Ends.{AreDistinct, AreLanes};

use crate::{LaneEnds, WorkerSide};
use hdl_lanes::lane;
use std::alloc::{AllocError, Global};

/// `count` lanes, numbered from 0: both sides of each, in that order. Each ring holds `capacity` items.
pub fn lanes_of(
    alloc: Global,
    count: u16,
    capacity: usize,
) -> Result<(Vec<LaneEnds>, Vec<WorkerSide>), AllocError>
    ensures distinct { IfOk result (λ sides. AreDistinct sides.0.items) }
    ensures lanes { IfOk result (λ sides. AreLanes 0 sides.0.items sides.1.items) }
    ensures count { IfOk result (λ sides. length sides.0.items ≡ count) }
{
    let mut ends = Vec::new(alloc);
    let mut sides = Vec::new(alloc);
    for number in 0..count {
        let (inlet, items) = lane(alloc, capacity)?;
        let (given, outcomes) = lane(alloc, capacity)?;
        ends.push(LaneEnds {
            lane: number,
            items,
            outcomes: given,
        })?;
        sides.push(WorkerSide { inlet, outcomes })?;
    }
    Ok((ends, sides))
}
