//! The worker's side of a lane.

ghost use Rattle.std.specs.Prelude.{◌≡◌, []};
ghost use Rattle.hdl_lanes.specs.Lane.{put_into, taken_from};

use crate::Item;
use hdl_events::Outcome;
use hdl_lanes::{Inlet, Outlet};

/// The worker's side of a lane, through which nothing went yet.
#[derive(Drop)]
pub struct WorkerSide {
    pub inlet: Inlet<Item>,
    pub outcomes: Outlet<Outcome>,
    ghost fresh: { (put_into inlet ≡ []) × (taken_from outcomes ≡ []) },
}
