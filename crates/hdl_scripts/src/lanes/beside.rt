//! A server as the clock of a worker.

ghost use Rattle.std.specs.Prelude.{◌≡◌, [], All, List, length};
ghost use Rattle.hdl_workers.specs.declared.ends.LaneEnds.{LaneEnds};
ghost use Rattle.hdl_workers.specs.Ends.{AreDistinct, Meet};
ghost use Rattle.hdl_scripts.specs.Same.{IsEach};

use crate::lanes::pair::LanePair;
use crate::lanes::server::Serving;
use hdl_events::Outcome;
use hdl_serve::{
    EndReason, Item, LaneEnds, LoopClock, MemoryDoor, MemoryNonces, MemoryPackets, WorkerEnd,
    packet_worker, stream_worker,
};
use std::alloc::{AllocError, Global};
use std::collections::VecDeque;
use std::marker::{Brand, PhantomData};
use std::time::Duration;

/// The number used once of every frame.
const NONCE: [u8; 16] = [0, 1, 2, 3, 4, 5, 6, 7, 8, 9, 10, 11, 12, 13, 14, 15];

/// How many numbers a source has to give.
const NONCES: usize = 16;

/// A lane, as it was made.
pub trait Made {
    ghost ends: { List LaneEnds };
}

impl Made for Brand {
    ghost ends = { [] };
}

/// What serves one lane, as the clock of the lane's worker: at each pause it serves one turn, or none if it is idle.
#[derive(Drop)]
struct Beside<L: Made, S> {
    serving: S,
    lanes: Vec<LaneEnds>,
    idle: bool,
    /// How many turns served something.
    served: u64,
    of: PhantomData<L>,
    ghost distinct: { AreDistinct lanes.items },
    ghost same: { All (IsEach L.ends) lanes.items },
}

/// What serves one lane.
fn beside_of<L: Made, S: Serving + Drop>(
    serving: S,
    lanes: Vec<LaneEnds>,
    idle: bool,
) -> Beside<L, S>
    requires made { L.ends ≡ lanes.items }
    requires one { length lanes.items ≡ 1 }
{
    Beside {
        serving,
        lanes,
        idle,
        served: 0,
        of: PhantomData,
    }
}

impl<L: Made, S: Serving> Beside<L, S> {
    /// Serves one turn.
    fn serve(&mut self) {
        if self.serving.serve(&mut self.lanes, 1) == 0 {
            self.served = self.served.saturating_add(1);
        }
    }

    /// Serves so many turns, one by one.
    fn serve_on(&mut self, turns: u64) {
        for _ in 0..turns {
            self.serve();
        }
    }
}

impl<L: Made, S: Serving> LoopClock for Beside<L, S> {
    ghost use Rattle.std.specs.Prelude.{false, []};

    ghost is_observed = { false };

    ghost answers = { λ _. [] };

    fn now(&mut self) -> u64 {
        1000
    }

    fn pause(&mut self) {
        if !self.idle {
            self.serve();
        }
    }

    fn waited(&self) -> Duration {
        Duration::ZERO
    }

    fn note_work(&mut self) {}
}

/// How a worker runs: its lane, the room of its rings, the most octets that a read gives or the most frames of a datagram lane under way, which call of
/// its door fails, its turns, and how many turns are served once it has ended.
#[derive(Clone, Copy)]
pub struct Plan {
    pub lane: u16,
    pub capacity: usize,
    pub most: usize,
    pub fails: u64,
    pub turns: u64,
    pub after: u64,
    pub idle: bool,
}

/// What is left of a lane: what serves it, how many events were served, and what is left in the rings.
#[derive(Drop)]
pub struct Ran<S> {
    pub serving: S,
    pub why: EndReason,
    pub served: u64,
    pub unserved: Vec<Item>,
    pub untaken: Vec<Outcome>,
}

/// Settles the rings of the lane.
fn settle_rings<L: Made, S: Serving + Drop>(beside: Beside<L, S>, end: WorkerEnd) -> Option<Ran<S>>
    requires { (b : LaneEnds) → IsEach L.ends b → Meet end b }
{
    let Beside {
        serving,
        mut lanes,
        idle: _,
        served,
        of: _,
    } = beside;
    let ends = lanes.pop()?;
    let why = end.why;
    let (unserved, untaken) = ends.settle(end);
    Some(Ran {
        serving,
        why,
        served,
        unserved,
        untaken,
    })
}

/// A source of numbers.
pub fn source(alloc: Global) -> Result<MemoryNonces, AllocError> {
    let mut coming = VecDeque::new(alloc);
    for _ in 0..NONCES {
        coming.push_back(NONCE)?;
    }
    Ok(MemoryNonces { coming })
}

/// How many frames had a number of the source.
pub fn count_used(nonces: &MemoryNonces) -> usize {
    NONCES.saturating_sub(nonces.coming.len())
}

/// Runs the worker of a stream lane, with what serves it beside it.
pub fn run_stream<L: Made, S: Serving + Drop>(
    alloc: Global,
    serving: S,
    pair: LanePair,
    door: &mut MemoryDoor,
    nonces: &mut MemoryNonces,
    plan: Plan,
) -> Option<Ran<S>>
    requires made { L.ends ≡ pair.ends.items }
    requires first { door.old.left.items ≡ [] }
{
    let LanePair { side, ends } = pair;
    let mut beside = beside_of::<L, S>(serving, ends, plan.idle);
    let end = stream_worker(alloc, door, &mut beside, nonces, side, plan.turns);
    beside.serve_on(plan.after);
    settle_rings(beside, end)
}

/// Runs the worker of a datagram lane, with what serves it beside it.
pub fn run_packets<L: Made, S: Serving + Drop>(
    alloc: Global,
    serving: S,
    pair: LanePair,
    packets: &mut MemoryPackets,
    nonces: &mut MemoryNonces,
    plan: Plan,
) -> Option<Ran<S>>
    requires made { L.ends ≡ pair.ends.items }
    requires first { (packets.old.received.items ≡ []) × (packets.old.sent.items ≡ []) }
{
    let LanePair { side, ends } = pair;
    let mut beside = beside_of::<L, S>(serving, ends, plan.idle);
    let end = packet_worker(alloc, packets, &mut beside, nonces, side, plan.turns);
    beside.serve_on(plan.after);
    settle_rings(beside, end)
}
