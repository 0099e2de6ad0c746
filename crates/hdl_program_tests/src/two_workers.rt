//! Two workers are served at the same time: each of their doors waits for the other.

ghost use Rattle.hdl_workers.specs.Ends.{AreDistinct};

use crate::assertion::same;
use hdl_core::{Service, Tenants};
use hdl_rows::PlainRows;
use hdl_serve::{
    Door, DoorFault, LaneEnds, LoopClock, MemoryDoor, MemoryNonces, WorkerSide, WriteQueue,
    lanes_of, serve, stream_worker,
};
use std::alloc::{AllocError, Global};
use std::collections::VecDeque;
use std::sync::Arc;
use std::sync::atomic::AtomicU64;
use std::sync::atomic::Ordering::SeqCst;
use std::test::Fail;
use std::thread;
use std::thread::{JoinHandle, Threads};
use std::time::Duration;

/// One publisher with a stream lane and a datagram lane.
const TENANTS: &str = "publisher acme 2 2641\nprefix 10 acme\nprefix 10.abc acme\n";

/// A resolution of `10/a`, which is absent, and its reply: those of examples/absent.script.
pub(crate) const FRAME: &str =
    "020100000000000000000001000000000000002c0000000100000000000000000000000000000000000000100000000431302f61000000000000000000000000";

pub(crate) const REPLY: &str =
    "02010000000000000000000100000000000000200000000100000064000000000000000000000000000000040000000000000000";

/// The turns of each worker, and of `serve`.
const TURNS: u64 = 100_000;

/// The octets of a whole reply.
const REPLY_LEN: u64 = 52;

/// What threads count together.
type Count = Arc<AtomicU64, Global>;

/// A door that offers its second connection only once the other door was written a whole reply.
#[derive(Drop)]
struct Paired<D> {
    door: D,
    accepted: bool,
    written: Count,
    others: Count,
    left: Count,
}

impl<D: Door> Door for Paired<D> {
    ghost use Rattle.std.specs.Prelude.{false, []};
    ghost use Rattle.hdl_workers.specs.Door.{fresh};

    ghost is_observed = { false };

    ghost ended = { λ _. [] };

    ghost current = { λ _. fresh };

    ghost is_open = { λ p. D.is_open p.door };

    ghost fault_count = { λ p. D.fault_count p.door };

    fn accept(&mut self) -> Result<bool, DoorFault> {
        if self.accepted && self.others.load(SeqCst) < REPLY_LEN {
            return Ok(false);
        }
        let came = self.door.accept()?;
        self.accepted = true;
        Ok(came)
    }

    fn read(&mut self, buffer: &mut [u8]) -> Result<usize, DoorFault> {
        self.door.read(buffer)
    }

    fn write(&mut self, octets: &[u8]) -> Result<usize, DoorFault> {
        let count = self.door.write(octets)?;
        self.written.fetch_add(count as u64, SeqCst);
        Ok(count)
    }

    fn give_up(&mut self) {
        self.door.give_up();
    }

    fn leave(&mut self) {
        self.door.leave();
        self.left.fetch_add(1, SeqCst);
    }

    fn faults(&self) -> u64 {
        self.door.faults()
    }
}

/// A clock whose pause sleeps until both doors have served two connections.
#[derive(Drop)]
struct Sleeping<R> {
    rt: R,
    left: Count,
}

impl<R: std::rt::Clock> LoopClock for Sleeping<R> {
    ghost use Rattle.std.specs.Prelude.{false, []};

    ghost is_observed = { false };

    ghost answers = { λ _. [] };

    fn now(&mut self) -> u64 {
        1000
    }

    fn pause(&mut self) {
        if self.left.load(SeqCst) < 4 {
            thread::sleep(&self.rt, Duration::from_micros(100));
        }
    }
}

/// A door at which two peers ask, one after the other.
fn door_of(
    alloc: Global,
    written: &Count,
    others: &Count,
    left: &Count,
) -> Result<Paired<MemoryDoor>, Fail> {
    let mut coming = VecDeque::new(alloc);
    for _ in 0..2 {
        coming.push_back(hex::decode(alloc, FRAME)?)?;
    }
    Ok(Paired {
        door: MemoryDoor::new(alloc, coming, 8192, 0),
        accepted: false,
        written: Arc::try_clone(written)?,
        others: Arc::try_clone(others)?,
        left: Arc::try_clone(left)?,
    })
}

/// Starts the worker of a lane on a thread of its own, which gives the door back.
fn start<R: Threads + std::rt::Clock + Copy + Send + Drop + 'static>(
    rt: &R,
    alloc: Global,
    side: WorkerSide,
    door: Paired<MemoryDoor>,
) -> Result<JoinHandle<Paired<MemoryDoor>>, AllocError> {
    let mut clock = Sleeping {
        rt: *rt,
        left: Arc::try_clone(&door.left)?,
    };
    let mut door = door;
    let spawned = thread::spawn(rt, move || {
        let mut nonces = MemoryNonces {
            coming: VecDeque::new(alloc),
        };
        stream_worker(alloc, &mut door, &mut clock, &mut nonces, side, TURNS);
        door
    });
    match spawned {
        Ok(worker) => Ok(worker),
        Err(_) => Err(AllocError),
    }
}

/// Starts a worker for each lane.
fn start_both<R: Threads + std::rt::Clock + Copy + Send + Drop + 'static>(
    rt: &R,
    alloc: Global,
    sides: Vec<WorkerSide>,
    left: &Count,
) -> Result<Vec<JoinHandle<Paired<MemoryDoor>>>, Fail> {
    let mut written = Arc::new(alloc, AtomicU64::new(0))?;
    let mut others = Arc::new(alloc, AtomicU64::new(0))?;
    let mut workers = Vec::new(alloc);
    for side in sides {
        let door = door_of(alloc, &written, &others, left)?;
        workers.push(start(rt, alloc, side, door)?)?;
        std::mem::swap(&mut written, &mut others);
    }
    Ok(workers)
}

/// Opens the service of the tenants text, over an empty table.
pub(crate) fn open(alloc: Global) -> Result<Service<PlainRows>, Fail> {
    let Ok(tenants) = Tenants::read(alloc, TENANTS) else {
        return Err(Fail::from(AllocError));
    };
    Ok(Service::open(alloc, tenants, PlainRows::new(alloc))?)
}

/// Serves two lanes while their workers run.
fn serve_both<R: std::rt::Clock + Copy + Drop>(
    rt: &R,
    alloc: Global,
    lanes: Vec<LaneEnds>,
    left: &Count,
) -> Result<(), Fail>
    requires { AreDistinct lanes.items }
{
    let mut clock = Sleeping {
        rt: *rt,
        left: Arc::try_clone(left)?,
    };
    let mut queue = WriteQueue::new(alloc);
    drop(serve(alloc, open(alloc)?, lanes, &mut clock, &mut queue, TURNS));
    Ok(())
}

/// Each door offers its second connection once the other was written a reply; both serve two within their turns.
#[test]
fn two_workers(rt: HostRuntime) -> Result<(), Fail> {
    let alloc = rt.alloc();
    let left = Arc::new(alloc, AtomicU64::new(0))?;
    let (ends, sides) = lanes_of(alloc, 2, 16)?;
    let workers = start_both(&rt, alloc, sides, &left)?;
    serve_both(&rt, alloc, ends, &left)?;
    for worker in workers {
        let paired = worker.join(&rt);
        same(&rt, "connections", paired.door.left().len(), 2);
        for connection in paired.door.left() {
            let written = hex::encode(alloc, connection.written())?;
            same(&rt, "written", written.as_str(), REPLY);
        }
    }
    Ok(())
}
