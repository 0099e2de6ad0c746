//! A thread for each lane, with its worker.

use crate::listening::{PublisherSockets, or_device_fault};
use hdl_programs::Fault;
use hdl_sockets::{
    ConnectionTimeouts, IdlePoll, LaneListener, LoopWaker, MachineClock, MachineNonces,
    OverflowDoor, OverflowLane, PacketSocket, ShutdownFlag, SocketDoor, SocketPackets, Sockets,
    ThreadRole,
};
use hdl_telemetry::{PublisherTelemetry, Recorder, StreamRecorder};
use hdl_workers::{EndReason, WorkerEnd, WorkerSide, packet_worker, stream_worker};
use rand::make_rng;
use std::alloc::Global;
use std::random::RandomSource;
use std::rt::Clock;
use std::sync::Arc;
use std::thread;
use std::thread::{JoinHandle, Threads};
use std::vec::IntoIter;

/// What a worker has in addition to its sockets: its side of the lane, the waker of the thread that serves, its nonces and its turns.
#[derive(Drop)]
pub struct WorkerContext {
    ends: WorkerSide,
    waker: Arc<LoopWaker>,
    nonces: MachineNonces,
    turns: u64,
}

/// The sockets of a lane, at which a worker works.
///
/// What starts a worker is generic over it: proving a function that owns sockets costs several times as much.
pub trait LaneSockets {
    /// Works at the lane on this thread, until the lane or the turns end.
    fn run_worker<R: Clock + Copy + Drop>(
        self,
        rt: R,
        alloc: Global,
        recorder: Option<Recorder<R>>,
        context: WorkerContext,
    ) -> WorkerEnd;
}

/// A connection at a time.
impl LaneSockets for LaneListener {
    fn run_worker<R: Clock + Copy + Drop>(
        self,
        rt: R,
        alloc: Global,
        recorder: Option<Recorder<R>>,
        context: WorkerContext,
    ) -> WorkerEnd {
        let WorkerContext {
            ends,
            waker,
            mut nonces,
            turns,
        } = context;
        let recorder = recorder.map(StreamRecorder::new);
        let mut door = SocketDoor::new(ConnectionTimeouts::new(rt, self, recorder));
        let mut clock = MachineClock::new(rt, ThreadRole::Worker(waker));
        stream_worker(alloc, &mut door, &mut clock, &mut nonces, ends, turns)
    }
}

/// Many connections.
impl LaneSockets for OverflowLane {
    fn run_worker<R: Clock + Copy + Drop>(
        self,
        rt: R,
        alloc: Global,
        recorder: Option<Recorder<R>>,
        context: WorkerContext,
    ) -> WorkerEnd {
        let WorkerContext {
            ends,
            waker,
            mut nonces,
            turns,
        } = context;
        let mut overflow = OverflowDoor::new(rt, self, recorder);
        let mut clock = MachineClock::new(rt, ThreadRole::Worker(waker));
        packet_worker(alloc, &mut overflow, &mut clock, &mut nonces, ends, turns)
    }
}

/// A lane of datagrams: its sockets, and whether the server is to end.
#[derive(Drop)]
struct PacketLane {
    sockets: Sockets<PacketSocket>,
    shutdown: Arc<ShutdownFlag>,
}

impl LaneSockets for PacketLane {
    fn run_worker<R: Clock + Copy + Drop>(
        self,
        rt: R,
        alloc: Global,
        recorder: Option<Recorder<R>>,
        context: WorkerContext,
    ) -> WorkerEnd {
        let WorkerContext {
            ends,
            waker,
            mut nonces,
            turns,
        } = context;
        let PacketLane { sockets, shutdown } = self;
        let mut packets = SocketPackets::new(rt, alloc, sockets, shutdown, recorder);
        let mut clock = MachineClock::new(rt, ThreadRole::Worker(waker));
        packet_worker(alloc, &mut packets, &mut clock, &mut nonces, ends, turns)
    }
}

/// What reads along with the lane at this place, if anything is recorded.
fn recorder_of<R: Clock + Copy + Drop>(
    rt: &R,
    alloc: Global,
    telemetry: &mut Option<PublisherTelemetry>,
    lane: usize,
) -> Result<Option<Recorder<R>>, Fault> {
    match telemetry {
        Some(telemetry) => Ok(Some(or_device_fault(Recorder::new(*rt, alloc, telemetry, lane))?)),
        None => Ok(None),
    }
}

/// Starts the worker of a lane.
fn start_worker<
    R: Threads + Clock + Copy + Send + Drop + 'static,
    L: LaneSockets + Send + Drop + 'static,
>(
    rt: &R,
    alloc: Global,
    lane: L,
    recorder: Option<Recorder<R>>,
    context: WorkerContext,
) -> Result<JoinHandle<WorkerEnd>, Fault> {
    let theirs = *rt;
    match thread::spawn(
        rt,
        move || lane.run_worker(theirs, alloc, recorder, context),
    ) {
        Ok(worker) => Ok(worker),
        Err(_) => Err(Fault::Device),
    }
}

/// The workers that were started, and what those have that are to come.
#[derive(Drop)]
struct Workers {
    contexts: IntoIter<WorkerContext>,
    started: Vec<JoinHandle<WorkerEnd>>,
}

impl Workers {
    /// Starts the next worker, at the lane that stands at this place among those of its publisher.
    fn start_next<
        R: Threads + Clock + Copy + Send + Drop + 'static,
        L: LaneSockets + Send + Drop + 'static,
    >(
        &mut self,
        rt: &R,
        alloc: Global,
        lane: L,
        telemetry: &mut Option<PublisherTelemetry>,
        place: usize,
    ) -> Result<(), Fault> {
        let Some(context) = self.contexts.next() else {
            return Ok(());
        };
        let recorder = recorder_of(rt, alloc, telemetry, place)?;
        self.started
            .push(start_worker(rt, alloc, lane, recorder, context)?)?;
        Ok(())
    }

    /// Starts the workers of these lanes, which are the first of their publisher.
    fn start_first<
        R: Threads + Clock + Copy + Send + Drop + 'static,
        L: LaneSockets + Send + Drop + 'static,
    >(
        &mut self,
        rt: &R,
        alloc: Global,
        lanes: Vec<L>,
        telemetry: &mut Option<PublisherTelemetry>,
    ) -> Result<(), Fault> {
        let mut place = 0usize;
        for lane in lanes {
            self.start_next(rt, alloc, lane, telemetry, place)?;
            place = place.saturating_add(1);
        }
        Ok(())
    }

    /// Starts the workers of the last lanes of a publisher, from this place on: the overflow lane, if it has one, and that of its datagrams.
    fn start_last<
        R: Threads + Clock + Copy + Send + Drop + 'static,
        C: LaneSockets + Send + Drop + 'static,
        P: LaneSockets + Send + Drop + 'static,
    >(
        &mut self,
        rt: &R,
        alloc: Global,
        lanes: (Option<C>, P),
        telemetry: &mut Option<PublisherTelemetry>,
        place: usize,
    ) -> Result<(), Fault> {
        let (overflow, packets) = lanes;
        let Some(overflow) = overflow else {
            return self.start_next(rt, alloc, packets, telemetry, place);
        };
        self.start_next(rt, alloc, overflow, telemetry, place)?;
        self.start_next(rt, alloc, packets, telemetry, place.saturating_add(1))
    }

    /// Starts the workers of a publisher's lanes.
    fn start_publisher<
        R: Threads + Clock + Copy + Send + Drop + 'static,
        C: LaneSockets + Send + Drop + 'static,
    >(&mut self, rt: &R, alloc: Global, publisher: PublisherSockets<C>) -> Result<(), Fault> {
        let PublisherSockets {
            lane_listeners,
            overflow,
            sockets,
            mut telemetry,
            shutdown,
        } = publisher;
        let packets = PacketLane { sockets, shutdown };
        let count = lane_listeners.len();
        self.start_first(rt, alloc, lane_listeners, &mut telemetry)?;
        self.start_last(rt, alloc, (overflow, packets), &mut telemetry, count)
    }
}

/// What the workers of these lanes have.
fn contexts_of<R: RandomSource>(
    rt: &R,
    alloc: Global,
    lanes: Vec<WorkerSide>,
    idle_poll: &IdlePoll,
    turns: u64,
) -> Result<Vec<WorkerContext>, Fault> {
    let mut contexts = Vec::with_capacity(alloc, lanes.len())?;
    for ends in lanes {
        let waker = or_device_fault(idle_poll.waker())?;
        let nonces = MachineNonces::new(or_device_fault(make_rng(rt))?);
        contexts.push(WorkerContext {
            ends,
            waker,
            nonces,
            turns,
        })?;
    }
    Ok(contexts)
}

/// Starts a worker for each lane.
pub fn start_workers<
    R: Threads + Clock + RandomSource + Copy + Send + Drop + 'static,
    C: LaneSockets + Send + Drop + 'static,
>(
    rt: &R,
    alloc: Global,
    publishers: Vec<PublisherSockets<C>>,
    lanes: Vec<WorkerSide>,
    idle_poll: &IdlePoll,
    turns: u64,
) -> Result<Vec<JoinHandle<WorkerEnd>>, Fault> {
    let started = Vec::with_capacity(alloc, lanes.len())?;
    let contexts = contexts_of(rt, alloc, lanes, idle_poll, turns)?.into_iter();
    let mut workers = Workers { contexts, started };
    for publisher in publishers {
        workers.start_publisher(rt, alloc, publisher)?;
    }
    Ok(workers.started)
}

/// Joins each worker. A device fault where a device ended one, unless the server was asked to end.
pub fn join_workers<R: Threads>(
    rt: &R,
    workers: Vec<JoinHandle<WorkerEnd>>,
    shutdown: &ShutdownFlag,
) -> Result<(), Fault> {
    let mut ended = Ok(());
    for worker in workers {
        if worker.join(rt).why == EndReason::Device && !shutdown.is_requested() {
            ended = Err(Fault::Device);
        }
    }
    ended
}
