//! A worker's other end without a service: it writes down what is put and answers it; and a door that counts writes.

ghost use Rattle.std.specs.Prelude.{◌≡◌, []};

use crate::lanes::beside::{Plan, source};
use crate::lanes::pair::{LanePair, pair_of};
use crate::lanes::words::{tell_item, word_of};
use hdl_events::Outcome;
use hdl_limits::Octets;
use hdl_serve::{
    Door, DoorFault, EndReason, LaneEnds, LoopClock, MemoryDoor, MemoryNonces, stream_worker,
};
use std::alloc::Global;
use std::collections::VecDeque;
use std::io::{self, Write};
use std::time::Duration;

/// Answers at most so many items at a time, each by so many octets.
#[derive(Drop)]
struct Recorder {
    alloc: Global,
    ends: Vec<LaneEnds>,
    most: u64,
    octets: usize,
    /// What was put, as it is told.
    put: Vec<u8>,
}

impl Recorder {
    /// Answers the next item, if one is there.
    fn answer(&mut self) -> io::Result<()> {
        let Some(ends) = self.ends.first_mut() else {
            return Ok(());
        };
        if let Some(item) = ends.next() {
            tell_item(&item, &mut self.put)?;
            let mut octets = Vec::new(self.alloc);
            octets.resize(self.octets, 7)?;
            let _ = ends.answer(Outcome::Reply(Octets::new(octets)));
        }
        Ok(())
    }

    /// Answers at most so many items that are there.
    fn answer_all(&mut self, most: u64) -> io::Result<()> {
        for _ in 0..most {
            self.answer()?;
        }
        Ok(())
    }
}

impl LoopClock for Recorder {
    ghost use Rattle.std.specs.Prelude.{false, []};

    ghost is_observed = { false };

    ghost answers = { λ _. [] };

    fn now(&mut self) -> u64 {
        1000
    }

    fn pause(&mut self) {
        let _ = self.answer_all(self.most);
    }

    fn waited(&self) -> Duration {
        Duration::ZERO
    }

    fn note_work(&mut self) {}
}

/// A door that counts its writes.
#[derive(Drop)]
struct Counting<D> {
    door: D,
    writes: u64,
    /// The octets of the longest write.
    longest: usize,
}

impl<D: Door> Door for Counting<D> {
    ghost use Rattle.std.specs.Prelude.{false, []};
    ghost use Rattle.hdl_workers.specs.Door.{fresh};

    ghost is_observed = { false };

    ghost ended = { λ _. [] };

    ghost current = { λ _. fresh };

    ghost is_open = { λ d. D.is_open d.door };

    ghost fault_count = { λ d. D.fault_count d.door };

    fn accept(&mut self) -> Result<bool, DoorFault> {
        self.door.accept()
    }

    fn read(&mut self, buffer: &mut [u8]) -> Result<usize, DoorFault> {
        self.door.read(buffer)
    }

    fn write(&mut self, octets: &[u8]) -> Result<usize, DoorFault> {
        self.writes = self.writes.saturating_add(1);
        self.longest = self.longest.max(octets.len());
        self.door.write(octets)
    }

    fn give_up(&mut self) {
        self.door.give_up();
    }

    fn leave(&mut self) {
        self.door.leave();
    }

    fn faults(&self) -> u64 {
        self.door.faults()
    }
}

/// Runs a stream worker beside a recorder, and answers why it ended.
fn run_recorded<D: Door>(
    alloc: Global,
    pair: LanePair,
    door: &mut Counting<D>,
    recorder: &mut Recorder,
    nonces: &mut MemoryNonces,
    turns: u64,
) -> EndReason {
    let LanePair { side, ends } = pair;
    recorder.ends = ends;
    let end = stream_worker(alloc, door, recorder, nonces, side, turns);
    end.why
}

/// Tells how a worker ended, and what it put.
fn tell_recorded<D: Door>(
    why: EndReason,
    door: &Counting<D>,
    put: &[u8],
    told: &mut Vec<u8>,
) -> io::Result<()> {
    let why = word_of(why);
    let faults = door.faults();
    let writes = door.writes;
    let longest = door.longest;
    writeln!(
        told,
        "  {why}, {faults} faults, {writes} writes, the longest of {longest}"
    )?;
    write!(told, "  put")?;
    told.write_all(put)?;
    writeln!(told)
}

/// Runs a stream worker at this door beside this recorder, and tells what came of it.
fn record_at<D: Door>(
    alloc: Global,
    door: &mut Counting<D>,
    recorder: &mut Recorder,
    nonces: &mut MemoryNonces,
    plan: Plan,
    told: &mut Vec<u8>,
) -> io::Result<()> {
    let pair = pair_of(alloc, plan.lane, plan.capacity)?;
    let why = run_recorded(alloc, pair, door, recorder, nonces, plan.turns);
    recorder.answer_all(plan.after)?;
    tell_recorded(why, door, &recorder.put, told)
}

/// Runs a stream worker whose events are written down and answered by so many octets, at most so many at a time.
pub fn record(
    alloc: Global,
    coming: VecDeque<Vec<u8>>,
    most: u64,
    octets: usize,
    plan: Plan,
    told: &mut Vec<u8>,
) -> io::Result<()> {
    let mut nonces = source(alloc)?;
    let mut recorder = Recorder {
        alloc,
        ends: Vec::new(alloc),
        most,
        octets,
        put: Vec::new(alloc),
    };
    let mut door = Counting {
        door: MemoryDoor::new(alloc, coming, plan.most, plan.fails),
        writes: 0,
        longest: 0,
    };
    record_at(alloc, &mut door, &mut recorder, &mut nonces, plan, told)
}
