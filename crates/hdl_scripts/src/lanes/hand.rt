//! Lanes that one thread fills, serves and empties.

ghost use Rattle.hdl_workers.specs.Ends.{AreDistinct};

use crate::lanes::server::Serving;
use crate::lanes::words::{bad, event_of, number, or_other, short, tell_outcome};
use hdl_events::{Event, Outcome};
use hdl_lanes::{Inlet, Outlet};
use hdl_replay::{events_of, parts_of};
use hdl_serve::{Item, LaneEnds, WorkerSide, lanes_of};
use std::alloc::{AllocError, Global};
use std::io::{self, Write};

/// The worker's side of a lane.
#[derive(Drop)]
struct Side {
    inlet: Inlet<Item>,
    outcomes: Outlet<Outcome>,
}

/// Both sides of lanes.
#[derive(Drop)]
struct LaneSides {
    alloc: Global,
    ends: Vec<LaneEnds>,
    sides: Vec<Side>,
    ghost distinct: { AreDistinct ends.items },
}

fn sides_of(alloc: Global, given: Vec<WorkerSide>) -> Result<Vec<Side>, AllocError> {
    let mut sides = Vec::new(alloc);
    for one in given {
        let WorkerSide { inlet, outcomes } = one;
        sides.push(Side { inlet, outcomes })?;
    }
    Ok(sides)
}

/// So many lanes, whose rings have room for so many items.
fn both_sides(alloc: Global, count: u16, capacity: usize) -> Result<LaneSides, AllocError> {
    let (ends, sides) = lanes_of(alloc, count, capacity)?;
    let sides = sides_of(alloc, sides)?;
    Ok(LaneSides { alloc, ends, sides })
}

impl LaneSides {
    /// Puts an item, and tells where there was no room.
    fn put(&mut self, lane: u16, item: Item, told: &mut Vec<u8>) -> io::Result<()> {
        let Some(side) = self.sides.get_mut(usize::from(lane)) else {
            return Err(bad());
        };
        match side.inlet.put(item) {
            Ok(()) => Ok(()),
            Err(_) => writeln!(told, "{lane} full"),
        }
    }

    /// Takes an outcome, and tells it.
    fn take(&mut self, lane: u16, told: &mut Vec<u8>) -> io::Result<()> {
        let Some(side) = self.sides.get_mut(usize::from(lane)) else {
            return Err(bad());
        };
        match side.outcomes.take() {
            Some(outcome) => tell_outcome(self.alloc, lane, &outcome, told),
            None => writeln!(told, "{lane} nothing"),
        }
    }

    /// Puts the event of a line.
    fn put_event(&mut self, line: &str, told: &mut Vec<u8>) -> io::Result<()> {
        let Event { lane, what } = event_of(self.alloc, line)?;
        self.put(lane, Item::Event(what), told)
    }

    /// Puts an event, serves one turn and takes its outcome.
    fn pass<S: Serving>(
        &mut self,
        serving: &mut S,
        event: Event,
        told: &mut Vec<u8>,
    ) -> io::Result<()> {
        let Event { lane, what } = event;
        self.put(lane, Item::Event(what), told)?;
        serving.serve(&mut self.ends, 1);
        self.take(lane, told)
    }

    /// Does what a line says.
    fn follow<S: Serving>(
        &mut self,
        serving: &mut S,
        line: &str,
        told: &mut Vec<u8>,
    ) -> io::Result<()> {
        if line == "end write" {
            serving.end_write();
            return Ok(());
        }
        let Some((word, rest)) = line.split_once(' ') else {
            return Err(bad());
        };
        if word == "serve" {
            let turns = number(rest)?;
            let idle = serving.serve(&mut self.ends, turns);
            return writeln!(told, "{idle} of {turns} turns idle");
        }
        if word == "take" {
            return self.take(short(number(rest)?)?, told);
        }
        if word == "end" {
            return self.put(short(number(rest)?)?, Item::End, told);
        }
        self.put_event(line, told)
    }
}

/// The lanes of a line `COUNT CAPACITY`.
fn lanes_asked(alloc: Global, line: &str) -> io::Result<LaneSides> {
    let Some((count, capacity)) = line.split_once(' ') else {
        return Err(bad());
    };
    let count = short(number(count)?)?;
    let capacity = usize::from(short(number(capacity)?)?);
    Ok(both_sides(alloc, count, capacity)?)
}

/// Does what the lines say.
fn follow_all<S: Serving>(
    serving: &mut S,
    lanes: &mut LaneSides,
    steps: &str,
    told: &mut Vec<u8>,
) -> io::Result<()> {
    for line in steps.lines() {
        lanes.follow(serving, line, told)?;
    }
    Ok(())
}

/// A tenants text, a line `run`, a line `COUNT CAPACITY` for the lanes, and then a line for each step: an event of a script, which is put into
/// its lane; `end LANE`, `take LANE`, `serve TURNS`, and `end write`, at which a write that is made beside may end.
pub fn run<S: Serving + Drop>(
    alloc: Global,
    mut serving: S,
    text: &str,
    told: &mut Vec<u8>,
) -> io::Result<()> {
    let parts = parts_of(text);
    let Some((first, steps)) = parts.script.split_once('\n') else {
        return Err(bad());
    };
    serving.open(parts.tenants)?;
    let mut lanes = lanes_asked(alloc, first)?;
    follow_all(&mut serving, &mut lanes, steps, told)
}

/// Passes each event through its lane.
fn pass_all<S: Serving>(
    serving: &mut S,
    lanes: &mut LaneSides,
    events: Vec<Event>,
    told: &mut Vec<u8>,
) -> io::Result<()> {
    for event in events {
        lanes.pass(serving, event, told)?;
    }
    writeln!(told, "status 0")
}

/// Tells what a script tells where each of its events goes through a lane of one item.
fn over_lanes<S: Serving>(
    alloc: Global,
    serving: &mut S,
    text: &str,
    told: &mut Vec<u8>,
) -> io::Result<()> {
    let parts = parts_of(text);
    serving.open(parts.tenants)?;
    let events = or_other(events_of(alloc, parts.script, 0))?;
    let mut lanes = both_sides(alloc, 5, 1)?;
    pass_all(serving, &mut lanes, events, told)
}

/// Tells whether a script tells what is expected if its events go through lanes.
pub fn compare<S: Serving + Drop>(
    alloc: Global,
    mut serving: S,
    text: &str,
    expected: &[u8],
    told: &mut Vec<u8>,
) -> io::Result<()> {
    let mut found = Vec::new(alloc);
    over_lanes(alloc, &mut serving, text, &mut found)?;
    let same = found.as_slice() == expected;
    writeln!(told, "  as expected: {same}")
}
