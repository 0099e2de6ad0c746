//! Workers at doors in memory, line by line.

ghost use Rattle.std.specs.Prelude.{◌≡◌, []};

use crate::lanes::beside::{Plan, Ran, count_used, run_packets, run_stream, source};
use crate::lanes::pair::pair_of;
use crate::lanes::recorder::record;
use crate::lanes::server::Serving;
use crate::lanes::words::{
    bad, number, numbers, octets, short, size, tell_item, tell_octets, tell_outcome, word_of,
};
use hdl_replay::parts_of;
use hdl_serve::{Datagram, Door, MemoryDoor, MemoryNonces, MemoryPackets, Packets};
use std::alloc::{AllocError, Global};
use std::collections::VecDeque;
use std::io::{self, Write};
use std::marker::Brand;

/// What serves, the octets that peers send on a connection each, and the datagrams that come.
#[derive(Drop)]
struct Doors<S> {
    alloc: Global,
    serving: Option<S>,
    peers: Vec<Vec<u8>>,
    datagrams: Vec<Datagram>,
}

fn peers_of(alloc: Global, peers: &[Vec<u8>]) -> Result<VecDeque<Vec<u8>>, AllocError> {
    let mut coming = VecDeque::new(alloc);
    for peer in peers {
        coming.push_back(Vec::from_slice(alloc, peer.as_slice())?)?;
    }
    Ok(coming)
}

fn datagrams_of(alloc: Global, datagrams: &[Datagram]) -> Result<VecDeque<Datagram>, AllocError> {
    let mut coming = VecDeque::new(alloc);
    for datagram in datagrams {
        coming.push_back(Datagram {
            peer: datagram.peer,
            octets: Vec::from_slice(alloc, datagram.octets.as_slice())?,
        })?;
    }
    Ok(coming)
}

/// The datagram of a line `PEER OCTETS`.
fn datagram_of(alloc: Global, fields: &str) -> io::Result<Datagram> {
    let Some((peer, digits)) = fields.split_once(' ') else {
        return Err(bad());
    };
    Ok(Datagram {
        peer: short(number(peer)?)?,
        octets: octets(alloc, digits)?,
    })
}

/// The plan of the numbers `LANE CAPACITY MOST FAILS TURNS AFTER`.
fn plan_of(numbers: &[u64], idle: bool) -> io::Result<Plan> {
    match numbers {
        [lane, capacity, most, fails, turns, after, ..] => Ok(Plan {
            lane: short(*lane)?,
            capacity: size(*capacity)?,
            most: size(*most)?,
            fails: *fails,
            turns: *turns,
            after: *after,
            idle,
        }),
        _ => Err(bad()),
    }
}

/// Tells how a worker ended, and what is left in its lane's rings.
fn tell_ran<S>(
    alloc: Global,
    lane: u16,
    faults: u64,
    frames: usize,
    ran: &Ran<S>,
    told: &mut Vec<u8>,
) -> io::Result<()> {
    let why = word_of(ran.why);
    let served = ran.served;
    writeln!(
        told,
        "  {why}, {faults} faults, {served} served, {frames} frames"
    )?;
    write!(told, "  unserved")?;
    for item in &ran.unserved {
        tell_item(item, told)?;
    }
    writeln!(told)?;
    for outcome in &ran.untaken {
        write!(told, "  untaken ")?;
        tell_outcome(alloc, lane, outcome, told)?;
    }
    Ok(())
}

/// Tells what was written on each connection that was left.
fn tell_left(alloc: Global, door: &MemoryDoor, told: &mut Vec<u8>) -> io::Result<()> {
    for connection in door.left() {
        tell_octets(alloc, "left", connection.written(), told)?;
    }
    Ok(())
}

/// Tells what was sent.
fn tell_sent(alloc: Global, packets: &MemoryPackets, told: &mut Vec<u8>) -> io::Result<()> {
    for sent in packets.sent() {
        write!(told, "  to {}", sent.peer)?;
        tell_octets(alloc, "sent", sent.octets.as_slice(), told)?;
    }
    Ok(())
}

/// Runs a stream worker at this door on a lane of its own, and tells what came of it.
fn stream_at<S: Serving + Drop>(
    alloc: Global,
    serving: S,
    door: &mut MemoryDoor,
    nonces: &mut MemoryNonces,
    plan: Plan,
    told: &mut Vec<u8>,
) -> io::Result<S>
    requires first { door.old.left.items ≡ [] }
{
    let pair = pair_of(alloc, plan.lane, plan.capacity)?;
    let Some(ran) = run_stream::<Brand, S>(alloc, serving, pair, door, nonces, plan) else {
        return Err(bad());
    };
    let frames = count_used(nonces);
    tell_ran(alloc, plan.lane, door.faults(), frames, &ran, told)?;
    tell_left(alloc, door, told)?;
    Ok(ran.serving)
}

/// Runs a stream worker at a door to which these peers come.
fn work_stream<S: Serving + Drop>(
    alloc: Global,
    serving: S,
    peers: &[Vec<u8>],
    plan: Plan,
    told: &mut Vec<u8>,
) -> io::Result<S> {
    let mut nonces = source(alloc)?;
    let mut door = MemoryDoor::new(alloc, peers_of(alloc, peers)?, plan.most, plan.fails);
    stream_at(alloc, serving, &mut door, &mut nonces, plan, told)
}

/// Runs a datagram worker at these packets on a lane of its own, and tells what came of it.
fn packets_at<S: Serving + Drop>(
    alloc: Global,
    serving: S,
    packets: &mut MemoryPackets,
    nonces: &mut MemoryNonces,
    plan: Plan,
    told: &mut Vec<u8>,
) -> io::Result<S>
    requires first { (packets.old.received.items ≡ []) × (packets.old.sent.items ≡ []) }
{
    let pair = pair_of(alloc, plan.lane, plan.capacity)?;
    let Some(ran) = run_packets::<Brand, S>(alloc, serving, pair, packets, nonces, plan) else {
        return Err(bad());
    };
    let frames = count_used(nonces);
    tell_ran(alloc, plan.lane, packets.faults(), frames, &ran, told)?;
    tell_sent(alloc, packets, told)?;
    Ok(ran.serving)
}

/// Runs a datagram worker to which these datagrams come.
fn work_packets<S: Serving + Drop>(
    alloc: Global,
    serving: S,
    datagrams: &[Datagram],
    plan: Plan,
    told: &mut Vec<u8>,
) -> io::Result<S> {
    let mut nonces = source(alloc)?;
    let coming = datagrams_of(alloc, datagrams)?;
    let mut packets = MemoryPackets::new(alloc, coming, plan.fails, plan.most);
    packets_at(alloc, serving, &mut packets, &mut nonces, plan, told)
}

/// Runs a worker by what serves it.
fn work_beside<S: Serving + Drop>(
    doors: &mut Doors<S>,
    is_stream: bool,
    plan: Plan,
    told: &mut Vec<u8>,
) -> io::Result<()> {
    let alloc = doors.alloc;
    let Some(serving) = doors.serving.take() else {
        return Err(bad());
    };
    let serving = if is_stream {
        work_stream(alloc, serving, &doors.peers, plan, told)?
    } else {
        work_packets(alloc, serving, &doors.datagrams, plan, told)?
    };
    doors.serving = Some(serving);
    Ok(())
}

/// Runs a worker as the line says, and tells what came of it.
fn work<S: Serving + Drop>(
    doors: &mut Doors<S>,
    word: &str,
    fields: &str,
    told: &mut Vec<u8>,
) -> io::Result<()> {
    writeln!(told, "{word} {fields}")?;
    let numbers = numbers(doors.alloc, fields)?;
    let plan = plan_of(numbers.as_slice(), word == "idle")?;
    match (numbers.get(6), numbers.get(7)) {
        (Some(items), Some(octets)) => {
            let coming = peers_of(doors.alloc, &doors.peers)?;
            record(doors.alloc, coming, *items, size(*octets)?, plan, told)
        }
        _ => work_beside(doors, word != "packets", plan, told),
    }
}

/// Opens the service anew.
fn open<S: Serving>(serving: &mut Option<S>, tenants: &str) -> io::Result<()> {
    match serving {
        Some(serving) => serving.open(tenants),
        None => Err(bad()),
    }
}

/// Does what a line says.
fn follow<S: Serving + Drop>(
    doors: &mut Doors<S>,
    tenants: &str,
    line: &str,
    told: &mut Vec<u8>,
) -> io::Result<()> {
    let Some((word, fields)) = line.split_once(' ') else {
        doors.peers.clear();
        doors.datagrams.clear();
        if line == "open" {
            open(&mut doors.serving, tenants)?;
        }
        return Ok(());
    };
    if word == "peer" {
        doors.peers.push(octets(doors.alloc, fields)?)?;
        return Ok(());
    }
    if word == "datagram" {
        doors.datagrams.push(datagram_of(doors.alloc, fields)?)?;
        return Ok(());
    }
    work(doors, word, fields, told)
}

/// A tenants text, a line `run`, and then a line for each step: `nobody`, behind which nobody comes any more; `open`, which opens the service
/// anew as well; `peer OCTETS` and `datagram PEER OCTETS`, which come at each door; and the workers. `stream` and `packets` are served at
/// each pause of the worker, `idle` is a stream worker that isn't; `LANE CAPACITY MOST FAILS TURNS AFTER` stand behind each. `record` has
/// ITEMS and OCTETS behind these, and no service.
pub fn run<S: Serving + Drop>(
    alloc: Global,
    serving: S,
    text: &str,
    told: &mut Vec<u8>,
) -> io::Result<()> {
    let parts = parts_of(text);
    let mut doors = Doors {
        alloc,
        serving: Some(serving),
        peers: Vec::new(alloc),
        datagrams: Vec::new(alloc),
    };
    for line in parts.script.lines() {
        follow(&mut doors, parts.tenants, line, told)?;
    }
    Ok(())
}
