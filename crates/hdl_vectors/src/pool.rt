//! What becomes of pieces. Each message is made here, and what is whole is compared with it.

ghost use Rattle.std.specs.Prelude.{◌<◌};

use crate::octets::{lane_of, numbers_of, peer_of, unread};
use hdl_frame::{Envelope, one_datagram};
use hdl_limits::LANES;
use hdl_pool::{Pool, Taken};
use std::alloc::{AllocError, Global};
use std::io;

/// A message of so many octets, which count up to 250 and again.
fn message_of(alloc: Global, length: u32) -> Result<Vec<u8>, AllocError> {
    let mut octets = Vec::new(alloc);
    for i in 0..length {
        octets.push((i % 251) as u8)?;
    }
    Ok(octets)
}

/// A message of so many octets that are 7 each.
fn other_of(alloc: Global, length: u32) -> Result<Vec<u8>, AllocError> {
    let mut octets = Vec::new(alloc);
    for _ in 0..length {
        octets.push(7)?;
    }
    Ok(octets)
}

/// The envelope of a piece, in SessionId 9.
fn envelope_of(request: u32, sequence: u32, length: u32) -> Envelope {
    Envelope {
        major: 2,
        minor: 1,
        flags: 0x2000,
        session: 9,
        request,
        sequence,
        length,
    }
}

/// The frame that carries the piece of a message with this number.
fn piece_of(
    alloc: Global,
    request: u32,
    number: u32,
    message: &[u8],
) -> Result<Vec<u8>, AllocError> {
    let length = message.len().min(65_536) as u32;
    let mut octets = Vec::from_slice(alloc, &envelope_of(request, number, length).to_octets())?;
    let rest = &message[(492 * number as usize).min(message.len())..];
    octets.extend_from_slice(&rest[..rest.len().min(492)])?;
    Ok(octets)
}

/// Prints what became of a piece: whole only where that gave the message.
fn put_taken(rt: &HostRuntime, taken: &Taken, message: &[u8]) -> io::Result<()> {
    match taken {
        Taken::Whole(whole) if whole.as_slice() == message => println!(rt; "  whole"),
        Taken::Whole(_) => println!(rt; "  another message"),
        Taken::Kept => println!(rt; "  kept"),
        Taken::Ignored => println!(rt; "  ignored"),
        Taken::Displaced => println!(rt; "  displaced"),
    }
}

/// Gives the pool a datagram that carries a piece of a message, and prints what became of it.
fn put_sent(
    rt: &HostRuntime,
    pool: &mut Pool,
    place: (u16, u16),
    octets: &[u8],
    message: &[u8],
) -> io::Result<()>
    requires { place.0 < LANES }
{
    let (lane, peer) = place;
    let Ok(frame) = one_datagram(octets) else {
        return Err(unread());
    };
    if !frame.envelope.is_truncated() {
        return Err(unread());
    }
    match pool.take(lane, peer, &frame) {
        Ok(taken) => put_taken(rt, &taken, message),
        Err(fault) => println!(rt; "  {fault}"),
    }
}

/// Gives the pool the piece of a message that numbers name.
fn put_piece(rt: &HostRuntime, pool: &mut Pool, numbers: &[u32], message: &[u8]) -> io::Result<()> {
    let [lane, peer, request, number, _] = *numbers else {
        return Err(unread());
    };
    let octets = piece_of(rt.alloc(), request, number, message)?;
    put_sent(rt, pool, (lane_of(lane)?, peer_of(peer)?), &octets, message)
}

/// Frees a message, or empties a lane.
fn free(pool: &mut Pool, numbers: &[u32]) -> io::Result<()> {
    match *numbers {
        [lane] => pool.drop_lane(lane_of(lane)?),
        [lane, peer, request] => {
            let envelope = envelope_of(request, 0, 984);
            pool.free(lane_of(lane)?, peer_of(peer)?, &envelope);
        }
        _ => return Err(unread()),
    }
    Ok(())
}

/// Does a step.
fn put_step(rt: &HostRuntime, pool: &mut Pool, step: &str) -> io::Result<()> {
    let (word, rest) = step.split_once(' ').unwrap_or((step, ""));
    let numbers = numbers_of(rt.alloc(), rest)?;
    let length = numbers.get(4).copied().unwrap_or(0);
    match word {
        "piece" => put_piece(rt, pool, &numbers, &message_of(rt.alloc(), length)?),
        "other" => put_piece(rt, pool, &numbers, &other_of(rt.alloc(), length)?),
        "free" => free(pool, &numbers),
        _ => Err(unread()),
    }
}

/// Prints what becomes of the pieces of the steps.
pub fn put_pool(rt: &HostRuntime, steps: &str) -> io::Result<()> {
    let mut pool = Pool::new(rt.alloc())?;
    for step in steps.split(" | ") {
        put_step(rt, &mut pool, step)?;
    }
    Ok(())
}
