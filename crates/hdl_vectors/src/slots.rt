//! Pending challenges of lanes.

use crate::digests::put_digest;
use crate::octets::{lane_of, numbers_of, peer_of, put_hex, unread};
use hdl_limits::Octets;
use hdl_slots::{Digest, Pending, Slots};
use std::alloc::{AllocError, Global};
use std::io;

const NONCE: [u8; 16] = [0, 1, 2, 3, 4, 5, 6, 7, 8, 9, 10, 11, 12, 13, 14, 15];

const DIGEST: Digest = Digest::Sha256([7; 32]);

/// A challenge to this peer, told from others by its moment.
fn challenge(alloc: Global, peer: u16, moment: u64) -> Result<Pending, AllocError> {
    Ok(Pending {
        peer,
        moment,
        nonce: NONCE,
        digest: DIGEST,
        message: Octets::new(vec![in alloc; 1, 2, 3]?),
    })
}

/// Prints all of a challenge.
fn put_pending(rt: &HostRuntime, pending: &Pending) -> io::Result<()> {
    println!(rt; "  moment {} of peer {}", pending.moment, pending.peer)?;
    put_hex(rt, "  nonce", &pending.nonce)?;
    put_digest(rt, &pending.digest)?;
    put_hex(rt, "  message", pending.message.as_slice())
}

/// Puts a challenge, and prints its number.
fn put_put(rt: &HostRuntime, slots: &mut Slots, numbers: &[u32]) -> io::Result<()> {
    let [lane, peer, moment] = *numbers else {
        return Err(unread());
    };
    let lane = lane_of(lane)?;
    let pending = challenge(rt.alloc(), peer_of(peer)?, u64::from(moment))?;
    println!(rt; "  number {}", slots.put(lane, pending))
}

/// Prints the moment of the challenge that is found.
fn put_found(rt: &HostRuntime, slots: &Slots, numbers: &[u32]) -> io::Result<()> {
    let [lane, peer, number] = *numbers else {
        return Err(unread());
    };
    match slots.find(lane_of(lane)?, peer_of(peer)?, number) {
        Some(pending) => println!(rt; "  moment {}", pending.moment),
        None => println!(rt; "  nothing"),
    }
}

/// Takes a challenge, and prints all of it.
fn put_taken(rt: &HostRuntime, slots: &mut Slots, numbers: &[u32]) -> io::Result<()> {
    let [lane, peer, number] = *numbers else {
        return Err(unread());
    };
    match slots.take(lane_of(lane)?, peer_of(peer)?, number) {
        Some(pending) => put_pending(rt, &pending),
        None => println!(rt; "  nothing"),
    }
}

/// Prints the number that the next challenge of a lane gets.
fn put_next(rt: &HostRuntime, slots: &Slots, numbers: &[u32]) -> io::Result<()> {
    let [lane] = *numbers else {
        return Err(unread());
    };
    println!(rt; "  next number {}", slots.next_number(lane_of(lane)?))
}

/// Empties a lane.
fn drop_lane(slots: &mut Slots, numbers: &[u32]) -> io::Result<()> {
    let [lane] = *numbers else {
        return Err(unread());
    };
    slots.drop_lane(lane_of(lane)?);
    Ok(())
}

/// Does a step.
fn put_step(rt: &HostRuntime, slots: &mut Slots, step: &str) -> io::Result<()> {
    let (word, rest) = step.split_once(' ').unwrap_or((step, ""));
    let numbers = numbers_of(rt.alloc(), rest)?;
    match word {
        "put" => put_put(rt, slots, &numbers),
        "find" => put_found(rt, slots, &numbers),
        "take" => put_taken(rt, slots, &numbers),
        "next" => put_next(rt, slots, &numbers),
        "drop" => drop_lane(slots, &numbers),
        _ => Err(unread()),
    }
}

/// Prints what the steps tell of challenges.
pub fn put_slots(rt: &HostRuntime, steps: &str) -> io::Result<()> {
    let mut slots = Slots::new(rt.alloc())?;
    for step in steps.split(" | ") {
        put_step(rt, &mut slots, step)?;
    }
    Ok(())
}
