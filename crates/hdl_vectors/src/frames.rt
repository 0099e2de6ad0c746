//! Envelopes, frames, and the datagrams of a reply.

use crate::octets::{octets_of, put_hex, unread};
use hdl_frame::{Cutter, ENVELOPE_LEN, Envelope, FrameFault, one_datagram, pieces};
use std::io;

/// Prints the text of a fault, and its envelope.
fn put_fault(rt: &HostRuntime, fault: FrameFault) -> io::Result<()> {
    println!(rt; "  {fault}")?;
    match fault {
        FrameFault::Version(envelope)
        | FrameFault::Flags(envelope)
        | FrameFault::TooLong(envelope) => put_hex(rt, "envelope", &envelope.to_octets()),
        FrameFault::Memory => Ok(()),
    }
}

/// Prints the next frame's octets, or why there is none.
fn put_next(rt: &HostRuntime, cutter: &mut Cutter) -> io::Result<()> {
    match cutter.next_frame() {
        Ok(Some(frame)) => println!(rt; "  frame of {} octets", frame.bytes.len()),
        Ok(None) => println!(rt; "  no frame yet"),
        Err(fault) => put_fault(rt, fault),
    }
}

/// Feeds octets, and prints the fault if there is one.
fn feed(rt: &HostRuntime, cutter: &mut Cutter, octets: &[u8]) -> io::Result<()> {
    match cutter.feed(octets) {
        Ok(()) => Ok(()),
        Err(fault) => put_fault(rt, fault),
    }
}

/// Prints what a cutter tells that is fed step by step.
pub fn put_stream(rt: &HostRuntime, steps: &str) -> io::Result<()> {
    let mut cutter = Cutter::new(rt.alloc());
    for step in steps.split(" | ") {
        if step == "next" {
            put_next(rt, &mut cutter)?;
        } else {
            let octets = octets_of(rt.alloc(), step)?;
            feed(rt, &mut cutter, &octets)?;
        }
    }
    Ok(())
}

/// Prints the text of the fault that no octets have.
pub fn put_memory_fault(rt: &HostRuntime) -> io::Result<()> {
    put_fault(rt, FrameFault::Memory)
}

/// Prints what an envelope says.
fn put_fields(rt: &HostRuntime, envelope: Envelope) -> io::Result<()> {
    println!(rt; "  version {}.{}", envelope.major, envelope.minor)?;
    println!(rt; "  session {:08x}", envelope.session)?;
    println!(rt; "  request {:08x}", envelope.request)?;
    println!(rt; "  sequence {:08x}", envelope.sequence)?;
    println!(rt; "  length {}", envelope.length)?;
    println!(rt; "  compressed {}", envelope.is_compressed())?;
    println!(rt; "  encrypted {}", envelope.is_encrypted())?;
    println!(rt; "  truncated {}", envelope.is_truncated())
}

/// The envelope that the octets are.
pub fn envelope_of(octets: &[u8]) -> io::Result<Envelope> {
    if octets.len() == ENVELOPE_LEN {
        Ok(Envelope::read(octets))
    } else {
        Err(unread())
    }
}

/// Prints what an envelope says, and its octets as they are written.
pub fn put_envelope(rt: &HostRuntime, octets: &[u8]) -> io::Result<()> {
    let envelope = envelope_of(octets)?;
    put_fields(rt, envelope)?;
    put_hex(rt, "written", &envelope.to_octets())
}

/// Prints what one datagram carries.
fn put_payload(rt: &HostRuntime, octets: &[u8]) -> io::Result<()> {
    match one_datagram(octets) {
        Ok(frame) => put_hex(rt, "payload", frame.payload()),
        Err(fault) => println!(rt; "  {fault}"),
    }
}

/// Prints what one datagram carries, and how many of the octets' fronts are a datagram too.
pub fn put_datagram(rt: &HostRuntime, octets: &[u8]) -> io::Result<()> {
    put_payload(rt, octets)?;
    let mut count = 0u32;
    for len in 0..octets.len() {
        if one_datagram(&octets[..len]).is_ok() {
            count = count.saturating_add(1);
        }
    }
    println!(rt; "  {count} fronts are datagrams")
}

/// Prints how many octets of the message a datagram carries.
fn put_carried(rt: &HostRuntime, which: &str, payload: &[u8]) -> io::Result<()> {
    println!(rt; "  the {which} carries {} octets", payload.len())
}

/// Prints how many datagrams a reply is cut into, what the first and the last carry, and the last one's envelope.
pub fn put_pieces(rt: &HostRuntime, octets: &[u8]) -> io::Result<()> {
    let count = pieces(octets).count();
    println!(rt; "  {count} datagrams")?;
    let mut number = 0usize;
    for (envelope, payload) in pieces(octets) {
        number = number.saturating_add(1);
        if number == 1 {
            put_carried(rt, "first", payload)?;
        }
        if number == count {
            put_carried(rt, "last", payload)?;
            put_hex(rt, "envelope", &envelope)?;
        }
    }
    Ok(())
}
