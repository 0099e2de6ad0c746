//! Prints what octets mean: a line of standard input is a word that says what to read octets as, and then the octets. Each line is
//! printed as it came, and below it, two spaces in, what it means. `stdout` has what is wanted, from outside: by the protocol, by the
//! vectors of a standard, by another program. Empty lines and those that begin with `#` are printed and mean nothing: they say what the
//! next lines are for, and `# NAME: WHAT` begins a group of them.
//!
//! Octets are written in groups, with a space between two: `00ff` in hex, `00ff*3` the same three times, `"10/a"` a text, in
//! which `\n`, `\r` and `\t` stand for their octets. `|` with a space at each side stands between the parts of a line.
//!
//! ```text
//! name OCTETS        the parts of a name                       is-name OCTETS    whether they are one, or the fault
//! name-faults        the text of each fault of a name          octets OCTETS     octets that are kept, and given back
//! digest OCTETS      by each hash function                     mac KEY | NONCE | REQUEST    the keyed digests
//! check KEY | NONCE | REQUEST | RESPONSE                       what the response is, by each hash function
//! stream STEP | ..   a cutter that is fed octets, or is asked for the `next` frame
//! envelope OCTETS    what an envelope says                     frame-memory-fault    the text of the fault that no octets have
//! datagram OCTETS    what a datagram carries                   pieces OCTETS     what the datagrams of a reply carry
//! value OCTETS       all of a value, by its copy               is-value OCTETS   how long it is, or its fault
//! cut OCTETS         a value by layout alone                   masks OCTETS      two masks, united
//! line OCTETS        a line of a value, read and written       short-replies OCTETS   the answers to an envelope without a decision
//! request OCTETS     what a message asks, and the message as it is written
//! reply OCTETS       what the message of a frame answers, and the frame as it is written
//! handle-net-value OCTETS, handle-net-cut, handle-net-request, handle-net-reply   the same by the layout of the Handle.Net
//!                    software: a value of the profile's layout as it is written there; and `octets` and `value` are the profile's
//! tenants TEXT | QUESTION | ..   the publishers of a text; a question is `owners` of the lanes, the publisher `beyond` the last, the
//!                    `opening` values, or a handle, whose prefix is hosted for some
//! tenant-faults      the text of each fault of a tenants text
//! pool STEP | ..     what becomes of pieces: piece LANE PEER REQUEST NUMBER LENGTH, the piece of this number of a message of so many
//!                    octets, or other .. of another message; free LANE PEER REQUEST, free LANE for all of a lane
//! slots STEP | ..    challenges: put LANE PEER MOMENT, find and take LANE PEER NUMBER, next LANE, drop LANE
//! ```
#![tactic(auto)]

mod digests;
mod frames;
mod lines;
mod names;
mod octets;
mod pool;
mod replies;
mod requests;
mod slots;
mod tenants;
mod values;

use hdl_value::Wire;
use octets::{octets_of, unread};
use std::io;

/// Prints what octets mean in the layout of the Handle.Net software.
fn put_handle_net(rt: &HostRuntime, word: &str, octets: &[u8]) -> io::Result<()> {
    match word {
        "handle-net-value" => values::put_handle_net(rt, octets),
        "handle-net-cut" => values::put_cut(rt, Wire::HandleNet, octets),
        "handle-net-request" => requests::put_request(rt, Wire::HandleNet, octets),
        "handle-net-reply" => replies::put_reply(rt, Wire::HandleNet, octets),
        _ => Err(unread()),
    }
}

/// Prints what a message, or a line of a value, means.
fn put_message(rt: &HostRuntime, word: &str, octets: &[u8]) -> io::Result<()> {
    match word {
        "line" => lines::put_value_line(rt, octets),
        "request" => requests::put_request(rt, Wire::Profile, octets),
        "reply" => replies::put_reply(rt, Wire::Profile, octets),
        "short-replies" => replies::put_short_replies(rt, octets),
        _ => put_handle_net(rt, word, octets),
    }
}

/// Prints what octets mean by a word.
fn put_octets(rt: &HostRuntime, word: &str, octets: &[u8]) -> io::Result<()> {
    match word {
        "name" => names::put_name(rt, octets),
        "is-name" => names::put_whether_name(rt, octets),
        "octets" => names::put_kept(rt, octets),
        "digest" => digests::put_digests(rt, octets),
        "envelope" => frames::put_envelope(rt, octets),
        "datagram" => frames::put_datagram(rt, octets),
        "pieces" => frames::put_pieces(rt, octets),
        "value" => values::put_whole(rt, octets),
        "is-value" => values::put_whether_value(rt, octets),
        "cut" => values::put_cut(rt, Wire::Profile, octets),
        "masks" => values::put_masks(rt, octets),
        _ => put_message(rt, word, octets),
    }
}

/// Prints what the octets before the first `|` mean with what stands behind it.
fn put_parts(rt: &HostRuntime, word: &str, parts: &str) -> io::Result<()> {
    let (first, rest) = parts.split_once(" | ").unwrap_or((parts, ""));
    let octets = octets_of(rt.alloc(), first)?;
    match word {
        "mac" => digests::put_mac(rt, &octets, rest),
        "check" => digests::put_check(rt, &octets, rest),
        _ => put_octets(rt, word, &octets),
    }
}

/// Prints what a line means.
fn put_meaning(rt: &HostRuntime, word: &str, rest: &str) -> io::Result<()> {
    match word {
        "name-faults" => names::put_faults(rt),
        "frame-memory-fault" => frames::put_memory_fault(rt),
        "tenant-faults" => tenants::put_faults(rt),
        "stream" => frames::put_stream(rt, rest),
        "tenants" => tenants::put_tenants(rt, rest),
        "pool" => pool::put_pool(rt, rest),
        "slots" => slots::put_slots(rt, rest),
        _ => put_parts(rt, word, rest),
    }
}

/// Prints a line, and what it means.
fn put_line(rt: &HostRuntime, line: &str) -> io::Result<()> {
    println!(rt; "{line}")?;
    if line.is_empty() || line.starts_with('#') {
        return Ok(());
    }
    let (word, rest) = line.split_once(' ').unwrap_or((line, ""));
    match put_meaning(rt, word, rest) {
        Err(fault) if fault.kind() == io::ErrorKind::InvalidData => {
            println!(rt; "  not a word, step, number or octets that the head of src/main.rt names")
        }
        told => told,
    }
}

fn main(rt: HostRuntime) -> io::Result<()> {
    let text = io::read_to_string(rt.alloc(), rt.stdin())?;
    for line in text.lines() {
        put_line(&rt, line)?;
    }
    Ok(())
}
