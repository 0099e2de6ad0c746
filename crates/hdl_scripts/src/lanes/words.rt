//! Words of the texts, and of what is printed.

use hdl_events::{Event, Outcome, What};
use hdl_programs::Fault;
use hdl_replay::{events_of, line_of};
use hdl_serve::{EndReason, Item};
use hdl_tenants::decimal;
use std::alloc::Global;
use std::io::{self, Write};

/// A line that says nothing.
pub fn bad() -> io::Error {
    io::Error::from(io::ErrorKind::InvalidData)
}

/// What a fault of a script is here.
pub fn or_other<T>(found: Result<T, Fault>) -> io::Result<T> {
    match found {
        Ok(value) => Ok(value),
        Err(_) => Err(bad()),
    }
}

/// The number that a field spells.
pub fn number(field: &str) -> io::Result<u64> {
    match decimal(field) {
        Some(number) => Ok(number),
        None => Err(bad()),
    }
}

/// The numbers that fields spell.
pub fn numbers(alloc: Global, fields: &str) -> io::Result<Vec<u64>> {
    let mut numbers = Vec::new(alloc);
    for field in fields.split(' ') {
        numbers.push(number(field)?)?;
    }
    Ok(numbers)
}

/// A lane's number, or a peer's.
pub fn short(number: u64) -> io::Result<u16> {
    match u16::try_from(number) {
        Ok(number) => Ok(number),
        Err(_) => Err(bad()),
    }
}

/// A size.
pub fn size(number: u64) -> io::Result<usize> {
    match usize::try_from(number) {
        Ok(size) => Ok(size),
        Err(_) => Err(bad()),
    }
}

/// The octets that hexadecimal digits spell.
pub fn octets(alloc: Global, digits: &str) -> io::Result<Vec<u8>> {
    match hex::decode(alloc, digits) {
        Ok(octets) => Ok(octets),
        Err(_) => Err(bad()),
    }
}

/// The event that a line spells.
pub fn event_of(alloc: Global, line: &str) -> io::Result<Event> {
    match or_other(events_of(alloc, line, 0))?.pop() {
        Some(event) => Ok(event),
        None => Err(bad()),
    }
}

/// Tells an outcome of a lane, as a replay does.
pub fn tell_outcome(
    alloc: Global,
    lane: u16,
    outcome: &Outcome,
    told: &mut Vec<u8>,
) -> io::Result<()> {
    let line = or_other(line_of(alloc, lane, outcome))?;
    told.write_all(line.as_bytes())
}

/// Tells octets behind a word.
pub fn tell_octets(alloc: Global, word: &str, octets: &[u8], told: &mut Vec<u8>) -> io::Result<()> {
    let digits = hex::encode(alloc, octets)?;
    writeln!(told, "  {word} {digits}")
}

/// Tells an item: a frame by the last octet of its request's number.
pub fn tell_item(item: &Item, told: &mut Vec<u8>) -> io::Result<()> {
    match item {
        Item::Event(What::Open) => write!(told, " open"),
        Item::Event(What::Close) => write!(told, " close"),
        Item::Event(What::Bad { session, request }) => write!(told, " bad {session} {request}"),
        Item::Event(What::Frame { bytes, .. }) => match bytes.as_slice().get(11) {
            Some(request) => write!(told, " frame {request}"),
            None => write!(told, " frame"),
        },
        Item::End => write!(told, " end"),
    }
}

/// The word for why a worker ended.
pub fn word_of(why: EndReason) -> &'static str {
    match why {
        EndReason::Turns => "turns",
        EndReason::Device => "device",
    }
}
