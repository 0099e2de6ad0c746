//! Tenants texts.

use crate::octets::{octets_of, put_hex, put_text, unread};
use hdl_auth::algorithm::Algorithm;
use hdl_name::Name;
use hdl_tenants::{TenantFault, Tenants};
use hdl_value::Wire;
use std::io;

/// The faults whose texts are printed; no line brings the last one about.
const FAULTS: [TenantFault; 6] = [
    TenantFault::BadLine,
    TenantFault::TwicePrefix,
    TenantFault::TwicePublisher,
    TenantFault::TwiceSite,
    TenantFault::TooMany,
    TenantFault::Memory,
];

/// Prints the text of each fault of a tenants text.
pub fn put_faults(rt: &HostRuntime) -> io::Result<()> {
    for fault in &FAULTS {
        println!(rt; "  {fault}")?;
    }
    Ok(())
}

/// Prints a publisher, with its lanes.
fn put_publisher(rt: &HostRuntime, tenants: &Tenants, place: usize) -> io::Result<()> {
    match tenants.publisher(place) {
        Some((name, lanes, port)) => println!(rt; "  publisher {name} {lanes} {port}")?,
        None => println!(rt; "  no publisher {place}")?,
    }
    if tenants.wire(place) == Wire::HandleNet {
        println!(rt; "    handle-net")?;
    }
    if let Some(octets) = tenants.site(place) {
        put_hex(rt, "  site", octets)?;
    }
    match tenants.lanes_of(place) {
        Some((first, last)) => println!(rt; "    lanes {first} to {last}"),
        None => println!(rt; "    no lanes"),
    }
}

/// Prints the publishers and the number behind them, and how many lanes there are.
fn put_publishers(rt: &HostRuntime, tenants: &Tenants) -> io::Result<()> {
    println!(rt; "  {} lanes", tenants.lanes())?;
    for place in 0..tenants.publishers() {
        put_publisher(rt, tenants, place)?;
    }
    Ok(())
}

/// Prints whose each lane is, and the one behind the last.
fn put_owners(rt: &HostRuntime, tenants: &Tenants) -> io::Result<()> {
    for lane in 0..=tenants.lanes() {
        match tenants.owner(lane) {
            Some(owner) => println!(rt; "  lane {lane} of publisher {owner}")?,
            None => println!(rt; "  lane {lane} of nobody")?,
        }
    }
    Ok(())
}

/// Prints the values that the table opens with.
fn put_opening(rt: &HostRuntime, tenants: &Tenants) -> io::Result<()> {
    for (name, value) in tenants.opening() {
        put_text(rt, "value of", name.sent())?;
        println!(rt; "    index {}", value.index)?;
        put_hex(rt, "  data", value.bytes.as_slice())?;
    }
    Ok(())
}

/// Prints the hash function of a name's prefix for a publisher, if it is hosted.
fn put_host(rt: &HostRuntime, place: usize, algorithm: Option<Algorithm>) -> io::Result<()> {
    match algorithm {
        Some(algorithm) => println!(rt; "    by publisher {place}, {algorithm:?}"),
        None => Ok(()),
    }
}

/// Prints for which publishers the prefix of a name is hosted.
fn put_hosts(rt: &HostRuntime, tenants: &Tenants, name: &Name) -> io::Result<()> {
    put_text(rt, "prefix of", name.sent())?;
    for place in 0..tenants.publishers() {
        put_host(rt, place, tenants.hosting(place, name))?;
    }
    Ok(())
}

/// Prints what one question asks.
fn put_answer(rt: &HostRuntime, tenants: &Tenants, question: &str) -> io::Result<()> {
    match question {
        "owners" => put_owners(rt, tenants),
        "opening" => put_opening(rt, tenants),
        "beyond" => put_publisher(rt, tenants, tenants.publishers()),
        handle => {
            let octets = octets_of(rt.alloc(), handle)?;
            match Name::read(rt.alloc(), &octets) {
                Ok(name) => put_hosts(rt, tenants, &name),
                Err(_) => Err(unread()),
            }
        }
    }
}

/// Prints what a text says, and what the questions behind it ask.
fn put_read(rt: &HostRuntime, text: &str, questions: &str) -> io::Result<()> {
    match Tenants::read(rt.alloc(), text) {
        Err((line, fault)) => println!(rt; "  line {line}: {fault}"),
        Ok(tenants) => {
            put_publishers(rt, &tenants)?;
            if questions.is_empty() {
                return Ok(());
            }
            for question in questions.split(" | ") {
                put_answer(rt, &tenants, question)?;
            }
            Ok(())
        }
    }
}

/// Prints what `TEXT | QUESTION | ..` says.
pub fn put_tenants(rt: &HostRuntime, rest: &str) -> io::Result<()> {
    let (text, questions) = rest.split_once(" | ").unwrap_or((rest, ""));
    let octets = octets_of(rt.alloc(), text)?;
    match str::from_utf8(&octets) {
        Ok(text) => put_read(rt, text, questions),
        Err(_) => Err(unread()),
    }
}
