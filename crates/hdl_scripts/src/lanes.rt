//! Texts that go through lanes, on one thread, and what each tells:
//!
//! ```text
//! NAME.script   events, each through a lane of one item and `serve`, and whether they tell what NAME.expected has ([`hand`])
//! NAME.lanes    lanes that are filled, served and emptied line by line ([`hand`])
//! NAME.writes   the same over a table with a file beside it, each of whose writes is made behind a line of its own ([`filed`])
//! NAME.doors    workers at doors in memory, whose lanes are served at each of their pauses, and both rings settled ([`doors`])
//! ```
//!
//! What is to be told are the octets of the protocol, computed by another program.

mod beside;
mod doors;
mod filed;
mod hand;
mod later;
mod pair;
mod recorder;
mod rings;
mod server;
mod words;

use crate::opening::{Opening, Refusing};
use crate::table::Table;
use filed::Filed;
use server::without_service;
use std::alloc::Global;
use std::fs;
use std::io::{self, Write};

/// Tells what a script tells.
fn tell_script<O: Opening + Drop>(
    rt: &HostRuntime,
    stem: &str,
    opening: O,
    text: &str,
    told: &mut Vec<u8>,
) -> io::Result<()> {
    let expected = fs::read(rt, format!(in rt.alloc(); "{stem}.expected")?)?;
    let serving = without_service(rt.alloc(), opening);
    hand::compare(rt.alloc(), serving, text, &expected, told)
}

/// Tells what a text of lanes tells.
fn tell_lanes<O: Opening + Drop>(
    alloc: Global,
    opening: O,
    text: &str,
    told: &mut Vec<u8>,
) -> io::Result<()> {
    hand::run(alloc, without_service(alloc, opening), text, told)
}

/// Tells what a text of doors tells.
fn tell_doors<O: Opening + Drop>(
    alloc: Global,
    opening: O,
    text: &str,
    told: &mut Vec<u8>,
) -> io::Result<()> {
    doors::run(alloc, without_service(alloc, opening), text, told)
}

/// Tells what a text tells.
fn tell(rt: &HostRuntime, name: &str, told: &mut Vec<u8>) -> io::Result<()> {
    let alloc = rt.alloc();
    let text = fs::read_to_string(rt, name)?;
    let memory = Refusing {
        alloc,
        table: Table::Memory,
        nth: 0,
    };
    if let Some(stem) = name.strip_suffix(".script") {
        tell_script(rt, stem, memory, text.as_str(), told)
    } else if name.ends_with(".lanes") {
        tell_lanes(alloc, memory, text.as_str(), told)
    } else if name.ends_with(".writes") {
        tell_lanes(alloc, Filed::new(alloc)?, text.as_str(), told)
    } else {
        tell_doors(alloc, memory, text.as_str(), told)
    }
}

/// Prints what rings tell by themselves.
pub fn print_rings(rt: &HostRuntime) -> io::Result<()> {
    let mut told = Vec::new(rt.alloc());
    rings::run(rt.alloc(), &mut told)?;
    rt.stdout().write_all(&told)
}

/// Prints the name of a text, and what it tells.
pub fn print_text(rt: &HostRuntime, name: &str) -> io::Result<()> {
    let mut told = Vec::new(rt.alloc());
    writeln!(told, "{name}")?;
    tell(rt, name, &mut told)?;
    rt.stdout().write_all(&told)
}
