//! Runs scripts and texts of `data/` in ways that no run of `handled` has. `tools/scripts.py` runs each script whole, over both tables.
//!
//! Each line of standard input says what to run. `memory NAME` and `sql NAME`: the script `NAME.script` event by event over one of the tables, in memory
//! or in SQL, each event a run of its own; what is answered Busy or
//! comes back is sent once more, with its octets as they were, before the next event. `memory-calls NAME` and `sql-calls NAME`: the same
//! again and again, with another call of the table refused each time, until a whole row meets none. A line is printed for each: `: as expected`, if
//! the script told what `NAME.expected` has, or the first event that told something else. All that takes memory is tried
//! twice here, the reading of the script too, so what is printed is the same whichever one request for memory is refused:
//! `tools/refuse-memory` refuses each in turn. On standard error stands what a refusal came to: `busy`, `early`, or the fault of an opening.
//!
//! `lane NAME.script`: one script event by event through a lane and `serve`. `lanes`: rings by themselves, and each text of the folder that goes
//! through lanes, in the order of the names ([`lanes`]). What they tell is printed. A text that isn't one ends the run.
//!
//! Scripts are data and not tests, since a test is proved: here a few functions are, however many scripts there are.
#![tactic(auto)]

mod lanes;
mod opening;
mod play;
mod row;
mod table;

use lanes::{print_rings, print_text};
use opening::Refusing;
use play::{PlayResult, each_call, play};
use row::row_of;
use std::io::Read;
use std::process::ExitCode;
use std::{fs, io};
use table::Table;

/// The most octets of standard input, which take no memory.
const ROOM: usize = 4096;

/// The names of the files in the folder that have one of these endings, in order.
fn files(rt: &HostRuntime, endings: &[&str]) -> io::Result<Vec<String>> {
    let mut names = Vec::new(rt.alloc());
    for entry in fs::read_dir(rt, ".")? {
        let entry = entry?;
        let name = entry.file_name();
        if endings.iter().any(|ending| name.ends_with(*ending)) {
            names.push(String::from_str(rt.alloc(), name)?)?;
        }
    }
    names.sort()?;
    Ok(names)
}

/// A row played over such a table, or with each call of the table refused in turn.
fn played_over(
    rt: &HostRuntime,
    name: &str,
    table: Table,
    is_each_call: bool,
) -> Option<PlayResult> {
    let Some(row) = row_of(rt, name) else {
        return None;
    };
    let opening = Refusing {
        alloc: rt.alloc(),
        table,
        nth: 0,
    };
    Some(if is_each_call {
        each_call(rt, &row, table)
    } else {
        play(rt, &row, &opening)
    })
}

/// Plays a row in the way that the word says. None: there's no such way.
fn played_as(rt: &HostRuntime, way: &str, name: &str) -> Option<PlayResult> {
    match way {
        "memory" => played_over(rt, name, Table::Memory, false),
        "sql" => played_over(rt, name, Table::Sql, false),
        "memory-calls" => played_over(rt, name, Table::Memory, true),
        "sql-calls" => played_over(rt, name, Table::Sql, true),
        _ => None,
    }
}

/// Plays what the line names, and prints whether each event came to its outcome.
fn print_play(rt: &HostRuntime, line: &str) -> io::Result<bool> {
    let played = match line.split_once(' ') {
        Some((way, name)) => played_as(rt, way, name),
        None => None,
    };
    match played {
        Some(PlayResult::Right { refusals: 0 | 1 }) => println!(rt; "{line}: as expected")?,
        Some(PlayResult::Right { refusals }) => println!(rt; "{line}: refused {refusals} times")?,
        Some(PlayResult::Wrong { event }) => println!(rt;
            "{line}: event {event} came to another outcome"
        )?,
        Some(PlayResult::Unopened) => println!(rt; "{line}: not opened")?,
        None => println!(rt; "{line}: no such row")?,
    }
    Ok(matches!(played, Some(PlayResult::Right { refusals: 0 | 1 })))
}

/// Fills the room with standard input, and tells how many octets there were.
fn read_all(rt: &HostRuntime, room: &mut [u8]) -> io::Result<usize> {
    let mut input = rt.stdin();
    let mut count = 0usize;
    // each read but the last gives an octet at least
    for _ in 0..=ROOM {
        let Some(rest) = room.get_mut(count..) else {
            break;
        };
        let more = input.read(rest)?;
        if more == 0 {
            break;
        }
        count = count.saturating_add(more);
    }
    Ok(count)
}

/// Prints what rings tell, and each text of the folder that goes through lanes.
fn print_lanes(rt: &HostRuntime) -> io::Result<()> {
    print_rings(rt)?;
    for file in &files(rt, &[".lanes", ".writes", ".doors"])? {
        print_text(rt, file.as_str())?;
    }
    Ok(())
}

/// Runs what a line of standard input says, and tells whether all came as expected. What goes through lanes is compared by who reads it.
fn run_line(rt: &HostRuntime, line: &str) -> io::Result<bool> {
    match line.split_once(' ') {
        None if line == "lanes" => {
            print_lanes(rt)?;
            Ok(true)
        }
        Some(("lane", name)) => {
            print_text(rt, name)?;
            Ok(true)
        }
        _ => print_play(rt, line),
    }
}

fn main(rt: HostRuntime) -> io::Result<ExitCode> {
    let mut room = [0u8; ROOM];
    let count = read_all(&rt, &mut room)?;
    let Ok(text) = str::from_utf8(room.get(..count).unwrap_or(&[])) else {
        return Err(io::Error::from(io::ErrorKind::InvalidData));
    };
    let mut all = true;
    for line in text.lines() {
        all &= run_line(&rt, line)?;
    }
    Ok(if all {
        ExitCode::SUCCESS
    } else {
        ExitCode::FAILURE
    })
}
