//! One run of a script.

ghost use Rattle.std.specs.Prelude.{◌≡◌, ◌≢◌, IfErr};
ghost use Rattle.std.specs.Io.KnownBytes.{Keeps};
ghost use Rattle.hdl_rows.specs.Table.{no_rows};

use crate::script::{events_of, parts_of};
use hdl_core::{OpenFault, Owing, Service, Tenants};
use hdl_events::{Event, Outcome};
use hdl_programs::{ExitStatus, Fault, put_all, read_input, tenants_of};
use std::alloc::Global;
use std::io::{Read, Write};

/// The line that tells octets.
fn octets_line(alloc: Global, lane: u16, word: &str, octets: &[u8]) -> Result<String, Fault> {
    let digits = hex::encode(alloc, octets)?;
    Ok(format!(in alloc; "{lane} {word} {digits}\n")?)
}

/// The line that tells one outcome.
pub fn line_of(alloc: Global, lane: u16, outcome: &Outcome) -> Result<String, Fault> {
    match outcome {
        Outcome::Reply(octets) => octets_line(alloc, lane, "reply", octets.as_slice()),
        Outcome::Busy(octets) => octets_line(alloc, lane, "busy", octets.as_slice()),
        Outcome::Silent => Ok(format!(in alloc; "{lane} silent\n")?),
        Outcome::CloseAfter(octets) => octets_line(alloc, lane, "close", octets.as_slice()),
    }
}

/// The lines of all outcomes, as one text.
fn lines_of(alloc: Global, lanes: &[u16], outcomes: &[Outcome]) -> Result<String, Fault> {
    let mut text = String::new(alloc);
    for (lane, outcome) in lanes.iter().zip(outcomes) {
        let line = line_of(alloc, *lane, outcome)?;
        text.push_str(line.as_str())?;
    }
    Ok(text)
}

/// The lane of each event.
fn lanes_of(alloc: Global, events: &[Event]) -> Result<Vec<u16>, Fault> {
    let mut lanes = Vec::with_capacity(alloc, events.len())?;
    for event in events {
        lanes.push(event.lane)?;
    }
    Ok(lanes)
}

/// Why no service was opened, as the fault of a run.
fn opening_fault(fault: OpenFault) -> Fault {
    match fault {
        OpenFault::Memory => Fault::NoMemory,
        OpenFault::Store => Fault::StoreRefused,
    }
}

/// The outcomes of the events.
fn run_events<R: Owing + Drop>(
    service: &mut Service<R>,
    events: Vec<Event>,
) -> Result<Vec<Outcome>, Fault> {
    match service.run(events) {
        Ok(outcomes) => Ok(outcomes),
        Err(_) => Err(Fault::NoMemory),
    }
}

/// The outcomes of the events, over an empty table.
fn outcomes_of<R: Owing + Drop>(
    alloc: Global,
    rows: R,
    tenants: Tenants,
    events: Vec<Event>,
) -> Result<Vec<Outcome>, Fault>
    requires empty { R.content rows ≡ no_rows }
{
    match Service::open(alloc, tenants, rows) {
        Ok(mut service) => run_events(&mut service, events),
        Err(fault) => Err(opening_fault(fault)),
    }
}

/// The lines of the events' outcomes, over an empty table.
fn lines_of_run<R: Owing + Drop>(
    alloc: Global,
    rows: R,
    tenants: Tenants,
    events: Vec<Event>,
) -> Result<String, Fault>
    requires empty { R.content rows ≡ no_rows }
{
    let lanes = lanes_of(alloc, events.as_slice())?;
    let outcomes = outcomes_of(alloc, rows, tenants, events)?;
    lines_of(alloc, lanes.as_slice(), outcomes.as_slice())
}

/// The outcomes of the events, over a table that is there already, and the table after them.
fn outcomes_of_resumed<R: Owing + Drop>(
    alloc: Global,
    rows: R,
    tenants: Tenants,
    events: Vec<Event>,
) -> Result<(Vec<Outcome>, R), Fault> {
    let mut service = match Service::resume(alloc, tenants, rows) {
        Ok(service) => service,
        Err(fault) => return Err(opening_fault(fault)),
    };
    let outcomes = run_events(&mut service, events)?;
    Ok((outcomes, service.into_rows()))
}

/// The lines of the events' outcomes, over a table that is there already, and the table after them.
pub fn lines_of_resumed<R: Owing + Drop>(
    alloc: Global,
    rows: R,
    tenants: Tenants,
    events: Vec<Event>,
) -> Result<(String, R), Fault> {
    let lanes = lanes_of(alloc, events.as_slice())?;
    let (outcomes, rows) = outcomes_of_resumed(alloc, rows, tenants, events)?;
    let text = lines_of(alloc, lanes.as_slice(), outcomes.as_slice())?;
    Ok((text, rows))
}

/// What a script prints, over an empty table.
fn output_of<R: Owing + Drop>(alloc: Global, rows: R, text: &[u8]) -> Result<String, Fault>
    requires empty { R.content rows ≡ no_rows }
{
    let Ok(text) = str::from_utf8(text) else {
        return Err(Fault::InputNotUtf8);
    };
    let parts = parts_of(text);
    let tenants = tenants_of(alloc, parts.tenants)?;
    let events = events_of(alloc, parts.script, parts.run_line)?;
    lines_of_run(alloc, rows, tenants, events)
}

/// Runs the script on the input over an empty table, and writes the outcomes to the output. After any fault but that of a
/// device nothing is written.
pub fn try_replay<R: Owing + Drop, I: Read, O: Write>(
    alloc: Global,
    rows: R,
    input: &mut I,
    output: &mut O,
) -> Result<(), Fault>
    requires empty { R.content rows ≡ no_rows }
    ensures silent { IfErr result (λ e. e ≢ Fault.Device → Keeps (O.contents output.old) (O.contents output.new)) }
{
    let text = read_input(alloc, input)?;
    let lines = output_of(alloc, rows, text.as_slice())?;
    put_all(output, lines.as_bytes())
}

/// Runs the script as [`try_replay`] does, and writes a fault line to the faults.
/// Answers the exit status. A fault line that can't be written changes no status.
pub fn replay<R: Owing + Drop, I: Read, O: Write, F: Write>(
    alloc: Global,
    rows: R,
    input: &mut I,
    output: &mut O,
    faults: &mut F,
) -> u8
    requires empty { R.content rows ≡ no_rows }
{
    match try_replay(alloc, rows, input, output) {
        Ok(()) => ExitStatus::Success.number(),
        Err(fault) => {
            let _ = writeln!(faults, "{fault}");
            fault.status().number()
        }
    }
}
