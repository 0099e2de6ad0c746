//! Scripts, over a table in memory and over the one in a file.

ghost use Rattle.std.specs.Prelude.{◌≡◌, IfOk};
ghost use Rattle.hdl_rows.specs.Table.{no_rows};

use hdl_boundedrows::BoundedRows;
use hdl_core::{Owing, Tenants};
use hdl_events::Event;
use hdl_host::Notices;
use hdl_programs::{ExitStatus, Fault, put_all, tenants_of};
use hdl_replay::{events_of, lines_of_resumed, parts_of, replay};
use hdl_tables::{Closing, FileWork, LogNote, TableRunFault};
use std::sync::Arc;

/// A table without bounds, in the type of a served table, which has its publishers' bounds.
fn without_bounds<T: Owing + Drop>(
    rt: &HostRuntime,
    rows: T,
) -> Result<BoundedRows<T, Notices>, Fault>
    ensures { IfOk result (λ bounded. bounded.table ≡ T.content rows) }
{
    let alloc = rt.alloc();
    let notices = Notices::new(Arc::new(alloc, Vec::new(alloc))?);
    match BoundedRows::new(alloc, rows, Vec::new(alloc), notices) {
        Ok(rows) => Ok(rows),
        Err(_) => Err(Fault::StoreRefused),
    }
}

/// Runs the script on standard input over an empty table, and answers the number of the exit status.
fn replay_script<T: Owing + Drop>(rt: &HostRuntime, rows: T) -> Result<u8, Fault>
    requires empty { T.content rows ≡ no_rows }
{
    let rows = without_bounds(rt, rows)?;
    let mut input = rt.stdin();
    let mut output = rt.stdout();
    let mut faults = rt.stderr();
    Ok(replay(rt.alloc(), rows, &mut input, &mut output, &mut faults))
}

/// The exit status of a replay that has this number.
fn status_of(number: u8) -> ExitStatus {
    if number == ExitStatus::Success.number() {
        ExitStatus::Success
    } else if number == ExitStatus::Tenants.number() {
        ExitStatus::Tenants
    } else {
        ExitStatus::Failure
    }
}

/// Runs the script on standard input over an empty table, and answers the exit status.
pub fn replay_input<T: Owing + Drop>(rt: &HostRuntime, rows: T) -> Result<ExitStatus, Fault>
    requires empty { T.content rows ≡ no_rows }
{
    Ok(status_of(replay_script(rt, rows)?))
}

/// A script that was read.
#[derive(Drop)]
pub struct ReadScript {
    tenants: Tenants,
    events: Vec<Event>,
}

impl ReadScript {
    /// The tenants and events of this text.
    pub fn of_text(rt: &HostRuntime, text: &str) -> Result<ReadScript, Fault> {
        let parts = parts_of(text);
        Ok(ReadScript {
            tenants: tenants_of(rt.alloc(), parts.tenants)?,
            events: events_of(rt.alloc(), parts.script, parts.run_line)?,
        })
    }
}

impl FileWork for ReadScript {
    fn tenants(&self) -> &Tenants {
        &self.tenants
    }

    /// Runs the events, and prints the outcomes.
    fn run<T: Owing + Closing + Drop>(
        self,
        rt: &HostRuntime,
        table: T,
    ) -> Result<ExitStatus, TableRunFault> {
        let ReadScript { tenants, events } = self;
        let rows = without_bounds(rt, table)?;
        let (lines, rows) = lines_of_resumed(rt.alloc(), rows, tenants, events)?;
        put_all(&mut rt.stdout(), lines.as_bytes())?;
        rows.into_rows().close(rt, LogNote::Kept)?;
        Ok(ExitStatus::Success)
    }
}
