//! Serving over TCP and UDP, over a table in memory and over the one in a file.

ghost use Rattle.std.specs.Prelude.{◌≡◌};
ghost use Rattle.hdl_rows.specs.Table.{no_rows};

use crate::descriptors::report_descriptors;
use crate::fault::ProgramFault;
use crate::guarding::TableGuard;
use crate::notices::{TableDescription, report_end, startup_line_of};
use crate::plan::Plan;
use crate::recording::history_of;
use hdl_core::Owing;
use hdl_guardedrows::GuardedRows;
use hdl_host::{FileWatch, Health, ServerConfig, ShutdownFlag, host_resumed, host_tenants};
use hdl_programs::{ExitStatus, Fault};
use hdl_recordedrows::RecordedRows;
use hdl_tables::{Closing, LogNote, TableRunFault};
use std::fs::Files;
use std::net::{Net, TcpListener, TcpStream};
use std::random::RandomSource;
use std::rt::Clock;
use std::sync::Arc;
use std::thread::Threads;

/// Whether the server was asked to end, which is looked at after its end.
pub fn shutdown_of(config: &ServerConfig) -> Result<Arc<ShutdownFlag>, Fault> {
    Ok(Arc::try_clone(&config.monitoring.shutdown)?)
}

/// What is reported of the table, which is looked at after the end.
pub fn health_of(config: &ServerConfig) -> Result<Arc<Health>, Fault> {
    Ok(Arc::try_clone(&config.monitoring.health)?)
}

/// The guard of a table that is served in this setting, and of its file, where it has one.
fn guard_of(
    rt: &HostRuntime,
    config: &ServerConfig,
    file: Option<FileWatch>,
) -> Result<TableGuard, Fault> {
    Ok(TableGuard::new(rt, health_of(config)?, file))
}

/// The table's file as it is now, for who looks at it.
fn watch(rt: &HostRuntime, path: &str) -> Result<Option<FileWatch>, Fault> {
    Ok(Some(FileWatch::new(rt, rt.alloc(), path)?))
}

/// Closes the table's file, unless another program changed it: then nothing more is written there.
fn close_guarded<T: Owing + Closing + Drop>(
    rt: &HostRuntime,
    rows: GuardedRows<T, TableGuard>,
) -> Result<(), TableRunFault> {
    let (table, mut guard) = rows.into_parts();
    if guard.check_file() {
        table.close(rt, LogNote::Served)
    } else {
        Ok(())
    }
}

/// Serves by this plan over an empty table in memory, and answers the exit status.
pub fn serve_memory<
    R: Net<Listener = TcpListener, Stream = TcpStream>
        + Threads
        + Clock
        + RandomSource
        + Files
        + Eprint
        + Copy
        + Send
        + Drop
        + 'static,
    T: Owing + Drop,
    P: Plan,
>(
    machine: &R,
    rt: &HostRuntime,
    rows: T,
    plan: P,
    row_cache: usize,
) -> Result<ExitStatus, ProgramFault>
    requires empty { T.content rows ≡ no_rows }
{
    let limits = plan.config().limits;
    report_descriptors(rt, plan.tenants(), limits);
    let kept = TableDescription::Memory { row_cache };
    let startup_line = startup_line_of(rt, plan.tenants(), kept, limits).map_err(Fault::from)?;
    let mut output = rt.stdout();
    let shutdown = shutdown_of(plan.config())?;
    let health = health_of(plan.config())?;
    let guard = guard_of(rt, plan.config(), None)?;
    let (tenants, mut config) = plan.into_parts();
    config.monitoring.startup_line = startup_line;
    let history = history_of(rt, &mut config)?;
    let rows = GuardedRows::new(rows, guard);
    let rows = RecordedRows::new(rt.alloc(), rows, history);
    host_tenants(machine, rt.alloc(), rows, tenants, config, &mut output)?;
    report_end(rt, &health, shutdown.is_requested());
    Ok(ExitStatus::Success)
}

/// Serves by this plan over the table in the file at this path, and closes it. Answers the exit status.
pub fn serve_table<
    R: Net<Listener = TcpListener, Stream = TcpStream>
        + Threads
        + Clock
        + RandomSource
        + Files
        + Eprint
        + Copy
        + Send
        + Drop
        + 'static,
    T: Owing + Closing + Drop,
    P: Plan,
>(
    machine: &R,
    rt: &HostRuntime,
    table: T,
    plan: P,
    path: &str,
) -> Result<ExitStatus, ProgramFault> {
    let limits = plan.config().limits;
    report_descriptors(rt, plan.tenants(), limits);
    let kept = TableDescription::File {
        path,
        takes_changes: plan.config().takes_changes,
    };
    let startup_line = startup_line_of(rt, plan.tenants(), kept, limits).map_err(Fault::from)?;
    let mut output = rt.stdout();
    let shutdown = shutdown_of(plan.config())?;
    let health = health_of(plan.config())?;
    let guard = guard_of(rt, plan.config(), watch(rt, path)?)?;
    let (tenants, mut config) = plan.into_parts();
    config.monitoring.startup_line = startup_line;
    config.monitoring.file = watch(rt, path)?;
    let history = history_of(rt, &mut config)?;
    let rows = GuardedRows::new(table, guard);
    let rows = RecordedRows::new(rt.alloc(), rows, history);
    let rows = host_resumed(machine, rt.alloc(), rows, tenants, config, &mut output)?;
    close_guarded(rt, rows.into_inner())?;
    report_end(rt, &health, shutdown.is_requested());
    Ok(ExitStatus::Success)
}
