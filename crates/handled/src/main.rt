//! The program `handled`: replays a script, or serves over TCP and UDP.
//!
//! `handled` and `handled replay` are [`hdl_replay::replay`], handed the standard streams and a table in SQL, in memory.
//! `handled serve` is [`hdl_host::host_tenants`], handed the tenants text on standard input, or in a file, and such a table, whose handles are kept where they
//! were read last (hdl_cachedrows). `handled check` says what such a text has, or all of its faults (hdl_tenants_check), `handled export` writes a table as such a text (hdl_export), `handled copy` and
//! `handled restore` copy its file while it is served and put a copy back. With `--table FILE` both go on over the table in that file (hdl_durablerows). What is printed, the fault lines and the exit statuses are those of docs/PROTOCOL.md, "The tenants
//! text and scripts". The command line is hdl_server_options, and what opens, copies and exports tables hdl_tables.
#![tactic(auto)]

mod bounds;
mod checking;
mod descriptors;
mod exporting;
mod fault;
mod guarding;
mod monitoring;
mod notices;
mod opening;
mod plan;
mod ports;
mod recording;
mod replaying;
mod serving;
mod sharing;
mod texts;

use checking::{check_ports, check_text};
use exporting::export_table;
use fault::ProgramFault;
use hdl_cachedrows::LIMIT_DEFAULT;
use hdl_host::{Health, ServerConfig};
use hdl_programs::{ExitStatus, Fault};
use hdl_server_options::{
    BoundOption, ClusterOptions, Invocation, ServeOptions, TableFile, read_options,
};
use hdl_tables::{FileWork, TableRunFault, copy_table, empty_table, restore_table, run_over_file};
use monitoring::{is_one_file, reopen, report_log_conflict, stop};
use notices::TableNotices;
use opening::{open_plan_table, table_path};
use plan::{Plan, PlanResult, config_of, plan_of};
use replaying::{ReadScript, replay_input};
use serving::{serve_memory, serve_table};
use sharing::serve_cluster;
use std::fs::Files;
use std::net::{IpAddr, Net, TcpListener, TcpStream};
use std::process::ExitCode;
use std::random::RandomSource;
use std::rt::Clock;
use std::sync::Arc;
use std::thread::{self, Threads};
use texts::{read_text, report_reading, text_of};

/// Runs the script on standard input over a table in memory, and answers the exit status.
fn replay_memory<R: Threads + Drop>(rt: &HostRuntime) -> Result<ExitStatus, ProgramFault> {
    report_reading(rt);
    let rows = empty_table::<R, TableNotices>(rt, 0)?;
    Ok(replay_input(rt, rows)?)
}

/// Serves by this plan over the table in the file, and answers the exit status.
fn serve_file<
    R: Net<Listener = TcpListener, Stream = TcpStream>
        + Threads
        + Clock
        + RandomSource
        + Files
        + Eprint
        + Copy
        + Send
        + Drop
        + 'static,
    P: Plan,
>(machine: &R, rt: &HostRuntime, file: &TableFile, plan: P) -> Result<ExitStatus, ProgramFault> {
    let table = open_plan_table(machine, rt, file, &plan)?;
    serve_table(machine, rt, table, plan, file.path.as_str())
}

/// Where the table of a server is.
#[derive(Drop)]
enum TableLocation {
    Memory { row_cache: usize },
    File(TableFile),
    Cluster(ClusterOptions),
}

/// Where these options keep the table. Nobody gives both.
fn table_location(
    table: Option<TableFile>,
    cluster: Option<ClusterOptions>,
    row_cache: Option<usize>,
) -> TableLocation {
    match (table, cluster) {
        (Some(file), _) => TableLocation::File(file),
        (None, Some(cluster)) => TableLocation::Cluster(cluster),
        (None, None) => TableLocation::Memory {
            row_cache: row_cache.unwrap_or(LIMIT_DEFAULT),
        },
    }
}

/// Serves by this plan over the table that is kept so. Answers the exit status.
fn serve_plan<
    R: Net<Listener = TcpListener, Stream = TcpStream>
        + Threads
        + Clock
        + RandomSource
        + Files
        + Eprint
        + Copy
        + Send
        + Drop
        + 'static,
    P: Plan,
>(machine: &R, rt: &HostRuntime, plan: P, kept: TableLocation) -> Result<ExitStatus, ProgramFault> {
    match kept {
        TableLocation::Memory { row_cache } => {
            let rows = empty_table::<R, TableNotices>(rt, row_cache)?;
            serve_memory(machine, rt, rows, plan, row_cache)
        }
        TableLocation::File(file) => serve_file(machine, rt, &file, plan),
        TableLocation::Cluster(cluster) => serve_cluster(machine, rt, cluster, plan),
    }
}

/// The plan of the text in the file at a path, if one is given, or on standard input. The text is let go once it was read.
fn plan_in(
    rt: &HostRuntime,
    path: Option<String>,
    config: ServerConfig,
    bounds: Vec<BoundOption>,
) -> Result<PlanResult, Fault> {
    let text = text_of(rt, path)?;
    plan_of(rt, text.as_str(), config, bounds)
}

/// Serves the tenants of a text, and answers the exit status.
fn serve<
    R: Net<Listener = TcpListener, Stream = TcpStream>
        + Threads
        + Clock
        + RandomSource
        + Files
        + Eprint
        + Copy
        + Send
        + Drop
        + 'static,
>(machine: &R, rt: &HostRuntime, options: ServeOptions) -> Result<ExitStatus, ProgramFault> {
    let ServeOptions {
        text,
        addresses,
        limits,
        monitoring,
        bounds,
        takes_changes,
        row_cache,
        table,
        cluster,
    } = options;
    let config = config_of(rt, addresses, limits, takes_changes, monitoring)?;
    let kept = table_location(table, cluster, row_cache);
    match plan_in(rt, text, config, bounds)? {
        PlanResult::Plan(plan) => serve_plan(machine, rt, plan, kept),
        PlanResult::Refused(status) => Ok(status),
    }
}

/// What is reported of a table that no server has open.
fn health_of(rt: &HostRuntime) -> Result<Arc<Health>, Fault> {
    Ok(Arc::new(rt.alloc(), Health::new(rt.alloc(), 0)?)?)
}

/// Does this over the table in the file, which no server has open.
fn over_unserved<R: Threads + Drop, W: FileWork>(
    machine: R,
    rt: &HostRuntime,
    file: &TableFile,
    work: W,
) -> Result<ExitStatus, TableRunFault> {
    let health = health_of(rt)?;
    let notices = TableNotices::new(rt, Arc::try_clone(&health).map_err(Fault::from)?);
    let done = run_over_file(machine, rt, table_path(file), notices, work);
    health.print_due(rt);
    done
}

/// Runs the script on standard input over the table in the file, and answers the exit status.
fn replay_file<R: Threads + Drop>(
    machine: R,
    rt: &HostRuntime,
    file: &TableFile,
) -> Result<ExitStatus, ProgramFault> {
    let text = read_text(rt)?;
    let script = ReadScript::of_text(rt, text.as_str())?;
    Ok(over_unserved(machine, rt, file, script)?)
}

/// Says what a text has, or all of its faults, and which of its ports are taken. Answers the exit status.
fn check_input(
    rt: &HostRuntime,
    path: Option<String>,
    addresses: &[IpAddr],
) -> Result<ExitStatus, ProgramFault> {
    let text = text_of(rt, path)?;
    match check_text(rt, text.as_str())? {
        ExitStatus::Success => Ok(check_ports(rt, text.as_str(), addresses)?),
        status => Ok(status),
    }
}

/// Copies the table's file, and answers the exit status.
fn copy_file(rt: &HostRuntime, from: &str, to: &str) -> Result<ExitStatus, ProgramFault> {
    copy_table(rt, from, to)?;
    Ok(ExitStatus::Success)
}

/// Puts a copy in the place of the table's file, and answers the exit status.
fn restore_file(rt: &HostRuntime, from: &str, table: &str) -> Result<ExitStatus, ProgramFault> {
    if is_one_file(rt, from, table) {
        let _ = eprintln!(rt;
            "restore: --from and --table name one file: name the copy, and the table's file"
        );
        return Ok(ExitStatus::Arguments);
    }
    restore_table(rt, from, table)?;
    Ok(ExitStatus::Success)
}

/// Whether a thread can be started.
fn has_thread<R: Threads>(machine: &R) -> bool {
    match thread::spawn(machine, || {}) {
        Ok(thread) => {
            thread.join(machine);
            true
        }
        Err(_) => false,
    }
}

/// Says on standard error what to do about a faulty tenants text, or a machine that lacks threads. The fault line is the last one.
fn with_advice<R: Threads>(machine: &R, rt: &HostRuntime, fault: ProgramFault) -> ProgramFault {
    if fault.is_tenants_fault() {
        let _ = eprintln!(rt;
            "the tenants text is refused: `handled check < TEXT` says what is wrong in each line, and what to do"
        );
    }
    if fault.is_not_utf8() {
        let _ = eprintln!(rt;
            "the tenants text isn't UTF-8: save it as UTF-8, without a byte order mark"
        );
    }
    if fault.is_device_fault() && !has_thread(machine) {
        let _ = eprintln!(rt;
            "threads can't be started, and each lane needs one: raise TasksMax of the service, or `ulimit -u`"
        );
    }
    fault
}

/// Serves the tenants of a text, unless the log would be written into a file that the server reads. Answers the exit status.
fn serve_checked<
    R: Net<Listener = TcpListener, Stream = TcpStream>
        + Threads
        + Clock
        + RandomSource
        + Files
        + Eprint
        + Copy
        + Send
        + Drop
        + 'static,
>(machine: &R, rt: &HostRuntime, options: ServeOptions) -> Result<ExitStatus, ProgramFault> {
    if report_log_conflict(rt, &options) {
        return Ok(ExitStatus::Arguments);
    }
    serve(machine, rt, options)
}

/// Does what the command line asks for, and answers the exit status.
fn run<
    R: Net<Listener = TcpListener, Stream = TcpStream>
        + Threads
        + Clock
        + RandomSource
        + Files
        + Eprint
        + Copy
        + Send
        + Drop
        + 'static,
>(machine: &R, rt: &HostRuntime) -> Result<ExitStatus, ProgramFault> {
    match read_options(rt)? {
        Invocation::Ended(status) => Ok(status),
        Invocation::Check { text, addresses } => {
            match check_input(rt, text, addresses.as_slice()) {
                Err(fault) => Err(with_advice(machine, rt, fault)),
                ended => ended,
            }
        }
        Invocation::Export(options) => match export_table(machine, rt, options) {
            Err(fault) => Err(with_advice(machine, rt, fault)),
            ended => ended,
        },
        Invocation::Replay { table: None } => replay_memory::<R>(rt),
        Invocation::Replay { table: Some(file) } => replay_file(*machine, rt, &file),
        Invocation::Copy { from, to } => copy_file(rt, from.as_str(), to.as_str()),
        Invocation::Restore { from, table } => restore_file(rt, from.as_str(), table.as_str()),
        Invocation::Stop { control } => Ok(stop(rt, control.as_str())),
        Invocation::Reopen { control } => Ok(reopen(rt, control.as_str())),
        Invocation::Serve(options) => match serve_checked(machine, rt, options) {
            Err(fault) => Err(with_advice(machine, rt, fault)),
            ended => ended,
        },
    }
}

fn main(rt: HostRuntime) -> ExitCode {
    match run(&rt, &rt) {
        Ok(status) => ExitCode::from(status),
        Err(fault) => {
            let _ = eprintln!(rt; "{fault}");
            ExitCode::from(fault.status())
        }
    }
}
