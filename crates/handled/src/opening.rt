//! Opening the table in a file that is served.

use crate::fault::ProgramFault;
use crate::notices::TableNotices;
use crate::plan::Plan;
use crate::ports::{try_control_socket, try_listeners};
use hdl_core::Tenants;
use hdl_durablerows::TableFault;
use hdl_host::{HostFault, ServerConfig};
use hdl_server_options::TableFile;
use hdl_tables::{
    Closing, LogNote, LogState, Table, TablePath, TableRunFault, is_new, log_state, missing_fault,
    open_served,
};
use std::net::{Net, TcpListener, TcpStream};
use std::sync::Arc;
use std::thread::Threads;

/// Whether each socket of a server can be had, if the file of its table is new: a start that fails at one leaves no new file.
fn try_sockets(
    rt: &HostRuntime,
    file: &TableFile,
    tenants: &Tenants,
    config: &ServerConfig,
) -> Result<(), HostFault> {
    if is_new(rt, file.path.as_str()) {
        let addresses = config.addresses.as_slice();
        try_listeners(rt, rt.alloc(), tenants, addresses, config.monitoring.status)?;
        try_control_socket(rt, &config.monitoring.control)?;
    }
    Ok(())
}

/// Where the file of the table is, and how it is opened.
pub fn table_path(file: &TableFile) -> TablePath<'_> {
    TablePath {
        path: file.path.as_str(),
        has_sums: file.has_sums,
        accepts_loss: file.accepts_loss,
    }
}

/// What is informed of the table's file in this setting, whose status page shows it.
fn notices_of(rt: &HostRuntime, config: &ServerConfig) -> Result<TableNotices, TableFault> {
    let health = Arc::try_clone(&config.monitoring.health)?;
    Ok(TableNotices::new(rt, health))
}

/// The table in the file, as it is found there.
fn open_once<R: Threads + Drop, P: Plan>(
    machine: R,
    rt: &HostRuntime,
    file: &TableFile,
    plan: &P,
) -> Result<Table<R, TableNotices>, ProgramFault> {
    let notices = notices_of(rt, plan.config())?;
    let table_path = table_path(file);
    Ok(open_served(machine, rt, table_path, plan.tenants(), notices, true)?)
}

/// Says that the file has no note of its log.
fn report_missing_note(rt: &HostRuntime) {
    let _ = eprintln!(rt;
        "table: the file has no note of its log, as earlier versions left it: this start can't tell whether one is missing, and later ones can"
    );
}

/// Says that there was no file at the path, so that an empty table in the place of a lost one is noticed.
fn report_new(rt: &HostRuntime, path: &str) {
    let _ = eprintln!(rt;
        "table: {path} wasn't there: a new table begins with the values of the text"
    );
}

/// Moves the log into the file. Where there is no room for that the log stays beside it, which is said.
fn checkpoint<T: Closing>(rt: &HostRuntime, table: T) -> Result<(), TableRunFault> {
    match table.close(rt, LogNote::Served) {
        Err(TableRunFault::Table(TableFault::Full)) => {
            let _ = eprintln!(rt;
                "table: disk full: the log isn't moved into the file, and stays beside it: make room"
            );
            Ok(())
        }
        closed => closed,
    }
}

/// The table in the file that this plan serves. What its log had is moved into the file, behind a first open that finds both sound.
pub fn open_plan_table<
    R: Net<Listener = TcpListener, Stream = TcpStream> + Threads + Copy + Drop,
    P: Plan,
>(
    machine: &R,
    rt: &HostRuntime,
    file: &TableFile,
    plan: &P,
) -> Result<Table<R, TableNotices>, ProgramFault> {
    let path = file.path.as_str();
    let is_first = is_new(rt, path);
    if !plan.config().takes_changes && is_first {
        // a new table would be empty, and a standby would say that no handle is there
        return Err(ProgramFault::from(missing_fault(rt, path)));
    }
    try_sockets(rt, file, plan.tenants(), plan.config())?;
    let state = log_state(rt, path)?;
    let table = open_once(*machine, rt, file, plan)?;
    if is_first {
        report_new(rt, path);
    }
    match state {
        LogState::Settled => return Ok(table),
        LogState::Unnoted => report_missing_note(rt),
        LogState::Used => {}
    }
    checkpoint(rt, table)?;
    open_once(*machine, rt, file, plan)
}
