//! What is done over the table in a file that no server has open.

use crate::closing::Closing;
use crate::fault::TableRunFault;
use crate::opening::{TablePath, open_served};
use hdl_core::Owing;
use hdl_durablerows::{ShutObserver, TableFault};
use hdl_programs::ExitStatus;
use hdl_sqlrows::load::Progress;
use hdl_tenants::Tenants;
use std::thread::Threads;

/// What is done over the table in a file that no server has open.
///
/// Who opens a table is handed what is done over it, which is generic over tables: proving a function that owns all parts of one costs many times as much.
pub trait FileWork: Drop {
    /// Whose handles are opened with the table.
    fn tenants(&self) -> &Tenants;

    /// Does it, closes the file, and answers the exit status.
    fn run<T: Owing + Closing + Drop>(
        self,
        rt: &HostRuntime,
        table: T,
    ) -> Result<ExitStatus, TableRunFault>;
}

/// What is said where a file is to be read that another process has open: a copy would do.
fn as_read(fault: TableRunFault) -> TableRunFault {
    match fault {
        TableRunFault::Table(TableFault::InUse) => TableRunFault::InUse,
        other => other,
    }
}

/// Does this over the table in the file.
pub fn run_over_file<R: Threads + Drop, A: ShutObserver + Progress + Drop, W: FileWork>(
    machine: R,
    rt: &HostRuntime,
    file: TablePath<'_>,
    observer: A,
    work: W,
) -> Result<ExitStatus, TableRunFault> {
    let table = open_served(machine, rt, file, work.tenants(), observer, false).map_err(as_read)?;
    work.run(rt, table)
}
