//! Exporting the table of a file or of a cluster.

use crate::fault::ProgramFault;
use crate::over_unserved;
use crate::ports::report_empty;
use crate::sharing::export_cluster;
use crate::texts::text_of;
use hdl_programs::{ExitStatus, tenants_of};
use hdl_server_options::{ExportOptions, ExportSource, TableFile};
use hdl_tables::{Export, ExportText, check_new_path, check_publisher, is_new, missing_fault};
use std::net::{Net, TcpStream};
use std::random::RandomSource;
use std::rt::Clock;
use std::thread::Threads;

/// Writes the table in the file so, and answers the exit status. The file is opened as a server's start opens it, but none is made.
fn export_file<R: Threads + Drop>(
    machine: R,
    rt: &HostRuntime,
    file: &TableFile,
    text: ExportText<'_>,
) -> Result<ExitStatus, ProgramFault> {
    let path = file.path.as_str();
    if is_new(rt, path) {
        return Err(ProgramFault::from(missing_fault(rt, path)));
    }
    if report_empty(rt, text.text) {
        return Ok(ExitStatus::Tenants);
    }
    let tenants = tenants_of(rt.alloc(), text.text)?;
    if !check_publisher(rt, &tenants, text.publisher) {
        return Ok(ExitStatus::Arguments);
    }
    Ok(over_unserved(machine, rt, file, Export { tenants, text })?)
}

/// Writes a table as a tenants text, or the part of the publisher of this name, with the publishers and prefixes of the text that is given. Answers the exit status.
pub fn export_table<
    R: Net<Stream = TcpStream> + Threads + Clock + RandomSource + Eprint + Copy + Drop,
>(machine: &R, rt: &HostRuntime, options: ExportOptions) -> Result<ExitStatus, ProgramFault> {
    let ExportOptions {
        source,
        text,
        publisher,
        to,
    } = options;
    check_new_path(rt, &to)?;
    let text = text_of(rt, text)?;
    let text = ExportText {
        text: text.as_str(),
        publisher: &publisher,
        to: &to,
    };
    match source {
        ExportSource::File(file) => export_file(*machine, rt, &file, text),
        ExportSource::Cluster(cluster) => export_cluster(machine, rt, cluster, text),
    }
}
