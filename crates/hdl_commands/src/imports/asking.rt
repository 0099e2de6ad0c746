//! An import, asked of a server.

use crate::batches::shows_progress;
use crate::exit_status::ExitStatus;
use crate::fault::ArgumentFault;
use crate::imports::columns::Columns;
use crate::imports::counts::{Counts, Refusal};
use crate::imports::creating::{Creations, create_all};
use crate::imports::progress::Progress;
use crate::imports::row::DAY_SECONDS;
use crate::imports::rows::{Faults, HandleRows, Part, RowFormat};
use crate::imports::update::KeptFields;
use crate::imports::updating::{UpdateMode, preview_part, update_part};
use crate::key::{key_of, read_key_reference};
use crate::reporting::report_fault;
use crate::warnings::{Warning, end_counts, is_unsayable};
use hdl_client::{Batch, ClientFault, Key, Session, Task, Transport, connect};
use hdl_value::Wire;
use hdl_value_lines::number_in;
use std::alloc::{AllocError, Global};
use std::{fs, io};
use thiserror::Error;

/// What can be done where the connection failed.
const AGAIN: &str =
    "; start again with the same file: handles that exist with these values count as done";

/// What is imported, and where.
#[derive(Drop)]
pub struct ImportOptions {
    /// The path of a CSV file.
    pub file: String,
    /// `HOST:PORT`.
    pub server: String,
    /// By whose layout the server speaks of values.
    pub wire: Wire,
    /// A reference to the key that answers the challenges.
    pub key: String,
    /// The TTL of rows that say none, in digits; a day if it isn't given.
    pub ttl: Option<String>,
    /// Whether handles that are there get the values of their rows.
    pub is_update: bool,
    /// Whether nothing is changed: the file is only checked, and of an update the server is asked what is there.
    pub is_dry: bool,
}

/// Why nothing was imported, or the import stopped.
#[derive(Debug, Drop, Error)]
enum ImportFault {
    #[error("the file can't be read: {0}")]
    File(io::Error),
    #[error("line 1: {0}")]
    Header(ArgumentFault),
    #[error("nothing was sent: put the rows of each handle together, as by sorting the file by the column handle")]
    Apart,
    #[error("{0}")]
    Words(ArgumentFault),
    #[error("{0}")]
    Client(ClientFault),
    #[error("the server refuses the key: check --key and its secret; later rows were not tried")]
    Key,
    #[error("the server takes no changes (--read-only): name the one that does by --server; later rows were not tried")]
    ReadOnly,
    #[error("the server takes no changes now: its disk or memory may be full, or what this prefix may hold there: ask its operator; later rows were not tried")]
    Busy,
}

impl ImportFault {
    fn status(&self) -> ExitStatus {
        match self {
            ImportFault::File(_)
            | ImportFault::Header(_)
            | ImportFault::Apart
            | ImportFault::Words(_) => ExitStatus::Arguments,
            ImportFault::Client(_) => ExitStatus::NoAnswer,
            ImportFault::Key | ImportFault::ReadOnly | ImportFault::Busy => ExitStatus::Failure,
        }
    }
}

impl From<Refusal> for ImportFault {
    fn from(refusal: Refusal) -> ImportFault {
        match refusal {
            Refusal::Key => ImportFault::Key,
            Refusal::ReadOnly => ImportFault::ReadOnly,
            Refusal::Busy => ImportFault::Busy,
        }
    }
}

impl From<ClientFault> for ImportFault {
    fn from(fault: ClientFault) -> ImportFault {
        ImportFault::Client(fault)
    }
}

impl From<AllocError> for ImportFault {
    fn from(_: AllocError) -> ImportFault {
        ImportFault::Client(ClientFault::Memory)
    }
}

/// Warns of the handles of a part that no export takes along.
fn warn_of_names(part: &Part, faults: &mut Creations<'_>) {
    for task in &part.tasks {
        let handle = task.request.handle();
        if is_unsayable(handle) {
            faults.note_warning(task.line, handle, Warning::Name);
        }
    }
}

/// What is told faults and warnings, with what was counted so far.
fn told_faults<'r>(rt: &'r HostRuntime, counts: &Counts) -> Creations<'r> {
    Creations {
        rt,
        counts: *counts,
        found: Vec::new(rt.alloc()),
    }
}

/// The next part of the file; its faults and warnings are told and counted.
fn next_part(rt: &HostRuntime, rows: &mut HandleRows<'_>, counts: &mut Counts) -> Part {
    let mut faults = told_faults(rt, counts);
    let mut part = Part::new(rt.alloc());
    rows.fill(&mut part, &mut faults);
    warn_of_names(&part, &mut faults);
    *counts = faults.counts;
    part
}

/// Refuses a file in which rows of a handle stand apart, and tells which.
fn check_together(
    rt: &HostRuntime,
    rows: &HandleRows<'_>,
    counts: &Counts,
) -> Result<(), ImportFault> {
    if rows.note_apart(&mut told_faults(rt, counts))? {
        return Err(ImportFault::Apart);
    }
    Ok(())
}

/// The tasks that create handles of a part: all of them, or of an update those that aren't there, after the others are updated.
fn to_create<S: Transport>(
    rt: &HostRuntime,
    session: &mut Session<S>,
    part: Part,
    batch: &mut Batch,
    update_mode: Option<UpdateMode>,
    counts: &mut Counts,
) -> Result<Vec<Task>, ClientFault> {
    let Some(update_mode) = update_mode else {
        let Part { tasks, .. } = part;
        return Ok(tasks);
    };
    if update_mode.is_dry {
        preview_part(rt, session, part, batch, update_mode, counts)?;
        return Ok(Vec::new(rt.alloc()));
    }
    update_part(rt, session, part, batch, update_mode, counts)
}

/// Asks for the next part of the file. Answers whether there was one.
fn ask_part<S: Transport>(
    rt: &HostRuntime,
    session: &mut Session<S>,
    rows: &mut HandleRows<'_>,
    batch: &mut Batch,
    update_mode: Option<UpdateMode>,
    counts: &mut Counts,
) -> Result<bool, ClientFault> {
    let part = next_part(rt, rows, counts);
    if part.tasks.is_empty() {
        return Ok(false);
    }
    batch.tasks = to_create(rt, session, part, batch, update_mode, counts)?;
    create_all(rt, session, batch, counts)?;
    Ok(true)
}

fn ask_parts<S: Transport>(
    rt: &HostRuntime,
    session: &mut Session<S>,
    rows: &mut HandleRows<'_>,
    batch: &mut Batch,
    update_mode: Option<UpdateMode>,
    counts: &mut Counts,
) -> Result<(), ImportFault> {
    for _ in 0..u64::MAX {
        if !ask_part(rt, session, rows, batch, update_mode, counts)? {
            break;
        }
        counts.progress.note(rt, rows.rows());
        if let Some(refusal) = counts.refusal {
            return Err(ImportFault::from(refusal));
        }
        if counts.busy > 0 {
            rows.read_one();
        }
    }
    Ok(())
}

/// How many lines follow the first one.
fn rows_in(text: &[u8]) -> usize {
    let ends = text.iter().filter(|octet| **octet == b'\n').count();
    match text {
        [.., b'\n'] => ends.saturating_sub(1),
        _ => ends,
    }
}

/// A batch of nothing so far, with this key.
fn batch_of(alloc: Global, key: Key) -> Result<Batch, ClientFault> {
    let mut keys = Vec::new(alloc);
    keys.push(key)?;
    Ok(Batch {
        keys,
        tasks: Vec::new(alloc),
    })
}

fn ask_all(
    rt: &HostRuntime,
    server: &str,
    rows: &mut HandleRows<'_>,
    key: Key,
    update_mode: Option<UpdateMode>,
    counts: &mut Counts,
) -> Result<(), ImportFault> {
    let mut batch = batch_of(rt.alloc(), key)?;
    let mut session = connect(rt, server)?;
    let ended = ask_parts(rt, &mut session, rows, &mut batch, update_mode, counts);
    counts.progress.end(rt);
    ended
}

/// Reads all of the file, tells its faults, and counts as created the handles that could be asked for.
fn read_all(rt: &HostRuntime, rows: &mut HandleRows<'_>, counts: &mut Counts) {
    for _ in 0..u64::MAX {
        let part = next_part(rt, rows, counts);
        if part.tasks.is_empty() {
            break;
        }
        counts.created = counts.created.saturating_add(part.tasks.len());
    }
}

fn ttl_of(import: &ImportOptions) -> Result<u32, ArgumentFault> {
    match &import.ttl {
        Some(digits) => number_in(digits.as_bytes()).ok_or(ArgumentFault::Ttl),
        None => Ok(DAY_SECONDS),
    }
}

/// How the rows of the file are read.
fn row_format_of(alloc: Global, import: &ImportOptions) -> Result<RowFormat, ArgumentFault> {
    Ok(RowFormat {
        wire: import.wire,
        key: read_key_reference(alloc, &import.key)?,
        ttl: ttl_of(import)?,
        keeps_rows: import.is_update,
    })
}

/// How handles that are there are updated: what the file says nothing of stays.
fn update_mode_of(import: &ImportOptions, columns: &Columns) -> Option<UpdateMode> {
    if !import.is_update {
        return None;
    }
    Some(UpdateMode {
        kept: KeptFields {
            ttl: columns.ttl.is_none() && import.ttl.is_none(),
            permissions: columns.permissions.is_none(),
        },
        names_indexes: columns.index.is_some(),
        is_dry: import.is_dry,
    })
}

fn import_rows(
    rt: &HostRuntime,
    import: &ImportOptions,
    counts: &mut Counts,
) -> Result<(), ImportFault> {
    let text = match fs::read(rt, import.file.as_str()) {
        Ok(text) => text,
        Err(error) => return Err(ImportFault::File(error)),
    };
    let row_format = match row_format_of(rt.alloc(), import) {
        Ok(row_format) => row_format,
        Err(fault) => return Err(ImportFault::Words(fault)),
    };
    let mut rows = match HandleRows::new(rt.alloc(), row_format, &text) {
        Ok(rows) => rows,
        Err(fault) => return Err(ImportFault::Header(fault)),
    };
    check_together(rt, &rows, counts)?;
    if import.is_dry && !import.is_update {
        read_all(rt, &mut rows, counts);
        return Ok(());
    }
    let key = match key_of(rt, &import.key) {
        Ok(key) => key,
        Err(fault) => return Err(ImportFault::Words(fault)),
    };
    let update_mode = update_mode_of(import, &rows.columns);
    counts.progress = Progress::new(rt, rows_in(&text), shows_progress(rt));
    ask_all(rt, &import.server, &mut rows, key, update_mode, counts)
}

fn print_counts(rt: &HostRuntime, import: &ImportOptions, counts: &Counts) {
    let Counts {
        created,
        changed,
        there,
        failed,
        warnings,
        ..
    } = *counts;
    let _ = match (import.is_update, import.is_dry) {
        (false, false) => print!(rt; "{created} created, {there} there already, {failed} failed"),
        (false, true) => print!(rt;
            "{created} could be created, {failed} failed; nothing was sent, so it isn't known which exist: --update --dry-run asks"
        ),
        (true, false) => print!(rt;
            "{created} created, {changed} changed, {there} there already, {failed} failed"
        ),
        (true, true) => print!(rt;
            "{created} would be created, {changed} changed, {there} there already, {failed} failed; only questions were sent"
        ),
    };
    end_counts(rt, warnings);
}

/// Says on standard error why an import stopped.
fn report(rt: &HostRuntime, import: &ImportOptions, fault: &ImportFault) {
    let _ = match fault {
        ImportFault::Client(fault) => {
            report_fault(rt, &import.server, *fault);
            eprintln!(rt; "{AGAIN}")
        }
        ImportFault::File(_) if import.file.as_str() == "-" => {
            eprintln!(rt; "hdl: -: {fault}: standard input is /dev/stdin")
        }
        ImportFault::File(_) => eprintln!(rt; "hdl: {}: {fault}: check --csv", import.file),
        ImportFault::Busy => eprintln!(rt; "hdl: {fault}{AGAIN}"),
        other => eprintln!(rt; "hdl: {other}"),
    };
}

/// Creates the handles of a CSV file, over one connection, the first one alone and then a thousand at a time with several requests in flight, and prints a line for
/// each row and each handle that failed, and at the end how many came to what; on standard error each ten seconds how many rows are done. A handle that is there with
/// just the values of its rows, whenever they were written, counts as done. An update asks first what is there, creates handles that
/// aren't, brings the values of its rows to one that is, and prints what it changes. Answers the exit status: 0 where all handles are
/// as the rows say, 1 where some aren't, or the key or every change is refused, or the server stays busy, 2 where nothing was sent, and 3 where the connection failed. A dry import tells
/// what is wrong with the file alone, and a dry update what it would change.
pub fn import_file(rt: &HostRuntime, import: &ImportOptions) -> ExitStatus {
    let mut counts = Counts::new(Progress::new(rt, 0, false));
    let ended = import_rows(rt, import, &mut counts);
    let status = match &ended {
        Ok(()) => ExitStatus::of_failures(counts.failed),
        Err(fault) => fault.status(),
    };
    if status != ExitStatus::Arguments {
        print_counts(rt, import, &counts);
    }
    if let Err(fault) = ended {
        report(rt, import, &fault);
    }
    status
}
