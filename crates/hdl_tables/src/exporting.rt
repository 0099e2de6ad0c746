//! Writing a table as a tenants text.

use crate::closing::Closing;
use crate::fault::TableRunFault;
use crate::file::FileWork;
use crate::pair::LogNote;
use crate::reasons::PathReason;
use hdl_export::{
    ExportFault, LeftOut, LeftPrefix, export, export_publisher, left_out, left_out_of,
    left_prefixes,
};
use hdl_programs::{ExitStatus, Fault, INPUT_LIMIT, put_all};
use hdl_rows::{Owing, Rows};
use hdl_tenants::Tenants;
use std::alloc::{AllocError, Global};
use std::fmt;
use std::fs::{self, File, OpenOptions};
use std::io::{self, ErrorKind, Write};
use std::os::unix::fs::OpenOptionsExt;

/// Its owner alone reads what is exported: it has the secrets of all publishers.
const MODE: u32 = 0o600;

/// How a run with this fault ends.
pub fn status_of(fault: &ExportFault) -> ExitStatus {
    match fault {
        ExportFault::Given { .. } => ExitStatus::Tenants,
        ExportFault::Row | ExportFault::Inexpressible | ExportFault::Written { .. } => {
            ExitStatus::Table
        }
        ExportFault::Memory => Fault::NoMemory.status(),
        ExportFault::Store => Fault::StoreRefused.status(),
    }
}

/// Says on standard error how many handles the text doesn't say, and which are the first; answers the exit status.
fn report_left_out(rt: &HostRuntime, left: &LeftOut) -> ExitStatus {
    if left.empty == 0 && left.inexpressible == 0 {
        return ExitStatus::Success;
    }
    let (empty, inexpressible) = (left.empty, left.inexpressible);
    let _ = eprintln!(rt;
        "export: left out, since a tenants text can't express them: {empty} handles without a value, {inexpressible} with a space or line feed in the name, the first of them:"
    );
    for handle in &left.named {
        if let Ok(name) = str::from_utf8(handle.as_slice()) {
            let _ = eprintln!(rt; "export: {name:?}");
        }
    }
    ExitStatus::LeftOut
}

/// Says on standard error how many handles of which prefixes are left out, since the text lacks these.
fn report_left_prefixes(rt: &HostRuntime, left: &[LeftPrefix]) {
    for one in left {
        let (prefix, handles) = (one.prefix.as_str(), one.handles);
        let _ = eprintln!(rt;
            "export: the text has no line for the prefix {prefix:?}: {handles} handles are left out"
        );
    }
}

/// Whether the text has a publisher of this name.
pub fn has_publisher(tenants: &Tenants, name: &str) -> bool {
    for place in 0..tenants.publishers() {
        if let Some((publisher, _, _)) = tenants.publisher(place) {
            if publisher == name {
                return true;
            }
        }
    }
    false
}

/// The names of the publishers that the text has, with commas between.
pub fn publisher_names(alloc: Global, tenants: &Tenants) -> Result<String, AllocError> {
    let mut names = String::new(alloc);
    for place in 0..tenants.publishers() {
        if let Some((publisher, _, _)) = tenants.publisher(place) {
            if !names.is_empty() {
                names.push_str(", ")?;
            }
            names.push_str(publisher)?;
        }
    }
    Ok(names)
}

/// Whether the text has a publisher of the name that was given, if one was; says on standard error where it hasn't.
pub fn check_publisher(rt: &HostRuntime, tenants: &Tenants, publisher: &Option<String>) -> bool {
    let Some(name) = publisher else {
        return true;
    };
    if has_publisher(tenants, name.as_str()) {
        return true;
    }
    let names = publisher_names(rt.alloc(), tenants).unwrap_or_else(|_| String::new(rt.alloc()));
    let _ = eprintln!(rt;
        "error: invalid value '{name}' for '--publisher <NAME>': the tenants text has no publisher of this name: it has {names}\n\nFor more information, try '--help'."
    );
    false
}

/// Why what is exported isn't in the file that it was to go to.
#[derive(Clone, Copy)]
pub enum WriteFault {
    /// There is something at the path.
    Exists,
    Device(ErrorKind),
    /// Standard output doesn't take it.
    Output,
}

impl fmt::Display for WriteFault {
    fn fmt<W: fmt::Write>(&self, f: &mut fmt::Formatter<W>) -> fmt::Result {
        match self {
            WriteFault::Exists => f.write_str(
                "export: there is a file at the path of --to: move it away, or name another path",
            ),
            WriteFault::Device(kind) => write!(
                f,
                "export: the text can't be written: {}: check its folder, and the room on the disk",
                PathReason(*kind)
            ),
            WriteFault::Output => f.write_str(
                "export: standard output can't be written, and what it has of the text isn't whole: make room where it goes, or name a new file by --to",
            ),
        }
    }
}

/// Sees that nothing is at the path that is written to, if one is given.
pub fn check_new_path(rt: &HostRuntime, to: &Option<String>) -> Result<(), TableRunFault> {
    let Some(path) = to else {
        return Ok(());
    };
    if fs::symlink_metadata(rt, path).is_ok() {
        return Err(TableRunFault::from(WriteFault::Exists));
    }
    Ok(())
}

/// Makes a new file, for its owner alone.
fn make_new(rt: &HostRuntime, path: &str) -> io::Result<File> {
    let mut options = OpenOptions::new();
    let file = options
        .write(true)
        .create_new(true)
        .mode(MODE)
        .open(rt, path)?;
    Ok(file)
}

/// Writes the whole text.
fn write_whole(file: &mut File, text: &str) -> io::Result<()> {
    file.write_all(text.as_bytes())?;
    file.sync_all()
}

/// Writes a text into a new file. Where it can't be written whole, none is left: its beginning would be read as a smaller table.
fn write_new(rt: &HostRuntime, path: &str, text: &str) -> io::Result<()> {
    let mut file = make_new(rt, path)?;
    match write_whole(&mut file, text) {
        Ok(()) => Ok(()),
        Err(e) => {
            let _ = fs::remove_file(rt, path);
            Err(e)
        }
    }
}

/// Puts the text into a new file, if a path is given, or prints it.
fn put_text(rt: &HostRuntime, text: &str, to: &Option<String>) -> Result<(), TableRunFault> {
    let Some(path) = to else {
        return match put_all(&mut rt.stdout(), text.as_bytes()) {
            Ok(()) => Ok(()),
            Err(_) => Err(TableRunFault::from(WriteFault::Output)),
        };
    };
    match write_new(rt, path, text) {
        Ok(()) => Ok(()),
        Err(e) if e.kind() == ErrorKind::AlreadyExists => Err(TableRunFault::from(
            WriteFault::Exists,
        )),
        Err(e) => Err(TableRunFault::from(WriteFault::Device(e.kind()))),
    }
}

/// Says on standard error where a text is longer than standard input takes.
fn report_length(rt: &HostRuntime, text: &str) {
    let length = text.len();
    if length > INPUT_LIMIT {
        let _ = eprintln!(rt;
            "export: the text has {length} octets, and standard input takes {INPUT_LIMIT} at most: hand it to handled by --text FILE"
        );
    }
}

/// What is exported, how many handles no text says, and which prefixes this one lacks.
#[derive(Drop)]
struct Exported {
    text: String,
    left: LeftOut,
    prefixes: Vec<LeftPrefix>,
}

/// The table as a tenants text, with the publishers and prefixes of this one.
fn export_all<R: Rows>(
    rt: &HostRuntime,
    text: &str,
    rows: &mut R,
) -> Result<Exported, TableRunFault> {
    let left = left_out(rt.alloc(), text, rows)?;
    let prefixes = left_prefixes(rt.alloc(), text, rows)?;
    let text = export(rt.alloc(), text, rows)?;
    Ok(Exported {
        text,
        left,
        prefixes,
    })
}

/// The part of this publisher as a tenants text, with the publishers and prefixes of this one.
fn export_part<R: Rows>(
    rt: &HostRuntime,
    text: &str,
    publisher: &str,
    rows: &mut R,
) -> Result<Exported, TableRunFault> {
    let left = left_out_of(rt.alloc(), text, publisher, rows)?;
    let text = export_publisher(rt.alloc(), text, publisher, rows)?;
    Ok(Exported {
        text,
        left,
        prefixes: Vec::new(rt.alloc()),
    })
}

/// What writes a table as a tenants text, or the part of the publisher of this name, into a new file or to standard output.
#[derive(Clone, Copy)]
pub struct ExportText<'a> {
    /// The text that has the publishers and prefixes.
    pub text: &'a str,
    pub publisher: &'a Option<String>,
    pub to: &'a Option<String>,
}

impl ExportText<'_> {
    fn exported<R: Rows>(&self, rt: &HostRuntime, rows: &mut R) -> Result<Exported, TableRunFault> {
        match self.publisher {
            Some(name) => export_part(rt, self.text, name.as_str(), rows),
            None => export_all(rt, self.text, rows),
        }
    }

    /// Says what no text says, and then writes the text. Answers the exit status.
    pub fn put<R: Rows>(
        &self,
        rt: &HostRuntime,
        rows: &mut R,
    ) -> Result<ExitStatus, TableRunFault> {
        let Exported {
            text,
            left,
            prefixes,
        } = self.exported(rt, rows)?;
        report_left_prefixes(rt, prefixes.as_slice());
        let status = report_left_out(rt, &left);
        report_length(rt, &text);
        put_text(rt, &text, self.to)?;
        Ok(status)
    }
}

/// What writes the table in a file as such a text.
#[derive(Drop)]
pub struct Export<'a> {
    pub tenants: Tenants,
    pub text: ExportText<'a>,
}

/// Closes the table where it was printed, and answers the exit status.
fn close_after<T: Closing + Drop>(
    rt: &HostRuntime,
    table: T,
    printed: Result<ExitStatus, TableRunFault>,
) -> Result<ExitStatus, TableRunFault> {
    let status = printed?;
    table.close(rt, LogNote::Kept)?;
    Ok(status)
}

impl FileWork for Export<'_> {
    fn tenants(&self) -> &Tenants {
        &self.tenants
    }

    fn run<T: Owing + Closing + Drop>(
        self,
        rt: &HostRuntime,
        table: T,
    ) -> Result<ExitStatus, TableRunFault> {
        let mut table = table;
        let printed = self.text.put(rt, &mut table);
        close_after(rt, table, printed)
    }
}
