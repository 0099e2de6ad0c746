//! Copying the file of a table, while a server has it open or not.
//!
//! The file's log is next to it. A server writes changes to the end of the log, and now and then moves the log's pages into the file and begins the log anew,
//! with another header. So a copy of the file and then of the log, between two looks that find one header, opens as the table after a beginning
//! of the changes, with each that was answered before the copy began: a page that was moved into the file meanwhile is in the log too, which goes before it.

use crate::fault::TableRunFault;
use crate::pair::{LogNote, close_with_note, open_copy};
use crate::paths::Paths;
use crate::reasons::PathReason;
use std::fmt;
use std::fs::{self, File, OpenOptions};
use std::io::{self, ErrorKind, Read, Write};
use std::os::unix::fs::OpenOptionsExt;

/// Only who copies reads the copy: it has the secrets of all publishers.
const MODE: u32 = 0o600;

/// How many octets are copied at a time.
const CHUNK: usize = 65_536;

/// How many octets the header of a log has.
const HEADER: usize = 32;

/// How often a copy is tried, where the log is begun anew under it.
const TRIES: u32 = 10;

/// What a SQLite database begins with.
const MAGIC: &[u8] = b"SQLite format 3\0";

/// Why a file isn't copied.
#[derive(Clone, Copy)]
pub enum CopyFault {
    /// The file can't be read.
    From(ErrorKind),
    /// The file is no database.
    NoDatabase,
    /// The copy can't be written.
    To(ErrorKind),
    /// The folder of the copy isn't there.
    NoFolder,
    /// There is something at the copy's path.
    Exists,
    /// The log was begun anew at each try.
    Busy,
}

impl fmt::Display for CopyFault {
    fn fmt<W: fmt::Write>(&self, f: &mut fmt::Formatter<W>) -> fmt::Result {
        match self {
            CopyFault::From(kind) => write!(
                f,
                "copy: the table's file can't be read: {}: check its path",
                PathReason(*kind)
            ),
            CopyFault::NoDatabase => f.write_str(
                "copy: the file of --table is no SQLite database: check its path",
            ),
            CopyFault::To(kind) => write!(
                f,
                "copy: the copy can't be written: {}: check its folder, and the room on the disk",
                PathReason(*kind)
            ),
            CopyFault::NoFolder => f.write_str(
                "copy: the folder of --to isn't there: make it, or name another path",
            ),
            CopyFault::Exists => f.write_str(
                "copy: there is a file at the path of --to, or at that path with -wal at the end: move it away, or name another path",
            ),
            CopyFault::Busy => f.write_str(
                "copy: the server moved its log into the file during each of 10 tries: try again when fewer changes come",
            ),
        }
    }
}

/// The front of a file's log, of which nothing is there before the first change and after the end of a server.
fn header_of(rt: &HostRuntime, log: &str) -> io::Result<Option<[u8; HEADER]>> {
    let mut header = [0; HEADER];
    match File::open(rt, log) {
        Ok(mut file) => match file.read_exact(&mut header) {
            Ok(()) => Ok(Some(header)),
            Err(e) if e.kind() == ErrorKind::UnexpectedEof => Ok(None),
            Err(e) => Err(e),
        },
        Err(e) if e.kind() == ErrorKind::NotFound => Ok(None),
        Err(e) => Err(e),
    }
}

/// A file to be written anew, which wasn't there or is one that this copy made.
fn make_copy(rt: &HostRuntime, path: &str, is_first: bool) -> Result<File, CopyFault> {
    let mut options = OpenOptions::new();
    options.write(true).mode(MODE);
    if is_first {
        options.create_new(true);
    } else {
        options.create(true).truncate(true);
    }
    match options.open(rt, path) {
        Ok(file) => Ok(file),
        Err(e) if e.kind() == ErrorKind::AlreadyExists => Err(CopyFault::Exists),
        Err(e) if e.kind() == ErrorKind::NotFound => Err(CopyFault::NoFolder),
        Err(e) => Err(CopyFault::To(e.kind())),
    }
}

/// Copies the octets of one file into another, from the front to the end.
fn copy_octets(from: &mut File, to: &mut File) -> Result<(), CopyFault> {
    let mut chunk = [0; CHUNK];
    for _ in 0..u64::MAX {
        let count = match from.read(&mut chunk) {
            Ok(0) => break,
            Ok(count) => count.min(CHUNK),
            Err(e) if e.kind() == ErrorKind::Interrupted => continue,
            Err(e) => return Err(CopyFault::From(e.kind())),
        };
        if let Err(e) = to.write_all(&chunk[..count]) {
            return Err(CopyFault::To(e.kind()));
        }
    }
    match to.sync_all() {
        Ok(()) => Ok(()),
        Err(e) => Err(CopyFault::To(e.kind())),
    }
}

/// Copies a file. One that isn't there is as an empty one, if it may be missing.
fn copy_file(
    rt: &HostRuntime,
    from: &str,
    to: &str,
    is_first: bool,
    may_miss: bool,
) -> Result<(), CopyFault> {
    let mut written = make_copy(rt, to, is_first)?;
    match File::open(rt, from) {
        Ok(mut file) => copy_octets(&mut file, &mut written),
        Err(e) if may_miss && e.kind() == ErrorKind::NotFound => Ok(()),
        Err(e) => Err(CopyFault::From(e.kind())),
    }
}

/// Copies a file and its log once. Whether one log was next to it all the while.
fn copy_once(
    rt: &HostRuntime,
    from: &Paths,
    to: &Paths,
    is_first: bool,
) -> Result<bool, CopyFault> {
    let before = match header_of(rt, &from.log) {
        Ok(header) => header,
        Err(e) => return Err(CopyFault::From(e.kind())),
    };
    copy_file(rt, &from.file, &to.file, is_first, false)?;
    copy_file(rt, &from.log, &to.log, is_first, true)?;
    match header_of(rt, &from.log) {
        Ok(after) => Ok(before == after),
        Err(e) => Err(CopyFault::From(e.kind())),
    }
}

/// Copies a file and its log, where nothing is yet.
pub(crate) fn copy_both(rt: &HostRuntime, from: &Paths, to: &Paths) -> Result<(), CopyFault> {
    if let Err(e) = File::open(rt, &from.file) {
        return Err(CopyFault::From(e.kind()));
    }
    for path in [&to.file, &to.log] {
        if fs::symlink_metadata(rt, path).is_ok() {
            return Err(CopyFault::Exists);
        }
    }
    for turn in 0..TRIES {
        if copy_once(rt, from, to, turn == 0)? {
            return Ok(());
        }
    }
    Err(CopyFault::Busy)
}

/// Opens a copy of a table's file, which takes in its log, and closes it: it is whole without the log from then on.
fn close_copy(rt: &HostRuntime, path: &str) -> Result<(), TableRunFault> {
    let conn = open_copy(rt, path)?;
    close_with_note(rt, conn, LogNote::Whole)
}

/// Sees that a file begins as a database does, or has nothing yet.
fn check_front(rt: &HostRuntime, path: &str) -> Result<(), CopyFault> {
    let mut front = [0; 16];
    let read = match File::open(rt, path) {
        Ok(mut file) => file.read(&mut front),
        Err(e) => return Err(CopyFault::From(e.kind())),
    };
    match read {
        Ok(0) => Ok(()),
        Ok(_) if front.as_slice() == MAGIC => Ok(()),
        Ok(_) => Err(CopyFault::NoDatabase),
        Err(e) => Err(CopyFault::From(e.kind())),
    }
}

/// Copies the table's file, and moves the log of the copy into it.
pub fn copy_table(rt: &HostRuntime, from: &str, to: &str) -> Result<(), TableRunFault> {
    let (from, copy) = (Paths::resolved(rt, from)?, Paths::at(rt, to)?);
    check_front(rt, &from.file)?;
    copy_both(rt, &from, &copy)?;
    close_copy(rt, to)
}
