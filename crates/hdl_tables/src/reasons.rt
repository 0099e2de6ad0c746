//! Why the file of a table can't be opened.

use crate::fault::TableRunFault;
use crate::paths::{Paths, folder_of};
use std::fmt;
use std::fs::{self, Metadata, OpenOptions};
use std::io::ErrorKind;
use std::os::unix::fs::MetadataExt;

/// Why the system refused a path, in words for an operator.
#[derive(Clone, Copy)]
pub(crate) struct PathReason(pub(crate) ErrorKind);

impl fmt::Display for PathReason {
    fn fmt<W: fmt::Write>(&self, f: &mut fmt::Formatter<W>) -> fmt::Result {
        match self.0 {
            ErrorKind::NotFound => f.write_str("it isn't there"),
            ErrorKind::PermissionDenied => f.write_str(
                "this program's user may not, but root and the server's user may",
            ),
            kind => write!(f, "{kind}"),
        }
    }
}

/// The user that something belongs to, and the user that would open it.
#[derive(Clone, Copy)]
pub struct FileOwner {
    pub owner: u32,
    /// Its permissions.
    pub mode: u32,
    pub user: u32,
}

impl FileOwner {
    fn of(found: &Metadata) -> FileOwner {
        FileOwner {
            owner: found.uid(),
            mode: found.mode() % 0o10000,
            user: libc::geteuid(),
        }
    }
}

impl fmt::Display for FileOwner {
    fn fmt<W: fmt::Write>(&self, f: &mut fmt::Formatter<W>) -> fmt::Result {
        let FileOwner { owner, mode, user } = *self;
        if owner == user {
            return write!(
                f,
                "it belongs to user {owner}, who runs this program, and has mode {mode:04o}: let its owner read and write it (chmod u+rwX)"
            );
        }
        write!(
            f,
            "it belongs to user {owner} with mode {mode:04o}, and this program is user {user}: give it to that user (chown), or let that user read and write it"
        )
    }
}

/// Why a file can't be opened.
#[derive(Clone, Copy)]
pub enum OpenReason {
    /// The path names no file.
    NoPath,
    /// The folder isn't there.
    NoFolder,
    /// No file may be made in the folder.
    Folder(FileOwner),
    /// It is a folder, a device or the like.
    NoFile,
    /// It has several names: how many.
    Names(u64),
    /// It may not be read and written.
    File(FileOwner),
    /// The file's log is no file of its own.
    NoLog,
    /// The file's log may not be read and written.
    Log(FileOwner),
    /// SQLite left a rollback journal of the file.
    Journal,
    /// A log that was given up before is at its path with `-wal.lost`.
    Lost,
    /// It isn't there, and none is made.
    Missing,
    /// Nothing is in the way now.
    Again,
    Other(ErrorKind),
}

impl fmt::Display for OpenReason {
    fn fmt<W: fmt::Write>(&self, f: &mut fmt::Formatter<W>) -> fmt::Result {
        match self {
            OpenReason::NoPath => f.write_str("the path names no file: name one in a folder"),
            OpenReason::NoFolder => {
                f.write_str(
                    "the file isn't there, nor is its folder: make the folder, or check the path",
                )
            }
            OpenReason::Folder(owner) => { write!(f, "no file can be made in the folder: {owner}") }
            OpenReason::NoFile => {
                f.write_str("at the path is a folder, a device or the like, and no file")
            }
            OpenReason::Names(count) => write!(
                f,
                "the file has {count} names (hard links), and a table needs one of its own: remove the others, or copy it"
            ),
            OpenReason::File(owner) => write!(f, "the file may not be read and written: {owner}"),
            OpenReason::NoLog => f.write_str(
                "the log, at the file's path with -wal at the end, is a link, a folder, a device or a file with several names",
            ),
            OpenReason::Log(owner) => write!(
                f,
                "the log, at the file's path with -wal at the end, may not be read and written: {owner}"
            ),
            OpenReason::Journal => f.write_str(
                "SQLite left a journal at the file's path with -journal at the end: open the file with sqlite3 first, which applies it",
            ),
            OpenReason::Lost => f.write_str(
                "a log that was given up before is at the file's path with -wal.lost at the end: move it away",
            ),
            OpenReason::Missing => f.write_str("the file isn't there: check the path"),
            OpenReason::Again => f.write_str("nothing is in the way now: try again"),
            OpenReason::Other(kind) => write!(f, "{kind}"),
        }
    }
}

/// Why no file can be made in the folder of this path.
fn reason_of_folder(rt: &HostRuntime, path: &str) -> OpenReason {
    match fs::metadata(rt, folder_of(path)) {
        Ok(folder) => OpenReason::Folder(FileOwner::of(&folder)),
        Err(e) => OpenReason::Other(e.kind()),
    }
}

/// Why the file or its log can't be made, by making one of another name, which no server opens, and taking it away again.
fn reason_of_making(rt: &HostRuntime, paths: &Paths) -> OpenReason {
    match OpenOptions::new()
        .write(true)
        .create_new(true)
        .open(rt, &paths.trial)
    {
        Ok(_) => match fs::remove_file(rt, &paths.trial) {
            Ok(()) => OpenReason::Again,
            Err(e) => OpenReason::Other(e.kind()),
        },
        Err(e) if e.kind() == ErrorKind::PermissionDenied => reason_of_folder(rt, &paths.file),
        Err(e) if e.kind() == ErrorKind::NotFound => OpenReason::NoFolder,
        Err(e) => OpenReason::Other(e.kind()),
    }
}

/// What opening a file that is there for reading and writing gives.
fn try_open(rt: &HostRuntime, path: &str) -> Result<(), ErrorKind> {
    match OpenOptions::new().read(true).write(true).open(rt, path) {
        Ok(_) => Ok(()),
        Err(e) => Err(e.kind()),
    }
}

/// Why the log of a file that may be opened can't be.
fn reason_of_log(rt: &HostRuntime, paths: &Paths) -> OpenReason {
    let found = match fs::symlink_metadata(rt, &paths.log) {
        Ok(found) => found,
        Err(e) if e.kind() == ErrorKind::NotFound => return reason_of_making(rt, paths),
        Err(e) => return OpenReason::Other(e.kind()),
    };
    if !found.is_file() || found.nlink() != 1 {
        return OpenReason::NoLog;
    }
    match try_open(rt, &paths.log) {
        Err(ErrorKind::PermissionDenied) => OpenReason::Log(FileOwner::of(&found)),
        Err(kind) => OpenReason::Other(kind),
        Ok(()) => OpenReason::Again,
    }
}

/// Whether SQLite left a rollback journal of the file.
fn has_journal(rt: &HostRuntime, paths: &Paths) -> bool {
    fs::symlink_metadata(rt, &paths.journal).is_ok()
}

/// Why a file that is there can't be opened.
fn reason_of_file(rt: &HostRuntime, paths: &Paths, found: &Metadata) -> OpenReason {
    if !found.is_file() {
        return OpenReason::NoFile;
    }
    if found.nlink() != 1 {
        return OpenReason::Names(found.nlink());
    }
    match try_open(rt, &paths.file) {
        Err(ErrorKind::PermissionDenied) => OpenReason::File(FileOwner::of(found)),
        Err(kind) => OpenReason::Other(kind),
        Ok(()) => match reason_of_log(rt, paths) {
            OpenReason::Again if has_journal(rt, paths) => OpenReason::Journal,
            reason => reason,
        },
    }
}

/// Why the file can't be opened.
fn reason_of(rt: &HostRuntime, paths: &Paths) -> OpenReason {
    let path = paths.file.as_str();
    if path == ":memory:" || path.is_empty() || path.starts_with("file:") {
        return OpenReason::NoPath;
    }
    match fs::metadata(rt, path) {
        Ok(found) => reason_of_file(rt, paths, &found),
        Err(e) if e.kind() == ErrorKind::NotFound => reason_of_making(rt, paths),
        Err(e) => OpenReason::Other(e.kind()),
    }
}

/// Why the file at a path wasn't opened.
pub(crate) fn open_fault(rt: &HostRuntime, path: &str) -> TableRunFault {
    match Paths::resolved(rt, path) {
        Ok(paths) => TableRunFault::Unopened(reason_of(rt, &paths)),
        Err(fault) => TableRunFault::Run(fault),
    }
}

/// Why the file at a path isn't opened where none is to be made.
pub fn missing_fault(rt: &HostRuntime, path: &str) -> TableRunFault {
    match fs::metadata(rt, path) {
        Err(e) if e.kind() == ErrorKind::NotFound => TableRunFault::Unopened(OpenReason::Missing),
        _ => open_fault(rt, path),
    }
}
