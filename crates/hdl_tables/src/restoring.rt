//! Putting a copy of a table's file in its place.

ghost use Rattle.std.specs.Prelude.{◌≡◌, false};

use crate::copying::{CopyFault, copy_both};
use crate::fault::TableRunFault;
use crate::pair::{LogNote, close_with_note, lock_file, open_copy};
use crate::paths::{Paths, folder_of};
use crate::reasons::PathReason;
use hdl_durablerows::{Store, TableFault};
use hdl_programs::Fault;
use hdl_rows::PlainRows;
use hdl_sqlrows::known::{FoundDatabase, tables_of};
use hdl_sqlrows::load::{Progress, load};
use hdl_wal_check::PairFault;
use sqlite::Connection;
use std::fmt;
use std::fs::{self, File, Metadata, Permissions};
use std::io::{self, ErrorKind};
use std::os::unix::fs::{MetadataExt, PermissionsExt, chown};

/// Why a copy isn't put in the place of a table's file, which stays as it is.
#[derive(Clone, Copy)]
pub enum RestoreFault {
    /// The copy can't be read.
    From(ErrorKind),
    /// It is the file of a server, which changed it at each try.
    Busy,
    /// The copy is no table that is sound.
    Copy(TableFault),
    /// It and its log don't belong together, or aren't whole.
    Pair(PairFault),
    /// An earlier restore was ended before it was done.
    Left,
    /// The folder of the table isn't there, or can't be looked at.
    Folder(ErrorKind),
    /// The file can't be given to who is to have it.
    Owner { owner: u32, group: u32, user: u32 },
    /// The file can't be put in its place.
    Place(ErrorKind),
}

impl fmt::Display for RestoreFault {
    fn fmt<W: fmt::Write>(&self, f: &mut fmt::Formatter<W>) -> fmt::Result {
        f.write_str("restore: ")?;
        match self {
            RestoreFault::From(kind) => write!(
                f,
                "the copy can't be read: {}: check its path",
                PathReason(*kind)
            ),
            RestoreFault::Busy => f.write_str(
                "--from is a server's own file, which changed during each try: make a copy of it first",
            ),
            RestoreFault::Copy(fault) => write!(
                f,
                "the copy isn't taken, and the table stays as it is: {}",
                CopyReason(*fault)
            ),
            RestoreFault::Pair(fault) => {
                write!(
                    f,
                    "the copy isn't taken, and the table stays as it is: {fault}: take another copy, or put this one in the table's place and start once with --accept-loss"
                )
            }
            RestoreFault::Left => f.write_str(
                "a restore that was ended left files at the table's path, with .restored, .restored-wal or -wal.replaced at the end: move them away, and restore again",
            ),
            RestoreFault::Folder(kind) => write!(
                f,
                "the folder of --table can't be read: {}: make it, or check the path",
                PathReason(*kind)
            ),
            RestoreFault::Owner { owner, group, user } => write!(
                f,
                "the table is to belong to user {owner} and group {group}, and this program, user {user}, can't give it to them: restore as that user, or as root"
            ),
            RestoreFault::Place(kind) => write!(
                f,
                "the copy can't be put in its place: {}: check the folder, and the room on the disk",
                PathReason(*kind)
            ),
        }
    }
}

/// Why a copy isn't taken, and what to do.
#[derive(Clone, Copy)]
struct CopyReason(TableFault);

impl fmt::Display for CopyReason {
    fn fmt<W: fmt::Write>(&self, f: &mut fmt::Formatter<W>) -> fmt::Result {
        match self.0 {
            TableFault::Damaged => f.write_str(
                "it is not a SQLite database, or a page, its checksum or its log is wrong: take another copy",
            ),
            TableFault::Layout => f.write_str(
                "it is a SQLite database, but not one of this program, or it was copied without its log: take a copy that `handled copy` made",
            ),
            TableFault::Row(fault) => write!(
                f,
                "unsound row: {fault}: correct it, or take another copy"
            ),
            other => write!(f, "{other}"),
        }
    }
}

impl From<CopyFault> for RestoreFault {
    fn from(fault: CopyFault) -> RestoreFault {
        match fault {
            CopyFault::From(kind) => RestoreFault::From(kind),
            CopyFault::NoDatabase => RestoreFault::Copy(TableFault::Damaged),
            CopyFault::To(kind) => RestoreFault::Place(kind),
            CopyFault::NoFolder => RestoreFault::Folder(ErrorKind::NotFound),
            CopyFault::Exists => RestoreFault::Left,
            CopyFault::Busy => RestoreFault::Busy,
        }
    }
}

/// Hears nothing.
#[derive(Drop)]
struct NoProgress;

impl Progress for NoProgress {
    fn handles(&mut self, _count: u64) {}

    fn values(&mut self, _count: u64) {}
}

/// The user and group that the file of a table is to belong to, and its permissions.
#[derive(Clone, Copy)]
struct Access {
    owner: u32,
    group: u32,
    mode: u32,
}

fn access_of(found: &Metadata, mode: u32) -> Access {
    Access {
        owner: found.uid(),
        group: found.gid(),
        mode,
    }
}

/// The access of the file that is replaced. If there is none, or root has it, the table is to belong to the folder's owner.
fn access_at(rt: &HostRuntime, path: &str) -> Result<Access, RestoreFault> {
    let mut mode = 0o600;
    if let Ok(found) = fs::metadata(rt, path) {
        mode = found.mode() % 0o1000;
        if found.uid() != 0 {
            return Ok(access_of(&found, mode));
        }
    }
    match fs::metadata(rt, folder_of(path)) {
        Ok(folder) => Ok(access_of(&folder, mode)),
        Err(e) => Err(RestoreFault::Folder(e.kind())),
    }
}

/// Sees that the folder of the table is there.
fn check_folder(rt: &HostRuntime, path: &str) -> Result<(), RestoreFault> {
    match fs::metadata(rt, folder_of(path)) {
        Ok(_) => Ok(()),
        Err(e) => Err(RestoreFault::Folder(e.kind())),
    }
}

/// Gives the file this access.
fn give_access(rt: &HostRuntime, path: &str, access: Access) -> Result<(), RestoreFault> {
    let Access { owner, group, mode } = access;
    match chown(rt, path, Some(owner), Some(group)) {
        Ok(()) => {}
        Err(e) if e.kind() == ErrorKind::PermissionDenied => {
            let user = libc::geteuid();
            return Err(RestoreFault::Owner { owner, group, user });
        }
        Err(e) => return Err(RestoreFault::Place(e.kind())),
    }
    match fs::set_permissions(rt, path, Permissions::from_mode(mode)) {
        Ok(()) => Ok(()),
        Err(e) => Err(RestoreFault::Place(e.kind())),
    }
}

/// Reads all rows of a copy, each of which has to be sound.
fn read_rows(rt: &HostRuntime, conn: &mut Connection<Store>) -> Result<(), TableFault>
    requires mode { conn.old.in_transaction ≡ false }
{
    match tables_of(conn) {
        FoundDatabase::Tables => {
            let mut rows = PlainRows::new(rt.alloc());
            load(conn, rt.alloc(), &mut rows, &mut NoProgress)?;
            Ok(())
        }
        _ => Err(TableFault::Layout),
    }
}

/// Sees that a copy is a table, each row of it sound, and makes it whole without its log.
fn check_copy(rt: &HostRuntime, path: &str) -> Result<(), TableRunFault> {
    let mut conn = open_copy(rt, path)?;
    read_rows(rt, &mut conn)?;
    close_with_note(rt, conn, LogNote::Whole)
}

/// Why a copy isn't taken in which this is wrong.
fn copy_fault(fault: TableRunFault) -> TableRunFault {
    match fault {
        TableRunFault::Table(TableFault::Memory) => TableRunFault::from(Fault::NoMemory),
        TableRunFault::Table(fault) => TableRunFault::from(RestoreFault::Copy(fault)),
        TableRunFault::Pair(fault) => TableRunFault::from(RestoreFault::Pair(fault)),
        other => other,
    }
}

/// Takes a file away, if it is there.
fn remove(rt: &HostRuntime, path: &str) -> Result<(), RestoreFault> {
    match fs::remove_file(rt, path) {
        Ok(()) => Ok(()),
        Err(e) if e.kind() == ErrorKind::NotFound => Ok(()),
        Err(e) => Err(RestoreFault::Place(e.kind())),
    }
}

/// Makes last what was done in the folder of a file.
fn sync_folder(rt: &HostRuntime, path: &str) -> io::Result<()> {
    File::open(rt, folder_of(path))?.sync_all()
}

/// Moves the log of a table's file aside, if there is one.
fn set_aside(rt: &HostRuntime, to: &Paths) -> io::Result<()> {
    match fs::rename(rt, &to.log, &to.aside) {
        Err(e) if e.kind() != ErrorKind::NotFound => Err(e),
        _ => sync_folder(rt, &to.file),
    }
}

/// Moves the new file over the old one. Where that fails the old one has its log back.
fn move_over(rt: &HostRuntime, from: &Paths, to: &Paths) -> io::Result<()> {
    match fs::rename(rt, &from.file, &to.file) {
        Ok(()) => sync_folder(rt, &to.file),
        Err(e) => {
            let _ = fs::rename(rt, &to.aside, &to.log);
            Err(e)
        }
    }
}

/// Puts a file that needs no log in the place of a table's. The old log goes aside first, and for good: what it has would be taken for changes of the
/// new file.
fn replace(rt: &HostRuntime, from: &Paths, to: &Paths) -> Result<(), RestoreFault> {
    remove(rt, &from.log)?;
    if let Err(e) = set_aside(rt, to) {
        return Err(RestoreFault::Place(e.kind()));
    }
    if let Err(e) = move_over(rt, from, to) {
        return Err(RestoreFault::Place(e.kind()));
    }
    remove(rt, &to.aside)
}

/// Copies the two files next to the table, checks them, and puts them in its place.
fn install_copy(
    rt: &HostRuntime,
    from: &Paths,
    new: &Paths,
    to: &Paths,
) -> Result<(), TableRunFault> {
    if let Err(fault) = copy_both(rt, from, new) {
        return Err(TableRunFault::from(RestoreFault::from(fault)));
    }
    if let Err(fault) = check_copy(rt, &new.file) {
        return Err(copy_fault(fault));
    }
    give_access(rt, &new.file, access_at(rt, &to.file)?)?;
    replace(rt, new, to)?;
    Ok(())
}

/// The paths of what is next to the table until it is whole, where nothing is yet.
fn staging_paths(rt: &HostRuntime, to: &Paths) -> Result<Paths, TableRunFault> {
    let file = format!(in rt.alloc(); "{}.restored", to.file).map_err(Fault::from)?;
    let new = Paths::at(rt, &file)?;
    for left in [&new.file, &new.log, &to.aside] {
        if fs::symlink_metadata(rt, left).is_ok() {
            return Err(TableRunFault::from(RestoreFault::Left));
        }
    }
    Ok(new)
}

/// Puts the copy of a table's file in the place of the file, which no server may have open. It is checked first, and gets the owner and the permissions of
/// what it replaces, or the owner of the folder.
pub fn restore_table(rt: &HostRuntime, from: &str, to: &str) -> Result<(), TableRunFault> {
    if let Err(e) = File::open(rt, from) {
        return Err(TableRunFault::from(RestoreFault::From(e.kind())));
    }
    let _locked = lock_file(rt, to)?;
    check_folder(rt, to)?;
    let (from, to) = (Paths::resolved(rt, from)?, Paths::resolved(rt, to)?);
    let new = staging_paths(rt, &to)?;
    match install_copy(rt, &from, &new, &to) {
        Ok(()) => Ok(()),
        Err(fault) => {
            let _ = remove(rt, &new.log);
            let _ = remove(rt, &new.file);
            Err(fault)
        }
    }
}
