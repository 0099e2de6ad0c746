//! The two files of a table, looked at before and behind an open.

ghost use Rattle.std.specs.Prelude.{◌≡◌, false, IfOk};
ghost use Rattle.sqlite.specs.Files.{file_state};
ghost use Rattle.hdl_sqlrows.specs.Filed.{WhereOpen};

use crate::fault::TableRunFault;
use crate::opening::TablePath;
use crate::paths::Paths;
use crate::reasons::{OpenReason, open_fault};
use hdl_durablerows::{Store, TableFault, open_file};
use hdl_programs::Fault;
use hdl_wal_check::{
    FILE_HEADER_LEN, FIRST_NOTE, FileSummary, Found, LogSummary, PairFault, SummaryFault, Verdict,
    WHOLE, is_settled, judge, summarize_file, summarize_log,
};
use sqlite::{Alter, Connection, FileFrom, Files, Wary};
use sqlite_std_file::OpenError;
use sqlite_trees::error::StoreError;
use sqlite_trees::store::Store as Committing;
use std::fs::{self, File};
use std::hash::{BuildHasher, RandomState};
use std::io::{BufReader, ErrorKind, Read};

/// How many first notes there are.
const RANGE: u64 = 0x3f00_0000;

/// The files of a table, which no other process opens meanwhile.
pub(crate) type LockedFiles = Files<FileFrom<Wary>>;

/// What a file notes as it is closed.
#[derive(Clone, Copy)]
pub enum LogNote {
    /// What it noted before, brought up to date: that it needs its log, or that it is whole.
    Kept,
    /// That it needs its log.
    Served,
    /// That it needs its log, by a note that no log has yet.
    New,
    /// That it is whole without one.
    Whole,
}

/// What is known of a file and of the log beside it.
#[derive(Clone, Copy)]
struct Inspected {
    file: FileSummary,
    log: LogSummary,
}

/// What is known of the file at a path. One that can't be read is left to the open, which says why.
fn inspect_file(rt: &HostRuntime, path: &str) -> FileSummary {
    let mut file = match File::open(rt, path) {
        Ok(file) => file,
        Err(e) if e.kind() == ErrorKind::NotFound => return FileSummary::Nothing,
        Err(_) => return FileSummary::Other,
    };
    let mut front = [0; FILE_HEADER_LEN];
    match file.read_exact(&mut front) {
        Ok(()) => summarize_file(&front),
        Err(e) if e.kind() == ErrorKind::UnexpectedEof => FileSummary::Nothing,
        Err(_) => FileSummary::Other,
    }
}

fn read_log(rt: &HostRuntime, file: File, note: u32) -> Result<LogSummary, SummaryFault> {
    let length = file.metadata()?.len();
    let mut input = BufReader::new(rt.alloc(), file)?;
    summarize_log(rt.alloc(), &mut input, length, note)
}

/// What is known of the log at a path, next to a file of which this is known.
fn inspect_log(
    rt: &HostRuntime,
    path: &str,
    beside: &FileSummary,
) -> Result<LogSummary, SummaryFault> {
    let note = match beside {
        FileSummary::Noted(note) => *note,
        _ => 0,
    };
    match File::open(rt, path) {
        Ok(file) => read_log(rt, file, note),
        Err(e) if e.kind() == ErrorKind::NotFound => Ok(LogSummary::Nothing),
        Err(e) => Err(SummaryFault::from(e)),
    }
}

/// What is left to the open, which says what is wrong.
const UNKNOWN: Inspected = Inspected {
    file: FileSummary::Other,
    log: LogSummary::Nothing,
};

/// Whether there is something at a path that is no file, as a pipe, which an open would wait for.
fn is_no_file(rt: &HostRuntime, path: &str) -> bool {
    match fs::metadata(rt, path) {
        Ok(found) => !found.is_file(),
        Err(_) => false,
    }
}

/// What is known of both.
fn inspect(rt: &HostRuntime, paths: &Paths) -> Result<Inspected, TableRunFault> {
    if is_no_file(rt, &paths.file) || is_no_file(rt, &paths.log) {
        return Ok(UNKNOWN);
    }
    let file = inspect_file(rt, &paths.file);
    match inspect_log(rt, &paths.log, &file) {
        Ok(log) => Ok(Inspected { file, log }),
        Err(SummaryFault::Memory) => Err(TableRunFault::from(Fault::NoMemory)),
        Err(SummaryFault::Device(ErrorKind::PermissionDenied)) => Ok(UNKNOWN),
        Err(SummaryFault::Device(_)) => Err(TableRunFault::from(TableFault::Device)),
    }
}

impl Inspected {
    fn verdict(&self) -> Verdict {
        judge(&self.file, &self.log)
    }

    fn needs_log(&self) -> bool {
        match self.file {
            FileSummary::Noted(note) => FIRST_NOTE <= note,
            _ => false,
        }
    }

    /// Whether the file has no note of its log, as earlier versions left it.
    fn has_no_note(&self) -> bool {
        match self.file {
            FileSummary::Noted(note) => note != WHOLE && note < FIRST_NOTE,
            _ => false,
        }
    }
}

/// Keeps every server from opening the file of a table, if one is there.
pub(crate) fn lock_file(
    rt: &HostRuntime,
    path: &str,
) -> Result<Option<LockedFiles>, TableRunFault> {
    match fs::symlink_metadata(rt, path) {
        Err(e) if e.kind() == ErrorKind::NotFound => return Ok(None),
        _ => {}
    }
    match sqlite_std_file::open(rt, path, Wary) {
        Ok(files) => Ok(Some(files)),
        Err(OpenError::Busy) => Err(TableRunFault::from(TableFault::InUse)),
        Err(OpenError::OutOfMemory) => Err(TableRunFault::from(Fault::NoMemory)),
        Err(_) => Err(open_fault(rt, path)),
    }
}

/// Whether another process has the two files open. Nothing is made.
fn is_in_use(rt: &HostRuntime, paths: &Paths) -> bool {
    if File::open(rt, &paths.log).is_err() {
        return false;
    }
    match lock_file(rt, &paths.file) {
        Err(TableRunFault::Table(TableFault::InUse)) => true,
        _ => false,
    }
}

/// Says what there is to tell of files that are opened.
fn report_verdict(rt: &HostRuntime, verdict: &Verdict) {
    match verdict {
        Verdict::Sound | Verdict::Refused(_) => {}
        Verdict::Ends(Found { end, length }) => {
            let _ = eprintln!(rt;
                "table: the log ends after {end} of {length} octets: the rest is a change that was never answered, or is damaged"
            );
        }
        Verdict::Begun => {
            let _ = eprintln!(rt;
                "table: the log has no front: the server was killed once all of it was in the file, or the front is damaged and its changes are lost"
            );
        }
    }
}

/// Whether another log than the file's own lies beside it, which has to go before the file is opened.
fn is_foreign_log(fault: PairFault) -> bool {
    match fault {
        PairFault::Another | PairFault::FileGone | PairFault::Front => true,
        PairFault::LogGone | PairFault::Damaged(_) => false,
    }
}

/// Puts another log than the file's own aside.
fn set_log_aside(rt: &HostRuntime, paths: &Paths) -> Result<(), TableRunFault> {
    if fs::symlink_metadata(rt, &paths.lost).is_ok() {
        return Err(TableRunFault::Unopened(OpenReason::Lost));
    }
    if let Err(e) = fs::rename(rt, &paths.log, &paths.lost) {
        return Err(TableRunFault::from(SummaryFault::from(e)));
    }
    let lost = paths.lost.as_str();
    let _ = eprintln!(rt; "table: the log that lay there is {lost} now");
    Ok(())
}

/// Says what is given up, and puts another log than the file's own aside.
fn accept_loss(rt: &HostRuntime, paths: &Paths, fault: PairFault) -> Result<(), TableRunFault> {
    let _ = eprintln!(rt; "table: {fault}: given up, as --accept-loss asks");
    if is_foreign_log(fault) {
        set_log_aside(rt, paths)
    } else {
        Ok(())
    }
}

/// Judges a file and the log beside it before they are opened, and says what there is to tell. Whether a log was given up that the file needs.
fn check_files(rt: &HostRuntime, table_path: &TablePath<'_>) -> Result<bool, TableRunFault> {
    let paths = Paths::resolved(rt, table_path.path)?;
    let inspected = inspect(rt, &paths)?;
    let verdict = inspected.verdict();
    if verdict != Verdict::Sound && is_in_use(rt, &paths) {
        return Err(TableRunFault::from(TableFault::InUse));
    }
    match verdict {
        Verdict::Refused(fault) if table_path.accepts_loss => {
            accept_loss(rt, &paths, fault)?;
            Ok(inspected.needs_log())
        }
        Verdict::Refused(fault) => Err(TableRunFault::Pair(fault)),
        told => {
            report_verdict(rt, &told);
            Ok(false)
        }
    }
}

/// Judges a copy of both. That a change was under way as they were copied isn't worth a word.
fn check_copied_files(rt: &HostRuntime, path: &str) -> Result<(), TableRunFault> {
    let paths = Paths::resolved(rt, path)?;
    match inspect(rt, &paths)?.verdict() {
        Verdict::Refused(fault) => Err(TableRunFault::Pair(fault)),
        _ => Ok(()),
    }
}

/// What is known of the log of a file that isn't open yet.
#[derive(Clone, Copy)]
pub enum LogState {
    /// It has nothing but its note, which the file needs.
    Settled,
    /// The file has no note of it, as earlier versions left it.
    Unnoted,
    /// It may have changes.
    Used,
}

/// What is known of the log of the file at a path, which isn't open yet.
pub fn log_state(rt: &HostRuntime, path: &str) -> Result<LogState, TableRunFault> {
    let inspected = inspect(rt, &Paths::resolved(rt, path)?)?;
    if is_settled(&inspected.file, &inspected.log) {
        Ok(LogState::Settled)
    } else if inspected.has_no_note() {
        Ok(LogState::Unnoted)
    } else {
        Ok(LogState::Used)
    }
}

/// Why a store that fails can't be closed in order.
fn fault_of(fault: StoreError) -> TableFault {
    match fault {
        StoreError::OutOfMemory => TableFault::Memory,
        StoreError::Full => TableFault::Full,
        StoreError::Corrupt => TableFault::Damaged,
        _ => TableFault::Device,
    }
}

/// Writes the note, if it is another one.
fn write_note<S: Alter>(store: &mut S, note: u32) -> Result<(), StoreError> {
    if store.version() == note {
        return Ok(());
    }
    store.set_version(note)?;
    store.commit()
}

/// A first note for a file that needs its log, by chance, so that tables have others.
fn first_note(rt: &HostRuntime) -> Result<u32, TableRunFault> {
    match RandomState::new(rt) {
        Ok(chance) => Ok(FIRST_NOTE.saturating_add((chance.hash_one(&0u8) % RANGE) as u32)),
        Err(_) => Err(TableRunFault::from(Fault::Device)),
    }
}

/// The note that a file is to have which has this one.
fn note_of(rt: &HostRuntime, note: LogNote, before: u32) -> Result<u32, TableRunFault> {
    match note {
        LogNote::Whole => Ok(WHOLE),
        LogNote::Kept if before < FIRST_NOTE => Ok(WHOLE),
        LogNote::Served if before < FIRST_NOTE => first_note(rt),
        LogNote::New => first_note(rt),
        LogNote::Kept | LogNote::Served => Ok(before.wrapping_add(1).max(FIRST_NOTE)),
    }
}

/// Writes the note that the file is to have. One that has a note, and is to need its log, gets the note behind its own first, by which the log is known as its own.
fn write_final_note<S: Alter>(store: &mut S, note: u32) -> Result<(), StoreError> {
    let before = store.version();
    if before != 0 && note != WHOLE {
        write_note(store, before.saturating_add(1))?;
    }
    write_note(store, note)
}

/// A store with a log beside its file.
trait LoggedStore: Alter {
    /// Moves the log into the file.
    fn checkpoint_pages(&mut self) -> Result<(), StoreError>;
}

impl LoggedStore for Store {
    fn checkpoint_pages(&mut self) -> Result<(), StoreError> {
        self.checkpoint()
    }
}

/// Moves the log into the file, which notes this if it can be written, and begins the log of a file that needs one. One that can't be begun is begun at the next
/// start.
fn checkpoint<S: LoggedStore + Drop>(store: S, note: u32) -> Result<(), StoreError> {
    let mut store = store;
    let noted = write_final_note(&mut store, note);
    store.rollback();
    store.checkpoint_pages()?;
    noted?;
    if FIRST_NOTE <= note {
        let _ = write_note(&mut store, note.saturating_add(1));
    }
    Ok(())
}

/// Notes what a file needs, moves its log into it, and closes it. What a full disk has no room for stays in the log, where a file that keeps its note needs no word.
pub(crate) fn close_with_note(
    rt: &HostRuntime,
    conn: Connection<Store>,
    note: LogNote,
) -> Result<(), TableRunFault> {
    let store = conn.into_store();
    let number = note_of(rt, note, store.version())?;
    match (checkpoint(store, number), note) {
        (Ok(()), _) | (Err(StoreError::Full), LogNote::Kept) => Ok(()),
        (Err(fault), _) => Err(TableRunFault::from(fault_of(fault))),
    }
}

/// Opens the file at a path, as [`open_file`] does, once it was judged. An open that is refused says why.
fn open_store(
    rt: &HostRuntime,
    path: &str,
    has_sums: bool,
) -> Result<Connection<Store>, TableRunFault>
    ensures mode { IfOk result (λ c. c.in_transaction ≡ false) }
    ensures even { IfOk result (λ c. WhereOpen (file_state c) ((file_state c).committed ≡ (file_state c).now)) }
{
    match open_file(rt, path, has_sums, Wary) {
        Ok(conn) => Ok(conn),
        Err(TableFault::CannotOpen) => Err(open_fault(rt, path)),
        Err(fault) => Err(TableRunFault::from(fault)),
    }
}

/// Takes away the empty log that an open leaves next to a file that is no database.
fn remove_empty(rt: &HostRuntime, log: &str) {
    if let Ok(found) = fs::symlink_metadata(rt, log) {
        if found.is_file() && found.len() == 0 {
            let _ = fs::remove_file(rt, log);
        }
    }
}

/// Opens a file that was judged. If it is no database, the log that the open makes next to it is taken away.
fn open_without_leftovers(
    rt: &HostRuntime,
    table_path: &TablePath<'_>,
) -> Result<Connection<Store>, TableRunFault>
    ensures mode { IfOk result (λ c. c.in_transaction ≡ false) }
    ensures even { IfOk result (λ c. WhereOpen (file_state c) ((file_state c).committed ≡ (file_state c).now)) }
{
    let paths = Paths::resolved(rt, table_path.path)?;
    let has_log = fs::symlink_metadata(rt, &paths.log).is_ok();
    let opened = open_store(rt, table_path.path, table_path.has_sums);
    if let Err(TableRunFault::Table(TableFault::Damaged)) = &opened {
        if !has_log {
            remove_empty(rt, &paths.log);
        }
    }
    opened
}

/// Gives a file that lost its log a new note, so that the lost one isn't taken for its own if it is put back.
fn renew_note(rt: &HostRuntime, table_path: &TablePath<'_>) -> Result<(), TableRunFault> {
    let conn = open_store(rt, table_path.path, table_path.has_sums)?;
    close_with_note(rt, conn, LogNote::New)
}

/// Judges the file at a path and the log beside it, and opens them.
pub(crate) fn open_checked(
    rt: &HostRuntime,
    table_path: &TablePath<'_>,
) -> Result<Connection<Store>, TableRunFault>
    ensures mode { IfOk result (λ c. c.in_transaction ≡ false) }
    ensures even { IfOk result (λ c. WhereOpen (file_state c) ((file_state c).committed ≡ (file_state c).now)) }
{
    if check_files(rt, table_path)? {
        renew_note(rt, table_path)?;
    }
    open_without_leftovers(rt, table_path)
}

/// Judges a copy of the file and the log beside it, and opens them.
pub(crate) fn open_copy(rt: &HostRuntime, path: &str) -> Result<Connection<Store>, TableRunFault>
    ensures mode { IfOk result (λ c. c.in_transaction ≡ false) }
    ensures even { IfOk result (λ c. WhereOpen (file_state c) ((file_state c).committed ≡ (file_state c).now)) }
{
    check_copied_files(rt, path)?;
    open_store(rt, path, true)
}
