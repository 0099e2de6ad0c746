//! Opening the database of a table.

ghost use Rattle.std.specs.Prelude.{◌≡◌, ◌≢◌, false, AllPairs, IfOk, OnOk, map};
ghost use Rattle.sqlite.specs.State.{HasCleanDisk};
ghost use Rattle.sqlite.specs.Held.{state};
ghost use Rattle.sqlite.specs.Start.{FindsIn};
ghost use Rattle.sqlite.specs.Files.{file_state};
ghost use Rattle.sqlite_wal.specs.Files.{image_at};
ghost use Rattle.hdl_value.specs.Place.{Place};
ghost use Rattle.hdl_rows.specs.Table.{no_rows, IsPlaced};
ghost use Rattle.hdl_sqlrows.specs.Layout.{layout, no_schema};
ghost use Rattle.hdl_sqlrows.specs.Filed.{WhereOpen, IsFiled, filed_table};
ghost use Rattle.hdl_sqlrows.specs.Stored.{IsBetweenCalls};
ghost use Rattle.hdl_sqlrows.specs.Opening.{place_of, opened_with, filed_base, no_base};
ghost use Rattle.hdl_durablerows.specs.Durable.{IsKept};
ghost use Rattle.hdl_durablerows.specs.Threaded.{IfHere};
ghost use Rattle.hdl_durablerows.specs.Opened.{IsOpenedIn};

use crate::disk::{DiskRows, Store};
use crate::durable_rows::DurableRows;
use crate::fault::TableFault;
use crate::filerows::FileRows;
use crate::observer::ShutObserver;
use crate::threaded::{ThreadedFile, WriterThreads};
use hdl_name::Name;
use hdl_rows::Rows;
use hdl_sqlrows::known::{FoundDatabase, tables_of};
use hdl_sqlrows::load::{Progress, load};
use hdl_sqlrows::opening::{are_opened, open_more, open_new};
use hdl_value::Value;
use sqlite::{Alter, Connection, FileFrom, FileStore, Start};
use std::alloc::Global;
use std::fs::OpenOptions;
use std::io;
use std::os::unix::fs::OpenOptionsExt;
use std::thread::Threads;

/// The path that the kit's SQL takes for a table in memory, and refuses here.
const IN_MEMORY: &str = ":memory:";

/// A table over a file of the operating system.
pub type FileTable<R, S, A> = DurableRows<R, FileRows<FileStore<FileFrom<S>>>, A>;

/// Makes a file that isn't there, for its owner alone to read and write, since a table has secret keys. The log beside it gets the same mode.
fn make_private(rt: &HostRuntime, path: &str) -> io::Result<()> {
    let _made = OpenOptions::new()
        .write(true)
        .create_new(true)
        .mode(0o600)
        .open(rt, path)?;
    Ok(())
}

/// Opens the file of a table, or makes it. Where the files held what a crash of an earlier run could leave, it finds a database that the crash
/// allows (`next_run` of `sqlite`). `has_sums` gives a new file a sum on each page.
pub fn open_file<S: Start>(
    rt: &HostRuntime,
    path: &str,
    has_sums: bool,
    start: S,
) -> Result<Connection<FileStore<FileFrom<S>>>, TableFault>
    ensures mode { IfOk result (λ c. c.in_transaction ≡ false) }
    ensures even { IfOk result (λ c. WhereOpen (file_state c) ((file_state c).committed ≡ (file_state c).now)) }
    ensures found { IfOk result (λ c. HasCleanDisk (file_state c) → FindsIn (image_at S.Start) (file_state c)) }
{
    if path != IN_MEMORY {
        // A file that is there stays as it is, and what is wrong with the path the open says.
        let _ = make_private(rt, path);
    }
    match Connection::open_from(rt, path, has_sums, start) {
        Ok(conn) => Ok(conn),
        Err((fault, _)) => Err(TableFault::from(fault)),
    }
}

/// Makes the tables in a database that has none, opens the handles, and puts them into the table in memory.
fn begin<R: Rows, S: Alter, P: Progress>(
    conn: &mut Connection<S>,
    alloc: Global,
    rows: &mut R,
    opening: &[(Name, Value)],
    progress: &mut P,
) -> Result<(), TableFault>
    requires mode { conn.old.in_transaction ≡ false }
    requires even { WhereOpen (state S.Store conn.old) ((state S.Store conn.old).committed ≡ (state S.Store conn.old).now) }
    requires blank { (state S.Store conn.old).now.schema ≡ no_schema }
    requires empty { R.content rows.old ≡ no_rows }
    requires distinct { AllPairs (λ (p q : Place). p ≢ q) (map place_of opening.now) }
    ensures mode { conn.new.in_transaction ≡ false }
    ensures settled { OnOk result (HasCleanDisk (state S.Store conn.new) → IsBetweenCalls (state S.Store conn.new)) }
    ensures filed { OnOk result (HasCleanDisk (state S.Store conn.new) → IsFiled (state S.Store conn.new) (R.content rows.new)) }
    ensures placed { OnOk result (IsPlaced (R.content rows.new)) }
    ensures opened { OnOk result (HasCleanDisk (state S.Store conn.new) → R.content rows.new ≡ (opened_with no_base opening.now).table) }
{
    open_new(conn, alloc, opening)?;
    load(conn, alloc, rows, progress)?;
    Ok(())
}

/// Opens the handles that weren't opened yet, and puts all rows into the table in memory.
fn open_rest<R: Rows + Drop, S: Alter, P: Progress>(
    conn: &mut Connection<S>,
    alloc: Global,
    rows: R,
    opening: &[(Name, Value)],
    progress: &mut P,
) -> Result<R, TableFault>
    requires mode { conn.old.in_transaction ≡ false }
    requires settled { WhereOpen (state S.Store conn.old) (IsBetweenCalls (state S.Store conn.old)) }
    requires placed { WhereOpen (state S.Store conn.old) (IsPlaced (filed_table (state S.Store conn.old))) }
    requires empty { R.content rows ≡ no_rows }
    requires distinct { AllPairs (λ (p q : Place). p ≢ q) (map place_of opening.now) }
    ensures clean { OnOk result (HasCleanDisk (state S.Store conn.new) → HasCleanDisk (state S.Store conn.old)) }
    ensures mode { conn.new.in_transaction ≡ false }
    ensures settled { OnOk result (HasCleanDisk (state S.Store conn.new) → IsBetweenCalls (state S.Store conn.new)) }
    ensures filed { IfOk result (λ r. HasCleanDisk (state S.Store conn.new) → IsFiled (state S.Store conn.new) (R.content r)) }
    ensures placed { IfOk result (λ r. IsPlaced (R.content r)) }
    ensures opened { IfOk result (λ r. HasCleanDisk (state S.Store conn.new) → R.content r ≡ (opened_with (filed_base (state S.Store conn.old)) opening.now).table) }
{
    open_more(conn, alloc, opening)?;
    let mut rows = rows;
    load(conn, alloc, &mut rows, progress)?;
    Ok(rows)
}

/// The table that was found, where each handle was opened before. Else the rest are opened, and all rows are put into the other table.
fn reopen<R: Rows + Drop, S: Alter, P: Progress>(
    conn: &mut Connection<S>,
    alloc: Global,
    found: R,
    rows: R,
    opening: &[(Name, Value)],
    progress: &mut P,
) -> Result<R, TableFault>
    requires mode { conn.old.in_transaction ≡ false }
    requires settled { HasCleanDisk (state S.Store conn.old) → IsBetweenCalls (state S.Store conn.old) }
    requires filed { HasCleanDisk (state S.Store conn.old) → IsFiled (state S.Store conn.old) (R.content found) }
    requires placed { IsPlaced (R.content found) }
    requires empty { R.content rows ≡ no_rows }
    requires distinct { AllPairs (λ (p q : Place). p ≢ q) (map place_of opening.now) }
    ensures clean { OnOk result (HasCleanDisk (state S.Store conn.new) → HasCleanDisk (state S.Store conn.old)) }
    ensures mode { conn.new.in_transaction ≡ false }
    ensures settled { OnOk result (HasCleanDisk (state S.Store conn.new) → IsBetweenCalls (state S.Store conn.new)) }
    ensures filed { IfOk result (λ r. HasCleanDisk (state S.Store conn.new) → IsFiled (state S.Store conn.new) (R.content r)) }
    ensures placed { IfOk result (λ r. IsPlaced (R.content r)) }
    ensures opened { IfOk result (λ r. HasCleanDisk (state S.Store conn.new) → R.content r ≡ (opened_with (filed_base (state S.Store conn.old)) opening.now).table) }
{
    let are_opened = are_opened(conn, alloc, opening)?;
    // A store that has shut since would refuse it.
    let _ = conn.prepare("SELECT 1")?;
    if are_opened {
        Ok(found)
    } else {
        drop(found);
        open_rest(conn, alloc, rows, opening, progress)
    }
}

/// Puts the rows of a database, once they were found sound, into the table in memory, with the handles opened that weren't yet. They are read
/// again, into the other table, only where such a handle is left.
fn resume<R: Rows + Drop, S: Alter, P: Progress>(
    conn: &mut Connection<S>,
    alloc: Global,
    rows: R,
    spare: R,
    opening: &[(Name, Value)],
    progress: &mut P,
) -> Result<R, TableFault>
    requires mode { conn.old.in_transaction ≡ false }
    requires layout { (state S.Store conn.old).now.schema ≡ layout }
    requires empty { R.content rows ≡ no_rows }
    requires spare { R.content spare ≡ no_rows }
    requires distinct { AllPairs (λ (p q : Place). p ≢ q) (map place_of opening.now) }
    ensures mode { conn.new.in_transaction ≡ false }
    ensures settled { OnOk result (HasCleanDisk (state S.Store conn.new) → IsBetweenCalls (state S.Store conn.new)) }
    ensures filed { IfOk result (λ r. HasCleanDisk (state S.Store conn.new) → IsFiled (state S.Store conn.new) (R.content r)) }
    ensures placed { IfOk result (λ r. IsPlaced (R.content r)) }
    ensures opened { IfOk result (λ r. HasCleanDisk (state S.Store conn.new) → R.content r ≡ (opened_with (filed_base (state S.Store conn.old)) opening.now).table) }
{
    let mut found = rows;
    load(conn, alloc, &mut found, progress)?;
    reopen(conn, alloc, found, spare, opening, progress)
}

/// The rows of a database, with the handles that weren't opened yet opened, in a table in memory.
fn rows_over<R: Rows + Drop, S: Alter, P: Progress>(
    conn: &mut Connection<S>,
    alloc: Global,
    rows: R,
    spare: R,
    opening: &[(Name, Value)],
    progress: &mut P,
) -> Result<R, TableFault>
    requires mode { conn.old.in_transaction ≡ false }
    requires even { WhereOpen (state S.Store conn.old) ((state S.Store conn.old).committed ≡ (state S.Store conn.old).now) }
    requires empty { R.content rows ≡ no_rows }
    requires spare { R.content spare ≡ no_rows }
    requires distinct { AllPairs (λ (p q : Place). p ≢ q) (map place_of opening.now) }
    ensures mode { conn.new.in_transaction ≡ false }
    ensures settled { OnOk result (HasCleanDisk (state S.Store conn.new) → IsBetweenCalls (state S.Store conn.new)) }
    ensures filed { IfOk result (λ r. HasCleanDisk (state S.Store conn.new) → IsFiled (state S.Store conn.new) (R.content r)) }
    ensures placed { IfOk result (λ r. IsPlaced (R.content r)) }
    ensures made { (state S.Store conn.old).now.schema ≡ no_schema → IfOk result (λ r. HasCleanDisk (state S.Store conn.new) → R.content r ≡ (opened_with no_base opening.now).table) }
    ensures found { (state S.Store conn.old).now.schema ≡ layout → IfOk result (λ r. HasCleanDisk (state S.Store conn.new) → R.content r ≡ (opened_with (filed_base (state S.Store conn.old)) opening.now).table) }
    ensures opened { IfOk result (λ r. HasCleanDisk (state S.Store conn.new) → IsOpenedIn (state S.Store conn.old) opening.now (R.content r)) }
{
    match tables_of(conn) {
        FoundDatabase::Nothing => {
            let mut rows = rows;
            begin(conn, alloc, &mut rows, opening, progress)?;
            Ok(rows)
        }
        FoundDatabase::Tables => resume(conn, alloc, rows, spare, opening, progress),
        FoundDatabase::Other => Err(TableFault::Layout),
    }
}

/// The rows of a database, with the handles that weren't opened yet opened, in a table in memory, and the file that keeps this table: for a [`DurableFile`](crate::DurableFile) over this file.
pub fn rows_from_file<R: Rows + Drop, S: Alter + Drop, P: Progress>(
    alloc: Global,
    mut conn: Connection<S>,
    rows: R,
    spare: R,
    opening: &[(Name, Value)],
    progress: &mut P,
) -> Result<(R, FileRows<S>), TableFault>
    requires mode { conn.in_transaction ≡ false }
    requires even { WhereOpen (state S.Store conn) ((state S.Store conn).committed ≡ (state S.Store conn).now) }
    requires empty { R.content rows ≡ no_rows }
    requires spare { R.content spare ≡ no_rows }
    requires distinct { AllPairs (λ (p q : Place). p ≢ q) (map place_of opening.now) }
    ensures kept { IfOk result (λ p. IsKept (R.content p.0) (state S.Store p.1)) }
    ensures placed { IfOk result (λ p. IsPlaced (R.content p.0)) }
    ensures made { (state S.Store conn).now.schema ≡ no_schema → IfOk result (λ p. HasCleanDisk (state S.Store p.1) → R.content p.0 ≡ (opened_with no_base opening.now).table) }
    ensures found { (state S.Store conn).now.schema ≡ layout → IfOk result (λ p. HasCleanDisk (state S.Store p.1) → R.content p.0 ≡ (opened_with (filed_base (state S.Store conn)) opening.now).table) }
    ensures opened { IfOk result (λ p. HasCleanDisk (state S.Store p.1) → IsOpenedIn (state S.Store conn) opening.now (R.content p.0)) }
{
    let rows = rows_over(&mut conn, alloc, rows, spare, opening, progress)?;
    let file = FileRows::over(alloc, conn);
    file.after_a_crash();
    Ok((rows, file))
}

/// The table over a database: with the handles that weren't opened yet opened, each once. Where the database has no table yet, they are made.
/// The rows go into the first of the two tables in memory, both empty; where a handle is left to open they are read again, into the spare one.
/// The alarm is told how far the load is.
///
/// Refused: where the database has other tables, an unsound row, or where memory or the store refused.
pub fn table_with_file<R: Rows + Drop, S: Alter + Drop, A: ShutObserver + Progress + Drop>(
    alloc: Global,
    conn: Connection<S>,
    rows: R,
    spare: R,
    opening: &[(Name, Value)],
    mut observer: A,
) -> Result<DurableRows<R, FileRows<S>, A>, TableFault>
    requires mode { conn.in_transaction ≡ false }
    requires even { WhereOpen (state S.Store conn) ((state S.Store conn).committed ≡ (state S.Store conn).now) }
    requires empty { R.content rows ≡ no_rows }
    requires spare { R.content spare ≡ no_rows }
    requires distinct { AllPairs (λ (p q : Place). p ≢ q) (map place_of opening.now) }
    ensures made { (state S.Store conn).now.schema ≡ no_schema → IfOk result (λ t. HasCleanDisk (state S.Store t.file) → t.table ≡ (opened_with no_base opening.now).table) }
    ensures found { (state S.Store conn).now.schema ≡ layout → IfOk result (λ t. HasCleanDisk (state S.Store t.file) → t.table ≡ (opened_with (filed_base (state S.Store conn)) opening.now).table) }
    ensures writable { IfOk result (λ t. t.is_shut ≡ false) }
{
    let (rows, file) = rows_from_file(alloc, conn, rows, spare, opening, &mut observer)?;
    Ok(DurableRows::over(alloc, rows, file, observer))
}

/// As [`table_with_file`], of a file whose writes threads make. The first of the two tables in memory gets the rows.
pub fn table_with_threads<R: Rows + Drop, T: Threads + Drop, A: ShutObserver + Progress + Drop>(
    conn: Connection<Store>,
    memory: (R, R),
    opening: &[(Name, Value)],
    observer: A,
    writer: WriterThreads<T>,
) -> Result<DurableRows<R, ThreadedFile<T>, A>, TableFault>
    requires mode { conn.in_transaction ≡ false }
    requires even { WhereOpen (file_state conn) ((file_state conn).committed ≡ (file_state conn).now) }
    requires empty { R.content memory.0 ≡ no_rows }
    requires spare { R.content memory.1 ≡ no_rows }
    requires distinct { AllPairs (λ (p q : Place). p ≢ q) (map place_of opening.now) }
    ensures made { (file_state conn).now.schema ≡ no_schema → IfOk result (λ t. IfHere t.file.place (λ s. HasCleanDisk s → t.table ≡ (opened_with no_base opening.now).table)) }
    ensures found { (file_state conn).now.schema ≡ layout → IfOk result (λ t. IfHere t.file.place (λ s. HasCleanDisk s → t.table ≡ (opened_with (filed_base (file_state conn)) opening.now).table)) }
    ensures opened { IfOk result (λ t. IfHere t.file.place (λ s. HasCleanDisk s → IsOpenedIn (file_state conn) opening.now t.table)) }
    ensures writable { IfOk result (λ t. t.is_shut ≡ false) }
{
    let (rows, spare) = memory;
    let mut observer = observer;
    let alloc = writer.alloc;
    let (rows, file) = rows_from_file(alloc, conn, rows, spare, opening, &mut observer)?;
    let file = ThreadedFile::over(DiskRows { rows: file }, writer);
    Ok(DurableRows::over(alloc, rows, file, observer))
}
