//! Opening a table, in memory alone or also in a file.

ghost use Rattle.std.specs.Prelude.{◌≡◌, false, IfOk};
ghost use Rattle.sqlite.specs.State.{HasCleanDisk};
ghost use Rattle.sqlite.specs.Files.{file_state};
ghost use Rattle.hdl_rows.specs.Table.{no_rows};
ghost use Rattle.hdl_sqlrows.specs.Filed.{WhereOpen};
ghost use Rattle.hdl_durablerows.specs.Threaded.{IfHere};
ghost use Rattle.hdl_durablerows.specs.Opened.{IsOpenedIn};
ghost use Rattle.hdl_tables.specs.Served.{IsSecond};

use crate::fault::TableRunFault;
use crate::pair::open_checked;
use hdl_cachedrows::CachedRows;
use hdl_core::Rows;
use hdl_durablerows::{
    DurableRows, ShutObserver, Store, TableFault, ThreadedFile, WriterThreads, table_with_threads,
};
use hdl_eitherrows::EitherRows;
use hdl_programs::Fault;
use hdl_rows::PlainRows;
use hdl_sqlrows::SqlRows;
use hdl_sqlrows::load::Progress;
use hdl_tenants::Tenants;
use sqlite::Connection;
use std::alloc::Global;
use std::fs::File;
use std::hash::RandomState;
use std::thread::Threads;

/// Where the file of a table is, and how it is opened.
#[derive(Clone, Copy)]
pub struct TablePath<'a> {
    pub path: &'a str,
    /// Whether a new one gets sums on its pages.
    pub has_sums: bool,
    /// Whether what its log lacks is given up.
    pub accepts_loss: bool,
}

/// The table in memory whose rows are also in a file.
pub type ServedFile<R, A> = DurableRows<PlainRows, ThreadedFile<R>, A>;

/// The table of a run, whose threads `R` starts, and of whose file `A` hears. It is one type, so that the program has one machine.
pub type Table<R, A> = EitherRows<CachedRows<SqlRows>, ServedFile<R, A>>;

/// An empty table in SQL, in memory, with a cache of at most `row_cache` octets.
pub fn empty_table<R: Threads + Drop, A: ShutObserver + Drop>(
    rt: &HostRuntime,
    row_cache: usize,
) -> Result<Table<R, A>, Fault>
    ensures empty { IfOk result (λ rows. ⟦<Table<R, A> as Rows>⟧.content rows ≡ no_rows) }
{
    let Ok(hasher) = RandomState::new(rt) else {
        return Err(Fault::Device);
    };
    let Ok(rows) = SqlRows::new(rt.alloc()) else {
        return Err(Fault::StoreRefused);
    };
    let rows = CachedRows::new(rt.alloc(), rows, row_cache, hasher)?;
    Ok(EitherRows::First(rows))
}

/// The table in the database of a file: what that has, with each handle of the text that was never opened there. If writes are made beside
/// the calls, a thread makes them.
pub fn table_in<R: Threads + Drop, A: ShutObserver + Progress + Drop>(
    machine: R,
    alloc: Global,
    conn: Connection<Store>,
    tenants: &Tenants,
    observer: A,
    is_threaded: bool,
) -> Result<Table<R, A>, TableFault>
    requires mode { conn.in_transaction ≡ false }
    requires even { WhereOpen (file_state conn) ((file_state conn).committed ≡ (file_state conn).now) }
    ensures opened { IfOk result (λ table. IsSecond table (λ rows. IfHere rows.file.place (λ s. HasCleanDisk s → IsOpenedIn (file_state conn) tenants.now.opening rows.table))) }
{
    let memory = (PlainRows::new(alloc), PlainRows::new(alloc));
    let writer = WriterThreads {
        rt: machine,
        alloc,
        is_threaded,
    };
    let opening = tenants.opening();
    let rows = table_with_threads(conn, memory, opening, observer, writer)?;
    Ok(EitherRows::Second(rows))
}

/// The table in the file at a path, as [`table_in`] tells it of what [`hdl_durablerows::open_file`] found there, once the file and its log were judged. An open that is
/// refused says why.
pub fn open_served<R: Threads + Drop, A: ShutObserver + Progress + Drop>(
    machine: R,
    rt: &HostRuntime,
    file: TablePath<'_>,
    tenants: &Tenants,
    observer: A,
    is_threaded: bool,
) -> Result<Table<R, A>, TableRunFault> {
    let conn = open_checked(rt, &file)?;
    Ok(table_in(machine, rt.alloc(), conn, tenants, observer, is_threaded)?)
}

/// Whether nothing can be opened at this path of a table's file yet.
pub fn is_new(rt: &HostRuntime, path: &str) -> bool {
    File::open(rt, path).is_err()
}
