//! The rows of a table in a file of the operating system.

ghost use Rattle.std.specs.Prelude.{◌≡◌};
ghost use Rattle.sqlite.specs.Files.{file_state};
ghost use Rattle.hdl_rows.specs.Table.{Table};
ghost use Rattle.hdl_rows.specs.Write.{CanWrite};
ghost use Rattle.hdl_durablerows.specs.Durable.{IsKept, IsTried, LeavesIn, StandsIn, left_by};
ghost use Rattle.hdl_durablerows.specs.Writes.{write_of};

use crate::durable_file::{DurableFile, WriteState};
use crate::filerows::FileRows;
use crate::write::Write;
use sqlite::{FileFrom, FileStore, Wary};

/// The store of a file that a thread may have.
pub type Store = FileStore<FileFrom<Wary>>;

/// The rows of a table in a file of the operating system. In this crate what is generic in stores is called of this store here and where the file is opened, and nowhere
/// else: each such call, an end of the rows' life too, makes its caller's proof long (docs/GATE.md).
#[derive(Drop)]
pub struct DiskRows {
    pub rows: FileRows<Store>,
}

impl DiskRows {
    /// Makes the write in the file.
    pub(crate) fn begin(&mut self, write: &Write<'_>) -> WriteState
        requires can { (t : Table) × IsKept t (file_state self.old.rows) × CanWrite t (write_of write.now) }
        ensures { LeavesIn (file_state self.old.rows) (file_state self.new.rows) (write_of write.now) result }
    {
        self.rows.begin(write)
    }

    /// Asks again what became of a write that failed.
    pub(crate) fn end(&mut self, write: &Write<'_>) -> WriteState
        requires begun { (t : Table) × IsTried t (write_of write.now) (file_state self.old.rows) }
        ensures { (t : Table) → IsTried t (write_of write.now) (file_state self.old.rows) → StandsIn (file_state self.new.rows) (left_by t (write_of write.now) result) }
    {
        self.rows.end(write)
    }
}
