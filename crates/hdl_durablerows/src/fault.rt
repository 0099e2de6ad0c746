//! Why the file of a table can't be opened.

use hdl_rows::Refused;
use hdl_sqlrows::{LoadFault, StoreFault};
use sqlite::{Error as StoreError, ErrorCode};
use std::alloc::{AllocError, AllocFailed};
use thiserror::Error;

/// Why the file of a table can't be opened. What it holds is as it was.
#[derive(Clone, Copy, Debug, PartialEq, Eq, Error)]
pub enum TableFault {
    #[error("table: in use: another process has the file open; end that one first")]
    InUse,
    #[error("table: cannot open: the file can't be made, or isn't a regular file that this user may read and write; check the path, its folder and their permissions")]
    CannotOpen,
    #[error("table: damaged: the file is not a SQLite database, or a page, its checksum or the log is wrong (a sqlite3 without checksums spoils them by writing); restore a copy")]
    Damaged,
    #[error("table: another layout: the file is a SQLite database, but not one of this program, or it was copied without its log; name another file, and make copies by handled copy")]
    Layout,
    /// A row that no write of this program makes.
    #[error("table: unsound row: {0}; correct the row, or restore a copy")]
    Row(LoadFault),
    #[error("table: disk full: make room, then start again")]
    Full,
    /// A read, a write or a sync failed.
    #[error("table: device fault: a read, a write or a sync of the file failed: check the disk")]
    Device,
    #[error("no memory")]
    Memory,
}

impl From<StoreError> for TableFault {
    fn from(fault: StoreError) -> TableFault {
        match fault {
            StoreError::SqliteFailure(code) => match code {
                ErrorCode::DatabaseBusy => TableFault::InUse,
                ErrorCode::CannotOpen => TableFault::CannotOpen,
                ErrorCode::NotADatabase | ErrorCode::DatabaseCorrupt => TableFault::Damaged,
                ErrorCode::DiskFull => TableFault::Full,
                ErrorCode::OutOfMemory => TableFault::Memory,
                _ => TableFault::Device,
            },
            _ => TableFault::Layout,
        }
    }
}

impl From<LoadFault> for TableFault {
    fn from(fault: LoadFault) -> TableFault {
        match fault {
            LoadFault::Memory | LoadFault::Table => TableFault::Memory,
            LoadFault::Store => TableFault::Device,
            row => TableFault::Row(row),
        }
    }
}

impl From<AllocError> for TableFault {
    fn from(_fault: AllocError) -> TableFault {
        TableFault::Memory
    }
}

impl<T: Drop> From<AllocFailed<T>> for TableFault {
    fn from(_fault: AllocFailed<T>) -> TableFault {
        TableFault::Memory
    }
}

/// A write of the file or of the table in memory was refused.
impl From<StoreFault> for TableFault {
    fn from(_fault: StoreFault) -> TableFault {
        TableFault::Device
    }
}

impl From<Refused> for TableFault {
    fn from(_refused: Refused) -> TableFault {
        TableFault::Memory
    }
}
