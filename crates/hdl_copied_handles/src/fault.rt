//! Why a copy can't be read.

use sqlite::{Error as StoreError, ErrorCode};
use std::alloc::{AllocError, AllocFailed};
use thiserror::Error;

/// Why a copy can't be read. It is as it was.
#[derive(Clone, Copy, Debug, PartialEq, Eq, Error)]
pub enum CopyFault {
    #[error("the file is missing, or this proxy's user may not write it and its folder: name a copy that `handled copy` made")]
    CannotOpen,
    #[error("another process has the file open: name a copy, not the server's own file")]
    InUse,
    #[error("the file is no SQLite database, or is damaged: make another copy by `handled copy`")]
    Damaged,
    #[error("the file is a database, but not a copy of a table: make one with `handled copy`")]
    Layout,
    #[error("a read of the file failed")]
    Device,
    #[error("no memory")]
    Memory,
}

impl From<StoreError> for CopyFault {
    fn from(fault: StoreError) -> CopyFault {
        match fault {
            StoreError::SqliteFailure(code) => match code {
                ErrorCode::DatabaseBusy => CopyFault::InUse,
                ErrorCode::CannotOpen => CopyFault::CannotOpen,
                ErrorCode::NotADatabase | ErrorCode::DatabaseCorrupt => CopyFault::Damaged,
                ErrorCode::OutOfMemory => CopyFault::Memory,
                _ => CopyFault::Device,
            },
            _ => CopyFault::Layout,
        }
    }
}

impl From<AllocError> for CopyFault {
    fn from(_: AllocError) -> CopyFault {
        CopyFault::Memory
    }
}

impl<T: Drop> From<AllocFailed<T>> for CopyFault {
    fn from(_: AllocFailed<T>) -> CopyFault {
        CopyFault::Memory
    }
}
