//! Closing a table's file.

use crate::fault::TableRunFault;
use crate::opening::ServedFile;
use crate::pair::{LogNote, close_with_note};
use hdl_durablerows::{ShutObserver, TableFault};
use hdl_eitherrows::EitherRows;
use std::thread::Threads;

/// What has a file, which is closed at the end.
pub trait Closing {
    /// Notes in the file what it needs, and copies the log into it.
    fn close(self, rt: &HostRuntime, note: LogNote) -> Result<(), TableRunFault>;
}

impl<R: Threads + Drop, A: ShutObserver + Drop> Closing for ServedFile<R, A> {
    fn close(self, rt: &HostRuntime, note: LogNote) -> Result<(), TableRunFault> {
        let Some(file) = self.into_file().into_file() else {
            return Err(TableRunFault::Table(TableFault::Device));
        };
        close_with_note(rt, file.into_connection(), note)
    }
}

impl<A: Drop, B: Closing + Drop> Closing for EitherRows<A, B> {
    fn close(self, rt: &HostRuntime, note: LogNote) -> Result<(), TableRunFault> {
        match self {
            EitherRows::First(_) => Ok(()),
            EitherRows::Second(rows) => rows.close(rt, note),
        }
    }
}
