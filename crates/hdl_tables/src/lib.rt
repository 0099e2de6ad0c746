//! The tables of `handled`, in memory alone or also in a file; and what is done with a table's file that no server has open.
//!
//! ```text
//! empty_table  -> Table::First      in SQL, in memory, the handles that were read last kept
//! open_served  -> Table::Second     in memory and in a file, which has each write before it is answered
//! run_over_file    -> a FileWork over the table in a file: Export is one, a replayed script another
//! copy_table   -> a copy of the file, while a server has it open or not
//! restore_table -> such a copy, checked, in the place of the file
//! ```
//!
//! Before the file is opened, it and the log beside it are judged by `hdl_wal_check`; what is refused is opened only where its loss is given up. The log of one that is
//! served is moved into it at the start: where [`log_state`] says that something may stand there alone, the program closes the table behind its open, and opens it again.
//!
//! It is the program's part: what is not said in a clause is safe, and no more is promised. It stands in a crate of its own, which knows no sockets, so that it is proved
//! beside what serves. Who hears of a table's file (how far its load is, that it takes no more writes) is a type of the caller's.
//!
//! ```rust
//! // crates/handled/src/main.rt
//! let rows = empty_table::<R, TableNotices>(rt, 0)?;
//! Ok(replay_input(rt, rows)?)
//! ```
#![tactic(auto)]

mod closing;
mod copying;
mod exporting;
mod fault;
mod file;
mod opening;
mod pair;
mod paths;
mod reasons;
mod restoring;

pub use closing::Closing;
pub use copying::{CopyFault, copy_table};
pub use exporting::{
    Export, ExportText, WriteFault, check_new_path, check_publisher, has_publisher, publisher_names,
};
pub use fault::TableRunFault;
pub use file::{FileWork, run_over_file};
pub use opening::{Table, TablePath, empty_table, is_new, open_served, table_in};
pub use pair::{LogNote, LogState, log_state};
pub use reasons::{FileOwner, OpenReason, missing_fault};
pub use restoring::{RestoreFault, restore_table};
