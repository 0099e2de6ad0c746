//! The value table that lasts: a table in memory, and beside it a database, as a SQLite file, that has the same rows.
//!
//! [`DurableRows`] has a table in memory, whatever keeps it, and a file ([`DurableFile`]): a database's rows ([`FileRows`]), whose writes are made by their calls, or a
//! [`ThreadedFile`], whose writes a thread makes. What is asked is answered from memory; each write is one transaction in the database, committed and synced,
//! and then the same write in memory. Only then it is answered. So the contract is that of `hdl_rows::Rows`, word for word, whatever the disk does.
//!
//! # The write that stands between
//!
//! A call that is refused may leave its write between the file and memory. The table owes it then (`hdl_rows::Owing`): the same call, come again, goes on with
//! it, and each other is refused.
//!
//! | What stands between | What is known | The same call | Another call, in its turn |
//! |---|---|---|---|
//! | nothing | the file has just what memory has | begins its write | begins its write |
//! | begun | a thread makes the write, or it failed and the store couldn't be asked | ends it, unless it goes on | ends it, unless it goes on |
//! | ahead | the file has the write, memory refused it so far | memory is tried again | begins to undo it in the file, unless the file refuses |
//! | undoing | the file has the write, and its inverse was begun | ends the undo, unless it goes on | ends the undo, unless it goes on |
//! | unknown | the store has shut, with the write or without it | refused for good | refused for good |
//!
//! Contracts see that write (`owed`), and what a crash leaves is this table, or this table after that write, and no other
//! ([`DurableRows::after_a_crash`], [`DurableRows::after_a_crash_threaded`]).
//!
//! ```rust
//! // crates/hdl_program_tests/src/lasting_rows.rt
//! let rows = PlainRows::new(alloc);
//! let spare = PlainRows::new(alloc);
//! Ok(table_with_file(alloc, conn, rows, spare, &[(name, first)], NoObserver)?)
//! ```
//!
//! # Decisions
//!
//! - **Reads go to memory.** What a disk returns may be wrong, and no clause of `Rows` has a condition on that.
//! - **The database first, then memory.** A write that the database refuses is refused, and memory is as it was. The other order would have to take
//!   a write back in memory, which memory may refuse.
//! - **Only what can't be known shuts the table for writes.** Where the store has shut, the disk may have the write or not. Each later write is then
//!   refused, reads go on, and the next open finds one of the two tables. Where memory refuses behind a commit nothing is unknown: the write stays owed.
//! - **Whether the store has shut is asked of it** after a write that failed: the kit's connection has no other call for it than a statement that
//!   is refused. Where memory for that statement is refused nothing is known yet: the write stays begun, and the store is asked again.
//! - **A write that nobody comes for is undone in the file,** and not made in memory: the call that was refused was told that nothing changed, and the
//!   call that comes was decided over the table as it is. A file that other servers read refuses that ([`DurableFile::undo`]): the write stays owed.
//! - **A thread and the file share one flag**, by which the thread says that it is done. No clause rests on it: behind it the thread is joined.
#![tactic(auto)]

mod backing_file;
mod disk;
mod durable_file;
mod durable_rows;
mod fault;
mod filerows;
mod inverse;
mod observer;
mod opening;
mod pending;
mod places;
mod threaded;
mod write;

pub use disk::{DiskRows, Store};
pub use durable_file::{DurableFile, WriteState};
pub use durable_rows::DurableRows;
pub use fault::TableFault;
pub use filerows::FileRows;
pub use inverse::{can_undo, own_indexes_stay, undone};
pub use observer::ShutObserver;
pub use opening::{FileTable, open_file, rows_from_file, table_with_file, table_with_threads};
pub use threaded::{FileHolder, ThreadedFile, WritePromise, WriterThreads};
pub use write::{OwnedWrite, Write};
