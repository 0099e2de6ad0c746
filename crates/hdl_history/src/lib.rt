//! The history of changes: the line of each change in a file, and how it is read.
//!
//! ```text
//! MOMENT TAB OPERATION TAB HANDLE TAB KEY TAB INDEXES TAB VALUES.. LF
//!
//! 1700000000000  modify  0.NA/10  300:0.NA/10  1,2  1 URL 86400 1110 UTF8 https://a/  2 EMAIL 86400 1110 UTF8 a@b
//! ```
//!
//! docs/FILE.md has the fields in a table. VALUES are the values before the change, as hdl_value_lines writes them with keys hidden:
//! no secret is in a line. Values whose text is longer than [`VALUES_TEXT_MAX`] are left out, and their number stands there.
//!
//! [`values_before`] makes the lines of values, [`entry_line`] the line of an [`Entry`]. [`read_entry`] reads one, and
//! [`last_entries`] finds the last ones of a handle in a file.
//!
//! What it promises: `specs/Lines.antt` defines the line of each entry (`line_of`), and for each line the entry that it says or the
//! first field that is wrong (`entry_in`). The functions do just that, want of memory aside. [`written_is_read`] is the law: the line
//! of every entry says that entry, if the lines of its values have no tab and don't begin with `!`.
//!
//! ```rust
//! // crates/hdl_history_commands/src/file.rt
//! match fs::read(rt, file) {
//!     Ok(octets) => Ok(last_entries(rt.alloc(), &octets, name.canon(), count)?),
//!     Err(error) => Err(HistoryFault::File(error)),
//! }
//! ```
#![tactic(auto)]

mod entry;
mod fault;
mod fields;
mod find;
mod laws;
mod read;
mod write;

pub use entry::{Author, Entry, Operation, ValuesBefore};
pub use fault::EntryFault;
pub use find::{LastEntries, last_entries};
pub use laws::written_is_read;
pub use read::read_entry;
pub use write::{VALUES_TEXT_MAX, entry_line, values_before};
