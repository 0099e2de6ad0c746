//! CSV files, imported.
//!
//! ```text
//! header -> Columns;   a line -> its fields -> value_in_row -> the value
//! rows of one handle -> creation_task -> the request that creates it
//! of an update: rows -> question -> what is there -> steps -> the requests that modify what differs and add what is missing
//! ```
//!
//! A row is one line: nothing that can be imported has a line end in it, so a quote that isn't closed spoils its own line alone.

mod asking;
mod columns;
mod counts;
mod creating;
mod creation;
mod progress;
mod reading;
mod row;
mod rows;
mod together;
mod update;
mod updating;
mod written;

pub use asking::{ImportOptions, import_file};
pub(crate) use reading::whole_values;
pub use update::{KeptFields, update_is_right};
pub(crate) use written::{HEADER, row_of};
