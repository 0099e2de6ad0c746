//! Replacements: URLs of a prefix's handles that begin otherwise afterwards.
//!
//! ```text
//! PREFIX -> the handles that the server lists;   FILE -> those that it names
//! handle -> its URLs -> all_replaced -> the rows that undo it, the request that modifies them
//! ```

mod asking;
mod data;
mod fault;
mod run;

pub use asking::{ReplaceOptions, replace_urls};
