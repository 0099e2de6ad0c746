//! The values of options.

use crate::invocation::TableFile;
use clap::ArgMatches;
use std::alloc::{AllocError, Global};

/// A copy of a word, if there is one.
pub fn copy_of(alloc: Global, word: Option<&str>) -> Result<Option<String>, AllocError> {
    match word {
        Some(word) => Ok(Some(String::from_str(alloc, word)?)),
        None => Ok(None),
    }
}

/// What follows a required option.
pub fn required(alloc: Global, found: &ArgMatches, option: &str) -> Result<String, AllocError> {
    String::from_str(alloc, found.get_str(option).unwrap_or(""))
}

/// The file that the table is in.
pub fn table_file(alloc: Global, found: &ArgMatches) -> Result<Option<TableFile>, AllocError> {
    match found.get_str("table") {
        Some(path) => Ok(Some(TableFile {
            path: String::from_str(alloc, path)?,
            has_sums: !found.get_flag("no-sums"),
            accepts_loss: found.get_flag("accept-loss"),
        })),
        None => Ok(None),
    }
}
