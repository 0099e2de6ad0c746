//! `hdl history`.

use crate::fault::HistoryFault;
use crate::file::changes_of;
use crate::words::change_text;
use hdl_value_lines::index_in;

/// Which changes are shown.
#[derive(Drop)]
pub struct HistoryOptions {
    pub handle: String,
    /// The path of the history.
    pub file: String,
    /// How many at most, in words; without it all.
    pub last: Option<String>,
}

fn count_of(options: &HistoryOptions) -> Result<usize, HistoryFault> {
    let Some(word) = &options.last else {
        return Ok(usize::MAX);
    };
    match index_in(word) {
        Some(count) => Ok(count as usize),
        None => Err(HistoryFault::Last),
    }
}

/// Prints the changes of a handle, the newest first: moment, operation, indexes and who made it, and under it the values before. Lines
/// that can't be read are a fault after the others were printed.
pub fn show_history(rt: &HostRuntime, options: &HistoryOptions) -> Result<(), HistoryFault> {
    let count = count_of(options)?;
    let found = changes_of(rt, &options.handle, &options.file, count)?;
    if found.entries.is_empty() && found.unreadable == 0 {
        return Err(HistoryFault::NoChange);
    }
    for entry in &found.entries {
        let text = change_text(rt.alloc(), entry)?;
        print!(rt; "{text}")?;
    }
    if found.unreadable == 0 {
        Ok(())
    } else {
        Err(HistoryFault::Damaged(found.unreadable))
    }
}
