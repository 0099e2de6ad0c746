//! The changes of a handle in a file.

use crate::fault::HistoryFault;
use hdl_history::{LastEntries, last_entries};
use hdl_name::Name;
use std::fs;

/// The last changes of a handle in a file.
pub(crate) fn changes_of(
    rt: &HostRuntime,
    handle: &str,
    file: &str,
    count: usize,
) -> Result<LastEntries, HistoryFault> {
    let name = match Name::read(rt.alloc(), handle.as_bytes()) {
        Ok(name) => name,
        Err(fault) => return Err(HistoryFault::Handle(fault)),
    };
    match fs::read(rt, file) {
        Ok(octets) => Ok(last_entries(rt.alloc(), &octets, name.canon(), count)?),
        Err(error) => Err(HistoryFault::File(error)),
    }
}

/// The last change of a handle in a file, the first of `found`, and whether there are older ones.
#[derive(Drop)]
pub(crate) struct LastChange {
    pub(crate) found: LastEntries,
    pub(crate) has_older: bool,
}

pub(crate) fn last_change_of(
    rt: &HostRuntime,
    handle: &str,
    file: &str,
) -> Result<LastChange, HistoryFault> {
    let both = changes_of(rt, handle, file, 2)?;
    let has_older = both.entries.len() > 1 || both.unreadable > 0 && !both.entries.is_empty();
    // an entry that is read may stand before a last line that isn't
    let found = if both.unreadable == 0 {
        both
    } else {
        changes_of(rt, handle, file, 1)?
    };
    Ok(LastChange { found, has_older })
}
