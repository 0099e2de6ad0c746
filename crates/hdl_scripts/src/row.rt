//! A row: a script, and what it is to tell.

use std::{fs, io};

/// How often anything is tried. One request for memory or one call of the table is refused at a time, so the second try has it.
pub(crate) const TRIES: u32 = 2;

/// A script, and the lines that it is to print with its exit status behind them.
#[derive(Drop)]
pub(crate) struct StoredScript {
    pub script: String,
    pub expected: String,
}

fn read(rt: &HostRuntime, name: &str) -> io::Result<StoredScript> {
    let script = fs::read_to_string(rt, format!(in rt.alloc(); "{name}.script")?)?;
    let expected = fs::read_to_string(rt, format!(in rt.alloc(); "{name}.expected")?)?;
    Ok(StoredScript { script, expected })
}

/// The row of this name in the folder. None: it can't be read.
pub(crate) fn row_of(rt: &HostRuntime, name: &str) -> Option<StoredScript> {
    for _ in 0..TRIES {
        if let Ok(row) = read(rt, name) {
            return Some(row);
        }
    }
    None
}
