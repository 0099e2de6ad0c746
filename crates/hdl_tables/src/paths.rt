//! The paths of a table's two files: the file, and the log next to it.

use hdl_programs::Fault;
use std::fs;

/// The paths of a file and of what is next to it.
#[derive(Drop)]
pub(crate) struct Paths {
    pub file: String,
    pub log: String,
    /// Where the log of a file that is replaced lies until the new one is in its place.
    pub aside: String,
    /// Where a log lies that was given up.
    pub lost: String,
    /// What SQLite leaves of a change that was cut off.
    pub journal: String,
    /// What is made next to it to see whether files can be made there.
    pub trial: String,
}

impl Paths {
    /// The paths of this file and of its log.
    pub(crate) fn at(rt: &HostRuntime, file: &str) -> Result<Paths, Fault> {
        let alloc = rt.alloc();
        Ok(Paths {
            file: String::from_str(alloc, file)?,
            log: format!(in alloc; "{file}-wal")?,
            aside: format!(in alloc; "{file}-wal.replaced")?,
            lost: format!(in alloc; "{file}-wal.lost")?,
            journal: format!(in alloc; "{file}-journal")?,
            trial: format!(in alloc; "{file}-trial")?,
        })
    }

    /// Those where links lead: the log is next to the file that is found there.
    pub(crate) fn resolved(rt: &HostRuntime, path: &str) -> Result<Paths, Fault> {
        match fs::canonicalize(rt, path) {
            Ok(real) => Paths::at(rt, real.as_str()),
            Err(_) => Paths::at(rt, path),
        }
    }
}

/// The path of the folder that a file lies in.
pub(crate) fn folder_of(path: &str) -> &str {
    match path.rsplit_once('/') {
        Some(("", _)) => "/",
        Some((folder, _)) => folder,
        None => ".",
    }
}
