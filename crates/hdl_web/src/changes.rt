//! The last changes of a handle, for its form.

use hdl_forms::SHOWN_MOST;
use hdl_history::{Entry, last_entries};
use hdl_name::Name;
use std::alloc::Global;
use std::fs::File;
use std::io::{self, Read, Seek, SeekFrom};

/// How many octets of the end of a history are read at most.
const END_MOST: u64 = 262_144;

/// The history of a server, as `handled serve --history` writes it.
#[derive(Drop)]
pub(crate) struct ChangeHistory {
    rt: HostRuntime,
    path: String,
}

/// What stands behind the first line end.
fn without_first_line(octets: &[u8]) -> &[u8] {
    match octets.iter().position(|octet| *octet == b'\n') {
        Some(place) => octets.get(place + 1..).unwrap_or(&[]),
        None => &[],
    }
}

impl ChangeHistory {
    /// The history in the file at a path. One that can't be opened is refused.
    pub(crate) fn open(rt: &HostRuntime, path: &str) -> io::Result<ChangeHistory> {
        drop(File::open(rt, path)?);
        let path = String::from_str(rt.alloc(), path)?;
        Ok(ChangeHistory { rt: *rt, path })
    }

    /// The last changes of a handle that stand in the end of the file, newest first.
    fn read(&self, alloc: Global, name: &Name) -> io::Result<Vec<Entry>> {
        let mut file = File::open(&self.rt, self.path.as_str())?;
        let size = file.seek(SeekFrom::End(0))?;
        let from = size.saturating_sub(END_MOST);
        file.seek(SeekFrom::Start(from))?;
        let mut octets = Vec::new(alloc);
        file.take(END_MOST).read_to_end(&mut octets)?;
        let lines = if from == 0 {
            octets.as_slice()
        } else {
            without_first_line(&octets)
        };
        Ok(last_entries(alloc, lines, name.canon(), SHOWN_MOST)?.entries)
    }

    /// The last changes of a handle, newest first; none if the file can't be read.
    pub(crate) fn last(&self, alloc: Global, name: &Name) -> Vec<Entry> {
        match self.read(alloc, name) {
            Ok(entries) => entries,
            Err(_) => Vec::new(alloc),
        }
    }
}
