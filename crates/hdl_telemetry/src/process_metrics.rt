//! What a server takes of the machine.

use std::fmt;
use std::fmt::Write;
use std::fs::{self, Files, OpenOptions};
use std::io::{self, Read};
use std::os::unix::fs::MetadataExt;
use std::sync::atomic::AtomicU64;
use std::sync::atomic::Ordering::SeqCst;

/// Where Linux says how many pages of memory the process has, and which descriptors.
const MEMORY: &str = "/proc/self/statm";

const DESCRIPTORS: &str = "/proc/self/fd";

/// How many octets a page has.
const PAGE: u64 = 4096;

/// How many octets what is said of memory has at most.
const LINE: usize = 256;

/// What a server takes of the machine, as it was seen last: 0 where that isn't known. Who looks and what shows it share it.
#[derive(Drop)]
pub struct ProcessMetrics {
    memory: AtomicU64,
    descriptors: AtomicU64,
    file: AtomicU64,
    log: AtomicU64,
}

/// How many pages are resident: the second number of what Linux says.
fn pages_in(line: &str) -> Option<u64> {
    let word = line.split(' ').nth(1)?;
    word.parse().ok()
}

/// How many octets of memory the process has, where the system says it.
fn memory<R: Files>(rt: &R) -> io::Result<u64> {
    let mut octets = [0; LINE];
    let mut options = OpenOptions::new();
    options.read(true);
    let count = options.open(rt, MEMORY)?.read(&mut octets)?;
    let line = str::from_utf8(&octets[..count.min(LINE)]).unwrap_or("");
    Ok(pages_in(line).unwrap_or(0).saturating_mul(PAGE))
}

/// How many descriptors the process has. Linux says it since version 6.2.
fn descriptors<R: Files>(rt: &R) -> io::Result<u64> {
    Ok(fs::metadata(rt, DESCRIPTORS)?.size())
}

impl ProcessMetrics {
    /// Nothing is known yet.
    pub fn new() -> ProcessMetrics {
        ProcessMetrics {
            memory: AtomicU64::new(0),
            descriptors: AtomicU64::new(0),
            file: AtomicU64::new(0),
            log: AtomicU64::new(0),
        }
    }

    /// Looks at the process.
    pub fn update<R: Files>(&self, rt: &R) {
        self.memory.store(memory(rt).unwrap_or(0), SeqCst);
        self.descriptors.store(descriptors(rt).unwrap_or(0), SeqCst);
    }

    /// The table's file and its log have so many octets.
    pub fn set_sizes(&self, file: u64, log: u64) {
        self.file.store(file, SeqCst);
        self.log.store(log, SeqCst);
    }

    /// Puts what is known (Prometheus' text format).
    pub fn put<W: Write>(&self, out: &mut W) -> fmt::Result {
        let all = [
            (
                &self.memory,
                "process_resident_memory_bytes",
                "Memory of the process.",
            ),
            (
                &self.descriptors,
                "process_open_fds",
                "Open descriptors of the process.",
            ),
            (
                &self.file,
                "handled_table_file_bytes",
                "Size of the table's file.",
            ),
            (
                &self.log,
                "handled_table_log_bytes",
                "Size of the log beside the table's file.",
            ),
        ];
        for (count, name, help) in all {
            let count = count.load(SeqCst);
            if count > 0 {
                writeln!(
                    out,
                    "# HELP {name} {help}\n# TYPE {name} gauge\n{name} {count}"
                )?;
            }
        }
        Ok(())
    }
}
