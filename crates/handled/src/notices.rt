//! What a server says on standard error: as it begins, of its table's file, and as it ends.

use hdl_core::Tenants;
use hdl_durablerows::ShutObserver;
use hdl_host::{AMPLIFY_DEFAULT, Health, Limits};
use hdl_programs::VERSION;
use hdl_sqlrows::load::Progress;
use std::alloc::AllocError;
use std::sync::Arc;
use std::time::Duration;
use std::{fmt, thread};

/// Where the table is.
#[derive(Clone, Copy)]
pub enum TableDescription<'a> {
    /// In memory alone; the handles that were read last may take `row_cache` octets.
    Memory { row_cache: usize },
    /// In the file at this path.
    File { path: &'a str, takes_changes: bool },
    /// In etcd, below this name.
    Cluster(&'a str),
}

impl fmt::Display for TableDescription<'_> {
    fn fmt<W: fmt::Write>(&self, f: &mut fmt::Formatter<W>) -> fmt::Result {
        match self {
            TableDescription::Memory { row_cache } => write!(
                f,
                "memory, row cache {row_cache} octets"
            ),
            TableDescription::File {
                path,
                takes_changes: true,
            } => write!(f, "{path}"),
            TableDescription::File { path, .. } => write!(
                f,
                "{path}, read-only: changes are answered 5"
            ),
            TableDescription::Cluster(name) => write!(f, "cluster {name}"),
        }
    }
}

/// What a server begins with.
#[derive(Clone, Copy)]
struct Startup<'a> {
    publishers: usize,
    lanes: u16,
    kept: TableDescription<'a>,
    limits: Limits,
}

impl fmt::Display for Startup<'_> {
    fn fmt<W: fmt::Write>(&self, f: &mut fmt::Formatter<W>) -> fmt::Result {
        let Limits {
            turns,
            idle_seconds,
            crowd,
            amplify,
            reserve,
        } = self.limits;
        write!(
            f,
            "publishers {}, lanes {}, table in {}",
            self.publishers, self.lanes, self.kept
        )?;
        write!(f, ", idle {idle_seconds} seconds, crowd {crowd}, amplify ")?;
        match amplify {
            Some(times) => write!(f, "{times}")?,
            None => write!(f, "{AMPLIFY_DEFAULT} beyond loopback")?,
        }
        write!(f, ", reserve {reserve} octets")?;
        if turns < u64::MAX {
            write!(f, ", turns {turns}")?;
        }
        Ok(())
    }
}

/// What is said once the server listens: which program, over which table, for which, and within which limits.
pub fn startup_line_of(
    rt: &HostRuntime,
    tenants: &Tenants,
    kept: TableDescription<'_>,
    limits: Limits,
) -> Result<String, AllocError> {
    let startup = Startup {
        publishers: tenants.publishers(),
        lanes: tenants.lanes(),
        kept,
        limits,
    };
    format!(in rt.alloc(); "handled {VERSION}: begins: {startup}\n")
}

/// How often it is looked whether the last line was said, and for how many milliseconds each time.
const CHECKS_MOST: u32 = 100;

const CHECK_MILLIS: u64 = 20;

/// Has it said that the server ends, and why. If no one reads standard error, it waits two seconds.
pub fn report_end(rt: &HostRuntime, health: &Health, was_asked: bool) {
    health.end(was_asked);
    for _ in 0..CHECKS_MOST {
        if !health.has_due() {
            break;
        }
        thread::sleep(rt, Duration::from_millis(CHECK_MILLIS));
    }
}

/// A line is printed each time this many rows were read.
const STEP: u64 = 100_000;

/// Says on standard error how far the load of a large table is, and has it said that the table takes no more writes.
#[derive(Drop)]
pub struct TableNotices {
    rt: HostRuntime,
    /// What is reported of the table.
    health: Arc<Health>,
    /// How many times it was reported that the table takes no more writes.
    shut_notices: u64,
}

impl TableNotices {
    /// Notices of which none was printed yet.
    pub fn new(rt: &HostRuntime, health: Arc<Health>) -> TableNotices {
        TableNotices {
            rt: *rt,
            health,
            shut_notices: 0,
        }
    }
}

impl ShutObserver for TableNotices {
    ghost shut_notices = { λ s. s.shut_notices };

    fn note_shut(&mut self) {
        self.shut_notices = self.shut_notices.saturating_add(1);
        self.health.shut();
    }
}

impl Progress for TableNotices {
    fn handles(&mut self, count: u64) {
        if count % STEP == 0 {
            let _ = eprintln!(self.rt; "table: {count} handles read");
        }
    }

    fn values(&mut self, count: u64) {
        if count % STEP == 0 {
            let _ = eprintln!(self.rt; "table: {count} values read");
        }
    }
}
