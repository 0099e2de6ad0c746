//! What a server says of itself on standard error while it serves.

use hdl_telemetry::{BoundStatus, Health, LogStatus};
use std::alloc::AllocError;
use std::rt::Clock;
use std::sync::Arc;
use std::thread;
use std::time::Duration;

/// Milliseconds between two looks for what is due.
const PAUSE_MILLIS: u64 = 50;

/// What may have to be said: of the table, of the bounds of publishers, and of log and history, where there are any.
#[derive(Drop)]
pub struct Reporter {
    pub health: Arc<Health>,
    pub bounds: Arc<Vec<BoundStatus>>,
    pub logs: Arc<Vec<Arc<LogStatus>>>,
}

impl Reporter {
    /// A second handle of the same.
    pub fn try_clone(&self) -> Result<Reporter, AllocError> {
        Ok(Reporter {
            health: Arc::try_clone(&self.health)?,
            bounds: Arc::try_clone(&self.bounds)?,
            logs: Arc::try_clone(&self.logs)?,
        })
    }

    /// Whether a line is still to be printed.
    pub fn has_due(&self) -> bool {
        self.health.has_due()
            || self.bounds.iter().any(|bound| bound.notice.is_due())
            || self.logs.iter().any(|log| log.has_due())
    }

    /// Notes that no more lines of log and history come.
    pub fn end_logs(&self) {
        for log in self.logs.iter() {
            log.end();
        }
    }

    /// Whether the last lines of log and history are written, where there are any.
    pub fn are_logs_written(&self) -> bool {
        self.logs.iter().all(|log| log.is_written())
    }

    /// Says what is due.
    fn print_due<R: Eprint>(&self, rt: &R) {
        self.health.print_due(rt);
        for bound in self.bounds.iter() {
            bound.notice.print_if_due(rt);
        }
        for log in self.logs.iter() {
            log.print_due(rt);
        }
    }
}

/// Says what is due, as long as the program runs.
pub fn run_reporter<R: Clock + Eprint>(rt: &R, reporter: &Reporter) {
    for _ in 0..u64::MAX {
        reporter.print_due(rt);
        thread::sleep(rt, Duration::from_millis(PAUSE_MILLIS));
    }
}
