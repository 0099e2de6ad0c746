//! The clock of the thread that serves, which looks at files and at the process while it has nothing to do.

use hdl_listeners::Monitoring;
use hdl_serve::LoopClock;
use hdl_sockets::MachineClock;
use hdl_telemetry::{FileWatch, Health, LogFile, ProcessMetrics};
use std::alloc::{AllocError, Global};
use std::fs::Files;
use std::mem;
use std::rt::Clock;
use std::sync::Arc;
use std::time::{Duration, Instant};

/// Seconds between two looks.
const PAUSE_SECONDS: u64 = 2;

/// The table's file and those of log and history, if there are any, and what is informed of what is seen.
#[derive(Drop)]
pub struct ResourceMonitor {
    file: Option<FileWatch>,
    logs: Vec<LogFile>,
    health: Arc<Health>,
    process_metrics: Arc<ProcessMetrics>,
}

/// The monitor of the files and of the process.
pub fn resource_monitor_of(
    alloc: Global,
    monitoring: &mut Monitoring,
) -> Result<ResourceMonitor, AllocError> {
    let logs = mem::replace(&mut monitoring.log_files, Vec::new(alloc));
    Ok(ResourceMonitor {
        file: monitoring.file.take(),
        logs,
        health: Arc::try_clone(&monitoring.health)?,
        process_metrics: Arc::try_clone(&monitoring.process_metrics)?,
    })
}

impl ResourceMonitor {
    /// Looks at the files and at the process, and opens log and history anew if that was asked for.
    fn check<R: Files>(&mut self, rt: &R) {
        if let Some(file) = &self.file {
            self.health.note_file(file.loss(rt));
            let (octets, log) = file.sizes(rt);
            self.process_metrics.set_sizes(octets, log);
        }
        for log in self.logs.iter_mut() {
            log.reopen_if_requested();
        }
        self.process_metrics.update(rt);
    }
}

/// A machine's clock, at whose pauses the monitor looks now and then.
#[derive(Drop)]
pub struct MonitoringClock<R> {
    rt: R,
    clock: MachineClock<R>,
    monitor: ResourceMonitor,
    /// When it was looked last.
    checked: Option<Instant>,
}

impl<R: Clock + Files> MonitoringClock<R> {
    /// This clock, and what looks.
    pub fn new(rt: R, clock: MachineClock<R>, monitor: ResourceMonitor) -> MonitoringClock<R> {
        MonitoringClock {
            rt,
            clock,
            monitor,
            checked: None,
        }
    }

    /// Notes that a look begins, if it is time. Whether it is.
    fn begin_if_due(&mut self) -> bool {
        let Ok(now) = Instant::now(&self.rt) else {
            return false;
        };
        let is_due = match self.checked {
            Some(checked) => now.saturating_duration_since(checked)
                >= Duration::from_secs(PAUSE_SECONDS),
            None => true,
        };
        if is_due {
            self.checked = Some(now);
        }
        is_due
    }

    /// Has the monitor look, if it is time.
    fn check(&mut self) {
        if self.begin_if_due() {
            self.monitor.check(&self.rt);
        }
    }
}

impl<R: Clock + Files> LoopClock for MonitoringClock<R> {
    ghost use Rattle.std.specs.Prelude.{false, []};

    ghost is_observed = { false };

    ghost answers = { λ _. [] };

    fn now(&mut self) -> u64 {
        self.clock.now()
    }

    fn pause(&mut self) {
        self.check();
        self.clock.pause();
    }

    fn waited(&self) -> Duration {
        self.clock.waited()
    }

    fn note_work(&mut self) {
        self.clock.note_work();
    }
}
