//! How far an import is.

use std::time::Instant;

/// How many seconds are between two lines of progress.
const PAUSE: u64 = 10;

/// The same in the last line of a terminal.
const WATCHED_PAUSE: u64 = 1;

/// How far an import is, and when that was said last. It is said in the last line of a terminal that shows nothing else, or else on lines of their own.
#[derive(Clone, Copy)]
pub(crate) struct Progress {
    /// How many rows the file has.
    all: usize,
    /// How many are done.
    done: usize,
    shows_progress: bool,
    /// When it was said last, or the import began; None without a clock.
    said: Option<Instant>,
}

impl Progress {
    /// That of an import of so many rows, which begins.
    pub fn new(rt: &HostRuntime, all: usize, shows_progress: bool) -> Progress {
        Progress {
            all,
            done: 0,
            shows_progress,
            said: Instant::now(rt).ok(),
        }
    }

    /// Whether it is time to say it.
    fn is_due(&mut self, rt: &HostRuntime) -> bool {
        let pause = if self.shows_progress {
            WATCHED_PAUSE
        } else {
            PAUSE
        };
        let (Some(said), Ok(now)) = (self.said, Instant::now(rt)) else {
            return false;
        };
        if now.duration_since(said).as_secs() < pause {
            return false;
        }
        self.said = Some(now);
        true
    }

    fn say(&self, rt: &HostRuntime) {
        let (done, all) = (self.done, self.all);
        let _ = if self.shows_progress {
            eprint!(rt; "\r{done} of {all} rows")
        } else {
            eprintln!(rt; "hdl: {done} of {all} rows")
        };
    }

    /// Notes that the rows are done up to this one, and says it if it is time.
    pub fn note(&mut self, rt: &HostRuntime, row: usize) {
        self.done = self.done.max(row);
        if self.is_due(rt) {
            self.say(rt);
        }
    }

    /// Says it for the last time where a terminal shows it.
    pub fn end(&self, rt: &HostRuntime) {
        if self.shows_progress {
            self.say(rt);
            let _ = eprintln!(rt);
        }
    }
}
