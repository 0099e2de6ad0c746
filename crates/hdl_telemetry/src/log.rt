//! The log of changes and their history, whose lines a thread of their own writes.
//!
//! ```text
//! the recorder of a lane, the thread that serves -> LogSender ==a queue for each==> Log::write_lines -> standard error, or a file
//! ```

use crate::log_file::{LogFile, drop_last, drop_torn_line, is_fifo, open_log};
use crate::log_status::{Backlog, LogKind, LogStatus};
use hdl_lanes::{Inlet, Outlet, lane};
use std::alloc::{AllocError, Global};
use std::fs::File;
use std::io::{self, ErrorKind, Write};
use std::rt::Clock;
use std::sync::Arc;
use std::thread;
use std::time::Duration;

/// For how many milliseconds the thread sleeps that found no line.
const PAUSE_MILLIS: u64 = 20;

/// How many files wait at most to be written to.
const FILES_MOST: usize = 1;

/// Where lines go.
#[derive(Drop)]
enum Sink {
    Errors,
    File(File),
}

/// Where the recorder of a lane sends its lines. Sending one waits for nothing.
#[derive(Drop)]
pub struct LogSender {
    lines: Inlet<String>,
    backlog: Arc<Backlog>,
    status: Arc<LogStatus>,
}

impl LogSender {
    /// Sends a line, with its LF. Where too many wait it is lost, and counted.
    pub fn send(&mut self, line: String) {
        let octets = line.len() as u64;
        if !self.backlog.reserve(octets) {
            return self.status.count_lost();
        }
        if self.lines.put(line).is_err() {
            self.backlog.release(octets);
            self.status.count_lost();
        }
    }

    /// Notes that a line couldn't be made.
    pub fn count_lost(&self) {
        self.status.count_lost();
    }
}

/// The other end of a sender.
#[derive(Drop)]
struct Queue {
    lines: Outlet<String>,
    backlog: Arc<Backlog>,
}

impl Queue {
    /// Takes the line that waits longest.
    fn take(&mut self) -> Option<String> {
        let line = self.lines.take()?;
        self.backlog.release(line.len() as u64);
        Some(line)
    }
}

/// Writes octets to the end of a file. If that fails, how many were written.
fn write_octets(file: &mut File, octets: &[u8]) -> Result<(), usize> {
    let mut rest = octets;
    for _ in 0..octets.len() {
        if rest.is_empty() {
            break;
        }
        match file.write(rest) {
            Ok(count) => rest = rest.get(count..).unwrap_or(&[]),
            Err(e) if e.kind() == ErrorKind::Interrupted => {}
            Err(_) => break,
        }
    }
    if rest.is_empty() {
        return Ok(());
    }
    Err(octets.len().saturating_sub(rest.len()))
}

/// What writes lines.
#[derive(Drop)]
struct LogWriter {
    sink: Sink,
    /// Where the file comes from once it was opened anew.
    files: Option<Outlet<File>>,
    status: Arc<LogStatus>,
    /// Whether the last line couldn't be written, and how many octets of a part of one the file ends with.
    is_failing: bool,
    torn: usize,
    /// Whether lines are brought onto the disk, and whether some aren't there yet.
    syncs: bool,
    is_unsynced: bool,
}

impl LogWriter {
    /// Takes the part of a line off the file, if there is one. In a FIFO, which can't lose it, the line is ended: so the next one stands by itself.
    fn drop_torn_part(&mut self) {
        if let Sink::File(file) = &mut self.sink {
            if self.torn > 0
                && (drop_last(file, self.torn).is_ok() || write_octets(file, b"\n").is_ok())
            {
                self.torn = 0;
            }
        }
    }

    /// Writes a line by one call. Whether it was written.
    fn put<R: Eprint>(&mut self, rt: &R, line: &str) -> bool {
        match &mut self.sink {
            Sink::Errors => eprint!(rt; "{line}").is_ok(),
            Sink::File(file) => match write_octets(file, line.as_bytes()) {
                Ok(()) => true,
                Err(written) => {
                    self.torn = written;
                    false
                }
            },
        }
    }

    /// Writes a line, or counts it as lost.
    fn write<R: Eprint>(&mut self, rt: &R, line: &str) {
        self.drop_torn_part();
        self.is_failing = self.torn > 0 || !self.put(rt, line);
        if self.is_failing {
            self.status.fail();
        }
        self.is_unsynced = self.syncs;
    }

    /// For when no line waits: brings what was written onto the disk, if that is asked for.
    fn sync(&mut self) {
        if !self.is_unsynced {
            return;
        }
        self.is_unsynced = false;
        if let Sink::File(file) = &self.sink {
            if file.sync_data().is_err() {
                self.status.fail();
            }
        }
    }

    /// Goes on in the file that was opened anew, if one was. The one before is closed.
    fn switch_file(&mut self) {
        if let Some(files) = &mut self.files {
            if let Some(file) = files.take() {
                self.sync();
                self.sink = Sink::File(file);
                self.torn = 0;
            }
        }
    }

    /// For when no line waits: reports how many lines were lost, if lines can be written.
    fn report_lost(&self) {
        if !self.is_failing {
            self.status.report_lost();
        }
    }
}

/// Where the lines of changes go, and the queue of each sender.
#[derive(Drop)]
pub struct Log {
    kind: LogKind,
    queues: Vec<Queue>,
    writer: LogWriter,
}

impl Log {
    fn new(alloc: Global, kind: LogKind, sink: Sink) -> io::Result<Log> {
        let status = Arc::new(alloc, LogStatus::new(alloc, kind)?)?;
        Ok(Log {
            kind,
            queues: Vec::new(alloc),
            writer: LogWriter {
                sink,
                files: None,
                status,
                is_failing: false,
                torn: 0,
                syncs: kind == LogKind::History,
                is_unsynced: false,
            },
        })
    }

    /// A log that goes to standard error.
    pub fn to_errors(alloc: Global) -> io::Result<Log> {
        Log::new(alloc, LogKind::Log, Sink::Errors)
    }

    /// A log that appends to the file at a path, and what opens that anew. The file is made if it isn't there. What a crash left of its last line is taken off.
    pub fn to_file(rt: &HostRuntime, kind: LogKind, path: &str) -> io::Result<(Log, LogFile)> {
        let alloc = rt.alloc();
        if !is_fifo(rt, path) {
            let dropped = drop_torn_line(rt, path);
            if kind == LogKind::History {
                dropped?;
            }
        }
        let mut log = Log::new(alloc, kind, Sink::File(open_log(rt, path)?))?;
        let (inlet, files) = lane(alloc, FILES_MOST)?;
        log.writer.files = Some(files);
        let file = LogFile {
            rt: *rt,
            path: String::from_str(alloc, path)?,
            files: inlet,
            status: log.status()?,
        };
        Ok((log, file))
    }

    /// The status of the log.
    pub fn status(&self) -> Result<Arc<LogStatus>, AllocError> {
        Ok(Arc::try_clone(&self.writer.status)?)
    }

    /// A sender for one more lane.
    pub fn sender(&mut self, alloc: Global) -> Result<LogSender, AllocError> {
        let (inlet, lines) = lane(alloc, self.kind.lines_most())?;
        let backlog = Arc::new(alloc, Backlog::new(self.kind.octets_most()))?;
        let queue = Queue {
            lines,
            backlog: Arc::try_clone(&backlog)?,
        };
        self.queues.push(queue)?;
        Ok(LogSender {
            lines: inlet,
            backlog,
            status: self.status()?,
        })
    }

    /// Writes a line of each sender that sent one. Whether any did.
    fn write_round<R: Eprint>(&mut self, rt: &R) -> bool {
        let mut any = false;
        for queue in self.queues.iter_mut() {
            if let Some(line) = queue.take() {
                self.writer.write(rt, line.as_str());
                any = true;
            }
        }
        any
    }

    /// Writes the lines that are sent, until no more come.
    pub fn write_lines<R: Clock + Eprint>(&mut self, rt: &R) {
        for _ in 0..u64::MAX {
            let has_ended = self.writer.status.has_ended();
            self.writer.switch_file();
            if self.write_round(rt) {
                continue;
            }
            self.writer.sync();
            self.writer.report_lost();
            if has_ended {
                break;
            }
            thread::sleep(rt, Duration::from_millis(PAUSE_MILLIS));
        }
        self.writer.status.set_written();
    }
}
