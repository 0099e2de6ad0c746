//! A line for each visit.

use crate::metrics::{AnswerKind, kind_of};
use crate::shared::Shared;
use crossbeam_channel::{Receiver, Sender};
use hdl_proxy::{Answer, Status};
use jiff_core::Timestamp;
use jiff_fmt::temporal::DateTimePrinter;
use percent_encoding::{AsciiSet, CONTROLS, ascii_set, percent_encode};
use std::alloc::{AllocError, Global};
use std::fs::File;
use std::io::{self, Eprint, Stdout, Write};
use std::sync::atomic::Ordering;
use std::sync::{Arc, Wait};
use std::time::{Clock, Instant, SystemTime};

/// The most lines that wait to be written.
const LINES_MOST: usize = 10_000;

/// What is escaped in a line: what isn't graphic ASCII, and quotes.
const IN_LINE: AsciiSet = ascii_set!(CONTROLS.add(b' ').add(b'"').add(b'\\'));

/// Where lines are written.
#[derive(Drop)]
pub enum Log {
    File(File),
    Output(Stdout),
}

impl Write for Log {
    fn write(&mut self, octets: &[u8]) -> io::Result<usize> {
        match self {
            Log::File(file) => file.write(octets),
            Log::Output(output) => output.write(octets),
        }
    }

    fn flush(&mut self) -> io::Result<()> {
        match self {
            Log::File(file) => file.flush(),
            Log::Output(output) => output.flush(),
        }
    }
}

/// What stands for the method and the path of a request whose head couldn't be read.
const UNREAD: &str = "-";

/// A visit that is over: what was asked for, and what was answered.
#[derive(Drop)]
pub(crate) struct AccessLogEntry {
    /// When it came, in milliseconds since 1970.
    moment: u64,
    method: String,
    path: String,
    status: u16,
    octets: usize,
    microseconds: u128,
}

/// A visit that isn't over yet.
#[derive(Drop)]
pub(crate) struct PendingEntry<R> {
    pub(crate) shared: Arc<Shared<R>>,
    asked: Option<RequestLine>,
}

/// What a visit asked for, where its line is written.
#[derive(Drop)]
struct RequestLine {
    began: Instant,
    moment: u64,
    method: String,
    path: String,
}

/// The milliseconds since 1970, or 0 where the clock fails.
fn moment<R: Clock>(rt: &R) -> u64 {
    let Ok(now) = SystemTime::now(rt) else {
        return 0;
    };
    match now.duration_since(SystemTime::UNIX_EPOCH) {
        Ok(since) => u64::try_from(since.as_millis()).unwrap_or(0),
        Err(_) => 0,
    }
}

fn begin_line<R: Clock>(rt: &R, alloc: Global, method: &str, path: &str) -> Option<RequestLine> {
    Some(RequestLine {
        began: Instant::now(rt).ok()?,
        moment: moment(rt),
        method: String::from_str(alloc, method).ok()?,
        path: String::from_str(alloc, path).ok()?,
    })
}

/// The line of a request that `hyper` refused with this status, since its head couldn't be read; without memory there is none.
fn unread<R: Clock>(rt: &R, alloc: Global, status: u16) -> Option<AccessLogEntry> {
    Some(AccessLogEntry {
        moment: moment(rt),
        method: String::from_str(alloc, UNREAD).ok()?,
        path: String::from_str(alloc, UNREAD).ok()?,
        status,
        octets: 0,
        microseconds: 0,
    })
}

impl<R: Wait + Clock> Shared<R> {
    /// Sends a line on its way, or counts it as lost.
    fn write(&self, entries: &Sender<AccessLogEntry>, entry: AccessLogEntry) {
        if entries.len() >= LINES_MOST || entries.send(&self.rt, entry).is_err() {
            self.counts.lost.fetch_add(1, Ordering::Relaxed);
        }
    }

    /// A request was refused with this status, since its head couldn't be read: its line is written, where any are.
    pub(crate) fn note_refusal(&self, status: u16) {
        let Some(entries) = &self.entries else {
            return;
        };
        if let Some(entry) = unread(&self.rt, self.alloc, status) {
            self.write(entries, entry);
        }
    }
}

impl<R: Wait + Clock> PendingEntry<R> {
    /// A visit begins. Without memory it has no line.
    pub(crate) fn new(shared: Arc<Shared<R>>, method: &str, path: &str) -> PendingEntry<R> {
        let asked = match &shared.entries {
            Some(_) => begin_line(&shared.rt, shared.alloc, method, path),
            None => None,
        };
        PendingEntry { shared, asked }
    }

    /// Notes that the visit is over, with this answer: counts it, and writes its line.
    pub(crate) fn end(&mut self, answer: &Answer) {
        let status = answer.status.number();
        self.shared
            .counts
            .count_answer(&self.shared.rt, kind_of(answer), status);
        self.note_end(status, answer.body.len());
    }

    /// Notes that the visit is over, with a redirect, and the length of its body in octets.
    pub(crate) fn end_redirect(&mut self, octets: usize) {
        let status = Status::Found.number();
        self.shared
            .counts
            .count_answer(&self.shared.rt, AnswerKind::Redirect, status);
        self.note_end(status, octets);
    }

    /// Writes the visit's line, if there is a log.
    pub(crate) fn note_end(&mut self, status: u16, octets: usize) {
        let (Some(entries), Some(asked)) = (&self.shared.entries, self.asked.take()) else {
            return;
        };
        let octets = if asked.method.as_str() == "HEAD" {
            0
        } else {
            octets
        };
        let microseconds = match asked.began.elapsed(&self.shared.rt) {
            Ok(time) => time.as_micros(),
            Err(_) => 0,
        };
        let entry = AccessLogEntry {
            moment: asked.moment,
            method: asked.method,
            path: asked.path,
            status,
            octets,
            microseconds,
        };
        self.shared.write(entries, entry);
    }
}

/// The line of a visit: moment, method, path, status, octets, microseconds.
fn line(alloc: Global, entry: &AccessLogEntry) -> Result<String, AllocError> {
    let nanoseconds = i128::from(entry.moment) * 1_000_000;
    let mut line = String::new(alloc);
    if let Ok(moment) = Timestamp::from_nanosecond(nanoseconds) {
        line.push_str(DateTimePrinter::new().timestamp_text(moment).as_str())?;
    }
    line.push(' ')?;
    percent_encode(entry.method.as_bytes(), IN_LINE).append_to(&mut line)?;
    line.push(' ')?;
    percent_encode(entry.path.as_bytes(), IN_LINE).append_to(&mut line)?;
    let rest = format!(in alloc;
        " {} {} {}\n",
        entry.status, entry.octets, entry.microseconds
    )?;
    line.push_str(&rest)?;
    Ok(line)
}

/// Writes the line of a visit.
fn write_line<W: Write>(alloc: Global, out: &mut W, entry: &AccessLogEntry) -> bool {
    let Ok(line) = line(alloc, entry) else {
        return false;
    };
    out.write_all(line.as_bytes()).is_ok() && out.flush().is_ok()
}

/// Writes the lines of visits, until no sender is left. The first line that can't be written is reported.
pub(crate) fn write_lines<R: Wait + Eprint, W: Write + Drop>(
    rt: &R,
    alloc: Global,
    mut out: W,
    entries: Receiver<AccessLogEntry>,
) {
    let mut is_said = false;
    for entry in entries.iter(rt) {
        if !write_line(alloc, &mut out, &entry) && !is_said {
            is_said = true;
            let _ = eprintln!(rt;
                "hdl: --log: a line can't be written: the disk may be full. Requests are answered as before; lines may be lost"
            );
        }
    }
}
