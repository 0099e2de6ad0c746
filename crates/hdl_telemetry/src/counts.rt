//! What the lanes of a publisher answered, in numbers.

use crate::histogram::{Histogram, zeros};
use hdl_msg::{OpCode, ResponseCode};
use std::alloc::{AllocError, Global};
use std::fmt;
use std::fmt::Write;
use std::sync::atomic::AtomicU64;
use std::sync::atomic::Ordering::SeqCst;
use std::time::Duration;

/// The operations that are counted by themselves; all others are counted together.
const OPERATIONS: [OpCode; 8] = [
    OpCode::Resolution,
    OpCode::GetSiteInfo,
    OpCode::CreateHandle,
    OpCode::DeleteHandle,
    OpCode::AddValue,
    OpCode::RemoveValue,
    OpCode::ModifyValue,
    OpCode::ListHandles,
];

/// How many counts an operation has: one for each code, and one for all other codes.
const COLUMNS: usize = ResponseCode::ALL.len() + 1;

/// What a publisher's lanes answered, counted by all of its workers.
#[derive(Drop)]
pub struct Counts {
    pub publisher: String,
    /// A row for each operation and one for all others, of a count for each code and one for all others.
    replies: Vec<AtomicU64>,
    /// How many connections each lane has.
    connections: Vec<AtomicU64>,
    /// How long replies took, and the label of that.
    times: Histogram,
    label: String,
    /// The moment of the last change that was accepted, in milliseconds since the beginning of 1970; 0 where there was none.
    changed: AtomicU64,
}

impl Counts {
    /// Counts of a publisher with `lanes` lanes, all zero.
    pub fn new(alloc: Global, publisher: &str, lanes: u16) -> Result<Counts, AllocError> {
        Ok(Counts {
            publisher: String::from_str(alloc, publisher)?,
            replies: zeros(alloc, (OPERATIONS.len() + 1) * COLUMNS)?,
            connections: zeros(alloc, usize::from(lanes))?,
            times: Histogram::new(alloc)?,
            label: format!(in alloc; "publisher=\"{publisher}\"")?,
            changed: AtomicU64::new(0),
        })
    }

    /// Counts a reply, by the numbers of the operation that it answers and of its code.
    pub fn count(&self, operation: u32, code: u32) {
        let mut operations = OPERATIONS.iter();
        let row = operations
            .position(|one| one.number() == operation)
            .unwrap_or(OPERATIONS.len());
        let mut codes = ResponseCode::ALL.iter();
        let column = codes
            .position(|one| one.number() == code)
            .unwrap_or(ResponseCode::ALL.len());
        if let Some(count) = self
            .replies
            .get(row.wrapping_mul(COLUMNS).wrapping_add(column))
        {
            count.fetch_add(1, SeqCst);
        }
    }

    /// A reply took so long.
    pub fn count_time(&self, time: Duration) {
        self.times.count(time);
    }

    /// Notes that the lane at this place has `count` connections.
    pub fn set_connections(&self, lane: usize, count: usize) {
        if let Some(connections) = self.connections.get(lane) {
            connections.store(u64::try_from(count).unwrap_or(u64::MAX), SeqCst);
        }
    }

    /// A change was accepted at this moment.
    pub fn set_changed(&self, moment: u64) {
        self.changed.store(moment, SeqCst);
    }

    /// Puts the counts of an operation's replies that aren't 0.
    fn put_row<W: Write>(&self, out: &mut W, row: usize, word: &str) -> fmt::Result {
        let publisher = self.publisher.as_str();
        let first = row.wrapping_mul(COLUMNS);
        let counts = self.replies.iter().skip(first).take(COLUMNS);
        for (column, count) in counts.enumerate() {
            let count = count.load(SeqCst);
            if count == 0 {
                continue;
            }
            write!(
                out,
                "handled_replies_total{{publisher=\"{publisher}\",operation=\"{word}\",code=\""
            )?;
            match ResponseCode::ALL.get(column) {
                Some(code) => write!(out, "{}", code.number())?,
                None => out.write_str("other")?,
            }
            writeln!(out, "\"}} {count}")?;
        }
        Ok(())
    }

    /// Puts a line for each count of replies that isn't 0 (Prometheus' text format).
    pub fn put_replies<W: Write>(&self, out: &mut W) -> fmt::Result {
        for (row, operation) in OPERATIONS.iter().enumerate() {
            self.put_row(out, row, operation.name())?;
        }
        self.put_row(out, OPERATIONS.len(), "other")
    }

    /// Puts how long replies took.
    pub fn put_times<W: Write>(&self, out: &mut W) -> fmt::Result {
        self.times
            .put(out, "handled_reply_seconds", self.label.as_str())
    }

    /// Puts the line that says how many connections there are.
    pub fn put_connections<W: Write>(&self, out: &mut W) -> fmt::Result {
        let publisher = self.publisher.as_str();
        let open = self.connections.iter().fold(0u64, |sum, count| {
            sum.saturating_add(count.load(SeqCst))
        });
        writeln!(
            out,
            "handled_connections{{publisher=\"{publisher}\"}} {open}"
        )
    }

    /// Puts the line that says when a change was accepted last, in seconds, if one was.
    pub fn put_changed<W: Write>(&self, out: &mut W) -> fmt::Result {
        let publisher = self.publisher.as_str();
        let moment = self.changed.load(SeqCst);
        if moment == 0 {
            return Ok(());
        }
        let (seconds, rest) = (moment / 1000, moment % 1000);
        writeln!(
            out,
            "handled_last_change_timestamp_seconds{{publisher=\"{publisher}\"}} {seconds}.{rest:03}"
        )
    }
}
