//! What is known of the log beside a table's file before it is opened.

use crate::header::{FRAME_HEADER_LEN, Front, Header, LOG_HEADER_LEN, Sums};
use crate::notes::number_at;
use std::alloc::{AllocError, Global};
use std::io::{self, ErrorKind, Read};

/// How many octets the front of a frame has, up to its gate and with it.
const GATED: u64 = 9;

/// How many octets a log has that is begun: its header, and the first gate.
const EMPTY: u64 = 41;

/// What comes behind the last change of a log that was done.
#[derive(Clone, Copy, Debug, PartialEq, Eq)]
pub enum Rest {
    /// Nothing of this log.
    Nothing,
    /// A change that was under way, or what is no end of a change.
    Unfinished,
    /// A change that was done, and isn't whole.
    Broken,
    /// Not even the shut gate by which each change ends.
    Cut,
}

/// A log with a header, as far as it is whole.
#[derive(Clone, Copy, Debug, PartialEq, Eq)]
pub struct WholeLog {
    /// Whether its file is being made.
    pub is_making: bool,
    /// How many frames its changes have that were done.
    pub frames: u64,
    /// How many octets it has up to their end.
    pub end: u64,
    pub length: u64,
    /// The note in the first of these changes that has the file's first page, and in the last one.
    pub first: Option<u32>,
    pub last: Option<u32>,
    /// Whether one of them has the note that the log was looked through for.
    pub has_note: bool,
    pub rest: Rest,
}

/// What is known of the log beside a table's file before it is opened.
#[derive(Clone, Copy, Debug, PartialEq, Eq)]
pub enum LogSummary {
    /// It isn't there, or is shorter than a header.
    Nothing,
    /// It is being begun anew, once the file has all of it: the note of the file in the last of its changes that has the file's first page.
    Begun(Option<u32>),
    /// It has no header of a log.
    Noise,
    Whole(WholeLog),
}

/// Why a log can't be looked at.
#[derive(Clone, Copy, Debug, PartialEq, Eq)]
pub enum SummaryFault {
    Memory,
    Device(ErrorKind),
}

impl From<AllocError> for SummaryFault {
    fn from(_: AllocError) -> SummaryFault {
        SummaryFault::Memory
    }
}

impl From<io::Error> for SummaryFault {
    fn from(error: io::Error) -> SummaryFault {
        SummaryFault::Device(error.kind())
    }
}

/// How far a log was gone through.
#[derive(Clone, Copy)]
struct Walk {
    header: Header,
    length: u64,
    /// The note that is looked for.
    note: u32,
    /// How many frames are whole, one behind the other, and the sums behind them.
    frames: u64,
    sums: Sums,
    /// The note in the first of them that has the file's first page, and in the last one.
    first: Option<u32>,
    last: Option<u32>,
    has_note: bool,
    /// How many of them are those of changes that were done.
    done: u64,
}

impl Walk {
    fn new(header: Header, length: u64, note: u32) -> Walk {
        Walk {
            header,
            length,
            note,
            frames: 0,
            sums: header.sums,
            first: None,
            last: None,
            has_note: false,
            done: 0,
        }
    }

    /// How many octets a frame has.
    fn step(&self) -> u64 {
        (FRAME_HEADER_LEN as u64).saturating_add(self.header.page as u64)
    }

    /// How many octets stand before a frame.
    fn before(&self, frames: u64) -> u64 {
        (LOG_HEADER_LEN as u64).saturating_add(frames.saturating_mul(self.step()))
    }

    /// How many octets are left.
    fn left(&self) -> u64 {
        self.length.saturating_sub(self.before(self.frames))
    }

    /// Goes past a frame, if it is whole: whether it is.
    fn pass(&mut self, frame: &[u8]) -> bool {
        let Some(sums) = self.header.behind(self.sums, frame) else {
            return false;
        };
        self.sums = sums;
        self.frames = self.frames.saturating_add(1);
        if number_at(frame, 0) == 1 {
            let found = number_at(frame, FRAME_HEADER_LEN + 60);
            self.last = Some(found);
            self.first = self.first.or(self.last);
            self.has_note = self.has_note || found == self.note;
        }
        if number_at(frame, 4) != 0 {
            self.done = self.frames;
        }
        true
    }

    /// What comes behind the changes that were done, by the front of what isn't a whole frame.
    fn rest(&self, front: &[u8]) -> Rest {
        if self.done != self.frames {
            return Rest::Broken;
        }
        if self.left() < GATED {
            return Rest::Cut;
        }
        if self.header.opens(front) {
            return Rest::Broken;
        }
        if self.header.ends_at(front) {
            Rest::Nothing
        } else {
            Rest::Unfinished
        }
    }

    /// What is known of the log then, with this behind the changes that were done.
    fn found(&self, rest: Rest) -> WholeLog {
        WholeLog {
            is_making: self.header.is_making(),
            frames: self.done,
            end: self.before(self.done),
            length: self.length,
            first: self.first,
            last: self.last,
            has_note: self.has_note,
            rest,
        }
    }
}

/// Whether these octets, behind those that were seen, have the salt of a log's frames.
fn finds_own(header: &Header, seen: &mut u64, octets: &[u8]) -> bool {
    for octet in octets {
        *seen = seen.wrapping_mul(256) | u64::from(*octet);
        if header.is_salt(*seen) {
            return true;
        }
    }
    false
}

/// Whether a frame of the log that is gone through begins in these octets or behind them, at any place: what lay between may have been cut out.
fn has_own<I: Read>(
    input: &mut I,
    walk: &Walk,
    octets: &mut Vec<u8>,
) -> Result<bool, SummaryFault> {
    let mut left = walk.left().saturating_sub(walk.step());
    let mut seen = 0u64;
    for _ in 0..walk.length {
        if finds_own(&walk.header, &mut seen, octets) {
            return Ok(true);
        }
        let count = (left as usize).min(octets.len());
        if count == 0 {
            break;
        }
        octets.truncate(count);
        input.read_exact(octets)?;
        left = left.saturating_sub(count as u64);
    }
    Ok(false)
}

/// What comes behind the changes that were done, from a frame on that isn't whole. A change may have been under way of which only later frames were written.
fn rest_from<I: Read>(
    input: &mut I,
    walk: &Walk,
    frame: &mut Vec<u8>,
) -> Result<Rest, SummaryFault> {
    let rest = walk.rest(frame);
    if rest == Rest::Nothing && has_own(input, walk, frame)? {
        return Ok(Rest::Unfinished);
    }
    Ok(rest)
}

/// Goes through the frames of a log behind its header.
fn go_through<I: Read>(
    alloc: Global,
    input: &mut I,
    header: Header,
    length: u64,
    note: u32,
) -> Result<WholeLog, SummaryFault> {
    let mut walk = Walk::new(header, length, note);
    let mut frame = Vec::new(alloc);
    frame.resize(FRAME_HEADER_LEN.saturating_add(header.page), 0u8)?;
    for _ in 0..length {
        if walk.left() < walk.step() {
            break;
        }
        input.read_exact(&mut frame)?;
        if !walk.pass(&frame) {
            return Ok(walk.found(rest_from(input, &walk, &mut frame)?));
        }
    }
    front_of_rest(input, &walk)
}

/// What is known of a log whose last octets are less than a frame.
fn front_of_rest<I: Read>(input: &mut I, walk: &Walk) -> Result<WholeLog, SummaryFault> {
    let mut front = [0; FRAME_HEADER_LEN];
    let left = (walk.left() as usize).min(FRAME_HEADER_LEN);
    let Some(front) = front.get_mut(..left) else {
        return Ok(walk.found(walk.rest(&[])));
    };
    input.read_exact(front)?;
    Ok(walk.found(walk.rest(front)))
}

/// Looks at a log of so many octets, next to a file with this note.
pub fn summarize_log<I: Read>(
    alloc: Global,
    input: &mut I,
    length: u64,
    note: u32,
) -> Result<LogSummary, SummaryFault> {
    if length < LOG_HEADER_LEN as u64 {
        return Ok(LogSummary::Nothing);
    }
    let mut front = [0; LOG_HEADER_LEN];
    input.read_exact(&mut front)?;
    match Front::read(&front, length > EMPTY) {
        Front::Begun(Some(header)) => {
            let before = go_through(alloc, input, header, length, note)?;
            Ok(LogSummary::Begun(before.last))
        }
        Front::Begun(None) => Ok(LogSummary::Begun(None)),
        Front::Noise => Ok(LogSummary::Noise),
        Front::Signed(header) => {
            let log = go_through(alloc, input, header, length, note)?;
            Ok(LogSummary::Whole(log))
        }
    }
}
