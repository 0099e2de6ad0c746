//! The two files of a table: the SQLite file, and the log beside it. Whether the log that lies there is the one that the file needs, and whole, before
//! either is opened: SQLite takes a log as far as it is whole, and says nothing of what it leaves out.
//!
//! ```text
//! summarize_file(front of the file) -> FileSummary  the note in its header
//! summarize_log(the log, the note)  -> LogSummary  how far it is whole, which notes it has, what comes behind
//! judge(FileSummary, LogSummary)  -> Verdict   sound, with a change that was under way, or what is wrong
//! ```
//!
//! # What a log shows
//!
//! The kit writes a change behind a shut gate: an octet of the first new frame is wrong on the disk until all frames of the change are there, and each
//! change ends by shutting the next gate. So whatever a kill leaves, an open gate stands before frames that are whole, and a shut one behind them.
//!
//! ```text
//! header | frame .. frame | frame .. frame | gate: shut                      lawful: no change was under way
//! header | frame .. frame | frame .. frame | gate: shut, more of this log    lawful: a change was under way, which nobody was answered
//! header | frame .. frame | frame .. frame | other octets than a change ends with    the same, or octets were cut out: it is told
//! header | frame .. frame | gate: open, and the frame isn't whole            a change that was done is damaged
//! header | frame .. frame | end                                              the log was cut
//! ```
//!
//! # The note
//!
//! SQLite's user version, in the file's header and under the sum of its first page, goes up each time that the log is moved into the file, at a start and at an
//! ordered end, and once more in the log that is begun then. So a file with the note n has a log that begins with n + 1:
//!
//! ```text
//! file n   | log n + 1, changes                    served
//! file n   | log n + 1, changes, n + 2             being moved into the file
//! file n+2 | log n + 1, changes, n + 2             moved, and still there
//! file n+2 | log n + 1, changes, n + 2, n + 3      the same, being moved again
//! file n+2 | log empty                             begun anew
//! file n+2 | log n + 3                             served
//! file n+1 | log changes, n + 1 where it grows     begun anew by the kit under a long run, which moves the log by itself
//! file n   | log n + 1, m                          the log before was given up, and m is chosen by chance
//! ```
//!
//! A log that fits none of these is of an earlier time, or of another table. A file with such a note needs a log; a copy notes that it is whole, and needs none.
//!
//! It stands on nothing but std. What opens tables calls it (hdl_tables); who reads the two files is its caller.
//!
//! ```rust
//! // crates/hdl_tables/src/pair.rt
//! let length = file.metadata()?.len();
//! let mut input = BufReader::new(rt.alloc(), file)?;
//! summarize_log(rt.alloc(), &mut input, length, note)
//! ```
//!
//! What is told and what isn't stands in DECISIONS.md.
#![tactic(auto)]

mod header;
mod judging;
mod notes;
mod walking;

pub use judging::{Found, PairFault, Verdict, is_settled, judge};
pub use notes::{FILE_HEADER_LEN, FileSummary, summarize_file};
pub use walking::{LogSummary, Rest, SummaryFault, WholeLog, summarize_log};

/// The note of a file that is whole without a log.
pub const WHOLE: u32 = 1;

/// The least note of a file that needs its log.
pub const FIRST_NOTE: u32 = 0x100_0000;
