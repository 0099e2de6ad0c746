//! What a server records of itself: the counts of its replies, a line of each change, and whether its table takes changes.
//!
//! ```text
//! frames of a lane  -> StreamRecorder, PacketRecorder or Recorder ─┬─ Counts -> lines in Prometheus' text format
//! replies to them   ->                                             └─ LogSender  -> Log, on a thread of its own -> standard error, or a file
//! what keeps a table -> Health ─┬─ the status page
//!                               └─ Notice, said by a thread of its own -> standard error
//! ```
//!
//! A [`Recorder`] reads along with one lane of a publisher: it counts each reply, and where there is a [`Log`] it sends a line of each change by the lane's [`LogSender`], of which `hdl_audit` says
//! what it tells. A [`StreamRecorder`] cuts the octets of a connection into frames by `hdl_frame`; a [`PacketRecorder`] follows frames that come while others are under way. The
//! [`Counts`] of a publisher belong to all its lanes, and to what shows them. [`Health`] is shared by what keeps the table and what shows it. A [`FileWatch`] tells whether a table's file is still the one that was opened. How the lines of a log go, and how many were lost, is its [`LogStatus`].
//!
//! It stands on `hdl_frame`, `hdl_msg`, `hdl_audit` and `hdl_lanes`, and on nothing that serves. Nothing here has a clause: a lane is answered as it would be without a recorder, and a
//! line that can't be written is lost, which is counted and said.
//!
//! ```rust
//! // crates/hdl_sockets/src/overflow.rt
//! if let Some(recorder) = &mut self.recorder {
//!     if let Some(entry) = recorder.note_reply(peer, octets) {
//!         recorder.put(self.lane.last_client(), &entry);
//!     }
//! }
//! ```
//!
//! # Decisions
//!
//! - **A thread of its own writes the log, and another says the notices**: a pipe whose reader stalls, or a disk that hangs, holds that thread up alone. Each lane has a queue of its own, which takes
//!   no lock: 1,024 lines and 131,072 octets, so that no lane takes another's room. What finds no room is lost and counted; once lines are written again, standard error says how many were.
//! - **Lines of several lanes stand in the order in which they were written**, a line of each lane in turn; each has its moment.
//! - **Memory is kept aside by asking for it** (`Health::check_memory`): as much as is kept aside is asked for before a write that takes more, and given back at once. Where it can't be had, the write is refused, and what is
//!   left serves deletes and frames; once it can be had again, all goes on. It is asked for in one piece, which costs next to nothing, and then in 128, since what deletes free lies between what stays. The thread that serves asks:
//!   glibc gives each thread memory of its own, and threads that find no more of theirs take from that one's.
//! - **A file is known by device and inode, and between the server's own writes by its size and the moment of its last change too.** It is looked at before each write, so that none is answered over a file that is gone;
//!   and every two seconds at the pauses of the thread that serves, so that an idle server tells it: a thread of its own that may read files isn't taken by the prover. A file that is moved back is written again.
//! - **A notice is a flag**, raised by the thread that serves, and printed within a tenth of a second; its line is made at the start, so that it needs no memory once that is refused.
#![tactic(auto)]

mod bound_status;
mod counts;
mod file_watch;
mod health;
mod histogram;
mod log;
mod log_file;
mod log_status;
mod memory;
mod notice;
mod process_metrics;
mod recorder;
mod stopwatch;

pub use bound_status::{BoundStatus, put_bounds};
pub use counts::Counts;
pub use file_watch::{FileChange, FileWatch};
pub use health::Health;
pub use log::{Log, LogSender};
pub use log_file::LogFile;
pub use log_status::{LogKind, LogStatus};
pub use notice::Notice;
pub use process_metrics::ProcessMetrics;
pub use recorder::{PacketRecorder, PublisherTelemetry, Recorder, StreamRecorder};
