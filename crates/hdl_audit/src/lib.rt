//! What the frames of a client and the replies to them say: the lines of an audit log, and what replies are counted by.
//!
//! ```text
//! a frame from the client -> Follower::note_request
//! a frame to the client   -> Follower::note_reply -> Followed: operation and code, to be counted
//!                                                   └ Entry: operation, handle, key, code    (where a change was accepted or refused)
//! ```
//!
//! A [`Follower`] reads along, between the socket and the service, and decides nothing: the service answers as it would without it. Promised is
//! that each reply which names a change's operation gives an entry, unless it is a challenge, that an entry's code is that of the reply, and that a reply which names an operation is counted by it (`specs/ReplySummary.antt`).
//! An entry is of a change, and names only what frames of the peer ask to whom the reply goes (`specs/Naming.antt`). A short reply names none:
//! its operation, and which handle and key an entry names, is found by the order of frames and replies; where that isn't certain there is none. Without a log no name is kept ([`Detail`]).
//!
//! It stands on frames and on the fields of messages, and knows no sockets and no service.
//!
//! ```rust
//! // crates/hdl_telemetry/src/recorder.rt
//! let followed = self.follower.note_reply(peer, frame)?;
//! self.counts.count(followed.operation, followed.answer.code);
//! if followed.answer.accepts_change() {
//!     self.counts.set_changed(self.moment());
//! }
//! ```
//!
//! # Decisions
//!
//! - **A handle is named only where it is certain.** A whole frame has just one reply, and replies come in the frames' order. A piece has one or none, as the
//!   service has the others or not; so a change that came in pieces is an entry without handle and key, and after a reply that may be
//!   a piece's or that of a whole frame nothing more is named.
//! - **Nothing is looked up.** That an entry names what was changed follows from the request and its reply alone, so no other publisher's
//!   rows can show in it.
#![tactic(auto)]

mod answer;
mod entry;
mod follower;
mod moment;
mod question;

pub use answer::ReplySummary;
pub use entry::{Entry, KeyName};
pub use follower::{Followed, Follower};
pub use moment::Moment;
pub use question::{Detail, UnansweredFrame};
