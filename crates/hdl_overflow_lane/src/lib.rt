//! What a lane with many connections keeps of them, without sockets.
//!
//! ```text
//! octets read on a connection -> Connections::note_octets  -> its Cutter
//!                                Connections::next_frame -> a frame of it, and the number of its peer  -> the lane
//! a datagram of the reply     -> Connections::put_datagram  -> what is owed to the connection of that number
//!                                Connections::owed, wrote -> octets written on the connection
//! ```
//!
//! Such a lane is served as one of datagrams: each connection is a peer, one frame is under way at a time, and the reply comes as datagrams. A [`ConnectionBuffers`] is one
//! connection: its stream is cut into frames, and a reply's datagrams are put together again. The [`Connections`] has all connections by their places, and gives their frames
//! numbers by `hdl_peers`, as addresses get them: a connection has a number for as long as something is followed under it, and no other ever equals it.
//! A [`Timing`] has since when a connection keeps others waiting.
//!
//! Promised of a connection, from its coming to its end: what is handed out under its numbers is a beginning of the frames of what was read on it; what is written is
//! a beginning of what was said to it; and what is said by the datagrams of a reply is that reply (`laws`). Each call of the book is one such step on one connection,
//! and none on another. A faulty envelope is refused with code 4 as on a lane of one connection, once, and nothing after it is handed out. Each call says what becomes of the
//! connection's [`Timing`] (`timing`), so who is idle, slow or greedy is what happened.
//!
//! It stands on the limits, on frames, on `hdl_msg` for that refusal and on `hdl_peers`, and knows no sockets: its caller notes what was read and written. That it notes the
//! truth, hdl_sockets has to see to.
//!
//! ```rust
//! // crates/hdl_sockets/src/overflow.rt
//! Ok(count) => match self.book.note_octets(place, &octets[..count], self.now) {
//!     Ok(()) => NextAtPlace::More,
//!     Err(_) => NextAtPlace::End,
//! },
//! ```
//!
//! # Decisions
//!
//! - **A number is of a frame, not of a connection's life.** A connection that waits has none, so a crowd may have any number of connections, and there are 1,024 numbers.
//! - **A connection is known by its place and its serial**: its place is given again once it is left, its serial isn't. So what the service keeps under a number of one that was left
//!   is no connection's.
//! - **Memory is given back when a connection waits**: of one that is idle nothing is kept but the few words of its entry.
#![tactic(auto)]

mod buffers;
mod connections;
mod entry;
mod joining;
pub mod laws;
mod timing;

pub use buffers::ConnectionBuffers;
pub use connections::{Connections, Disconnected};
pub use entry::ConnectionId;
pub use timing::{Timing, WAIT_MAX_MILLIS};
