//! Events on a lane, and their outcomes.
//!
//! An [`Event`] is what the service takes; an [`Outcome`] is its answer. Workers between a socket and a lane use these
//! types and nothing else of the service. So the types have a crate of their own, and `hdl_workers` needs no layer
//! between this one and the service. `hdl_laws` defines the effect of an event, and `hdl_core` implements it.
//!
//! It has types alone, without contracts.
//!
//! ```rust
//! // crates/hdl_replay/src/script.rt
//! Ok(bytes) => Ok(Some(What::Frame {
//!     peer,
//!     moment,
//!     nonce,
//!     bytes: Octets::new(bytes),
//! })),
//! ```
#![tactic(auto)]

use hdl_limits::Octets;

/// What happens on a lane.
#[derive(Drop)]
pub enum What {
    /// A connection begins. A datagram lane has one connection that never ends.
    Open,
    /// Octets that should be exactly one frame.
    Frame {
        /// The sender: 0 on a stream, the peer's number on a datagram lane.
        peer: u16,
        /// When it came, in milliseconds.
        moment: u64,
        /// Sixteen octets for a challenge, if this frame leads to one.
        nonce: [u8; 16],
        bytes: Octets,
    },
    /// The next envelope of the stream is faulty. The two numbers are those at their places in it.
    Bad {
        session: u32,
        request: u32,
    },
    /// The connection ends.
    Close,
}

/// An event on the lane with this number.
#[derive(Drop)]
pub struct Event {
    pub lane: u16,
    pub what: What,
}

/// The outcome of an event.
#[derive(Drop)]
pub enum Outcome {
    /// The octets of a reply: envelope and message.
    Reply(Octets),
    /// Memory or the store was refused. Nothing changed, and this short reply says so.
    Busy([u8; 52]),
    /// Nothing is sent.
    Silent,
    /// This short reply is sent, and then the connection is closed.
    CloseAfter([u8; 52]),
}
