//! Who has which number among the peers of a datagram lane.
//!
//! The service knows a datagram's peer by a number, and keeps pieces of messages and challenges of a lane under it. [`Peers`] gives the
//! numbers, however many addresses there are: a [`LaneHistory`] follows what is kept by the frames that come and the replies that go, and
//! a number under which nothing is kept means nothing to the service, so the next address may have it.
//!
//! ```text
//! a datagram -> Peers::note_octets -> its number     (none where it is no frame)
//! a reply    -> Peers::note_reply, end_reply      the trail sees its code, and that it is whole
//! a number   -> Peers::address                where the reply goes
//! a reply    -> Peers::is_within              whether it may go to an address that nothing shows to be there
//! ```
//!
//! Promised are: each frame gets a number, of an address that it stands for; a number under which something is followed, or a frame is under way, keeps its address,
//! whatever comes; octets that are no frame change nothing; and what is followed after a frame and its reply is what `specs/Followed.antt` says. That this is
//! what the service keeps is proved in hdl_peers_laws. Whether a reply is too long for what asked, and whether an address answered a challenge, is what
//! `specs/Allowance.antt` says.
//! It stands on the limits and on frames, and knows no sockets: an address is whatever can be compared.
//!
//! ```rust
//! // crates/hdl_sockets/src/packets.rt
//! let from = DatagramSender { place, address };
//! if let Ok(Some(peer)) = self.post.peers.note_octets(from, &buffer[..length]) {
//!     self.post.note_request(peer, &buffer[..length]);
//!     return Ok(Some((peer, length)));
//! }
//! ```
#![tactic(auto)]

mod allowance;
mod exchange;
mod kept;
mod lane_history;
mod peers;

pub use exchange::Exchange;
pub use kept::{Mark, MessageKey, SentChallenge};
pub use lane_history::LaneHistory;
pub use peers::Peers;
