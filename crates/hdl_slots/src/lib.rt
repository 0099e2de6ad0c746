//! Pending challenges: each is kept, with its peer and number, until the response comes.
//!
//! Each of the 64 lanes has a list of at most eight challenges, the oldest first. It numbers them from 1, and starts
//! again at 1 after 4,294,967,295. A ninth challenge displaces the lane's oldest. If the next number still has a
//! pending challenge, that challenge is dropped first.
//!
//! The 512 slots belong to one slab. [`Slots::new`] fills it, and the slots are written in place from then on: no other
//! call takes memory or can be refused. The contract of each call is one equation: the lists of the other lanes stay
//! the same, and the list of the called lane is a function of what it was (`specs/Lanes.antt`). The laws of
//! `specs/Laws.antt` follow: a challenge that was put is found by its number, one that was taken is gone, and no lane
//! has more than eight. `hdl_auth` decides whether a response is right.
//!
//! ```rust
//! // crates/hdl_vectors/src/slots.rt
//! let lane = lane_of(lane)?;
//! let pending = challenge(rt.alloc(), peer_of(peer)?, u64::from(moment))?;
//! println!(rt; "  number {}", slots.put(lane, pending))
//! ```
//!
//! # Decisions
//!
//! - **A challenge is stored with its number** (`Challenge { number, pending }`), which the lane assigns.
//! - **A challenge is taken by peer and number.** No two challenges of a lane have the same number, so the number alone
//!   would find the same challenge. With another peer the call leaves the lane as it was.
//! - **The 512 slots belong to one slab**, which `Slots::new` fills with empty cells. No cell is made or removed later,
//!   and each call writes in place. The slab chooses its keys, in an order that no contract states, so a table has the
//!   keys of each lane's eight places. A cell has its lane and its place. The invariant is that the key of a place
//!   finds the cell of that place. So no two places share a cell, and a write to one leaves every other as it was.
//! - **A lane's list is the contents of its eight places, the oldest first, with gaps.** Taking a challenge leaves a
//!   gap. A new one enters at the last place, and each older one moves one place to the front until a gap takes one; if
//!   there is no gap, the oldest is dropped. Contents move and keys don't, so the table never changes. If keys moved,
//!   each call would have to be proved to keep them different. No contract mentions the storage.
#![tactic(auto)]

mod cells;
mod lane;
mod laws;
mod pending;
mod slots;

pub use hdl_auth::algorithm::Digest;
pub use laws::{at_most_eight, put_is_found, taken_is_gone};
pub use pending::{Challenge, Pending};
pub use slots::Slots;
