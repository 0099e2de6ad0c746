//! Messages that come in pieces: the pool keeps the pieces until the message is whole.
//!
//! Each of the 64 lanes has at most four partial messages, the oldest first. A piece belongs to a message by its lane,
//! its peer, and the SessionId and RequestId of its envelope. A piece is ignored if its number came before, or if its
//! message length differs from that of the pieces before it. If it makes the message whole, the pool stays as it was.
//! Otherwise the pool keeps it; the first piece of a fifth message displaces the oldest message of the lane.
//!
//! ```text
//! frame with TC -> take -> Whole(message) | Kept | Ignored | Displaced
//!                  free    drops the pieces that came before
//!                  drop_lane
//! ```
//!
//! `hdl_frame` defines what a frame is and which message pieces make. [`Pool::new`] makes the 256 slots, in the kit's
//! `slab`; they are written in place. Only [`Pool::take`] takes memory: for the pieces that came and for a whole
//! message. If memory is refused, the pool stays as it was. The contract of each call is one equation: the lists of the
//! other lanes stay the same, and the list of the called lane is a function of what it was (`specs/Taking.antt`). The
//! laws of `specs/Laws.antt` relate these functions to the message that pieces make.
//!
//! ```rust
//! // crates/hdl_vectors/src/pool.rt
//! match pool.take(lane, peer, &frame) {
//!     Ok(taken) => put_taken(rt, &taken, message),
//!     Err(fault) => println!(rt; "  {fault}"),
//! }
//! ```
//!
//! # Decisions
//!
//! - **If a message in one piece has the key of a partial message of another length, it is ignored**, like any other
//!   piece of another length.
//! - **The pieces of a partial message are a list of options, one for each number.** So equal partial messages are
//!   equal values, and the message is `whole_payload` of that list, a definition of hdl_frame.
//! - **The effect of a piece is defined in two steps**: `after_piece` is what becomes of its message; by
//!   `store_if_kept` only a kept piece changes the lane. So a piece that makes its message whole leaves the pool as it
//!   was. If the caller's event becomes Busy, there is nothing to undo.
//! - **A partial message counts its missing pieces.** Only the last missing one builds the message, and takes memory
//!   for the whole of it at once. Each payload is a copy of its own. The table of a message's pieces (at most 134
//!   places) is made with its first piece.
//! - **All 256 slots belong to one slab.** `Pool::new` fills them, and no key is given back: a table holds the four
//!   keys of each lane. The invariant states that each key has a slot and that all keys differ. The list of a lane is
//!   the contents of its four cells in order; some may be empty. A new message becomes the newest: each older one moves
//!   one cell to the front until an empty cell takes one, and if there is none the oldest is dropped.
//! - **A message in one piece is copied, and nothing else**: no table of pieces is made for it.
//! - **`free` takes the envelope** of the frame that `take` took, and reads the same key from it.
//! - **`take` has no allocator parameter**: the pool keeps the allocator that `new` was given, as vectors do.
#![tactic(auto)]

mod assembly;
mod cells;
mod joining;
mod lane;
mod laws;
mod piece;
mod pool;
mod taken;

pub use laws::{
    at_most_four, freed_is_gone, kept_is_collected, message_is_whole, nothing_came, others_stay,
    repeated_is_ignored, taken_is_so_far, whole_is_message,
};
pub use piece::MessageKey;
pub use pool::Pool;
pub use taken::{PoolFault, Taken};
