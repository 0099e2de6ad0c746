//! Which lane writes next, if another thread makes the writes of a table, one at a time.
//!
//! While another thread makes a write, the table refuses the call, the event stays in its lane, and `serve` takes it up
//! again later. [`WriteQueue`] keeps the lanes of such events in order, and the lane to which the table owes a write.
//! It decides which of them may be served now.
//!
//! ```rust
//! // crates/hdl_program_tests/src/write_queue.rt
//! let mut queue = WriteQueue::with_capacity(rt.alloc(), 2)?;
//! assert!(&rt; queue.is_turn(0) && queue.is_asked(0, false));
//! ```
//!
//! # Decisions
//!
//! - **An answered lane goes after those that wait**, so a client with many changes at once doesn't hold up another
//!   client's.
//! - **What the table owes is an argument, and what a lane may do is a result.** So clauses state all that the queue
//!   does. While the table owes a write, an event that was answered busy stays, whatever the reason was.
//! - **The queue decides when an event is served, and never how**: `serve` (hdl_serve) and the table keep their
//!   clauses, whatever the queue answers.
#![tactic(auto)]

mod queue;

pub use queue::WriteQueue;
