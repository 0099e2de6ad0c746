//! A table whose writes a guard may refuse: the contract of `hdl_rows::Rows`, word for word, over any other table.
//!
//! ```text
//! a write -> Guard::permits ── no ─► refused: the table is as it was
//!                  └─ yes ─► the table behind ─► Guard::note: its WriteResult
//! ```
//!
//! [`GuardedRows`] wraps a table of any kind, and has a [`Guard`], which is asked before each write whether it may be made, by its [`Effect`], and informed of what became of it ([`WriteResult`]). So a program refuses what
//! takes more while memory is short, and everything once another program has written the table's file; and it hears of a write that failed, as on a full disk. Every look goes to the table as it came.
//!
//! A write that the table owes goes on, whatever the guard thinks: its call is made again until it is claimed. Which of the calls that come it is is known by a mark, on which no clause rests:
//! so a call that found another's write to be settled first isn't reported as one that failed.
//!
//! It stands on `hdl_rows` and what that speaks of.
//!
//! ```rust
//! // crates/handled/src/serving.rt
//! let rows = GuardedRows::new(rows, guard);
//! ```
//!
//! # Decisions
//!
//! - **A modify may free**: where what may take more is refused, the values that it replaces are looked at, and it is made if it has no more octets than they. Who keeps to what it has goes on so.
//! - **A guard is no part of the contract**: what it refuses is refused as by any table, with everything as it was. So no clause above knows of it.
#![tactic(auto)]

mod fingerprint;
mod gate;
mod guard;
mod guarded;
mod sizes;

pub use guard::{Effect, Guard, WriteResult};
pub use guarded::GuardedRows;
