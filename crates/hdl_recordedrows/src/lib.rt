//! A table whose changes are told to a history: the contract of `hdl_rows::Rows`, word for word, over any other table.
//!
//! ```text
//! a write -> the values that it replaces are read ── refused ─► refused: the table is as it was
//!                  └─► the table behind ── done ─► History::note: what was done, by whom, and the values before
//! ```
//!
//! [`RecordedRows`] wraps a table of any kind, and has a [`History`], which hears of each write that was done ([`DoneChange`]). The values before are read before the write, so a write whose values can't be
//! read is refused. The writes that open a table are no changes, and those that another server decided are in that server's history. Every look goes to the table as it came.
//!
//! What it promises: of each write of a client that is done, an observed history hears once, with the write, the values that stood in its places, its moment and who asked (`told`); of one that is refused it hears nothing (`untold`).
//!
//! It stands on `hdl_rows` and what that speaks of.
//!
//! ```rust
//! // crates/handled/src/serving.rt
//! let rows = RecordedRows::new(rt.alloc(), rows, history);
//! ```
//!
//! # Decisions
//!
//! - **A history is no part of the contract of `Rows`**: a table answers as it would without one, but for what is refused since memory is. So no clause above knows of it. A history over a file isn't observed: what its file has is tried from outside.
//! - **A write that is under way is read for again** when its call comes again: nothing is kept between two calls, so no other call can leave anything in its place.
//! - **The values at the indexes of a change are read one by one**, so a change of one value of a large handle reads that value alone. A delete reads the whole handle.
#![tactic(auto)]

mod before;
mod history;
mod recorded;

pub use history::{DoneChange, DoneWrite, History};
pub use recorded::RecordedRows;
