//! A table with a bound of values and octets for each of some publishers: the contract of `hdl_rows::Rows`, word for word, over any other table.
//!
//! [`BoundedRows`] wraps a table of any kind, and has a count for each [`Bound`]: of the handles that the table has now under the bound's prefixes,
//! of their values and of their octets. Values and octets have a bound, handles have none ([`Count`], [`Amount`]). A create, an add or a modify that
//! would take a count beyond its bound is refused, the table is as it was, and an [`BoundObserver`] is informed. What makes no count larger than it is
//! goes through, and a remove or a delete always does. Every other call goes to the table as it came.
//!
//! What is counted is defined (`specs/Amount.antt`). At the start the bounds are those that were given, in order, and each count is what the table holds
//! under the bound's prefixes (`BoundedRows::new`, `holdings`). Each write's clauses say what becomes of the counts: what the write gains is added and what
//! it gives back, by what the table held, is taken away (`settled`); where it was done values and octets are within their bound, or no more than they
//! were (`within`).
//!
//! It stands on `hdl_rows` and what that speaks of.
//!
//! ```rust
//! // crates/handled/src/replaying.rt
//! match BoundedRows::new(alloc, rows, Vec::new(alloc), notices) {
//!     Ok(rows) => Ok(rows),
//!     Err(_) => Err(Fault::StoreRefused),
//! }
//! ```
//!
//! # Decisions
//!
//! - **Handles are counted and have no bound**: each counts octets, which have one.
//! - **The count is kept**, and not made anew at each write: that would read all handles of a publisher. It is made once, at the start.
//! - **What a write gives back is looked up before it** where it replaces or takes away, which costs a look. Where the prefix counts for no publisher there
//!   is no look and no sum.
//! - **The greatest number stands for all that are more**, and a count that reached it stays there and grows no more: no sum can wrap, and no premise
//!   is needed on how much a table holds.
//! - **A list of publishers is gone through, prefix by prefix**: there are 32 publishers at most, and a look at a prefix is a comparison of few octets.
#![tactic(auto)]

mod account;
mod amount;
mod bounded;

pub use account::Bound;
pub use amount::{Amount, Count};
pub use bounded::{BoundObserver, BoundedRows};
