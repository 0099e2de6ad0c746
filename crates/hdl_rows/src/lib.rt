//! The value table: a finite set of canonical handles and a finite map from places (handle, index) to values.
//!
//! [`Rows`] is its contract, for any storage. Each call is one operation of set and map, done as a whole or not at all,
//! and the number of refusals is exact. [`PlainRows`] stores it in memory. [`Fuse`] wraps any table and refuses some
//! calls, for tests. [`laws`] states what every look-up returns after every write.
//!
//! In each call a name stands for its canonical form. No clause of the calls states that each value is at a handle of
//! the table. That is a definition of its own (`IsPlaced`); every write preserves it under its conditions.
//!
//! A table counts the octets that its calls return ([`reads`]), so that a clause of a crate above can bound what is
//! read.
//!
//! The crates above use a table through [`Rows`] alone.
//!
//! ```rust
//! // crates/hdl_tests/src/ops.rt
//! let mut rows = PlainRows::new(rt.alloc());
//! let name = Name::read(rt.alloc(), b"10/b")?;
//! assert!(rt; !rows.exists(&name)?);
//! rows.create(&name, &[], &Provenance::opening())?;
//! assert!(rt; rows.exists(&name)?);
//! ```
//!
//! # Decisions
//!
//! - **Handles are in a `BTreeMap`, each with a vector of its values by rising index.** The order of the map is that in
//!   which the handles of an authority are listed, and neither a look-up nor a create visits the others. A handle has
//!   few values, and they are listed in order.
//! - **The handles of an authority are a range of the map**, from its octets with a slash to its octets with the octet
//!   after the slash. So a list visits no other authority's handles. An invariant of [`PlainRows`] states that each
//!   handle begins with its authority.
//! - **`reads` counts what calls return**, and not what a table does internally, which no clause can state. An entry
//!   counts as many octets as in a message. So more than a message can hold is more than a table may return.
//! - **A write is given its [`Provenance`]**, which a table may record (hdl_history). So who asked for a write is an argument of that write, and no state of the table.
//! - **`look` exists in addition to `exists` and `values`**, because a resolution asks both. A table whose values are
//!   all at its handles can answer both by one query. No table has to be `IsPlaced` for it.
//! - **No clause bounds the steps of a look-up**: contracts state what is found. `bench/replay` measures it.
#![tactic(auto)]

mod fuse;
pub mod heads;
pub mod laws;
mod owing;
mod plain;
mod provenance;
pub mod reads;
mod row;
mod row_store;
mod rows;

pub use fuse::Fuse;
pub use owing::{Owed, Owing, Synchronous};
pub use plain::PlainRows;
pub use provenance::{Agent, Provenance};
pub use row::value_with;
pub use rows::{Refused, Rows};
