//! A table in two partitions: the contract of `hdl_rows::Rows`, word for word, over two tables of any one kind.
//!
//! [`PartitionedRows`] keeps each handle in one of two tables, as a bit of a keyed hash of its canonical name says, and each call goes to that
//! one. `names` asks both, and merges what they list. A partition may be partitioned itself, by another bit: three levels are eight tables.
//!
//! It stands on `hdl_rows` and what that speaks of.
//!
//! ```rust
//! // crates/hdl_program_tests/src/partitioned_rows.rt
//! let rows = PartitionedRows::new(alloc, first, second, Fork::new(hasher, 2))?;
//! ```
//!
//! # Decisions
//!
//! - **Partitions, since a delete in SQL passes over all rows of its table**: among 100,000 handles it is five times as fast in eight.
//! - **The hash has a random key**: with a fixed one a publisher could choose names that all fall into one partition.
//! - **Each partition is in a box**, so that the whole is as small to move as one.
//! - **Three levels at most**: a proof that names the type takes 41 seconds with one, 69 with three, and more than five minutes with five. More
//!   partitions need one list of tables.
#![tactic(auto)]

mod fork;
mod merging;
mod partitioned;

pub use fork::Fork;
pub use partitioned::PartitionedRows;
