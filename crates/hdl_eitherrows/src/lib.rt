//! One of two tables: the contract of `hdl_rows::Rows`, word for word, whichever it is.
//!
//! [`EitherRows`] is a table of one kind or of another, and each call goes to the one that is there. A program that serves a table in memory or
//! one that is also in a file, as its command line says, has one type of table so, and one machine over it.
//!
//! It stands on `hdl_rows` and what that speaks of.
//!
//! ```rust
//! // crates/hdl_scripts/src/table.rt
//! let rows = match table {
//!     Table::Memory => EitherRows::First(PlainRows::new(alloc)),
//!     Table::Sql => EitherRows::Second(SqlRows::new(alloc).ok()?),
//! };
//! Some(Fuse::new(rows, nth, nth))
//! ```
//!
//! # Decisions
//!
//! - **Two kinds are one type**, where a type parameter would do: a program's last proof and its compilers go over the whole machine once for
//!   each type of table that it has, and they are most of what the program costs (docs/GATE.md).
#![tactic(auto)]

mod either;

pub use either::EitherRows;
