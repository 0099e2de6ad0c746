//! The laws of a journal: a list of writes that several servers read, and to which each adds its own.
//!
//! The only way to change a journal is a put: one write, and how many writes must stand before it. If another number stands there, nothing changes. A store that compares and
//! sets in one transaction can do that. [`laws`] says what follows for any number of servers, in whatever order their puts come and however often each one comes: the
//! journal only grows, a write that was made keeps its place, and equal numbers of writes are equal tables.
//!
//! `specs/Journal.antt` has the definitions, over the table and the writes of hdl_rows. There is no code here.
#![tactic(auto)]

pub mod laws;
