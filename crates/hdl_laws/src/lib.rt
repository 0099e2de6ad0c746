//! The laws of the service: what a world, an event, an outcome, a step and a run are, and what holds of every run.
//!
//! The definitions in `specs/Worlds.antt` and `specs/Runs.antt` are relations over the definitions of the crates below: a
//! world is the lanes' owners, the hosted prefixes, the publishers' layouts and site information, a table and a state for each
//! lane; a step is the answer of docs/PROTOCOL.md, "One event", or Busy with the world as it was; a run is a list of steps.
//! `specs/Isolation.antt` says what a publisher's replies rest on: its rows and a cover, a list of places closed under references.
//! The laws in [`laws`] are the contracts of functions without a body, which the service calls: runs join, a publisher's part of a
//! quiet run is the run of its events alone, and no reply shows more than its code of what may not be read. Two more say that the
//! premises can be met: every run has a cover, and a run in which nobody else changes the table is quiet. `specs/Reveals.antt` says
//! what one reply tells, and when what is sent is read.
//!
//! What an event comes to before the table is looked at is a `Task`, a challenge and its response among them. It stands on
//! `hdl_ops` and on the definitions of `hdl_pool` and `hdl_slots` of a lane's partial messages and challenges, and has no state:
//! what is said here is said of any service.
//!
//! ```rust
//! // crates/hdl_core/src/service.rt
//! restricted();
//! twin_replies();
//! ```
#![tactic(auto)]

pub mod laws;
