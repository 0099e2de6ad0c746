//! The service: a machine that takes one event of one lane at a time, with moments and nonces handed in.
//!
//! ```text
//! Event { lane, what } -> frame -> message (or a piece of one) -> request -> decision -> change and reply, or challenge -> Outcome
//! ```
//!
//! [`Service::open`] gives the world of the tenants text, [`Service::step`] is a step of the machine that `hdl_laws` defines,
//! and [`Service::run`] is a run of it with one outcome for each event, over any table [`Rows`]. Where memory or the table is
//! refused an event is Busy and the world is as it was; where room for a run's outcomes is refused the events come back.
//!
//! It knows no threads, sockets or clocks.
//!
//! What its calls take and give is passed on here, so a service is opened and asked by the names of this crate alone:
//!
//! ```rust
//! // crates/hdl_program_tests/src/two_workers.rt
//! let Ok(tenants) = Tenants::read(alloc, TENANTS) else {
//!     return Err(Fail::from(AllocError));
//! };
//! Ok(Service::open(alloc, tenants, PlainRows::new(alloc))?)
//! ```
//!
//! ```rust
//! // crates/hdl_program_tests/src/one_event.rt
//! match service.step(Event { lane: 0, what }) {
//!     Outcome::Reply(octets) => digits(alloc, octets.as_slice()),
//!     Outcome::Busy(octets) | Outcome::CloseAfter(octets) => digits(alloc, octets.as_slice()),
//!     Outcome::Silent => Ok(String::new(alloc)),
//! }
//! ```
#![tactic(auto)]

mod answering;
mod lane;
mod lane_context;
mod lanes;
mod letting;
mod machine;
mod messages;
mod opening;
mod origin;
mod service;
mod serving;

pub use hdl_events::{Event, Outcome, What};
pub use hdl_limits::Octets;
pub use hdl_ops::{Change, Refused, Rows, Tenants};
pub use hdl_rows::{Owed, Owing, PlainRows};
pub use hdl_tenants::TenantFault;
pub use letting::RemoteChangeResult;
pub use machine::{Machine, StepResult};
pub use opening::OpenFault;
pub use service::{Early, Service};
