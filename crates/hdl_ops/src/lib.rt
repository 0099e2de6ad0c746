//! Decisions: what is answered to a request, and what it changes.
//!
//! ```text
//! request -> NamedRequest -> admit -> look (the table) -> a table of decision (the key's mask and value) -> whole_decision -> Decision { code, content, change }
//! ```
//!
//! The definitions in `specs/` are the tables of docs/PROTOCOL.md as they are printed: `Admission` before the table is looked at,
//! `Anyone` for a request as it came, `Proven` for one that comes back with a proof. Each is a list of rows, a test and a code,
//! of which the first that holds decides. [`decide`] is proved to answer just that, leaves the table as it was, and promises
//! that its change can be written; [`apply`] writes it, at the moment of its event; [`render`] and [`render_challenge`] spell
//! the replies. [`decide_site`] answers a question for site information, which no table decides. The laws in [`laws`] say that a
//! request is decided in one way, and what a decision tells.
//!
//! It knows nothing of lanes, events or time.
//!
//! ```rust
//! // crates/hdl_tests/src/ops.rt
//! let values = Items::new(Vec::from_array(rt.alloc(), [value(rt.alloc())?])?);
//! apply(&mut rows, Change::Create { name, values }, &anyone(1000))?;
//! let name = Name::read(rt.alloc(), b"10/b")?;
//! let found = rows.at(&Reference { name, index: 2 })?;
//! same(&rt, "stamp", found.map(|value| value.timestamp), Some(1000));
//! ```
#![tactic(auto)]

mod admit;
mod anyone;
mod asked_values;
mod change;
mod deciding;
mod decision;
mod keys;
pub mod laws;
mod owner;
mod permitted;
mod proven;
mod rendering;
mod requests;
mod seeing;
mod whole_decision;
mod written;

pub use admit::NamedRequest;
pub use change::{Change, apply};
pub use deciding::decide;
pub use decision::{Decision, HashedRequest, Level, Proof};
pub use hdl_cache::{Masked, MaskedRows};
pub use hdl_msg::{Request, read_request};
pub use hdl_rows::{Agent, Provenance, Refused, Rows};
pub use hdl_tenants::Tenants;
pub use owner::Owner;
pub use rendering::{render, render_challenge};
pub use requests::{Response, response_of};
pub use whole_decision::decide_site;
