//! Which of several servers is asked for a handle, when one is left out, what their answers come to, and which replies are kept.
//!
//! ```text
//! HOST:PORT=PREFIX,..  -> read_route -> Route
//! a prefix, the routes -> servers_to_ask -> the servers that are asked, in turn; servers_to_change -> those to which changes go
//! a server's standing  -> ServerHealth::admits -> whether it is asked now
//! no good answer       -> worst -> what a browser is told
//! a request, its reply -> ReplyCache::keep, find -> the reply, while it is fresh
//! ```
//!
//! This crate has no sockets, no threads and no clock: moments are milliseconds that the caller gives. It promises that a prefix is
//! asked for at just the servers that were named with it, or where none was at those without prefixes; that standbys are asked last, and get no changes; that what is remembered of
//! prefixes changes only the order; that changes of a prefix with which servers were named go to the first of them alone; that a server that failed is
//! tried by one question at a time; and that a kept reply is found by its own request alone, while it is fresh and its handle wasn't changed.
//!
//! ```rust
//! // crates/hdl_web/src/shared.rt
//! let known = if self.routes.len() > 1 {
//!     self.owners.lock(&self.rt).of(prefix, self.now())
//! } else {
//!     None
//! };
//! servers_to_ask(self.alloc, &self.routes, prefix, known)
//! ```
#![tactic(auto)]

mod changes;
mod failure;
mod fault;
mod order;
mod reply_cache;
mod route;
mod server_health;

pub use changes::ChangeMark;
pub use failure::{Failure, worst};
pub use fault::RouteFault;
pub use order::{servers_to_ask, servers_to_change};
pub use reply_cache::{REPLIES_MOST, REPLY_MOST, ReplyCache};
pub use route::{Route, read_route};
pub use server_health::{LEFT_OUT_MILLIS, ServerHealth};
