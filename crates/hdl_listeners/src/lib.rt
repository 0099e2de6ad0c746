//! Where a server listens, how it is watched and ended, and a thread for each of its lanes.
//!
//! ```text
//! a ServerConfig ─ open_publishers ─► the sockets of each publisher ─ start_workers ─► a thread for each lane, with its worker ─ join_workers
//!           └ open_monitoring ─► the status page, the socket at which the word to end is taken, the log, and what is said on standard error: a thread for each
//! ```
//!
//! A [`ServerConfig`] says at which addresses a server listens, for how long it waits and serves, and what is reported of it ([`Monitoring`]). [`open_publishers`] opens each publisher's port at each address by TCP
//! and UDP, and answers the lines that tell where; [`start_workers`] starts a worker of `hdl_workers` for each lane, over the doors of `hdl_sockets`; [`join_workers`] joins them. [`open_monitoring`] opens the sockets
//! at which a server is watched and ended, and `MonitoringSockets::start` has threads answer there, write the log and say what is due. Why a server doesn't serve is a [`HostFault`], which says what to do.
//!
//! It stands on `hdl_tenants` for the publishers, and on nothing of the machine: no lane's other side and no table. Nothing here has a clause, since no contract can name what a machine's sockets carry.
//!
//! ```rust
//! // crates/hdl_host/src/hosting.rt
//! let active = monitoring_sockets.start(rt, alloc)?;
//! let workers = start_workers(rt, alloc, publishers, sides, &idle_poll, turns)?;
//! ```
//!
//! # Decisions
//!
//! - **Shared listeners**: a publisher's stream workers have clones of its listeners, one at each address, so whichever is free takes the next connection.
//! - **A slow client holds no other one up** (`clients`): the status page and the socket of `--control` have a thread each, whose calls don't wait while a client asks. It serves 32 clients at a time; one more
//!   ends the one that came first, and each has five seconds.
//! - **Every worker's nonces are seeded before the first one starts**: where the machine's random source fails, nothing serves.
#![tactic(auto)]

mod clients;
mod control;
mod fault;
mod listening;
mod monitoring;
mod reporter;
mod status;
mod workers;

pub use control::{REOPEN, STOP, remove_socket};
pub use fault::HostFault;
pub use listening::{
    AMPLIFY_DEFAULT, Limits, PublisherSockets, ServerConfig, descriptors_for, open_publishers,
    or_device_fault,
};
pub use monitoring::{ActiveMonitoring, Monitoring, MonitoringSockets, open_monitoring};
pub use workers::{join_workers, start_workers};
