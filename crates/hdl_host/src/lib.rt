//! The server: the proved service, reached over the machine's sockets.
//!
//! ```text
//! a TCP connection  -> SocketDoor    -> stream_worker ─┐ ring ┌─ serve (Service over any table), on the calling thread
//! many of them      -> OverflowDoor  -> packet_worker ─┤ each │
//! UDP sockets       -> SocketPackets -> packet_worker ─┘      └─
//!                        a thread for each lane
//! ```
//!
//! [`host_tenants`] listens at each publisher's port and each address of a [`ServerConfig`] by TCP and UDP, starts a worker for each lane, and serves on the thread
//! that called it. [`host_resumed`] does so over a table that is there already, and gives it back; [`host_shared`] over one that other servers have too; [`host`] takes a text, on loopback. Everything between a door and a table is proved of `hdl_workers`,
//! `hdl_serve` and `hdl_core`, and the numbers of datagram peers of `hdl_peers`, what a crowd of connections keeps of `hdl_overflow_lane`. The doors, the clock and the random numbers are those of `hdl_sockets`;
//! `hdl_listeners` opens the sockets and starts the workers. This crate makes the lanes, opens the service over a table within the bounds of its publishers ([`Notices`] hears that one is reached, and what each holds), and serves.
//! No contract can say what sockets give, so nothing is promised of octets on a wire.
//!
//! ```rust
//! // crates/handled/src/serving.rt
//! host_tenants(machine, rt.alloc(), rows, tenants, config, &mut output)?;
//! report_end(rt, &health, shutdown.is_requested());
//! ```
#![tactic(auto)]

mod bounds;
mod hosting;
mod resource_monitor;
mod sharing;

pub use bounds::{Notices, statuses_of};
pub use hdl_boundedrows::{Amount, Bound};
pub use hdl_listeners::{
    AMPLIFY_DEFAULT, HostFault, Limits, Monitoring, REOPEN, STOP, ServerConfig, descriptors_for,
};
pub use hdl_sockets::ShutdownFlag;
pub use hdl_telemetry::{FileChange, FileWatch, Health, Log, LogFile, LogKind, LogSender, Notice};
pub use hosting::{host, host_resumed, host_tenants};
pub use sharing::{Sharing, host_shared, read_shared};
