//! The machine's sockets, clock and random numbers, as the workers of lanes want them.
//!
//! ```text
//! a TCP connection  -> SocketDoor    -> stream_worker of hdl_workers
//! many of them      -> OverflowDoor  -> packet_worker
//! UDP sockets       -> SocketPackets -> packet_worker
//! ```
//!
//! A [`LaneListener`] is a stream lane's share in its publisher's listeners: with [`ConnectionTimeouts`] it becomes a [`SocketDoor`], of one connection at a time within limits of time, and with an
//! [`OverflowLane`] an [`OverflowDoor`], of many. [`SocketPackets`] are a publisher's datagram sockets; beyond loopback a reply that is too long for a stranger stays back there, behind the
//! worker's door (docs/PROTOCOL.md, "Replies to strangers"). [`MachineClock`] tells the moment and pauses, and [`MachineNonces`] gives nonces. [`ShutdownFlag`] says to all of them that the server is to end.
//!
//! From a proxy that is named a connection begins with a header, which says whose it is ([`ListenerConfig`]).
//!
//! It stands on `hdl_workers`, whose traits it implements, on `hdl_peers` for the numbers of datagram peers, on `hdl_overflow_lane` for what a crowd of connections keeps, and on `hdl_telemetry`, which reads along; neither
//! on the machine nor on a table. No contract can say what a socket gives, so the doors here tell nothing, and nothing is promised of octets on a wire.
//!
//! ```rust
//! // crates/hdl_listeners/src/workers.rt
//! let mut door = SocketDoor::new(ConnectionTimeouts::new(rt, self, recorder));
//! let mut clock = MachineClock::new(rt, ThreadRole::Worker(waker));
//! stream_worker(alloc, &mut door, &mut clock, &mut nonces, ends, turns)
//! ```
//!
//! # Decisions
//!
//! - **Calls that wait for a peer wait in the kernel, a second at most**: `accept` and `read` by the sockets' time to receive, a datagram by a `poll` of its
//!   sockets. So an idle worker makes one call or two a second. Interrupted calls, and a peer that gave up before it was accepted, count as nothing that came; any
//!   other failure of `accept` or `recv_from` ends the worker, and the server with status 1 in the end.
//! - **A connection is closed as if its peer had closed it** (`timeouts`): `read` answers 0, or `write` fails, and the worker does what it does then. So
//!   no clause of a worker knows of time. A frame that is begun must be whole within ten seconds of waiting for it; what an answer before
//!   it takes doesn't count, since a client may send ahead. A write waits ten seconds for room.
//! - **Silence ends a connection only where a client waits for its lane** (`lane_listener`): then the one that is silent longest goes, once it was for as long as the
//!   caller lets it. Whether a client waits is asked of the kernel: is the listener ready? Each lane of a publisher writes down since when it is
//!   silent, and one without a connection counts as silent longest; so where a lane is free, or is being freed, no other is.
//! - **The thread that serves sleeps until a worker wakes it** (`idle_poll`), 100 milliseconds at most. It says that it sleeps and then sleeps, without
//!   a look between; a worker that waits for an outcome looks at each of its pauses whether that thread sleeps, and then wakes it. So an event
//!   that was put between the last look at the lanes and the sleep is noticed at that worker's next pause, a microsecond later or, where the
//!   worker sleeps, 160. Only an End, after which no worker pauses, may wait for the sleep to end by itself.
//! - **No handle of waiting is taken**: the sleep is a `poll` of the system's with a limit (mio), so each pause returns. A server whose turns are
//!   counted is one of a test, which shall not take long: its calls may wait a millisecond. The kernel counts a socket's time in its own
//!   ticks, so it was seen to take eight.
//! - **A pause is short first.** A thread that found nothing lets others run for 30 microseconds; then the thread that serves sleeps, and a worker
//!   that waits for its outcome sleeps 100 at a time, of which the shortest takes 160 on this machine. Waits that needed the sleep make
//!   the next ones begin with it, seven of eight times. A wait ends when something was done (`note_work`), and its caller notes that, since the clock can't see it.
//!   A sleep that begins ten milliseconds after its wait isn't counted, since no client asked then. The first pause of any wait is short: a worker
//!   that has outcomes in hand pauses once before it writes them, and shall not sleep over them.
//! - **A crowd takes the clients that no other lane takes** (`acceptor`): the last lane for connections of a publisher with four lanes or more has many, and accepts only while each other one has its
//!   connection. Free workers wait in `accept`, and the crowd for events; it makes the listeners non-blocking while it accepts, since a worker may be quicker. A worker that comes to them just then
//!   finds no client, pauses as after any other look, and comes again.
//! - **A crowd is a lane among the others where silence is compared**: with room it counts as free, full it is silent since its longest silent connection. Its limits of time are those of the
//!   others, looked at once a second: octets that the kernel has are read before a connection is called slow. A client that keeps no other one waiting costs no look.
//! - **Where the machine has no room for one more descriptor** the crowd accepts no client for a second, and counts as full; a worker tries again ten times a second. No lane ends of it.
//! - **Several addresses are asked in turn and waited for together** (`sockets`, `socket_poll`): their calls don't wait, a `poll` of them all does. Where there is one
//!   address its own call waits.
#![tactic(auto)]

mod acceptor;
mod client_sockets;
mod clock;
mod door;
mod error_reply;
mod idle_poll;
mod lane_listener;
mod nonces;
mod overflow;
mod packets;
mod progress;
mod proxy_header;
mod shutdown_flag;
mod socket_poll;
mod sockets;
mod timeouts;
mod verified_addresses;

pub use clock::{MachineClock, ThreadRole};
pub use door::SocketDoor;
pub use idle_poll::{CallTimeouts, IdlePoll, LoopWaker};
pub use lane_listener::{LaneListener, ListenerConfig, lane_listeners_at};
pub use nonces::MachineNonces;
pub use overflow::{OverflowDoor, OverflowLane};
pub use packets::SocketPackets;
pub use shutdown_flag::ShutdownFlag;
pub use sockets::{PacketSocket, Sockets, is_no_data};
pub use timeouts::ConnectionTimeouts;
