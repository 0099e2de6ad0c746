//! Workers between a door and a lane.
//!
//! ```text
//! Door    -> stream_worker -> Open, Frame, Bad, Close, End -> ring -> LaneEnds::next
//! Packets -> packet_worker ->                      outcome <- ring <- LaneEnds::answer
//! ```
//!
//! A lane has a ring for items, from a worker to the service, and a ring for outcomes back. [`stream_worker`] and [`packet_worker`]
//! carry what comes through a door into a lane and its outcomes back out. [`LaneEnds`] is the service's side of a lane, of which
//! this crate knows no more than that: it speaks of events, outcomes and octets, and `hdl_serve` serves them.
//!
//! Promised of a worker, over a door that is observed: every frame of what came is put, in order, with one moment and one nonce of its
//! own, and what was written is the outcomes' octets. [`LaneEnds::settle`] gives what is left once both threads of a lane were joined.
//!
//! Nothing here takes a lock or waits for anyone: what finds nothing pauses by the caller's [`LoopClock`], and all is bounded by a
//! number of turns. There are doors, a clock and nonces in memory, of whose calls a given one fails.
//!
//! ```rust
//! // crates/hdl_program_tests/src/two_workers.rt
//! let (ends, sides) = lanes_of(alloc, 2, 16)?;
//! let workers = start_both(&rt, alloc, sides, &left)?;
//! serve_both(&rt, alloc, ends, &left)?;
//! ```
//!
//! # Decisions
//!
//! - **A clock and a source of nonces tell what they have still to give, not what they gave.** With "zeros after the end" a history needs an
//!   unbounded count, which a clock in memory can't hold.
//! - **`leave` asks for an open connection, by a ghost item `is_open`.** A door in memory takes the room for its history in `accept`, so `leave`
//!   can't be refused; without the condition no door in memory meets its clause.
//! - **A failed send is seen in the count of faults, not by an entry in a list**, since a list of failed tries would need memory that may be refused.
//! - **Outcomes are joined in an array of 8,192 octets (`arrayvec`), which can't be refused.** One that finds no room after the others is
//!   written after them by itself.
//! - **A worker that took an outcome pauses once before it writes, where others are owed to it**: what comes meanwhile goes into the same
//!   write, this many requests in flight cost fewer calls of the system (docs/BENCHMARKS.md, "Serving"). With one in flight nothing is owed, and it never pauses there.
//! - **A connection whose frame finds no memory for a second is given up (`Door::give_up`).** The wait pauses between its tries, so nothing spins, and what is
//!   owed is written first. It is then broken, as after a write that failed, and a fault is counted: so each clause stays as it was, and of a connection
//!   without a fault every frame is put. A datagram lane has no connection to give up, and goes on trying after pauses.
//! - **How long a wait took (`waited`) is asked of the clock, and isn't one of its moments**: of these each goes into a frame.
//! - **What was done is noted at the clock (`note_work`).** A clock that sleeps while no client asks has to tell one wait from the next, and from when it is
//!   called it can't: what is done between two pauses takes less than a look at the machine's clock.
#![tactic(auto)]

mod copies;
mod door;
mod ends;
mod failing;
mod intake;
mod item;
mod memory;
mod memory_packets;
mod packet;
mod relay;
mod sides;
mod sources;
mod spares;
mod stream;
mod worker;
mod worker_lane;
mod worker_side;

pub use door::{Door, DoorFault, LoopClock, Nonces, Packets};
pub use ends::LaneEnds;
pub use hdl_events::{Outcome, What};
pub use item::Item;
pub use memory::{MemoryConnection, MemoryDoor};
pub use memory_packets::{Datagram, MemoryPackets};
pub use packet::packet_worker;
pub use sides::lanes_of;
pub use sources::{MemoryClock, MemoryNonces};
pub use stream::stream_worker;
pub use worker::{EndReason, WorkerEnd};
pub use worker_side::WorkerSide;
