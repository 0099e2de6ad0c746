//! The serving loop between lanes and the service.
//!
//! ```text
//! a worker -> ring of items -> serve -> Machine::step
//!          <- ring of outcomes <-
//! ```
//!
//! [`serve`] goes round the publishers, and round the lanes of each: of a lane it takes an event, serves it by `Machine::step`, and puts the outcome back before it takes the next,
//! up to 16 in a row. A publisher's turn ends once a millisecond has passed. An event of a write that is under way stays in its lane meanwhile. What stands between a lane and a socket is `hdl_workers`, which knows no service; its names are passed on here.
//!
//! Promised of `serve`: what the lanes gave, and nothing else, is a run of the service, in which publishers are isolated and no reply
//! tells of a value that may not be read, and each lane was given its events' outcomes. [`laws`] joins this with what the workers promise: after the joins
//! what was put is what was served and what is left.
//!
//! [`serve_shared`] does the same beside other servers that have the same table: before each round it lets in the changes that [`RemoteChanges`] gives. What it did is one list of
//! turns and of tables that it took over. If all servers' changes are one list, [`laws::servers_serve_as_one`] makes one service of what they all did, isolated and hidden.
//!
//! Nothing here takes a lock or waits for anyone: what finds nothing pauses by the caller's [`LoopClock`], and all is bounded by a
//! number of turns.
//!
//! ```rust
//! // crates/hdl_program_tests/src/two_workers.rt
//! drop(serve(alloc, open(alloc)?, lanes, &mut clock, &mut queue, TURNS));
//! ```
//!
//! # Decisions
//!
//! - **An event is answered before the next one is taken**, by `step`, which needs no room that could be refused: so there is nothing that
//!   was taken and isn't answered, and no batch to be kept. Served in a row, the events of a lane find what they need in the processor's
//!   caches, and their outcomes reach the worker together, which then writes them by one call (docs/BENCHMARKS.md, "Serving").
//! - **An event whose step was answered busy may stay in its lane**: such a step leaves the world as it was, so the event is taken up again later,
//!   without an outcome till then. A table can so hand a write over to be made by another thread: it refuses the call that hands the write over, and makes the write in memory at the call
//!   that comes again with it. What is stepped then is a copy of the lane's first event, and the event is taken once its outcome is put: so what was taken is what was
//!   answered, as ever. If memory for the copy is refused the event stays too.
//! - **No Busy is put while the table owes a write**, whatever it is for (`owed` of `serve_next`, over what the table itself shows): so the event to which a write is owed stays until
//!   its step claims the write or finds it undone, and a client that was answered Busy knows that nothing was changed. Other events that are busy meanwhile are answered so a sync later.
//! - **Of a table whose calls make their writes no event is copied**, and none stays.
//! - **A lane's events in a row cost as many turns**, so of a number of turns each lane has at most as many events, in whatever order lanes are asked.
//! - **A client with many requests in flight has up to 16 answered before the next lane is asked.** One of each in turn would cost the workers half as much again.
//! - **A publisher's turn ends with the event at which the clock has gone on by a millisecond**, whatever lanes it has and whatever they ask: so a publisher's dear
//!   requests cost each other publisher one of them a round. An event is never broken off. The next turn begins at the lane after it, so each lane is asked again after as many rounds at
//!   most as its publisher has lanes. Lanes are a publisher's where they stand next to each other and the machine says so (`Machine::owner`).
//! - **The lane whose turn it is to write is asked before all others**, for one event, since all other writes wait for it. Where it gives that, the round is over; its next
//!   write goes after those that wait, so between two such rounds others have theirs.
//! - **`serve` is `serve_shared` without news**, so there is one loop. Its rounds share the publishers' shares and who has ended: parts of a loop that begin anew would forget at which
//!   lane a publisher's turn ended.
//! - **A change of others is let in while the table owes no other write**: what the table owes was decided on the table as it is. If the table owes the write of this very change,
//!   the call is made again, which claims it. A change is taken from the news only once it is in the table.
//! - **At most 64 changes are let in before lanes are asked again**, and no pause follows a round before which any was.
//! - **Serving ends one round after the last End**, so that a turn that served nothing is one with a pause, whatever round an End came in.
//! - **`serve` has one record (`served`), when it ends (`ended`), and that the lanes' numbers still differ (`distinct`)**, so that it can be called again.
//!   One record and not a clause for each sentence, since four clauses would each speak of a list of events of its own.
//! - **Nothing is taken after an End (`end_last`)**: what was taken in a call is events and then at most one End, as an equation of lists; it
//!   says nothing of an End that was taken in an earlier call, which the caller knows of.
#![tactic(auto)]

pub mod laws;
mod news;
mod remote_changes;
mod rounds;
mod schedule;
mod serving;

pub use hdl_core::{Change, Owing, Service};
pub use hdl_events::{Outcome, What};
pub use hdl_lanes::{Ended, Full, Outlet};
pub use hdl_limits::Octets;
pub use hdl_workers::{
    Datagram, Door, DoorFault, EndReason, Item, LaneEnds, LoopClock, MemoryClock, MemoryConnection,
    MemoryDoor, MemoryNonces, MemoryPackets, Nonces, Packets, WorkerEnd, WorkerSide, lanes_of,
    packet_worker, stream_worker,
};
pub use hdl_write_queue::WriteQueue;
pub use news::{RemoteChanges, StampedChange};
pub use serving::{Served, Shared, SharedEnd, serve, serve_shared};
