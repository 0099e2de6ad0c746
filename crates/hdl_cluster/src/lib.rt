//! A server's table beside those of other servers, over one list of changes in etcd.
//!
//! ```text
//! the thread that serves                                        a thread of its own
//! DurableRows over JournalFile { EtcdJournal } -- orders  -->   ClusterSync: a transaction for each, sent until its answer is known
//!                                 EtcdJournal  <- written --    what stands in the list, in its order: this server's writes and the others'
//! serve_shared, which lets in       EtcdChanges  <- changes --  what the others changed
//! ```
//!
//! [`EtcdJournal`] is a `Journal` (hdl_journalrows): what it told is what came by the ring and was taken (`specs/Told.antt`). A write is Made once it is the next that stands in the list.
//! Another server's is taken only while its change is let in, and this server's own only by the call that ordered it. [`EtcdChanges`] is `RemoteChanges` (hdl_serve).
//!
//! What the [`ClusterSync`] puts into the list reads as a change that makes the write that was ordered (`specs/Writes.antt`), and each change that it reads is told with its write. No clause
//! says what it puts into the rings, since a network brings it. That the changes of all servers are one list is the premise of `servers_serve_as_one` (hdl_serve).
//!
//! ```rust
//! // crates/hdl_host/src/sharing.rt
//! let mut loading = keeper.load()?;
//! for _ in 0..u64::MAX {
//!     if !keeper.load_part(&mut loading)? {
//!         break;
//!     }
//!     apply_all_remote(service, news)?;
//! }
//! ```
//!
//! # Decisions
//!
//! - **A change that lost a race is refused by the table**, since it was decided on one that lacks another server's change. `serve_shared` keeps its event, lets that change in, and
//!   decides the event again. A client sees a later answer.
//! - **A change under way is never given up.** Nobody can tell what became of it until a member answers, so its lane waits. Once no member answered for five seconds each other change is
//!   answered busy at once.
//! - **The keeper reads others' changes from the list** once a watch tells that its head was put, and else once a second. While no watch stands it reads each 20 milliseconds,
//!   and it reads after each change that lost a race. No clause rests on what a watch tells.
#![tactic(auto)]

mod journal;
mod news;
mod start;
mod sync;
mod writes;

pub use hdl_change_list::{ClusterStatus, EtcdFault, ListFault, TableLoad};
pub use journal::EtcdJournal;
pub use news::EtcdChanges;
pub use start::{ClusterParts, SharedRows, prepare};
pub use sync::{ClusterSync, WakeServer};
