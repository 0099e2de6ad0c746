//! The list of changes that servers share, in etcd.
//!
//! ```text
//! ChangeList::open_all      puts the first values of handles that were never opened
//! load, next_page           the table as it is at one revision, as changes that make it of an empty one
//! next_entries              the changes that stand behind those that were taken
//! put_of, send              puts a change behind those that were taken, or tells that another one stands there
//! watch, poll_watch         whether it's time to read the next entries, as a member tells
//! ```
//!
//! Each change is one transaction of etcd: it is made only if the list is as it was taken. It writes the entry, the head, and the keys of the handle and its values, from which
//! a server that starts reads the table. The members are asked in turn. A change without an answer is sent again as it was, and its nonce tells whether it stands there.
//!
//! No clause says what a network brings: calls are safe, and end unless a member goes on sending. What was taken is checked by `hdl_journal_entries`: each entry bears its number and the
//! sum of those before. [`ClusterStatus`] is what the status page tells. Each call waits for a member, a second at a time; whoever may not wait calls from a thread of its own.
//!
//! ```rust
//! // crates/hdl_cluster/src/sync.rt
//! let entries = self.list.next_entries()?;
//! self.note_known();
//! ```
#![tactic(auto)]

mod cluster_status;
mod fault;
mod keyed;
mod list;
mod loading;
mod members;
mod messages;
mod opening;
mod streams;
mod unread;
mod watch;
mod watching;

pub use cluster_status::ClusterStatus;
pub use fault::ListFault;
pub use hdl_etcd::EtcdFault;
pub use list::{ChangeList, PreparedPut, PutResult};
pub use loading::TableLoad;
pub use messages::message_of_change;
