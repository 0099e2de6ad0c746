//! Entries of a journal that servers share: octets that each of them can check, and the changes of the table that they make.
//!
//! ```text
//! Entry -> write_entry -> octets -> read_entry -> the same Entry -> changes_of_entry -> changes of hdl_ops, each with its moment
//! Chain::place_of: the next entry, an earlier one, one too far on, or one of another list;   Chain::behind: the chain with one entry more
//! Key -> key_of -> octets below a cluster's name;   Chain -> write_chain -> octets at its head -> read_chain
//! ```
//!
//! An entry has its number, sixteen random octets that say whose it is, the sum of all entries before it, and changes: each is the message of the request that
//! makes it, with a moment. `specs/Entries.antt` has the layout, once for reading and writing: [`entry_read_as_spelt`] is the law that both are inverse.
//! [`read_entry`] refuses all octets but an entry's. The sum is SHA-256 over an entry's octets, which have the sum of those before: [`divergence_is_seen`] says
//! that two equally long chains of one sum have the same entries, or two texts of one sum were found.
//!
//! What a network brings is no proof, so a message is a change only if its handle is a name and its values are sound ([`change_of_message`]). Whether the table
//! allows it is tested by who makes it.
//!
//! These are laws of octets.
//!
//! ```rust
//! // crates/hdl_change_list/src/list.rt
//! let entry = read_entry(self.alloc, octets)?;
//! let behind = Chain::behind(entry.number, octets);
//! ```
#![tactic(auto)]

mod chain;
mod changes;
mod entry;
mod keys;
mod laws;
mod reading;
mod writing;

pub use chain::{Chain, EntryOrder};
pub use changes::{DatedChange, change_of_message, changes_of_entry};
pub use entry::{DatedMessage, Entry, EntryFault};
pub use keys::{Key, key_of, read_chain, write_chain};
pub use laws::{divergence_is_seen, entry_read_as_spelt, head_read_as_spelt};
pub use reading::read_entry;
pub use writing::write_entry;
