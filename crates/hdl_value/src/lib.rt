//! Values of handles: reading them from octets and writing them.
//!
//! A value has an index, a type, data, a TTL, a permission octet, a timestamp and references (RFC 3651, section 3.1;
//! layout and limits are our profile: docs/PROTOCOL.md, "Values"). Contracts see its octets and references as lists, so
//! the struct `Value` is itself the mathematical value. `specs/Spelling.antt` defines its encoding, `specs/Data.antt`
//! the data with a meaning, `specs/Fault.antt` the limits and the order of the faults.
//!
//! `read_value` returns a value that keeps the limits, or the first fault of the octets. `cut_value` checks the layout
//! alone and copies nothing, for values inside a message. `admin_of` and `vlist_of` return what a value refers to;
//! `Value::class` says who may read it. A place (`specs/Place.antt`) is a canonical handle and an index. Tables, chains
//! of lists and covers are defined by places.
//!
//! `number_fits`, `string_fits` and `value_fits` state that parts fit their fields, as their types imply. A writer of a
//! grammar calls them to know that its output is in the grammar.
//!
//! `specs/Reading.antt` builds readers from readers, with two laws that are proved once in `proofs/Codecs.antt`: what
//! is read is in the grammar, and what is in the grammar is read. The layouts of values and of messages are built from
//! these readers.
//!
//! ```rust
//! // crates/hdl_vectors/src/values.rt
//! match read_value(rt.alloc(), octets) {
//!     Err(fault) => println!(rt; "  {fault}"),
//!     Ok((_, count)) => println!(rt; "  {count} octets"),
//! }
//! ```
#![tactic(auto)]

mod admin;
mod cut;
mod data;
mod fault;
mod fields;
mod fits;
mod kinds;
mod laws;
mod permission;
mod read;
mod references;
mod value;
mod wire;
mod write;

pub use admin::{AdminMask, Reference, admin_of, vlist_of};
pub use cut::{CutValue, cut_value};
pub use fault::ValueFault;
pub use fields::{octet_at, put_string, put_u16, put_u32, string_at, u16_at, u32_at};
pub use fits::{number_fits, string_fits, value_fits};
pub use kinds::{
    HS_ADMIN, HS_ALIAS, HS_GONE, HS_PUBKEY, HS_SECKEY, HS_SITE, HS_VLIST, LOCATIONS, URL,
};
pub use laws::{
    grants_are_named, listed_are_named, net_read_as_spelt, none_begins_another, one_administrator,
    one_list, places_are_ordered, read_as_spelt, read_as_spelt_by, read_by_second, refs_are_named,
    soundness_decided,
};
pub use permission::{AdminPermission, Class, Permission};
pub use read::read_value;
pub use references::{RawRef, RawRefs, put_references, read_references};
pub use value::Value;
pub use wire::Wire;
pub use write::{put_value, write_value};
