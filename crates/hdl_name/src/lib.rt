//! Names of handles, after RFC 3651, section 3: a naming authority, the first `/`, and a local name.
//!
//! This crate is the grammar of names and nothing else. Every crate above uses it for handles.
//!
//! [`Name::read`] accepts exactly the octets that the definition `IsName` describes, and keeps them as they were sent.
//! For other octets it returns the first fault, in a fixed order. The parts of a name and its canonical form are
//! functions of the octets. Two handles are the same if their canonical forms are the same octets. [`is_name`] is the
//! same test and takes no memory. The laws that the crates above use are the contracts of functions without a body:
//! there is one reading, and the canonical form is a name and its own canonical form.
//!
//! Contracts see a [`Name`] as the octets that were sent.
//!
//! ```rust
//! // crates/hdl_vectors/src/names.rt
//! match Name::read(rt.alloc(), octets) {
//!     Ok(name) => put_parts(rt, &name),
//!     Err(fault) => println!(rt; "  {fault}"),
//! }
//! ```
#![tactic(auto)]

mod fault;
mod laws;
mod name;

pub use fault::NameFault;
pub use laws::{canonical_stays, names_decided, one_reading, same_prefix};
pub use name::{Name, is_authority, is_name};
