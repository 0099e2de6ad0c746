//! The tenants text: publishers with their lanes and ports, the prefixes that are hosted for them, their site information, and
//! the values to open with. The format is this project's own.
//!
//! [`Tenants::read`] accepts exactly the texts that `specs/Text.antt` defines, line after line, and gives what they say;
//! any other text is refused with its first faulty line and the fault there. Nothing else is ever asked of the text: the
//! calls of [`Tenants`] after `read` take no memory and can't fail.
//!
//! Contracts see a [`Tenants`] as a `Register` (`specs/Register.antt`): the list of publishers, the list of hosted prefixes
//! with the places of their publishers, the list of their site information, and the list of opening rows, each in the text's
//! order. Whose lane it is (`owner`), whether a prefix is hosted (`hosts`) and what the site information of a publisher is
//! (`site`) are functions of it. What holds of each register is `IsRegister`; that lanes are
//! numbered by publisher, that nobody hosts `0.na` and that a text has one meaning are the contracts of functions without a
//! body.
//!
//! [`decimal`] reads the numbers of scripts too.
//!
//! ```rust
//! // crates/hdl_vectors/src/tenants.rt
//! match tenants.lanes_of(place) {
//!     Some((first, last)) => println!(rt; "    lanes {first} to {last}"),
//!     None => println!(rt; "    no lanes"),
//! }
//! ```
//!
//! # Decisions
//!
//! - **A prefix of several publishers is found by the prefix, with the list of its publishers beside it**, since a look-up takes no memory
//!   and a key of prefix and publisher would have to be put together. The lines' order stands in a vector of its own, which is what
//!   contracts see; the invariant is that each list is the publishers of its prefix in that vector (`KeepsHostings`).
//! - **Whether a prefix is hosted and its hash function there are one answer** (`Tenants::hosting`), since a request needs both and a look-up is dear.
//!   `hosts` and `algorithm` give one of the two.
//! - **Accepted tenants texts are said by a relation from one register to the next**, line by line, and a register keeps places and counts
//!   beside it only while a text is read, so that reading takes time linear in the text.
#![tactic(auto)]

mod fault;
mod hosting;
mod laws;
mod lines;
mod numerals;
mod prefixes;
mod publishers;
mod sites;
mod taken;
mod text;

pub use fault::TenantFault;
pub use laws::{
    accepted_has_no_fault, hashed_as_given, hosted_as_given, lanes_by_range, one_first_fault,
    one_register, opening_is_hosted, root_is_nobodys, sited_as_given,
};
pub use numerals::{decimal, decimal_u16, decimal_u32};
pub use sites::SITE_MAX;
pub use text::Tenants;
