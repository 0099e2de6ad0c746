//! Values as lines, written and read back.
//!
//! ```text
//! INDEX TYPE TTL PERMISSIONS FORMAT DATA
//!
//!   1 URL 86400 1110 UTF8 https://example.org/report-7
//! 100 HS_ADMIN 86400 1110 ADMIN 300:111111111111:0.NA/10
//! ```
//!
//! This is the form of a value in the batch files of the Handle.Net tools (docs/HDL.md, "A value"). One space stands between two
//! fields; the line has no line end. INDEX and TTL are decimal numbers below 2^32 without a leading zero, TYPE is one or more graphic
//! ASCII octets, PERMISSIONS are four digits: administrator reads, administrator writes, everyone reads, everyone writes. A value that
//! such a line can't say is `OCTETS` and its digits.
//!
//! [`value_line`] writes the line of a value, [`read_value_line`] reads a line. The timestamp isn't part of a line, so a value that
//! was read has timestamp 0. [`shown_line`] and [`shown_data`] write what of a value is shown: where the data of keys isn't asked for
//! that of a key is a function of its index, its type and the length of its data. [`printed_octets`] escapes control characters, so that no
//! octets of a stranger drive a terminal. A reference to a key stands in words as [`read_reference`] reads it. The fields that other
//! forms of a value share ([`number_in`], [`mask_in`], [`permissions_in`]) stand by themselves, and [`value_by_type`] makes a value whose
//! fields stand apart, as those of a table do.
//!
//! What it promises: `specs/Lines.antt` defines the line of each value (`line_of`), and for each list of octets the value that it
//! says or the first field that is wrong (`value_in`). The two functions do just that, want of memory aside, and reading refuses a
//! value that isn't sound with its first fault. [`written_is_read`] is the law: the line of every value says that value, but for its
//! timestamp; [`printed_is_line`] that what is printed has no control character, and [`written_is_printed`] that the line of a value is
//! printed as it is; [`hidden_is_refused`] that the line of a hidden key says no value. An index in words is just the number that its
//! digits spell, and a reference that is read is one that its words spell.
//!
//! ```rust
//! // crates/hdl_vectors/src/lines.rt
//! match read_value_line(rt.alloc(), line) {
//!     Ok(value) => put_both(rt, &value),
//!     Err(fault) => println!(rt; "  {fault}"),
//! }
//! ```
#![tactic(auto)]

mod data;
mod fault;
mod fields;
mod hiding;
mod keys;
mod laws;
mod printing;
mod read;
mod write;

pub use fault::LineFault;
pub use fields::{cut_at, mask_in, number_in, permission_digits, permissions_in};
pub use hiding::{is_hidden, shown_data, shown_line};
pub use keys::{index_in, read_reference};
pub use laws::{hidden_is_refused, printed_is_line, written_is_printed, written_is_read};
pub use printing::printed_octets;
pub use read::{read_value_line, value_by_type};
pub use write::value_line;
