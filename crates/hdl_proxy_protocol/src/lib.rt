//! The client that a proxy speaks for: the header of the PROXY protocol, version 2.
//!
//! ```text
//! the first octets of a connection -> read_header -> how many more belong to the header, or the client, or a fault
//! ```
//!
//! A proxy before the server (HAProxy's `send-proxy-v2`) writes this header before the octets of its client, so that the server knows the client's address.
//! The crate has no sockets: its caller decides from which addresses a header is accepted. It promises which octets are a header, the first fault of others, and that
//! no octet after the header is asked for.
//!
//! ```rust
//! // crates/hdl_sockets/src/proxy_header.rt
//! match read_header(self.octets.as_slice()) {
//!     Ok(step) => Ok(step),
//!     Err(_) => Err(io::Error::from(ErrorKind::InvalidData)),
//! }
//! ```
#![tactic(auto)]

mod header;

pub use header::{HEADER_MOST, HeaderFault, HeaderStep, START_LEN, read_header};
