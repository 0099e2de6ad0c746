//! Values, requests and replies in words, for people to read.
//!
//! ```text
//! octets of a frame -> one_datagram -> read_request or read_reply -> Page: lines that begin with `;;`, and a line for each value
//! ```
//!
//! A value is the line that `hdl_value_lines` shows of it, which reads back as the value, or of a hidden key says how many octets its data
//! has. Octets that are in no grammar are said to be so. No line has a control character, whatever stands in handles, types and text.

mod line;
mod lines;
mod naming;
mod printout;
mod reply;
mod request;
mod value;

pub(crate) use line::line_of;
pub use lines::explain;
pub use naming::{code_name, operation_in, operation_name};
pub use printout::Printout;
pub use reply::{push_reply, push_short_reply};
