//! One run of a script: the octets of an input to printed lines, a fault line and an exit status.
//!
//! ```text
//! input -> read_input -> script (tenants text, events) -> Service::open, Service::run -> lines -> output
//! ```
//!
//! The script, the printed lines, the fault lines and the exit statuses are those of docs/PROTOCOL.md, "The tenants text and
//! scripts". The input is read and the output written by `hdl_programs`, whose `Fault` a run ends with. All lines are made before the first is written, so a
//! fault other than that of a device prints nothing.
//! [`replay`] does all of it over any empty table, a reader and two writers, and knows neither a command line nor a file. [`lines_of_resumed`] is the part
//! between text and lines, over a table that is there already.
//!
//! ```rust
//! // crates/handled/src/replaying.rt
//! let mut input = rt.stdin();
//! let mut output = rt.stdout();
//! let mut faults = rt.stderr();
//! Ok(replay(rt.alloc(), rows, &mut input, &mut output, &mut faults))
//! ```
#![tactic(auto)]

mod replaying;
mod script;

pub use replaying::{line_of, lines_of_resumed, replay, try_replay};
pub use script::{Parts, events_of, parts_of};
