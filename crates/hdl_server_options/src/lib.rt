//! The command line of `handled`: its commands and options, and what they ask for.
//!
//! ```text
//! words -> clap -> parse -> Invocation
//!                     \-> help, the version or a fault, printed; an exit status
//! ```
//!
//! [`read_options`] reads the words that the program was started with. What they ask for is an [`Invocation`], in plain values: which default stands for an option that
//! was left out, and what is done, the program says. It is the program's part, and promises nothing but safety: what the words mean is tried over the built
//! program. It stands in a crate of its own, below which no machine is, since nothing else of the server needs `clap`: so it is proved at the same time as the machine.
//!
//! ```rust
//! // crates/handled/src/main.rt
//! match read_options(rt)? {
//!     Invocation::Ended(status) => Ok(status),
//!     Invocation::Check { text, addresses } => {
//!         match check_input(rt, text, addresses.as_slice()) {
//!             Err(fault) => Err(with_advice(machine, rt, fault)),
//!             ended => ended,
//!         }
//!     }
//! ```
#![tactic(auto)]

mod argument_fault;
mod commands;
mod invocation;
mod reading;
mod serving;
mod values;

pub use invocation::{
    BoundOption, ClusterOptions, ExportOptions, ExportSource, Invocation, LimitOptions,
    MonitoringOptions, OptionsFault, ServeOptions, TableFile,
};
pub use reading::read_options;
