//! What `handled`, `hdl` and `hdl proxy` share as programs: the words of a command line, the exit status after faulty ones, the version, the
//! octets of standard input and output, and the fault with which a run ends.
//!
//! A program that has words on its command line reads them with `clap`. Where these leave nothing to do, [`usage_status`] says
//! with which status it ends (docs/PROTOCOL.md, "The tenants text and scripts"). [`read_input`] reads the whole input, within its limit, and [`tenants_of`]
//! the tenants text in it; [`put_all`] writes all of an output. Each answers a [`Fault`], which prints as the fault line and knows its [`ExitStatus`].
//!
//! It stands on `hdl_tenants`, whose faults are among those of a run, and on neither the service nor `clap`: what serves need not wait for what replays,
//! and the wrong bodies are tried in seconds, while a program's own check takes minutes.
//!
//! ```rust
//! // crates/hdl_replay/src/replaying.rt
//! let text = read_input(alloc, input)?;
//! let lines = output_of(alloc, rows, text.as_slice())?;
//! put_all(output, lines.as_bytes())
//! ```
#![tactic(auto)]

mod arguments;
mod exit_status;
mod fault;
mod input;
mod output;
mod tenants;

pub use arguments::arguments_of;
pub use exit_status::{ExitStatus, usage_status};
pub use fault::Fault;
pub use input::{INPUT_LIMIT, read_input};
pub use output::put_all;
pub use tenants::tenants_of;

/// The version of the product, and the kit that it is proved with.
pub const VERSION: &str = "0.1.0 (Buckramjade; rattle-kit-13f logic dac8208d650f15bf)";
