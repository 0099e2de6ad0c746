//! The commands of `hdl` on a history: `hdl history` and `hdl undo`.
//!
//! ```text
//! HANDLE, FILE -> show_history -> the handle's changes in words, the newest first
//! HANDLE, FILE, a key -> undo_change -> what stands, asked of a server -> hdl_undo's request -> the server
//! ```
//!
//! A change is undone only if `hdl_undo` answers a request for it. No line has a control character or the
//! data of a key. All that is printed is tested (tools/trials/histories.py).
//!
//! ```rust
//! // crates/hdl/src/main.rt
//! match undo_change(rt, options) {
//!     Ok(()) => ExitStatus::Success,
//!     Err(fault) => {
//!         report_history(rt, &options.file, &options.server, &fault);
//!         status_after(&fault)
//!     }
//! }
//! ```
#![tactic(auto)]

mod fault;
mod file;
mod key;
mod server;
mod showing;
mod undoing;
mod words;

pub use fault::HistoryFault;
pub use showing::{HistoryOptions, show_history};
pub use undoing::{UndoOptions, undo_change};
