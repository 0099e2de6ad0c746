//! The request that undoes a change of a history.
//!
//! ```text
//! create -> delete     add -> remove     modify -> modify     remove -> add     delete -> create
//! ```
//!
//! [`undo`] takes an entry of `hdl_history`, and what stands of the handle now as a reply shows it. It answers the one request after
//! which the values are as they were before the change, but for their timestamps. It refuses if anything changed since: values that
//! the change wrote stand only with its moment as their timestamp, and those that it removed aren't there. It refuses if the history
//! hasn't the values before: they were left out, or one is a key.
//!
//! What it promises: `specs/Undo.antt` defines the request and each refusal (`undo_of`); `undo` answers just that, want of memory aside.
//! A value that a reply doesn't show can't be seen here.
//!
//! ```rust
//! // crates/hdl_history_commands/src/undoing.rt
//! let body = undo(alloc, options.wire, entry, there)?;
//! ```
#![tactic(auto)]

mod before;
mod fault;
mod standing;
mod undoing;

pub use fault::UndoFault;
pub use undoing::undo;
