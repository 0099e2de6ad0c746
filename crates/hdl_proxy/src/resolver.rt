//! Who is asked.

use thiserror::Error;

/// Why there is no answer.
#[derive(Clone, Copy, Debug, PartialEq, Eq, Error)]
pub enum NoAnswer {
    /// No server could be reached, or none answered in time or in the grammar.
    #[error("no server answered")]
    Unreachable,
    /// No server has handles of the prefix.
    #[error("no server has handles of this prefix")]
    Elsewhere,
    /// Too many questions wait for a server that may have the handle.
    #[error("too many questions wait")]
    Crowded,
    /// Memory was refused.
    #[error("no memory for an answer")]
    Memory,
}
