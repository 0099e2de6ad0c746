//! Why a word names no server.

use std::alloc::AllocError;
use thiserror::Error;

/// Why a word names no server, the first fault of it.
#[derive(Clone, Copy, Debug, PartialEq, Eq, Error)]
pub enum RouteFault {
    /// Nothing stands before the `=`.
    #[error("HOST:PORT is missing")]
    NoAddress,
    /// A part after the `=` is no naming authority, or `0.NA`.
    #[error("write a list of prefixes after =, such as 10,20.500")]
    NoPrefix,
    #[error("no memory")]
    Memory,
}

impl From<AllocError> for RouteFault {
    fn from(_: AllocError) -> RouteFault {
        RouteFault::Memory
    }
}
