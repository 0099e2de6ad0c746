//! Why a line is no entry.

ghost use Rattle.std.specs.Prelude.{◌≡◌};
ghost use Rattle.hdl_history.specs.declared.fault.EntryFault.TheVariants.{Memory};

use std::alloc::{AllocError, AllocFailed};
use thiserror::Error;

/// The first field that is wrong, from the left.
#[derive(Clone, Copy, Debug, PartialEq, Eq, Error)]
pub enum EntryFault {
    #[error("the moment isn't a number of milliseconds")]
    Moment,
    #[error("the operation isn't create, delete, add, remove or modify")]
    Operation,
    #[error("the handle isn't escaped as a line has it")]
    Handle,
    #[error("the key isn't INDEX:HANDLE, - or *")]
    Author,
    #[error("the indexes aren't numbers with commas between, or -")]
    Indexes,
    #[error("the number of values behind ! isn't a number")]
    Count,
    #[error("no memory for the entry")]
    Memory,
}

impl From<AllocError> for EntryFault {
    ghost from_gives = { λ _ e. e ≡ Memory };

    fn from(_e: AllocError) -> EntryFault {
        EntryFault::Memory
    }
}

impl<T: Drop> From<AllocFailed<T>> for EntryFault {
    ghost from_gives = { λ _ e. e ≡ Memory };

    fn from(_e: AllocFailed<T>) -> EntryFault {
        EntryFault::Memory
    }
}
