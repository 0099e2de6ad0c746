//! Why a change isn't undone.

ghost use Rattle.std.specs.Prelude.{◌≡◌};
ghost use Rattle.hdl_undo.specs.declared.fault.UndoFault.TheVariants.{Memory};

use hdl_value_lines::LineFault;
use std::alloc::{AllocError, AllocFailed};
use thiserror::Error;

/// Why a change isn't undone. Values are named by their indexes.
#[derive(Clone, Copy, Debug, PartialEq, Eq, Error)]
pub enum UndoFault {
    #[error("the history hasn't the {0} values before this change, since they were too long")]
    LeftOut(u64),
    #[error("value {0} was a key, and the history has no data of keys: set the key anew")]
    HiddenKey(u32),
    #[error("a value before this change can't be read in the history: {0}")]
    Unreadable(LineFault),
    #[error("the values before this change aren't those of its indexes: the line of the history is damaged")]
    OtherIndexes,
    #[error("the handle isn't there")]
    NotThere,
    #[error("the handle is there again")]
    HandleThere,
    #[error("value {0} was changed or removed since, or the key may not read it")]
    Changed(u32),
    #[error("value {0} was added since")]
    Added(u32),
    #[error("value {0} is there again")]
    ValueThere(u32),
    #[error("the handle had {0} values, and a request creates at most 256: create it with some, and add the others")]
    TooMany(u64),
    #[error("no memory for the request")]
    Memory,
}

impl From<AllocError> for UndoFault {
    ghost from_gives = { λ _ e. e ≡ Memory };

    fn from(_e: AllocError) -> UndoFault {
        UndoFault::Memory
    }
}

impl<T: Drop> From<AllocFailed<T>> for UndoFault {
    ghost from_gives = { λ _ e. e ≡ Memory };

    fn from(_e: AllocFailed<T>) -> UndoFault {
        UndoFault::Memory
    }
}
