//! The result of taking a piece.

ghost use Rattle.std.specs.Prelude.{◌≡◌};
ghost use Rattle.hdl_pool.specs.declared.taken.PoolFault.TheVariants.{Memory};

use std::alloc::AllocError;
use thiserror::Error;

/// What became of a piece.
#[derive(Drop)]
pub enum Taken {
    /// It made its message whole: this message.
    Whole(Vec<u8>),
    /// The pool keeps it until the others come.
    Kept,
    /// Ignored: its number came before, or its message length differs from that of the pieces before it.
    Ignored,
    /// The pool keeps it until the others come, and has dropped the lane's oldest partial message for it.
    Displaced,
}

/// Why a piece couldn't be taken.
#[derive(Clone, Copy, Debug, PartialEq, Eq, Error)]
pub enum PoolFault {
    /// Memory was refused.
    #[error("out of memory")]
    Memory,
}

impl From<AllocError> for PoolFault {
    ghost from_gives = { λ _ e. e ≡ Memory };

    fn from(_e: AllocError) -> PoolFault {
        PoolFault::Memory
    }
}
