//! Why a line is no value.

ghost use Rattle.std.specs.Prelude.{◌≡◌};
ghost use Rattle.hdl_value_lines.specs.declared.fault.LineFault.TheVariants.{Memory};

use hdl_value::ValueFault;
use std::alloc::{AllocError, AllocFailed};
use thiserror::Error;

/// What is wrong with a line: the first field that is wrong, from the left, then what is wrong with the whole value.
#[derive(Clone, Copy, Debug, PartialEq, Eq, Error)]
pub enum LineFault {
    #[error("the index isn't a number")]
    Index,
    #[error("the type is empty, or has a space or other than graphic ASCII characters")]
    Type,
    #[error("the TTL isn't a whole number from 0 to 4294967295")]
    Ttl,
    #[error("the permissions aren't four digits 0 or 1")]
    Permissions,
    #[error("the format isn't UTF8, ADMIN, LIST or HEX")]
    Format,
    #[error("the data is HIDDEN: write the data itself")]
    Hidden,
    #[error("the data isn't text on one line")]
    Text,
    #[error("the data isn't INDEX:MASK:HANDLE, the mask of twelve digits 0 or 1")]
    Admin,
    #[error("the data isn't INDEX:HANDLE and more of them")]
    List,
    #[error("the data isn't hexadecimal digits")]
    Hex,
    #[error("the octets aren't the digits of a value")]
    Octets,
    #[error("{0}")]
    Value(ValueFault),
    #[error("no memory for the value")]
    Memory,
}

impl From<AllocError> for LineFault {
    ghost from_gives = { λ _ e. e ≡ Memory };

    fn from(_e: AllocError) -> LineFault {
        LineFault::Memory
    }
}

impl<T: Drop> From<AllocFailed<T>> for LineFault {
    ghost from_gives = { λ _ e. e ≡ Memory };

    fn from(_e: AllocFailed<T>) -> LineFault {
        LineFault::Memory
    }
}
