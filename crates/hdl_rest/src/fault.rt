//! What is wrong with a record in JSON.

ghost use Rattle.std.specs.Prelude.{◌≡◌};
ghost use Rattle.hdl_rest.specs.declared.fault.EntryFault.TheVariants.{Memory};
ghost use Rattle.hdl_rest.specs.declared.fault.RecordFault.TheVariants as record_fault;

use hdl_limits::WRITTEN_MAX;
use hdl_value::ValueFault;
use std::alloc::{AllocError, AllocFailed};
use thiserror::Error;

/// What is wrong with one value: the first of these, in the order of its fields, and then of the value itself.
#[derive(Clone, Copy, Debug, PartialEq, Eq, Error)]
pub enum EntryFault {
    #[error("the index isn't a number below 4294967296")]
    Index,
    #[error("the type isn't text")]
    Type,
    #[error("the data is neither text nor a format and a value")]
    Data,
    #[error("the data's format isn't string, base64, hex, admin, vlist or key")]
    Format,
    #[error("the data isn't text")]
    Text,
    #[error("the data isn't base64")]
    Base64,
    #[error("the data isn't hexadecimal digits")]
    Hex,
    #[error("the data isn't an administrator: a handle, an index and twelve permissions")]
    Admin,
    #[error("the data isn't a list of a handle and an index each")]
    List,
    #[error("the TTL isn't a number of seconds below 4294967296")]
    Ttl,
    #[error("the permissions aren't four digits 0 or 1")]
    Permissions,
    #[error("{0}")]
    Value(ValueFault),
    #[error("no memory")]
    Memory,
}

/// What is wrong with a record. Values are counted from 1.
#[derive(Clone, Copy, Debug, PartialEq, Eq, Error)]
pub enum RecordFault {
    #[error("the body isn't JSON, or it is nested too deep: `python3 -m json.tool` finds the place")]
    Json,
    #[error("the body is neither a value, nor a list of values, nor an object with such a list as its values")]
    Shape,
    #[error("the body has no value")]
    Empty,
    #[error("the body has more than {WRITTEN_MAX} values")]
    Many,
    #[error("value {place}: {fault}")]
    Entry { place: u64, fault: EntryFault },
    #[error("value {place}: its index is given twice")]
    Twice { place: u64 },
    #[error("an object of it has a key twice")]
    Again,
    #[error("the body has a member other than values, handle and responseCode")]
    Members,
    #[error("a value has a member other than index, type, data, ttl, permissions and timestamp, or its data has one that its format hasn't")]
    Strange,
    #[error("value {place}: its index isn't among those that the address names")]
    Unasked { place: u64 },
    #[error("no memory")]
    Memory,
}

impl From<AllocError> for EntryFault {
    ghost from_gives = { λ _ e. e ≡ Memory };

    fn from(_e: AllocError) -> EntryFault {
        EntryFault::Memory
    }
}

impl<T: Drop> From<AllocFailed<T>> for EntryFault {
    ghost from_gives = { λ _ e. e ≡ Memory };

    fn from(_e: AllocFailed<T>) -> EntryFault {
        EntryFault::Memory
    }
}

impl From<AllocError> for RecordFault {
    ghost from_gives = { λ _ e. e ≡ record_fault.Memory };

    fn from(_e: AllocError) -> RecordFault {
        RecordFault::Memory
    }
}

impl<T: Drop> From<AllocFailed<T>> for RecordFault {
    ghost from_gives = { λ _ e. e ≡ record_fault.Memory };

    fn from(_e: AllocFailed<T>) -> RecordFault {
        RecordFault::Memory
    }
}
