//! Why a replacement stopped.

use crate::exit_status::ExitStatus;
use crate::fault::ArgumentFault;
use hdl_client::ClientFault;
use std::alloc::{AllocError, AllocFailed};
use std::io;
use thiserror::Error;

/// Why nothing was replaced, or why it stopped.
#[derive(Debug, Drop, Error)]
pub(crate) enum ReplaceFault {
    #[error("{0}")]
    Words(ArgumentFault),
    #[error("the file of handles can't be read: {0}")]
    Handles(io::Error),
    #[error("the file for --undo can't be made: {0}: name a file that isn't there")]
    Undo(io::Error),
    #[error("the file for --undo can't be written: {0}: make room; it has the old values of all that is printed as changed")]
    Unwritten(io::Error),
    #[error("{0}")]
    Client(ClientFault),
    /// The list was refused with this code.
    #[error("{0}")]
    List(u32),
    #[error("the server refuses the key: check --key and its secret; later handles were not tried")]
    Refused,
    #[error("the server takes no changes (--read-only): name the one that does by --server; later handles were not tried")]
    ReadOnly,
}

impl ReplaceFault {
    /// Whether a server refused what was asked for a handle, as it would for each later one.
    pub fn is_refusal(&self) -> bool {
        matches!(self, ReplaceFault::Refused | ReplaceFault::ReadOnly)
    }

    pub fn status(&self) -> ExitStatus {
        match self {
            ReplaceFault::Client(_) => ExitStatus::NoAnswer,
            ReplaceFault::List(_)
            | ReplaceFault::Refused
            | ReplaceFault::ReadOnly
            | ReplaceFault::Unwritten(_) => ExitStatus::Failure,
            _ => ExitStatus::Arguments,
        }
    }
}

impl From<ClientFault> for ReplaceFault {
    fn from(fault: ClientFault) -> ReplaceFault {
        ReplaceFault::Client(fault)
    }
}

impl From<AllocError> for ReplaceFault {
    fn from(_: AllocError) -> ReplaceFault {
        ReplaceFault::Client(ClientFault::Memory)
    }
}

impl<T: Drop> From<AllocFailed<T>> for ReplaceFault {
    fn from(_: AllocFailed<T>) -> ReplaceFault {
        ReplaceFault::Client(ClientFault::Memory)
    }
}

impl From<ArgumentFault> for ReplaceFault {
    fn from(fault: ArgumentFault) -> ReplaceFault {
        ReplaceFault::Words(fault)
    }
}
