//! Why a command on a history ends without success.

use hdl_client::ClientFault;
use hdl_name::NameFault;
use hdl_undo::UndoFault;
use std::alloc::{AllocError, AllocFailed};
use std::io;
use thiserror::Error;

/// Why a history isn't shown, or a change isn't undone.
#[derive(Debug, Drop, Error)]
pub enum HistoryFault {
    #[error("{0}")]
    Handle(NameFault),
    #[error("the key isn't INDEX:HANDLE, such as 300:0.NA/10")]
    Key,
    #[error("the secret is missing: set HDL_SECRET, or write it on the first line of standard input")]
    NoSecret,
    #[error("--last isn't a number from 1 to 4294967295")]
    Last,
    #[error("the history can't be read: {0}: check --file")]
    File(io::Error),
    #[error("the history has no change of this handle")]
    NoChange,
    #[error("the last change of this handle isn't of the moment in --at; hdl history shows it: nothing was changed")]
    AnotherMoment,
    /// So many lines can't be read.
    #[error("lines of this handle in the history that can't be read: {0}")]
    Damaged(usize),
    #[error("{0}: nothing was changed")]
    Undo(UndoFault),
    #[error("{0}: nothing was changed")]
    Unasked(ClientFault),
    #[error("{0}; the change may have been made: resolve the handle")]
    Sent(ClientFault),
    /// The server answered with this code.
    #[error("{0} {1}: nothing was changed")]
    Refused(u32, &'static str),
    #[error("standard output can't be written")]
    Output,
    #[error("no memory")]
    Memory,
}

impl From<UndoFault> for HistoryFault {
    fn from(fault: UndoFault) -> HistoryFault {
        HistoryFault::Undo(fault)
    }
}

impl From<ClientFault> for HistoryFault {
    fn from(fault: ClientFault) -> HistoryFault {
        HistoryFault::Unasked(fault)
    }
}

impl From<AllocError> for HistoryFault {
    fn from(_: AllocError) -> HistoryFault {
        HistoryFault::Memory
    }
}

impl<T: Drop> From<AllocFailed<T>> for HistoryFault {
    fn from(_: AllocFailed<T>) -> HistoryFault {
        HistoryFault::Memory
    }
}

impl From<io::Error> for HistoryFault {
    fn from(_: io::Error) -> HistoryFault {
        HistoryFault::Output
    }
}
