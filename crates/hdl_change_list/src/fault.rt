//! Why the list of changes can't be read or put.

use hdl_etcd::EtcdFault;
use hdl_journal_entries::EntryFault;
use std::alloc::{AllocError, AllocFailed};
use thiserror::Error;

/// Why the list of changes can't be read or put. After the last four this server has parted from the others, and starts anew.
#[derive(Clone, Copy, Debug, PartialEq, Eq, Error)]
pub enum ListFault {
    /// Memory was refused.
    #[error("no memory")]
    Memory,
    /// A member gave no answer, or refused.
    #[error("{0}")]
    Member(EtcdFault),
    /// What stands in etcd isn't in the layout of this version.
    #[error("another layout")]
    Layout,
    /// Entries that weren't taken are gone.
    #[error("fell behind: starts anew")]
    FellBehind,
    /// The entry of this number is gone, and no later one is there.
    #[error("the journal went back from {0}: starts anew")]
    WentBack(u64),
    /// The entry of this number isn't behind those that were taken.
    #[error("entry {0} isn't behind the one before")]
    NotBehind(u64),
}

impl ListFault {
    /// Whether this server has parted from the others, however often it asks.
    pub fn is_final(self) -> bool {
        match self {
            ListFault::Memory | ListFault::Member(_) => false,
            ListFault::Layout | ListFault::FellBehind => true,
            ListFault::WentBack(_) | ListFault::NotBehind(_) => true,
        }
    }
}

impl From<EtcdFault> for ListFault {
    fn from(fault: EtcdFault) -> ListFault {
        match fault {
            EtcdFault::Memory => ListFault::Memory,
            fault => ListFault::Member(fault),
        }
    }
}

impl From<EntryFault> for ListFault {
    fn from(fault: EntryFault) -> ListFault {
        match fault {
            EntryFault::Memory => ListFault::Memory,
            EntryFault::Malformed | EntryFault::NoChange => ListFault::Layout,
        }
    }
}

impl From<AllocError> for ListFault {
    fn from(_fault: AllocError) -> ListFault {
        ListFault::Memory
    }
}

impl<T: Drop> From<AllocFailed<T>> for ListFault {
    fn from(_fault: AllocFailed<T>) -> ListFault {
        ListFault::Memory
    }
}
