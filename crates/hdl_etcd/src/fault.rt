//! Why there is no answer.

ghost use Rattle.std.specs.Prelude.{◌≡◌};
ghost use Rattle.hdl_etcd.specs.declared.fault.EtcdFault.TheVariants.{Memory};

use std::alloc::{AllocError, AllocFailed};
use std::io;
use thiserror::Error;

/// Why there is no answer. Nobody can tell whether the request was served, unless etcd refused it.
#[derive(Clone, Copy, Debug, PartialEq, Eq, Error)]
pub enum EtcdFault {
    /// The stream ended or failed, or the status is another one.
    #[error("etcd gave no answer")]
    NoAnswer,
    /// The status is 400: the request is too large for this member, or is none that it takes. It made nothing.
    #[error("etcd refused a change as too large: start its members with --max-txn-ops 2048 and --max-request-bytes 1572864 or more")]
    Refused,
    /// The status is 429: the member takes no more. It made nothing.
    #[error("etcd's space is spent: compact, defragment, or raise --quota-backend-bytes")]
    Spent,
    /// What came isn't an answer of etcd's gateway.
    #[error("an answer that isn't one of etcd's gateway: check --cluster")]
    Malformed,
    /// The answer has more than `BODY_MAX` octets.
    #[error("an answer of more than 64 MiB")]
    Oversized,
    /// Memory was refused.
    #[error("memory was refused")]
    Memory,
}

impl From<AllocError> for EtcdFault {
    ghost from_gives = { λ _ e. e ≡ Memory };

    fn from(_fault: AllocError) -> EtcdFault {
        EtcdFault::Memory
    }
}

impl<T: Drop> From<AllocFailed<T>> for EtcdFault {
    ghost from_gives = { λ _ e. e ≡ Memory };

    fn from(_fault: AllocFailed<T>) -> EtcdFault {
        EtcdFault::Memory
    }
}

impl From<io::Error> for EtcdFault {
    fn from(_fault: io::Error) -> EtcdFault {
        EtcdFault::NoAnswer
    }
}
