//! What an entry says.

ghost use Rattle.std.specs.Prelude.{◌≡◌};
ghost use Rattle.hdl_journal_entries.specs.declared.entry.EntryFault.TheVariants.{Memory};

use hdl_limits::{Items, Octets};
use std::alloc::{AllocError, AllocFailed};
use thiserror::Error;

/// An entry of a journal. The fields in order, numbers in network order:
///
/// ```text
/// number      8 octets, one more than that of the entry before
/// nonce       16 octets, which say whose entry it is
/// before      32 octets, the sum of all entries before
/// changes     4 octets of count, and that many messages with their moments:
///   moment    8 octets, milliseconds since 1970
///   message   4 octets of length, and that many
/// ```
#[derive(Drop)]
pub struct Entry {
    pub number: u64,
    pub nonce: [u8; 16],
    pub before: [u8; 32],
    pub changes: Items<DatedMessage>,
}

/// A change of the table as the message of the request that makes it (docs/PROTOCOL.md, "Message"), and the moment at which it is made.
#[derive(Drop)]
pub struct DatedMessage {
    pub moment: u64,
    pub message: Octets,
}

/// Why octets give no entry, or a message no change.
#[derive(Clone, Copy, Debug, PartialEq, Eq, Error)]
pub enum EntryFault {
    /// Memory was refused.
    #[error("memory was refused")]
    Memory,
    /// The octets don't have the layout of an entry.
    #[error("octets that are no entry")]
    Malformed,
    /// A message isn't that of a request that creates, deletes, adds, removes or modifies, its handle isn't a name, or one of its values isn't sound.
    #[error("an entry with a message that is no change")]
    NoChange,
}

impl From<AllocError> for EntryFault {
    ghost from_gives = { λ _ e. e ≡ Memory };

    fn from(_e: AllocError) -> EntryFault {
        EntryFault::Memory
    }
}

impl<T: Drop> From<AllocFailed<T>> for EntryFault {
    ghost from_gives = { λ _ e. e ≡ Memory };

    fn from(_e: AllocFailed<T>) -> EntryFault {
        EntryFault::Memory
    }
}
