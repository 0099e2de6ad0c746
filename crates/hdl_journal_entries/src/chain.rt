//! Entries in turn.

ghost use Rattle.std.specs.Prelude.{◌≡◌};
ghost use Rattle.hdl_journal_entries.specs.Chain.{first_sum, place_of, after_entry};

use crate::entry::Entry;
use sha2::{Digest as _, Sha256};

/// Where an entry stands, seen from a chain.
#[derive(Clone, Copy, Debug, PartialEq, Eq)]
pub enum EntryOrder {
    /// It is the next one.
    Next,
    /// An entry of its number was taken before.
    Earlier,
    /// Others stand before it that weren't taken.
    Later,
    /// Its number is the next, but its sum isn't that of the entries that were taken: two lists have parted.
    Elsewhere,
}

/// How many entries were taken, and their sum: SHA-256 of the last one's octets, 32 octets of 0 at the beginning.
#[derive(Clone, Copy)]
pub struct Chain {
    pub number: u64,
    pub sum: [u8; 32],
}

impl Chain {
    /// The chain of no entries.
    pub fn new() -> Chain
        ensures { result ≡ record { number = 0; sum = first_sum } }
    {
        Chain {
            number: 0,
            sum: [0; 32],
        }
    }

    /// Where the entry stands.
    pub fn place_of(&self, entry: &Entry) -> EntryOrder
        ensures { result ≡ place_of self.now entry.now }
    {
        if entry.number <= self.number {
            return EntryOrder::Earlier;
        }
        if entry.number - self.number > 1 {
            return EntryOrder::Later;
        }
        if entry.before == self.sum {
            EntryOrder::Next
        } else {
            EntryOrder::Elsewhere
        }
    }

    /// The chain with one entry more, by its number and its octets.
    pub fn behind(number: u64, octets: &[u8]) -> Chain
        ensures { result ≡ after_entry number octets.now }
    {
        Chain {
            number,
            sum: Sha256::digest(octets),
        }
    }
}
