//! Which server has a prefix that none was named with.

use lru::LruCache;
use std::alloc::{AllocError, Global};
use std::hash::RandomState;
use std::num::NonZeroUsize;

/// Of how many prefixes it is remembered.
const PREFIXES_MOST: usize = 4096;

/// For how many milliseconds the proxy remembers which server has a prefix.
const OWNER_MILLIS: u64 = 60_000;

/// The server at this place has a prefix, until a moment.
#[derive(Clone, Copy)]
struct PrefixOwner {
    place: usize,
    until: u64,
}

/// Which server has which prefix, by earlier answers. It changes which server is asked first, and nothing else.
#[derive(Drop)]
pub(crate) struct PrefixOwners {
    alloc: Global,
    kept: LruCache<Vec<u8>, PrefixOwner, RandomState>,
}

impl PrefixOwners {
    pub(crate) fn new(alloc: Global, hasher: RandomState) -> Result<PrefixOwners, AllocError> {
        let most = NonZeroUsize::new(PREFIXES_MOST).unwrap_or(NonZeroUsize::MIN);
        let kept = LruCache::with_hasher(alloc, most, hasher)?;
        Ok(PrefixOwners { alloc, kept })
    }

    /// The place of the server that has this prefix, if that is known at this moment.
    pub(crate) fn of(&mut self, prefix: &[u8], now: u64) -> Option<usize> {
        match self.kept.get(prefix) {
            Some(owner) if now < owner.until => Some(owner.place),
            _ => None,
        }
    }

    /// The server at this place has this prefix. Want of memory forgets it.
    pub(crate) fn note(&mut self, prefix: &[u8], place: usize, now: u64) {
        let until = now.saturating_add(OWNER_MILLIS);
        if let Ok(key) = Vec::from_slice(self.alloc, prefix) {
            let _ = self.kept.put(key, PrefixOwner { place, until });
        }
    }
}
