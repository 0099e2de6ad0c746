//! What was read or created last, by handle.

ghost use Rattle.std.specs.Prelude.{◌≡◌, ◌≤◌, [], true, IfOk, IfSome};
ghost use Rattle.hdl_rows.specs.Table.{Table, place, has, at, with_new_handle, with_values};
ghost use Rattle.hdl_cachedrows.specs.Cost.{total};
ghost use Rattle.hdl_cachedrows.specs.Cache.{AgreeBut, AreHeads, AreTrue, IsAbsent, IsFound, IsKept};

use crate::cached_handle::CachedHandle;
use hdl_value::Value;
use lru::LruCache;
use std::alloc::{AllocError, Global};
use std::hash::RandomState;

/// The share of the bound that what is kept of one handle may take: one part of `SHARES`.
const SHARES: usize = 64;

/// What is kept, by canonical handle, the most recently used first. What it costs is counted, and never more than the bound.
#[derive(Drop)]
pub(crate) struct Cache {
    pub(crate) alloc: Global,
    pub(crate) limit: usize,
    pub(crate) octets: usize,
    pub(crate) kept: LruCache<Vec<u8>, CachedHandle, RandomState>,
    ghost counted: { octets ≡ total kept.entries },
    ghost bounded: { octets ≤ limit },
}

impl Cache {
    /// An empty cache. Refused only for want of memory.
    pub(crate) fn new(alloc: Global, limit: usize, hasher: RandomState) -> Result<Cache, AllocError>
        ensures empty { IfOk result (λ cache. cache.kept.entries ≡ []) }
        ensures limit { IfOk result (λ cache. cache.limit ≡ limit) }
    {
        let kept = LruCache::unbounded_with_hasher(alloc, hasher)?;
        Ok(Cache {
            alloc,
            limit,
            octets: 0,
            kept,
        })
    }

    /// Whether a handle is kept.
    pub(crate) fn has(&self, name: &[u8]) -> bool
        ensures of_table { (t : Table) → AreTrue t self.now.kept.entries → result ≡ true → has t name.now ≡ true }
    {
        self.kept.contains(name)
    }

    /// A copy of the values of a handle, which is then the most recently used. None: they aren't kept, or memory for the copy was refused.
    pub(crate) fn find(&mut self, name: &[u8]) -> Option<Vec<Value>>
        ensures of_table { (t : Table) → AreTrue t self.old.kept.entries → IfSome result (λ all. IsFound t name.now all.items) }
        ensures still_true { (t : Table) → AreTrue t self.old.kept.entries → AreTrue t self.new.kept.entries }
        ensures same_limit { self.new.limit ≡ self.old.limit }
    {
        match self.kept.get(name) {
            Some(kept) => kept.values(self.alloc),
            None => None,
        }
    }

    /// The heads of the values of a handle, which is then the most recently used. None: it isn't kept, or memory for the heads was refused.
    pub(crate) fn find_heads(&mut self, name: &[u8]) -> Option<Vec<Value>>
        ensures of_table { (t : Table) → AreTrue t self.old.kept.entries → IfSome result (λ all. AreHeads t name.now all.items) }
        ensures still_true { (t : Table) → AreTrue t self.old.kept.entries → AreTrue t self.new.kept.entries }
        ensures same_limit { self.new.limit ≡ self.old.limit }
    {
        match self.kept.get(name) {
            Some(kept) => kept.heads(self.alloc),
            None => None,
        }
    }

    /// What is kept of a handle, if it is the most recently used. It needs no hash.
    fn last_used(&self, name: &[u8]) -> Option<&CachedHandle>
        ensures of_table { (t : Table) → AreTrue t self.now.kept.entries → IfSome result (λ kept. IsKept t name.now kept.now) }
    {
        match self.kept.peek_mru() {
            Some((last, kept)) if last.as_slice() == name => Some(kept),
            _ => None,
        }
    }

    /// As `find_at`, by the hash of the name.
    fn seek_at(&mut self, name: &[u8], index: u32) -> Option<Option<Value>>
        ensures of_table { (t : Table) → AreTrue t self.old.kept.entries → IfSome result (λ value. value ≡ at t (place name.now index)) }
        ensures still_true { (t : Table) → AreTrue t self.old.kept.entries → AreTrue t self.new.kept.entries }
        ensures same_limit { self.new.limit ≡ self.old.limit }
    {
        match self.kept.get(name) {
            Some(kept) => kept.at(self.alloc, index),
            None => None,
        }
    }

    /// A copy of the value at an index of a handle, or that there is none. None: this isn't kept, or memory was refused.
    pub(crate) fn find_at(&mut self, name: &[u8], index: u32) -> Option<Option<Value>>
        ensures of_table { (t : Table) → AreTrue t self.old.kept.entries → IfSome result (λ value. value ≡ at t (place name.now index)) }
        ensures still_true { (t : Table) → AreTrue t self.old.kept.entries → AreTrue t self.new.kept.entries }
        ensures same_limit { self.new.limit ≡ self.old.limit }
    {
        match self.last_used(name) {
            Some(kept) => kept.at(self.alloc, index),
            None => self.seek_at(name, index),
        }
    }

    /// Forgets what was used longest ago, until what is kept costs at most `most`.
    fn shrink(&mut self, most: usize)
        ensures fits { self.new.octets ≤ most }
        ensures still_true { (t : Table) → AreTrue t self.old.kept.entries → AreTrue t self.new.kept.entries }
        ensures same_limit { self.new.limit ≡ self.old.limit }
    {
        while self.octets > most {
            match self.kept.pop_lru() {
                Some((name, kept)) => self.octets -= kept.cost(&name),
                None => unreachable!(),
            }
        }
    }

    /// Keeps the values of a handle, or their heads if the values cost more than their share, or neither if the heads do too. Want of memory
    /// keeps nothing.
    pub(crate) fn keep(&mut self, name: &[u8], values: &[Value])
        ensures still_true { (t : Table) → AreTrue t self.old.kept.entries → IsFound t name.now values.now → AreTrue t self.new.kept.entries }
        ensures same_limit { self.new.limit ≡ self.old.limit }
    {
        let share = self.limit / SHARES;
        let Ok(kept) = CachedHandle::of(self.alloc, name, values, share) else {
            return;
        };
        let Ok(name) = Vec::from_slice(self.alloc, name) else {
            return;
        };
        self.insert(name, kept);
    }

    /// Keeps the values that a handle was created with, as [`keep`](Cache::keep) those that were found.
    pub(crate) fn keep_created(&mut self, name: &[u8], values: &[Value])
        ensures still_true { (t : Table) → AreTrue t self.old.kept.entries → IsAbsent t name.now → AreTrue (with_new_handle t name.now values.now) self.new.kept.entries }
        ensures same_limit { self.new.limit ≡ self.old.limit }
    {
        let share = self.limit / SHARES;
        let Ok(kept) = CachedHandle::created(self.alloc, name, values, share) else {
            return;
        };
        let Ok(name) = Vec::from_slice(self.alloc, name) else {
            return;
        };
        self.insert(name, kept);
    }

    /// Keeps this of a handle, unless it costs more than its share. Want of memory keeps nothing.
    fn insert(&mut self, name: Vec<u8>, kept: CachedHandle)
        ensures still_true { (t : Table) → AreTrue t self.old.kept.entries → IsKept t name.items kept → AreTrue t self.new.kept.entries }
        ensures same_limit { self.new.limit ≡ self.old.limit }
    {
        let cost = kept.cost(&name);
        if cost > self.limit / SHARES {
            return;
        }
        self.shrink(self.limit - cost);
        // `len` says that there are no more than the map has room for, so `push` tells of each that it lets go.
        let _ = self.kept.len();
        if let Ok(displaced) = self.kept.push(name, kept) {
            self.octets += cost;
            if let Some((name, kept)) = displaced {
                self.octets -= kept.cost(&name);
            }
        }
    }

    /// Puts values that were put into the table among what is kept of a handle. It is forgotten if it would cost more than its share, or memory
    /// was refused.
    pub(crate) fn put(&mut self, name: &[u8], values: &[Value])
        ensures still_true { (t : Table) → AreTrue t self.old.kept.entries → AreTrue (with_values t name.now values.now) self.new.kept.entries }
        ensures same_limit { self.new.limit ≡ self.old.limit }
    {
        let Some((name, kept)) = self.forget(name) else {
            return;
        };
        if let Ok(kept) = kept.with_values(self.alloc, values) {
            self.insert(name, kept);
        }
    }

    /// Forgets what is kept of a handle, and returns it.
    pub(crate) fn forget(&mut self, name: &[u8]) -> Option<(Vec<u8>, CachedHandle)>
        ensures of_table { (t : Table) → AreTrue t self.old.kept.entries → IfSome result (λ entry. (entry.0.items ≡ name.now) × IsKept t name.now entry.1) }
        ensures still_true { (t : Table) (u : Table) → AreTrue t self.old.kept.entries → AgreeBut name.now t u → AreTrue u self.new.kept.entries }
        ensures same_limit { self.new.limit ≡ self.old.limit }
    {
        // `len` says that no handle is there twice, so what is left is of others.
        let _ = self.kept.len();
        if let Some((name, kept)) = self.kept.pop_entry(name) {
            self.octets -= kept.cost(&name);
            return Some((name, kept));
        }
        None
    }
}
