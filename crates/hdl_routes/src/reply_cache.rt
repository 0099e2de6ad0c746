//! Replies that are kept.

ghost use Rattle.std.specs.Prelude.{◌≡◌, ◌<◌, ◌↔◌, ◌&&◌, [], IsTrue, IfOk, IfSome, option_copied};
ghost use Rattle.std.specs.Map.{lookup};
ghost use Rattle.hdl_routes.specs.Changes.{is_current, mark_of, with_change};
ghost use Rattle.hdl_routes.specs.ReplyCache.{IsKept, Keeps, is_fresh, is_held, is_request};

use crate::changes::{BUCKETS, ChangeMark, bucket_of, is_current};
use lru::LruCache;
use std::alloc::{AllocError, Global};
use std::hash::RandomState;
use std::num::NonZeroUsize;

/// The most replies that are kept.
pub const REPLIES_MOST: usize = 4096;

/// The most octets of a reply that is kept.
pub const REPLY_MOST: usize = 4096;

/// A reply, the moment in milliseconds from which on it is kept no longer, and what was known of changes when it was asked for.
#[derive(Drop)]
pub struct CachedReply {
    pub reply: Vec<u8>,
    pub until: u64,
    pub mark: ChangeMark,
}

/// Whether a reply is fresh at this moment: its time isn't over, and its handle wasn't changed since it was asked for.
fn is_fresh(fresh: &CachedReply, counts: &[u64], now: u64) -> bool
    ensures { result ≡ is_fresh counts.now now fresh.now }
{
    now < fresh.until && is_current(counts, fresh.mark)
}

/// Whether just this reply is the one that is kept, if one is, and fresh at this moment.
fn is_held(kept: Option<&CachedReply>, counts: &[u64], reply: &[u8], now: u64) -> bool
    ensures { result ≡ is_held counts.now reply.now now (option_copied kept.entry) }
{
    match kept {
        Some(fresh) => is_fresh(fresh, counts, now) && fresh.reply.as_slice() == reply,
        None => false,
    }
}

/// Replies by the requests that they answer, the ones that were used last.
#[derive(Drop)]
pub struct ReplyCache {
    alloc: Global,
    replies: LruCache<Vec<u8>, CachedReply, RandomState>,
    /// How often handles of each place were changed.
    counts: [u64; BUCKETS],
}

impl ReplyCache {
    /// No replies are kept yet. Refused only for want of memory.
    pub fn new(alloc: Global, hasher: RandomState) -> Result<ReplyCache, AllocError>
        ensures { IfOk result (λ kept. kept.replies.entries ≡ []) }
    {
        let most = NonZeroUsize::new(REPLIES_MOST).unwrap_or(NonZeroUsize::MIN);
        let replies = LruCache::with_hasher(alloc, most, hasher)?;
        Ok(ReplyCache {
            alloc,
            replies,
            counts: [0; BUCKETS],
        })
    }

    /// A copy of the reply to this request, if it is kept and fresh at this moment.
    pub fn find(&mut self, request: &[u8], now: u64) -> Option<Vec<u8>>
        ensures { IfSome result (λ reply. IsKept self.old.replies self.old.counts request.now now reply.items) }
    {
        match self.replies.get(request) {
            Some(fresh) if is_fresh(fresh, &self.counts, now) => {
                Vec::from_slice(self.alloc, &fresh.reply).ok()
            }
            _ => None,
        }
    }

    /// Whether just this reply to this request is kept and fresh at this moment, so that what was made of it may be given again.
    pub fn holds(&mut self, request: &[u8], reply: &[u8], now: u64) -> bool
        ensures { result ≡ is_held self.old.counts reply.now now (lookup (is_request request.now) self.old.replies.entries) }
    {
        is_held(self.replies.get(request), &self.counts, reply, now)
    }

    /// What is known of changes of this handle before it is asked for.
    pub fn mark(&self, handle: &[u8]) -> ChangeMark
        ensures { result ≡ mark_of self.now.counts handle.now }
    {
        let place = bucket_of(handle);
        ChangeMark {
            place,
            count: self.counts[place],
        }
    }

    /// This handle was changed: what was kept of it isn't fresh from now on, nor is what was asked for before.
    pub fn forget(&mut self, handle: &[u8])
        ensures counted { self.new.counts ≡ with_change handle.now self.old.counts }
        ensures kept { self.new.replies ≡ self.old.replies }
    {
        let place = bucket_of(handle);
        self.counts[place] = self.counts[place].wrapping_add(1);
    }

    /// Keeps the reply to a request for `time` milliseconds from `now` on, unless it is too long; `mark` was taken before the server was asked. Want of
    /// memory keeps nothing.
    pub fn keep(&mut self, request: &[u8], reply: &[u8], mark: ChangeMark, now: u64, time: u64)
        ensures kept { Keeps self.old.replies self.new.replies request.now reply.now mark now time }
        ensures counts { self.new.counts ≡ self.old.counts }
    {
        if reply.len() > REPLY_MOST {
            return;
        }
        let Ok(key) = Vec::from_slice(self.alloc, request) else {
            return;
        };
        let Ok(reply) = Vec::from_slice(self.alloc, reply) else {
            return;
        };
        let until = now.saturating_add(time);
        let _ = self.replies.put(key, CachedReply { reply, until, mark });
    }
}
