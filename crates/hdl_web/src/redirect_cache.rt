//! Redirects that are kept with the replies that they were made of.

ghost use Rattle.std.specs.Prelude.{◌≡◌, IfOk};
ghost use Rattle.http.specs.Response.{head_of};

use crate::response::headers_of;
use bytes::Bytes;
use hdl_msg::{ContentView, read_reply};
use hdl_proxy::{Answer, Status};
use hdl_routes::ReplyCache;
use hdl_value::{LOCATIONS, Wire};
use http::StatusCode;
use http::header::{HeaderMap, HeaderValue};
use http::response::{Parts, Response};
use http_body_util::Full;
use lru::LruCache;
use std::alloc::{AllocError, Global};
use std::hash::RandomState;
use std::num::NonZeroUsize;
use std::sync::Arc;

/// The most redirects that are kept.
const REDIRECTS_MOST: usize = 4096;

/// The most octets of the path, the question and the reply of a redirect that is kept, together.
const REDIRECT_OCTETS_MOST: usize = 4096;

/// A redirect as it was answered, and of which reply to which question it was made.
#[derive(Drop)]
pub(crate) struct CachedRedirect {
    message: Vec<u8>,
    reply: Vec<u8>,
    headers: HeaderMap<HeaderValue>,
    body: Bytes,
}

impl CachedRedirect {
    /// How many octets its body has.
    pub(crate) fn octets(&self) -> usize {
        self.body.len()
    }

    /// The response that it is: the one that was answered.
    pub(crate) fn response(&self, alloc: Global) -> Result<Response<Full<Bytes>>, AllocError>
        ensures status { IfOk result (λ response. (head_of response).status ≡ 302) }
    {
        let mut head = Parts::new(alloc);
        head.status = StatusCode::FOUND;
        head.headers = self.headers.clone()?;
        let body = self.body.clone()?;
        Ok(Response::from_parts(head, Full::new(body)))
    }
}

/// Whether what is answered by a reply isn't always the same: where it says locations, each answer draws one. What can't be read counts as if it did.
fn is_drawn(alloc: Global, reply: &[u8]) -> bool {
    let Ok(read) = read_reply(Wire::Profile, reply) else {
        return true;
    };
    let ContentView::Values { values, .. } = read.content else {
        return true;
    };
    for cut in values {
        match cut.read(alloc) {
            Ok(value) if value.kind.as_slice() != LOCATIONS => {}
            _ => return true,
        }
    }
    false
}

/// What a question's reply was answered by, as it may be given again: a redirect that any such question has. None where it is anything else, or
/// memory was refused.
fn redirect_of(
    alloc: Global,
    message: Vec<u8>,
    reply: Vec<u8>,
    answer: &Answer,
) -> Option<CachedRedirect> {
    if answer.status != Status::Found || is_drawn(alloc, &reply) {
        return None;
    }
    Some(CachedRedirect {
        message,
        reply,
        headers: headers_of(alloc, answer, false, false).ok()?,
        body: Bytes::copy_from_slice(alloc, &answer.body).ok()?,
    })
}

/// Redirects by the paths that they answer, the ones that were used last.
#[derive(Drop)]
struct RedirectCache {
    alloc: Global,
    redirects: LruCache<String, Arc<CachedRedirect>, RandomState>,
}

impl RedirectCache {
    fn new(alloc: Global, hasher: RandomState) -> Result<RedirectCache, AllocError> {
        let most = NonZeroUsize::new(REDIRECTS_MOST).unwrap_or(NonZeroUsize::MIN);
        let redirects = LruCache::with_hasher(alloc, most, hasher)?;
        Ok(RedirectCache { alloc, redirects })
    }

    fn find(&mut self, path: &str) -> Option<Arc<CachedRedirect>> {
        let redirect = self.redirects.get(path)?;
        Arc::try_clone(redirect).ok()
    }

    /// Keeps a redirect. Want of memory keeps nothing.
    fn keep(&mut self, path: &str, redirect: CachedRedirect) {
        let Ok(key) = String::from_str(self.alloc, path) else {
            return;
        };
        if let Ok(redirect) = Arc::new(self.alloc, redirect) {
            let _ = self.redirects.put(key, redirect);
        }
    }
}

/// What is kept: replies, and the redirects that were made of them.
#[derive(Drop)]
pub(crate) struct AnswerCache {
    pub(crate) kept: ReplyCache,
    redirects: RedirectCache,
}

impl AnswerCache {
    pub(crate) fn new(
        alloc: Global,
        hasher: RandomState,
        other: RandomState,
    ) -> Result<AnswerCache, AllocError> {
        Ok(AnswerCache {
            kept: ReplyCache::new(alloc, hasher)?,
            redirects: RedirectCache::new(alloc, other)?,
        })
    }

    /// The redirect that answers this path, if one is kept, and just the reply that it was made of is kept too, and fresh at this moment.
    pub(crate) fn redirect(&mut self, path: &str, now: u64) -> Option<Arc<CachedRedirect>> {
        let redirect = self.redirects.find(path)?;
        if self.kept.holds(&redirect.message, &redirect.reply, now) {
            Some(redirect)
        } else {
            None
        }
    }

    /// Keeps what this path was answered by, where that is a redirect that may be given again, and isn't too long.
    pub(crate) fn keep_redirect(
        &mut self,
        path: &str,
        message: Vec<u8>,
        reply: Vec<u8>,
        answer: &Answer,
    ) {
        let octets = path
            .len()
            .saturating_add(message.len())
            .saturating_add(reply.len());
        if octets > REDIRECT_OCTETS_MOST {
            return;
        }
        if let Some(redirect) = redirect_of(self.redirects.alloc, message, reply, answer) {
            self.redirects.keep(path, redirect);
        }
    }
}
