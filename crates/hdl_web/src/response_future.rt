//! An answer that is on its way.

ghost use Rattle.std.specs.Prelude.{◌≡◌, ◌⊎◌, None, IfSome, IsSomeAnd};
ghost use Rattle.hdl_web.specs.Progress.{Waits};

use crate::change_requests::{BodyCollector, CollectedBody, Progress};
use crate::log::PendingEntry;
use crate::pending_question::AnswerResult;
use crate::redirect_cache::CachedRedirect;
use crate::response::response_of;
use crate::text::ProxyText;
use bytes::Bytes;
use futures::task::{Context, Poll};
use futures::{Future, ready};
use hdl_forms::{FormLink, with_form_link};
use hdl_languages::Language;
use hdl_proxy::{Answer, Site, with_tag};
use http_body_util::Full;
use hyper::Response;
use std::alloc::{AllocError, Global};
use std::sync::{Arc, Wait};
use std::time::Clock;

/// The language of a page, and whether the request chose it.
#[derive(Clone, Copy)]
pub(crate) struct LanguageChoice {
    pub(crate) language: Language,
    pub(crate) by_request: bool,
}

impl LanguageChoice {
    /// A language that no request chooses.
    pub(crate) fn fixed(language: Language) -> LanguageChoice {
        LanguageChoice {
            language,
            by_request: false,
        }
    }
}

/// What a response needs besides its answer.
#[derive(Drop)]
pub(crate) struct ResponseContext {
    pub(crate) site: Arc<Site>,
    /// The language of a page.
    pub(crate) choice: LanguageChoice,
    /// The field `If-None-Match` of the request: the tags of what the client has.
    pub(crate) known: Option<String>,
    /// Whether handles are changed here.
    pub(crate) changes: bool,
    /// The form to which a page at this address leads then.
    pub(crate) form_link: FormLink,
}

impl ResponseContext {
    /// An answer as the client gets it: a page as the site gives it, or that the client has it already.
    fn answer(&self, alloc: Global, answer: Answer) -> Result<Answer, AllocError> {
        let answer = if self.changes {
            with_form_link(alloc, self.choice.language, self.form_link, answer)?
        } else {
            answer
        };
        let known = match &self.known {
            Some(field) => Some(field.as_str()),
            None => None,
        };
        let answer = self
            .site
            .dress(alloc, self.choice.language, self.site.bound(answer))?;
        with_tag(alloc, answer, known)
    }
}

/// Who asks: the visit, where it can be counted, and what the response needs of the request. That is None where it needs nothing, or memory was refused.
#[derive(Drop)]
pub(crate) struct RequestContext<R> {
    pub(crate) entry: Option<PendingEntry<R>>,
    pub(crate) seen: Option<ResponseContext>,
}

/// The response to a request: one that is there, that a thread makes, or that waits for the request's body.
#[derive(Drop)]
pub struct ResponseFuture<R, B> {
    alloc: Global,
    request_context: RequestContext<R>,
    collector: Option<BodyCollector<R, B>>,
    turn: Option<Progress>,
}

impl<R: Wait + Clock + Drop, B: Drop> ResponseFuture<R, B> {
    /// An answer that is there, or that comes from a thread.
    pub(crate) fn next(
        alloc: Global,
        request_context: RequestContext<R>,
        turn: Progress,
    ) -> ResponseFuture<R, B>
        ensures { result.collector ≡ None }
    {
        ResponseFuture {
            alloc,
            request_context,
            collector: None,
            turn: Some(turn),
        }
    }

    /// An answer that waits for the body of its request.
    pub(crate) fn after_body(
        alloc: Global,
        request_context: RequestContext<R>,
        collector: BodyCollector<R, B>,
    ) -> ResponseFuture<R, B>
        ensures { result.collector ≡ Some collector }
    {
        ResponseFuture {
            alloc,
            request_context,
            collector: Some(collector),
            turn: None,
        }
    }

    /// What is next, now that this came of the body.
    fn go_on_with(&mut self, collected_body: CollectedBody)
        ensures { self.new.collector ≡ None }
    {
        if let Some(collector) = self.collector.take() {
            self.turn = Some(collector.end(collected_body));
        }
    }

    /// The response, where nothing is waited for.
    fn respond(&mut self) -> Result<Response<Full<Bytes>>, AllocError> {
        match self.turn.take() {
            Some(Progress::Answered(answer)) => response(
                self.alloc,
                &mut self.request_context,
                answer,
            ),
            Some(Progress::Text(text)) => response_of_text(
                self.alloc,
                &mut self.request_context,
                &text,
            ),
            Some(Progress::Redirected(redirect)) => response_of_redirect(
                self.alloc,
                &mut self.request_context,
                &redirect,
            ),
            Some(Progress::Awaited(_)) | None => Err(AllocError),
        }
    }
}

/// The response of an answer, with which the visit is over.
fn response<R: Wait + Clock>(
    alloc: Global,
    request_context: &mut RequestContext<R>,
    answer: AnswerResult,
) -> Result<Response<Full<Bytes>>, AllocError> {
    let Some(seen) = &request_context.seen else {
        return Err(AllocError);
    };
    let answer = seen.answer(alloc, answer?)?;
    if let Some(entry) = &mut request_context.entry {
        entry.end(&answer);
    }
    response_of(alloc, &answer, seen.changes, seen.choice.by_request)
}

/// The response of a text of the proxy's own, with which the visit is over.
fn response_of_text<R: Wait + Clock>(
    alloc: Global,
    request_context: &mut RequestContext<R>,
    text: &ProxyText,
) -> Result<Response<Full<Bytes>>, AllocError> {
    if let Some(entry) = &mut request_context.entry {
        entry.note_end(text.status, text.text.len());
    }
    text.response(alloc)
}

/// The response of a redirect that was kept, with which the visit is over.
fn response_of_redirect<R: Wait + Clock>(
    alloc: Global,
    request_context: &mut RequestContext<R>,
    redirect: &CachedRedirect,
) -> Result<Response<Full<Bytes>>, AllocError> {
    if let Some(entry) = &mut request_context.entry {
        entry.end_redirect(redirect.octets());
    }
    redirect.response(alloc)
}

impl<R: Wait + Clock + Drop, B: Future<Output = CollectedBody>> Future for ResponseFuture<R, B> {
    type Output = Result<Response<Full<Bytes>>, AllocError>;

    ghost can_poll = { λ answering. IfSome answering.collector (λ g. B.can_poll g.body) };

    ghost needs = { λ answering s. IsSomeAnd answering.collector (λ g. B.needs g.body s)
        ⊎ ((answering.collector ≡ None) × IsSomeAnd answering.turn (Waits s)) };

    fn poll(&mut self, cx: &mut Context<'_>) -> Poll<Self::Output> {
        if let Some(collector) = &mut self.collector {
            let collected_body = ready!(collector.body.poll(cx));
            self.go_on_with(collected_body);
        }
        if let Some(Progress::Awaited(from)) = &mut self.turn {
            return match ready!(from.poll(cx)) {
                Ok(answer) => Poll::Ready(response(self.alloc, &mut self.request_context, answer)),
                Err(_) => Poll::Ready(Err(AllocError)),
            };
        }
        Poll::Ready(self.respond())
    }
}
