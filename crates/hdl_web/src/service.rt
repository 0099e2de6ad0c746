//! Where requests come in.

use crate::change_requests::{
    BODY_MOST, BODY_SECONDS, BodyCollector, ChangeQueue, Progress, Purpose,
};
use crate::log::PendingEntry;
use crate::redirect_cache::CachedRedirect;
use crate::response_future::{LanguageChoice, RequestContext, ResponseContext, ResponseFuture};
use crate::shared::Shared;
use crate::text::{ProxyText, TextKind};
use bytes::Bytes;
use hdl_forms::{
    FormLink, FormPlace, LIST_ADDRESS, ListRequest, Sender, form_at, form_question, list_at,
    list_form, new_page, open_at, open_page, own_host, refuse_cross_origin,
};
use hdl_languages::{Language, preferred_language};
use hdl_proxy::{Next, begin};
use hdl_rest::{ParsedRequest, SentRequest, begin_with_key};
use http::header::{ACCEPT_LANGUAGE, AUTHORIZATION, AsHeaderName, HOST, IF_NONE_MATCH, ORIGIN};
use http_body_util::combinators::Collect;
use http_body_util::{BodyExt, Full, Limited};
use hyper::body::Incoming;
use hyper::service::Service;
use hyper::{Request, Response};
use std::alloc::{AllocError, Global};
use std::sync::{Arc, Wait};
use std::time::{Clock, Duration};
use tokio::time::{Handle, Timeout};

/// The service of one connection: it answers at once what needs no server, and hands on what does.
#[derive(Drop)]
pub struct ProxyService<R> {
    rt: R,
    alloc: Global,
    timers: Handle,
    shared: Arc<Shared<R>>,
}

/// What a request is.
#[derive(Drop)]
enum Start<R> {
    Progress(Progress),
    /// It waits for its body, and then this takes it.
    Body(Purpose, ChangeQueue<R>),
}

/// The field by which a browser says whether a page of the same site sent a request (Fetch Metadata).
const FETCH_SITE: &str = "sec-fetch-site";

/// What a request says in its first line.
fn first_line<B>(req: &Request<B>) -> SentRequest<'_> {
    SentRequest {
        method: req.method().as_str(),
        path: req.uri().path(),
        query: req.uri().query().unwrap_or(""),
        authorization: None,
    }
}

/// A field of a request's head.
fn field<'a, B, K: AsHeaderName>(req: &'a Request<B>, name: K) -> Option<&'a [u8]> {
    match req.headers().get(name) {
        Some(value) => Some(value.as_bytes()),
        None => None,
    }
}

/// What a request says in its head.
fn sent_by<B>(req: &Request<B>) -> SentRequest<'_> {
    SentRequest {
        authorization: field(req, AUTHORIZATION),
        ..first_line(req)
    }
}

/// What a request says of the page that sent it.
fn sender_of<B>(req: &Request<B>) -> Sender<'_> {
    Sender {
        site: field(req, FETCH_SITE),
        origin: field(req, ORIGIN),
        host: field(req, HOST),
    }
}

/// The forms to which a page leads that has this address; also that of lists, if there are any.
fn form_link_at(path: &str, has_lists: bool) -> FormLink {
    match path {
        "/" if has_lists => FormLink::ChangeCreateOrList,
        "/" => FormLink::ChangeOrCreate,
        _ => FormLink::Change,
    }
}

/// The path of a request that is answered by its path alone.
fn plain_path(sent: SentRequest<'_>) -> Option<&str> {
    if sent.method == "GET" && sent.query.is_empty() {
        Some(sent.path)
    } else {
        None
    }
}

impl<R: Wait + Clock + Copy + Drop> ProxyService<R> {
    pub(crate) fn new(
        rt: R,
        alloc: Global,
        timers: Handle,
        shared: Arc<Shared<R>>,
    ) -> ProxyService<R> {
        ProxyService {
            rt,
            alloc,
            timers,
            shared,
        }
    }

    /// A visit begins. None where it can't be counted.
    fn entry<B>(&self, req: &Request<B>) -> Option<PendingEntry<R>> {
        let shared = Arc::try_clone(&self.shared).ok()?;
        Some(PendingEntry::new(shared, req.method().as_str(), req.uri().path()))
    }

    /// The language of the pages that answer a request: that of all pages, or the one that it prefers. Forms and lists are in English.
    fn language_of<B>(&self, req: &Request<B>) -> Result<LanguageChoice, AllocError> {
        let sent = first_line(req);
        let is_form = self.form_of(sent)?.is_some()
            || self.list_of(sent)?.is_some()
            || self.typed_in(sent)?.is_some();
        if is_form {
            return Ok(LanguageChoice::fixed(Language::English));
        }
        match self.shared.language {
            Some(language) => Ok(LanguageChoice::fixed(language)),
            None => Ok(LanguageChoice {
                language: preferred_language(self.alloc, field(req, ACCEPT_LANGUAGE))?,
                by_request: true,
            }),
        }
    }

    /// What becomes of a request that comes without a key.
    fn take(&self, language: Language, sent: SentRequest<'_>) -> Result<Progress, AllocError> {
        let own = self.shared.site.address();
        match begin(
            self.alloc,
            own,
            language,
            sent.method,
            sent.path,
            sent.query,
        )? {
            Next::Answer(answer) => Ok(Progress::Answered(Ok(answer))),
            Next::Ask(question) => self.shared.take(question, plain_path(sent)),
        }
    }

    fn begin(&self, language: Language, sent: SentRequest<'_>) -> Result<Start<R>, AllocError> {
        if !self.shared.writes {
            return Ok(Start::Progress(self.take(language, sent)?));
        }
        match begin_with_key(self.alloc, sent)? {
            ParsedRequest::Answer(answer) => Ok(Start::Progress(Progress::Answered(Ok(answer)))),
            ParsedRequest::Other => Ok(Start::Progress(self.take(language, sent)?)),
            ParsedRequest::Order(order) if order.takes_body() => {
                Ok(Start::Body(Purpose::Order(order), self.change_queue()?))
            }
            ParsedRequest::Order(order) => Ok(Start::Progress(
                self.change_queue()?.take(order, Bytes::new()),
            )),
        }
    }

    fn change_queue(&self) -> Result<ChangeQueue<R>, AllocError> {
        Ok(ChangeQueue {
            alloc: self.alloc,
            shared: Arc::try_clone(&self.shared)?,
        })
    }

    /// The form of a page, with a token of this moment.
    fn show_form(&self, place: FormPlace) -> Result<Progress, AllocError> {
        let now = self.shared.seconds();
        let token = self
            .shared
            .tokens
            .token_of(self.alloc, place.subject(), now)?;
        match place {
            FormPlace::Edit(name) => {
                let question = form_question(self.alloc, name);
                self.shared.take_for_form(question, token)
            }
            FormPlace::New => Ok(Progress::Answered(new_page(self.alloc, &token))),
        }
    }

    /// What a request of this form is.
    fn start_form<B>(&self, req: &Request<B>, place: FormPlace) -> Result<Start<R>, AllocError> {
        match req.method().as_str() {
            "GET" | "HEAD" => Ok(Start::Progress(self.show_form(place)?)),
            "POST" => {
                let host = self.host_of(req)?;
                self.take_from_page(req, place.address(), Purpose::Form(place, host))
            }
            _ => self.begin(Language::English, sent_by(req)),
        }
    }

    /// What a request for a list is.
    fn start_list<B>(
        &self,
        req: &Request<B>,
        request: ListRequest,
    ) -> Result<Start<R>, AllocError> {
        match req.method().as_str() {
            "GET" | "HEAD" => Ok(Start::Progress(Progress::Answered(list_form(
                self.alloc, &request,
            )))),
            "POST" => self.take_from_page(req, LIST_ADDRESS, Purpose::List),
            _ => self.begin(Language::English, sent_by(req)),
        }
    }

    /// What a form is that came from a page: it is refused if that was another site's. The form is opened again at this address.
    fn take_from_page<B>(
        &self,
        req: &Request<B>,
        address: &'static str,
        purpose: Purpose,
    ) -> Result<Start<R>, AllocError> {
        match refuse_cross_origin(self.alloc, address, sender_of(req))? {
            Some(answer) => Ok(Start::Progress(Progress::Answered(Ok(answer)))),
            None => Ok(Start::Body(purpose, self.change_queue()?)),
        }
    }

    /// The form that a request is for, where handles are changed.
    fn form_of(&self, sent: SentRequest<'_>) -> Result<Option<FormPlace>, AllocError> {
        if self.shared.writes {
            form_at(self.alloc, sent.path, sent.query)
        } else {
            Ok(None)
        }
    }

    /// What is typed in the address of a request for a handle's form, where handles are changed.
    fn typed_in(&self, sent: SentRequest<'_>) -> Result<Option<String>, AllocError> {
        if self.shared.writes && matches!(sent.method, "GET" | "HEAD") {
            open_at(self.alloc, sent.path, sent.query)
        } else {
            Ok(None)
        }
    }

    /// The host of this site: that of its own address, or the one that a request names.
    fn host_of<B>(&self, req: &Request<B>) -> Result<Vec<u8>, AllocError> {
        own_host(self.alloc, self.shared.site.address(), field(req, HOST))
    }

    /// The list that a request is for, where there are any.
    fn list_of(&self, sent: SentRequest<'_>) -> Result<Option<ListRequest>, AllocError> {
        if self.shared.copied.is_some() {
            let now = self.shared.seconds();
            list_at(self.alloc, &self.shared.tokens, now, sent.path, sent.query)
        } else {
            Ok(None)
        }
    }

    /// What the response needs of a request. A field that is no text names no tag of ours, nor does one for which there is no memory: then
    /// the whole answer is sent.
    fn read_fields<B>(
        &self,
        req: &Request<B>,
        choice: LanguageChoice,
    ) -> Result<ResponseContext, AllocError> {
        let known = match req.headers().get(IF_NONE_MATCH) {
            Some(value) => match value.to_str() {
                Ok(text) => String::from_str(self.alloc, text).ok(),
                Err(_) => None,
            },
            None => None,
        };
        Ok(ResponseContext {
            site: Arc::try_clone(&self.shared.site)?,
            choice,
            known,
            changes: self.shared.writes,
            form_link: form_link_at(req.uri().path(), self.shared.copied.is_some()),
        })
    }

    /// The redirect that is kept for a request, if one is. No path under `/api/` has one, so a key that came along says nothing.
    fn redirect<B>(&self, req: &Request<B>) -> Option<Arc<CachedRedirect>> {
        self.shared.redirect(plain_path(first_line(req))?)
    }

    /// The page of the proxy itself, if one is asked for.
    fn proxy_text(&self, sent: SentRequest<'_>) -> Result<Option<ProxyText>, AllocError> {
        if !matches!(sent.method, "GET" | "HEAD") {
            return Ok(None);
        }
        match sent.path {
            "/metrics" => Ok(Some(ProxyText {
                status: 200,
                kind: TextKind::Metrics,
                text: self.shared.metrics()?,
            })),
            "/health" if self.shared.is_healthy() => {
                Ok(Some(ProxyText::of_words(self.alloc, 200, "ok\n")?))
            }
            "/health" => {
                let words = "every server is left out after a failure\n";
                Ok(Some(ProxyText::of_words(self.alloc, 503, words)?))
            }
            _ => Ok(None),
        }
    }

    /// What a request is, by its head.
    fn start<B>(&self, req: &Request<B>, language: Language) -> Result<Start<R>, AllocError> {
        let sent = sent_by(req);
        if let Some(text) = self.proxy_text(sent)? {
            return Ok(Start::Progress(Progress::Text(text)));
        }
        if let Some(request) = self.list_of(sent)? {
            return self.start_list(req, request);
        }
        if let Some(place) = self.form_of(sent)? {
            return self.start_form(req, place);
        }
        match self.typed_in(sent)? {
            Some(typed) => {
                let host = self.host_of(req)?;
                Ok(Start::Progress(Progress::Answered(open_page(self.alloc, &host, &typed))))
            }
            None => self.begin(language, sent),
        }
    }
}

/// The body of a request, up to its limits of length and time.
type LimitedBody<I> = Timeout<Collect<Limited<Incoming<I>>>>;

impl<R: Wait + Clock + Copy + Drop, I: Drop> Service<Request<Incoming<I>>> for ProxyService<R> {
    type Response = Response<Full<Bytes>>;

    type Error = AllocError;

    type Future = ResponseFuture<R, LimitedBody<I>>;

    fn call(&self, req: Request<Incoming<I>>) -> ResponseFuture<R, LimitedBody<I>> {
        let entry = self.entry(&req);
        if let Some(redirect) = self.redirect(&req) {
            let request_context = RequestContext { entry, seen: None };
            return ResponseFuture::next(
                self.alloc,
                request_context,
                Progress::Redirected(redirect),
            );
        }
        // Without memory to read what it prefers, a request is answered in English, if at all.
        let choice = self
            .language_of(&req)
            .unwrap_or(LanguageChoice::fixed(Language::English));
        let seen = self.read_fields(&req, choice).ok();
        let request_context = RequestContext { entry, seen };
        let (purpose, change_queue) = match self.start(&req, choice.language) {
            Ok(Start::Body(purpose, change_queue)) => (purpose, change_queue),
            Ok(Start::Progress(turn)) => return ResponseFuture::next(
                self.alloc,
                request_context,
                turn,
            ),
            Err(refused) => return ResponseFuture::next(
                self.alloc,
                request_context,
                Progress::Answered(Err(refused)),
            ),
        };
        let body = Limited::new(req.into_body(), BODY_MOST).collect(self.alloc);
        let limit = Duration::from_secs(BODY_SECONDS);
        match self.timers.timeout(&self.rt, limit, body) {
            Ok(body) => ResponseFuture::after_body(
                self.alloc,
                request_context,
                BodyCollector {
                    change_queue,
                    purpose,
                    body,
                },
            ),
            Err(_) => ResponseFuture::next(
                self.alloc,
                request_context,
                Progress::Answered(Err(AllocError)),
            ),
        }
    }
}
