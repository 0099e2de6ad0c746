//! The body of a request that is on its way.

ghost use Rattle.std.specs.Prelude.{◌≡◌};

use crate::pending_question::AnswerResult;
use crate::redirect_cache::CachedRedirect;
use crate::shared::{Shared, WAITING_MOST};
use crate::text::ProxyText;
use crate::worker::{ChangeJob, OrderForm, as_page};
use bytes::Bytes;
use crossbeam_channel::Sender;
use futures::channel::oneshot;
use hdl_forms::{
    FormOrder, FormPlace, FormStep, LIST_ADDRESS, ListStep, SentForm, refuse_unread, take_form,
    take_list,
};
use hdl_msg::ResponseCode;
use hdl_proxy::{Status, refusal};
use hdl_rest::Order;
use http_body_util::{Collected, LimitedError};
use std::alloc::{AllocError, Global};
use std::sync::{Arc, Wait};
use std::time::Clock;
use tokio::time::error::Elapsed;

/// The most octets of a body.
pub(crate) const BODY_MOST: usize = 1_048_576;

/// How long a body may take to come, in seconds.
pub(crate) const BODY_SECONDS: u64 = 10;

/// What came of a body: all of it, or why not, unless its time was over before.
pub(crate) type CollectedBody = Result<Result<Collected, LimitedError<hyper::Error>>, Elapsed>;

/// What is next for a request.
#[derive(Drop)]
pub(crate) enum Progress {
    Answered(AnswerResult),
    Awaited(oneshot::Receiver<AnswerResult>),
    /// A text of the proxy's own.
    Text(ProxyText),
    /// A redirect that was kept.
    Redirected(Arc<CachedRedirect>),
}

/// The way to who carries out orders.
#[derive(Drop)]
pub(crate) struct ChangeQueue<R> {
    pub(crate) alloc: Global,
    pub(crate) shared: Arc<Shared<R>>,
}

const ELSEWHERE: &str = "None of the servers that were asked hosts this prefix. Nothing was done.";

const CROWDED: &str = "Too many changes wait for the server. Nothing was done. Please try again.";

const LARGE: &str = "The body is larger than 1048576 octets. Nothing was done.";

const SLOW: &str = "The body didn't arrive within 10 seconds. Nothing was done.";

/// What the body of a request belongs to.
#[derive(Drop)]
pub(crate) enum Purpose {
    Order(Order),
    /// A form, and the host of this site.
    Form(FormPlace, Vec<u8>),
    /// The form of a list.
    List,
}

impl<R: Wait + Clock> ChangeQueue<R> {
    /// Sends an order to who carries it out.
    fn send(
        &self,
        jobs: &Sender<ChangeJob>,
        turn: Vec<usize>,
        pending: PendingChange,
    ) -> Result<Progress, AllocError> {
        let PendingChange { order, body, form } = pending;
        let (answer, from) = oneshot::channel(self.alloc)?;
        let job = ChangeJob {
            order,
            turn,
            body,
            form,
            answer,
        };
        match jobs.send(&self.shared.rt, job) {
            Ok(()) => Ok(Progress::Awaited(from)),
            Err(_) => Err(AllocError),
        }
    }

    fn enqueue(&self, pending: PendingChange) -> Result<Progress, AllocError> {
        let Some((jobs, turn)) = self.shared.change_servers(pending.order.name.prefix())? else {
            let code = ResponseCode::HandleNotFound;
            return Ok(self.refuse_order(pending, Status::NotFound, code, ELSEWHERE));
        };
        if jobs.len() >= WAITING_MOST {
            let code = ResponseCode::ServerBusy;
            return Ok(self.refuse_order(pending, Status::Unavailable, code, CROWDED));
        }
        self.send(jobs, turn, pending)
    }

    /// Hands an order on with the body of its request.
    pub(crate) fn take(&self, order: Order, body: Bytes) -> Progress {
        progress_of(self.enqueue(PendingChange {
            order,
            body,
            form: None,
        }))
    }

    fn refuse_order(
        &self,
        pending: PendingChange,
        status: Status,
        code: ResponseCode,
        why: &str,
    ) -> Progress {
        let made = refusal(
            self.alloc,
            status,
            pending.order.name.sent(),
            code.number(),
            why,
        );
        Progress::Answered(as_page(self.alloc, pending.form, made, self.shared.redirects))
    }

    /// What is next for a form with this body.
    fn take_form(
        &self,
        place: &FormPlace,
        host: &[u8],
        body: &[u8],
    ) -> Result<Progress, AllocError> {
        let sent = SentForm {
            now: self.shared.seconds(),
            host,
            body,
        };
        match take_form(self.alloc, &self.shared.tokens, place, sent)? {
            FormStep::Page(answer) => Ok(Progress::Answered(Ok(answer))),
            FormStep::Order(ordered, form) => {
                let FormOrder { order, body } = ordered;
                self.enqueue(PendingChange {
                    order,
                    body: Bytes::copy_from_slice(self.alloc, &body)?,
                    form: Some(OrderForm::Change(form)),
                })
            }
        }
    }

    /// What is next for the form of a list with this body.
    fn take_list(&self, body: &[u8]) -> Result<Progress, AllocError> {
        let sent = SentForm {
            now: self.shared.seconds(),
            host: b"",
            body,
        };
        match take_list(self.alloc, &self.shared.tokens, sent)? {
            ListStep::Page(answer) => Ok(Progress::Answered(Ok(answer))),
            ListStep::Order(order, request) => self.enqueue(PendingChange {
                order,
                body: Bytes::new(),
                form: Some(OrderForm::List(request)),
            }),
        }
    }

    /// What is next for a request with this body.
    fn take_body(&self, purpose: Purpose, body: Bytes) -> Progress {
        match purpose {
            Purpose::Order(order) => self.take(order, body),
            Purpose::Form(place, host) => progress_of(self.take_form(&place, &host, &body)),
            Purpose::List => progress_of(self.take_list(&body)),
        }
    }

    /// What is answered to a request whose body doesn't come whole.
    fn refuse(&self, purpose: Purpose, status: Status, why: &str) -> Progress {
        let code = ResponseCode::Error.number();
        Progress::Answered(match purpose {
            Purpose::Order(order) => refusal(self.alloc, status, order.name.sent(), code, why),
            Purpose::Form(place, _host) => refuse_unread(self.alloc, place.address(), status),
            Purpose::List => refuse_unread(self.alloc, LIST_ADDRESS, status),
        })
    }

    /// Takes the body of a request, where that came whole and in time.
    pub(crate) fn take_collected(
        &self,
        purpose: Purpose,
        collected_body: CollectedBody,
    ) -> Progress {
        match collected_body {
            Ok(Ok(collected)) => match collected.to_bytes() {
                Ok(body) => self.take_body(purpose, body),
                Err(refused) => Progress::Answered(Err(refused)),
            },
            Ok(Err(LimitedError::LengthLimit)) => self.refuse(
                purpose,
                Status::ContentTooLarge,
                LARGE,
            ),
            Ok(Err(_)) => Progress::Answered(Err(AllocError)),
            Err(_) => self.refuse(purpose, Status::RequestTimeout, SLOW),
        }
    }
}

/// An order, the body of its request, and the form that it came by, if it did.
#[derive(Drop)]
struct PendingChange {
    order: Order,
    body: Bytes,
    form: Option<OrderForm>,
}

/// What is next, or that there was no memory.
fn progress_of(next: Result<Progress, AllocError>) -> Progress {
    match next {
        Ok(turn) => turn,
        Err(refused) => Progress::Answered(Err(refused)),
    }
}

/// A request whose body comes.
#[derive(Drop)]
pub(crate) struct BodyCollector<R, B> {
    pub(crate) change_queue: ChangeQueue<R>,
    pub(crate) purpose: Purpose,
    pub(crate) body: B,
}

impl<R: Wait + Clock + Drop, B: Drop> BodyCollector<R, B> {
    /// What is next, now that this came of the body.
    pub(crate) fn end(self, collected_body: CollectedBody) -> Progress {
        let BodyCollector {
            change_queue,
            purpose,
            body: _,
        } = self;
        change_queue.take_collected(purpose, collected_body)
    }
}
