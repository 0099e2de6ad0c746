//! Threads that ask.

use crate::pending_question::{AnswerResult, PendingQuestion};
use crate::servers::{ChangeServers, Resolver};
use crate::shared::Shared;
use bytes::Bytes;
use crossbeam_channel::Receiver;
use futures::channel::oneshot;
use hdl_forms::{FilledForm, ListRequest, carry_form, carry_list, refused_list, result_page};
use hdl_rest::{Order, carry_out};
use std::alloc::Global;
use std::sync::Wait;
use std::time::Clock;

/// The form by which an order came.
#[derive(Drop)]
pub(crate) enum OrderForm {
    Change(FilledForm),
    List(ListRequest),
}

/// An order on its way to who carries it out, the servers that have its prefix, the body of its request, the form that it came by, if it did, and where its answer goes.
#[derive(Drop)]
pub struct ChangeJob {
    pub(crate) order: Order,
    pub(crate) turn: Vec<usize>,
    pub(crate) body: Bytes,
    pub(crate) form: Option<OrderForm>,
    pub(crate) answer: oneshot::Sender<AnswerResult>,
}

/// The answer to an order that isn't carried out: a page where it came by a form. Browsers keep a redirect for up to this many seconds.
pub(crate) fn as_page(
    alloc: Global,
    form: Option<OrderForm>,
    made: AnswerResult,
    kept: u32,
) -> AnswerResult {
    match form {
        None => made,
        Some(OrderForm::Change(form)) => result_page(alloc, &form, &made?, kept),
        Some(OrderForm::List(request)) => refused_list(alloc, &request, &made?),
    }
}

/// What comes of an order: a page where it came by a form. A value that is changed must still be as its form showed it.
fn carried<R, C: ChangeServers>(
    shared: &Shared<R>,
    change_servers: &mut C,
    order: &Order,
    body: &[u8],
    form: Option<OrderForm>,
) -> AnswerResult {
    let alloc = shared.alloc;
    match form {
        None => carry_out(alloc, change_servers, order, body),
        Some(OrderForm::Change(form)) => {
            let kept = shared.redirects;
            carry_form(alloc, change_servers, order, body, form, kept)
        }
        Some(OrderForm::List(request)) => {
            let handles = shared.listed(order.name.prefix());
            carry_list(alloc, change_servers, order, &request, handles)
        }
    }
}

/// Asks the server at this place what comes, until no sender is left.
pub(crate) fn run_upstream_worker<R: Wait + Clock, S: Resolver>(
    shared: &Shared<R>,
    place: usize,
    mut server: S,
    asks: Receiver<PendingQuestion>,
) {
    for ask in asks.iter(&shared.rt) {
        shared.ask_upstream(place, &mut server, ask);
    }
}

/// Carries out orders one after the other, until no sender is left. What is kept of a handle is forgotten before its change is answered.
pub(crate) fn run_change_worker<R: Wait + Clock, C: ChangeServers>(
    shared: &Shared<R>,
    mut change_servers: C,
    jobs: Receiver<ChangeJob>,
) {
    for job in jobs.iter(&shared.rt) {
        let ChangeJob {
            order,
            turn,
            body,
            form,
            answer,
        } = job;
        change_servers.set_servers(turn);
        let made = carried(shared, &mut change_servers, &order, &body, form);
        if order.changes() {
            shared.forget(&order.name);
        }
        let _ = answer.send(made);
    }
}
