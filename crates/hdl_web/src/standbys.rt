//! How servers stand, and when standbys answer: the lines that say so.

use crate::shared::Shared;
use crossbeam_channel::{Receiver, Sender};
use hdl_client::{ClientFault, ConnectFault};
use std::fmt;
use std::io::Eprint;
use std::sync::Wait;
use std::sync::atomic::{AtomicBool, AtomicU64, Ordering};
use std::time::Clock;

/// The most lines that wait to be written.
const NOTICES_MOST: usize = 16;

/// What is said of a server.
#[derive(Clone, Copy)]
enum UpstreamEvent {
    /// It is a standby, and answers.
    StandbyAnswers,
    /// It had failed, and answers again.
    ServerAnswers,
    /// It was fit, and fails.
    ServerFails(ClientFault),
}

/// Why a server fails, in few words.
fn reason(fault: ClientFault) -> &'static str {
    match fault {
        ClientFault::NoConnection(ConnectFault::UnknownName) => "its name has no address",
        ClientFault::TimedOut | ClientFault::NoConnection(ConnectFault::Silent) => {
            "no whole answer within --timeout"
        }
        ClientFault::NoConnection(_) | ClientFault::Connection | ClientFault::Closed => {
            "there is no connection, or it was closed"
        }
        _ => "what it sends is no reply of a handle server",
    }
}

impl fmt::Display for UpstreamEvent {
    fn fmt<W: fmt::Write>(&self, f: &mut fmt::Formatter<W>) -> fmt::Result {
        match self {
            UpstreamEvent::StandbyAnswers => f.write_str(
                "standby answers, since no other server did",
            ),
            UpstreamEvent::ServerAnswers => f.write_str("server answers again"),
            UpstreamEvent::ServerFails(fault) => {
                let reason = reason(*fault);
                write!(
                    f,
                    "server fails: {reason}. Check that it runs, and its address. It is left out, and tried every three seconds"
                )
            }
        }
    }
}

/// What is said of the server at a place.
#[derive(Clone, Copy)]
pub(crate) struct Notice {
    place: usize,
    event: UpstreamEvent,
}

/// What is known of the standbys.
#[derive(Drop)]
pub(crate) struct Standbys {
    /// How many questions they answered.
    pub(crate) answers: AtomicU64,
    /// Whether one answered since a server did that had failed.
    are_answering: AtomicBool,
    notices: Sender<Notice>,
}

impl Standbys {
    pub(crate) fn new(notices: Sender<Notice>) -> Standbys {
        Standbys {
            answers: AtomicU64::new(0),
            are_answering: AtomicBool::new(false),
            notices,
        }
    }
}

impl<R: Wait + Clock> Shared<R> {
    /// Sends a line on its way. One that has no room is lost.
    fn report(&self, place: usize, event: UpstreamEvent) {
        if self.standbys.notices.len() < NOTICES_MOST {
            let _ = self
                .standbys
                .notices
                .send(&self.rt, Notice { place, event });
        }
    }

    /// Whether the server at this place is a standby.
    pub(crate) fn is_standby(&self, place: usize) -> bool {
        match self.routes.get(place) {
            Some(route) => route.is_standby,
            None => false,
        }
    }

    /// The standby at this place answered: counts it. The first answer since servers had none is told.
    pub(crate) fn note_standby(&self, place: usize) {
        self.standbys.answers.fetch_add(1, Ordering::Relaxed);
        if !self.standbys.are_answering.swap(true, Ordering::Relaxed) {
            self.report(place, UpstreamEvent::StandbyAnswers);
        }
    }

    /// The server at this place failed, and was fit before: tells it.
    pub(crate) fn report_failure(&self, place: usize, fault: ClientFault) {
        self.report(place, UpstreamEvent::ServerFails(fault));
    }

    /// The server at this place answered, and had failed before: tells it.
    pub(crate) fn note_return(&self, place: usize) {
        if !self.is_standby(place) {
            self.standbys.are_answering.store(false, Ordering::Relaxed);
        }
        self.report(place, UpstreamEvent::ServerAnswers);
    }
}

/// Writes these lines, until no sender is left.
pub(crate) fn write_notices<R: Wait + Eprint>(shared: &Shared<R>, notices: Receiver<Notice>) {
    for notice in notices.iter(&shared.rt) {
        if let Some(route) = shared.routes.get(notice.place) {
            let _ = eprintln!(&shared.rt; "hdl: {}: this {}", route.address, notice.event);
        }
    }
}
