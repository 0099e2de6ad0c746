//! The end of a connection.

use crate::shared::Shared;
use futures::Future;
use futures::task::{Context, Poll};
use std::alloc::Global;
use std::sync::{Arc, Wait};
use std::time::Clock;

/// What `hyper` says of a first line that is too long. Nothing else tells it from a field that is.
const LONG_LINE: &str = "request line is too long";

/// The status that `hyper` answered a request with whose head is too long. None if memory was refused.
fn status_of_long(alloc: Global, fault: &hyper::Error) -> Option<u16> {
    let said = format!(in alloc; "{fault}").ok()?;
    Some(if said.as_str() == LONG_LINE { 414 } else { 431 })
}

/// The status that `hyper` answered a request with whose head couldn't be read, if it refused one so. None also if memory was refused.
fn refusal_of(alloc: Global, fault: &hyper::Error) -> Option<u16> {
    if fault.is_parse_too_large() {
        status_of_long(alloc, fault)
    } else if fault.is_parse() {
        Some(400)
    } else {
        None
    }
}

/// A connection, of which only matters whether it ended with a request that couldn't be read.
#[derive(Drop)]
pub(crate) struct LoggedConnection<R, F> {
    inner: F,
    shared: Arc<Shared<R>>,
}

impl<R: Drop, F: Future> LoggedConnection<R, F> {
    pub(crate) fn new(inner: F, shared: Arc<Shared<R>>) -> LoggedConnection<R, F>
        ensures { F.can_poll inner → F.can_poll result.inner }
    {
        LoggedConnection { inner, shared }
    }
}

impl<R, F> Future for LoggedConnection<R, F>
where
    R: Wait + Clock + Drop,
    F: Future<Output = hyper::Result<()>>,
{
    type Output = ();

    ghost can_poll = { λ parting. F.can_poll parting.inner };

    ghost needs = { λ parting. F.needs parting.inner };

    fn poll(&mut self, cx: &mut Context<'_>) -> Poll<()> {
        match self.inner.poll(cx) {
            Poll::Ready(Err(fault)) => {
                if let Some(status) = refusal_of(self.shared.alloc, &fault) {
                    self.shared.note_refusal(status);
                }
                Poll::Ready(())
            }
            Poll::Ready(Ok(())) => Poll::Ready(()),
            Poll::Pending => Poll::Pending,
        }
    }
}
