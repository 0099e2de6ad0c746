//! Connections that come.

ghost use Rattle.std.specs.Prelude.{IfSome, OnSome};
ghost use Rattle.futures.specs.Poll.{IfReady, OnPending};
ghost use Rattle.futures.specs.Runs.{ItemsWhere};
ghost use Rattle.futures.specs.Task.{IsArmed, Keeps};

use futures::task::{Context, Poll};
use futures::{Future, Stream, ready};
use tokio::net::{Incoming, TcpStream};
use tokio::time::Sleep;

/// Who receives connections.
pub(crate) trait ConnectionHandler: Drop {
    /// A connection that is served.
    type Served: Future<Output = ()>;

    /// Receives a connection. None where memory was refused: it is closed then.
    fn receive(&self, socket: TcpStream) -> Option<Self::Served>
        ensures { IfSome result Self.Served.can_poll };

    /// How long no client is received if the process has no room for another connection. None where memory was refused.
    fn pause(&self) -> Option<Sleep>;
}

/// Each connection of a listener, as its host serves it.
#[derive(Drop)]
pub(crate) struct AcceptedConnections<H> {
    incoming: Incoming,
    host: H,
    resting: Option<Sleep>,
}

impl<H: ConnectionHandler> AcceptedConnections<H> {
    pub(crate) fn new(incoming: Incoming, host: H) -> AcceptedConnections<H> {
        AcceptedConnections {
            incoming,
            host,
            resting: None,
        }
    }

    /// The next connection, where the host isn't resting.
    fn next(&mut self, cx: &mut Context<'_>) -> Poll<Option<H::Served>>
        ensures served { IfReady result (λ next. IfSome next H.Served.can_poll) }
        ensures armed { OnPending result (IsArmed cx.new) }
        ensures kept { Keeps cx.old cx.new }
    {
        match ready!(self.incoming.poll_next(cx)) {
            Some(Ok(socket)) => match self.host.receive(socket) {
                Some(served) => Poll::Ready(Some(served)),
                None => cx.yield_now(),
            },
            Some(Err(_)) => {
                self.resting = self.host.pause();
                cx.yield_now()
            }
            None => Poll::Ready(None),
        }
    }
}

impl<H: ConnectionHandler> Stream for AcceptedConnections<H> {
    type Item = H::Served;

    ghost yields = { λ _. ItemsWhere H.Served.can_poll };

    fn poll_next(&mut self, cx: &mut Context<'_>) -> Poll<Option<H::Served>> {
        if let Some(rest) = &mut self.resting {
            let _ = ready!(rest.poll(cx));
            self.resting = None;
        }
        self.next(cx)
    }
}
