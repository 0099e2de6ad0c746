//! A socket that isn't waited for without an end.

ghost use Rattle.std.specs.Prelude.{⊤};
ghost use Rattle.futures.specs.Task.{Keeps};

use futures::Future;
use futures::task::{Context, Poll};
use std::io;
use std::time::{Clock, Duration};
use tokio::io::{AsyncRead, AsyncWrite};
use tokio::net::TcpStream;
use tokio::time::{Handle, Sleep};

/// How long a client may take nothing of what is written to it, in seconds.
const WRITE_SECONDS: u64 = 10;

/// A socket whose writes give up where the client has taken nothing for ten seconds.
#[derive(Drop)]
pub(crate) struct WriteTimeout<R> {
    socket: TcpStream,
    clock: R,
    timers: Handle,
    /// Since a write found no room.
    stuck: Option<Sleep>,
}

impl<R: Clock + Drop> WriteTimeout<R> {
    pub(crate) fn new(socket: TcpStream, clock: R, timers: Handle) -> WriteTimeout<R> {
        WriteTimeout {
            socket,
            clock,
            timers,
            stuck: None,
        }
    }

    /// Whether the client had its time, after a write that found no room.
    fn is_over(&mut self, cx: &mut Context<'_>) -> bool
        ensures { Keeps cx.old cx.new }
    {
        if self.stuck.is_none() {
            let limit = Duration::from_secs(WRITE_SECONDS);
            let Ok(sleep) = self.timers.sleep(&self.clock, limit) else {
                return true;
            };
            self.stuck = Some(sleep);
        }
        match &mut self.stuck {
            Some(sleep) => sleep.poll(cx).is_ready(),
            None => true,
        }
    }
}

impl<R: Clock + Drop> AsyncRead for WriteTimeout<R> {
    ghost reads = { λ _ _ _. ⊤ };

    ghost is_at_end = { λ _. ⊤ };

    ghost reads_nothing = { λ _. tt };

    ghost reads_in_order = { λ _ _ _ _ _ _ _. tt };

    fn poll_read(&mut self, cx: &mut Context<'_>, buf: &mut [u8]) -> Poll<io::Result<usize>> {
        self.socket.poll_read(cx, buf)
    }
}

impl<R: Clock + Drop> AsyncWrite for WriteTimeout<R> {
    ghost writes = { λ _ _ _. ⊤ };

    ghost writes_nothing = { λ _. tt };

    ghost writes_in_order = { λ _ _ _ _ _ _ _. tt };

    fn poll_write(&mut self, cx: &mut Context<'_>, buf: &[u8]) -> Poll<io::Result<usize>> {
        match self.socket.poll_write(cx, buf) {
            Poll::Ready(moved) => {
                self.stuck = None;
                Poll::Ready(moved)
            }
            Poll::Pending if self.is_over(cx) => Poll::Ready(Err(io::ErrorKind::TimedOut.into())),
            Poll::Pending => Poll::Pending,
        }
    }

    fn poll_flush(&mut self, cx: &mut Context<'_>) -> Poll<io::Result<()>> {
        self.socket.poll_flush(cx)
    }

    fn poll_shutdown(&mut self, cx: &mut Context<'_>) -> Poll<io::Result<()>> {
        self.socket.poll_shutdown(cx)
    }
}
