//! A look at sockets: whether something came for one of them.

use mio::unix::SourceFd;
use mio::{Events, Interest, Poll, Token};
use std::alloc::Global;
use std::io;
use std::net::Net;
use std::os::fd::AsRawFd;
use std::time::Duration;

/// The token of every socket: it isn't asked which one is ready.
const READY: Token = Token(0);

/// Tells whether one of several sockets is ready.
#[derive(Drop)]
pub struct SocketPoll {
    poll: Poll,
    events: Events,
}

impl SocketPoll {
    pub fn new<R: Net>(rt: &R, alloc: Global) -> io::Result<SocketPoll> {
        Ok(SocketPoll {
            poll: Poll::new(rt)?,
            events: Events::with_capacity(alloc, 1)?,
        })
    }

    /// Registers these sockets for good, of a look that has no others. A thread that alone takes from them, and takes all that came before it waits, needs no
    /// more.
    pub fn register_all<S: AsRawFd>(&mut self, sockets: &[S]) -> io::Result<()> {
        for socket in sockets {
            let descriptor = socket.as_raw_fd();
            let mut source = SourceFd(&descriptor);
            self.poll
                .registry()
                .register(&mut source, READY, Interest::READABLE)?;
        }
        Ok(())
    }

    /// Whether something came for one of the sockets that are watched since all was taken; waits at most `most`.
    pub fn wait_registered(&mut self, most: Duration) -> bool {
        let looked = self.poll.poll(&mut self.events, Some(most));
        looked.is_ok() && !self.events.is_empty()
    }

    /// Whether one of the sockets is ready; waits at most `most`. They are registered for this one look: one that was
    /// ready before is reported then, and what comes between two looks wakes no thread.
    pub fn wait_ready<S: AsRawFd>(&mut self, sockets: &[S], most: Duration) -> bool {
        for socket in sockets {
            let descriptor = socket.as_raw_fd();
            let mut source = SourceFd(&descriptor);
            let registry = self.poll.registry();
            // one that can't be registered is asked again at the next look
            let _ = registry.register(&mut source, READY, Interest::READABLE);
        }
        let looked = self.poll.poll(&mut self.events, Some(most));
        for socket in sockets {
            let descriptor = socket.as_raw_fd();
            let _ = self.poll.registry().deregister(&mut SourceFd(&descriptor));
        }
        looked.is_ok() && !self.events.is_empty()
    }
}
