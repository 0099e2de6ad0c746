//! The sockets of a crowd, by place, and which of them may have something.

use crate::proxy_header::ProxyHeader;
use hdl_proxy_protocol::HeaderStep;
use mio::net::TcpStream;
use std::alloc::{AllocError, Global};
use std::collections::VecDeque;
use std::io;
use std::net::SocketAddr;

/// A connection's socket.
#[derive(Drop)]
struct ClientSocket {
    stream: TcpStream,
    is_queued: bool,
    /// The header that is awaited before anything else, if the socket is a proxy's.
    proxy_header: Option<ProxyHeader>,
    /// The client that a proxy named.
    client: Option<SocketAddr>,
}

impl ClientSocket {
    /// Reads on in the header that is awaited. None: none is.
    fn read_proxy_header(&mut self) -> Option<io::Result<HeaderStep>> {
        let proxy_header = self.proxy_header.as_mut()?;
        let step = proxy_header.read_on(&mut self.stream);
        if let Ok(HeaderStep::Whole(client)) = step {
            self.client = client;
            self.proxy_header = None;
        }
        Some(step)
    }
}

/// Sockets by place, and a queue of places at which something may stand next.
#[derive(Drop)]
pub struct ClientSockets {
    sockets: Vec<Option<ClientSocket>>,
    queue: VecDeque<usize>,
    /// Whether a socket was closed for want of memory.
    has_dropped: bool,
}

impl ClientSockets {
    pub fn new(alloc: Global) -> ClientSockets {
        ClientSockets {
            sockets: Vec::new(alloc),
            queue: VecDeque::new(alloc),
            has_dropped: false,
        }
    }

    /// How many places there were.
    pub fn places(&self) -> usize {
        self.sockets.len()
    }

    /// Puts a socket at this place, which begins with a header if one is awaited.
    pub fn put(
        &mut self,
        place: usize,
        stream: TcpStream,
        proxy_header: Option<ProxyHeader>,
    ) -> Result<(), AllocError> {
        let missing = place.saturating_add(1).saturating_sub(self.sockets.len());
        for _ in 0..missing {
            self.sockets.push(None)?;
        }
        if let Some(slot) = self.sockets.get_mut(place) {
            *slot = Some(ClientSocket {
                stream,
                is_queued: false,
                proxy_header,
                client: None,
            });
        }
        Ok(())
    }

    /// The socket at this place.
    pub fn stream(&mut self, place: usize) -> Option<&mut TcpStream> {
        match self.sockets.get_mut(place) {
            Some(Some(socket)) => Some(&mut socket.stream),
            _ => None,
        }
    }

    /// Reads on in the header that is awaited at this place. None: none is.
    pub fn read_proxy_header(&mut self, place: usize) -> Option<io::Result<HeaderStep>> {
        match self.sockets.get_mut(place) {
            Some(Some(socket)) => socket.read_proxy_header(),
            _ => None,
        }
    }

    /// Whence the socket at this place comes: the client that a proxy named, or its peer.
    pub fn client(&self, place: usize) -> Option<SocketAddr> {
        match self.sockets.get(place) {
            Some(Some(socket)) => socket.client.or(socket.stream.peer_addr().ok()),
            _ => None,
        }
    }

    /// Closes the socket at this place.
    pub fn close(&mut self, place: usize) {
        if let Some(slot) = self.sockets.get_mut(place) {
            *slot = None;
        }
    }

    /// Whether something may stand next at this place.
    pub fn is_queued(&self, place: usize) -> bool {
        match self.sockets.get(place) {
            Some(Some(socket)) => socket.is_queued,
            _ => false,
        }
    }

    /// Something may stand next at this place, once however often this is said. Where memory for that is refused the socket is closed.
    pub fn queue(&mut self, place: usize) {
        let Some(slot) = self.sockets.get_mut(place) else {
            return;
        };
        let Some(socket) = slot else {
            return;
        };
        if socket.is_queued {
            return;
        }
        if self.queue.push_back(place).is_ok() {
            socket.is_queued = true;
        } else {
            *slot = None;
            self.has_dropped = true;
        }
    }

    /// Whether a socket was ever closed for want of memory.
    pub fn has_dropped(&self) -> bool {
        self.has_dropped
    }

    /// Whether nothing is known to stand anywhere.
    pub fn is_queue_empty(&self) -> bool {
        self.queue.is_empty()
    }

    /// The place that has waited longest.
    pub fn next_queued(&mut self) -> Option<usize> {
        let place = self.queue.pop_front()?;
        if let Some(Some(socket)) = self.sockets.get_mut(place) {
            socket.is_queued = false;
        }
        Some(place)
    }
}
