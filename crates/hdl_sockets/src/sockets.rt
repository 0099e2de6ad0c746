//! The sockets of a lane, one at each address, and what failed calls of a socket say.

use crate::socket_poll::SocketPoll;
use std::alloc::Global;
use std::io::{self, ErrorKind};
use std::net::{Net, SocketAddr, TcpListener, TcpStream, UdpSocket};
use std::os::fd::{AsRawFd, OwnedFd, RawFd};
use std::time::Duration;

/// Whether a call that failed says only that nothing came: it would wait or was interrupted, or the peer gave up before it was
/// accepted.
pub fn is_no_data(kind: ErrorKind) -> bool {
    matches!(
        kind,
        ErrorKind::WouldBlock
            | ErrorKind::TimedOut
            | ErrorKind::Interrupted
            | ErrorKind::ConnectionAborted
    )
}

/// Errors of the system that say that it has no room for one more descriptor or connection: ENOMEM, ENFILE, EMFILE, ENOBUFS.
const NO_ROOM_ERRORS: [i32; 4] = [12, 23, 24, 105];

/// Whether a call that failed says only that the machine has no room for what came, which it may have later.
pub fn has_no_room(error: &io::Error) -> bool {
    match error.raw_os_error() {
        Some(code) => NO_ROOM_ERRORS.contains(&code),
        None => false,
    }
}

/// A socket at which something comes.
pub trait Source: AsRawFd {
    /// What comes.
    type Taken: Drop;

    /// Takes what came first; octets stand at the front of the buffer.
    fn take(&self, buffer: &mut [u8]) -> io::Result<Self::Taken>;

    /// Has `take` wait at most `most`, or not at all.
    fn set_timeout(&self, most: Option<Duration>) -> io::Result<()>;
}

impl Source for TcpListener {
    type Taken = TcpStream;

    fn take(&self, _buffer: &mut [u8]) -> io::Result<TcpStream> {
        let (stream, _) = self.accept()?;
        Ok(stream)
    }

    /// A socket's time to receive holds for `accept` too, but listeners have no call to set it.
    fn set_timeout(&self, most: Option<Duration>) -> io::Result<()> {
        match most {
            Some(_) => TcpStream::from(OwnedFd::from(self.try_clone()?)).set_read_timeout(most),
            None => self.set_nonblocking(true),
        }
    }
}

/// A datagram socket, and how many times the octets that asked a reply through it may have to an address that nothing shows to be there.
#[derive(Drop)]
pub struct PacketSocket {
    pub socket: UdpSocket,
    /// How many times its request a reply may be long; None: no limit.
    pub times: Option<u32>,
}

impl AsRawFd for PacketSocket {
    fn as_raw_fd(&self) -> RawFd {
        self.socket.as_raw_fd()
    }
}

impl PacketSocket {
    /// Sends octets to an address. Where the kernel has no room for them it waits until there is some. Whether they went.
    pub fn send(&self, octets: &[u8], to: SocketAddr) -> bool {
        match self.socket.send_to(octets, to) {
            Ok(_) => true,
            Err(e) if e.kind() == ErrorKind::WouldBlock => self.send_late(octets, to),
            Err(_) => false,
        }
    }

    fn send_late(&self, octets: &[u8], to: SocketAddr) -> bool {
        if self.socket.set_nonblocking(false).is_err() {
            return false;
        }
        let sent = self.socket.send_to(octets, to).is_ok();
        self.socket.set_nonblocking(true).is_ok() && sent
    }
}

impl Source for PacketSocket {
    /// How many octets, and the sender.
    type Taken = (usize, SocketAddr);

    fn take(&self, buffer: &mut [u8]) -> io::Result<(usize, SocketAddr)> {
        self.socket.recv_from(buffer)
    }

    fn set_timeout(&self, most: Option<Duration>) -> io::Result<()> {
        match most {
            Some(_) => self.socket.set_read_timeout(most),
            None => self.socket.set_nonblocking(true),
        }
    }
}

/// The sockets of a lane, one at each address.
#[derive(Drop)]
pub struct Sockets<S> {
    sockets: Vec<S>,
    /// The place of the one that is asked first.
    first: usize,
    poll: SocketPoll,
    /// Whether the look has all of them for good.
    is_registered: bool,
    most: Duration,
}

impl<S: Source + Drop> Sockets<S> {
    /// Sockets at which a call waits at most `most`. Where there is one its own call waits; the calls of several don't, and a look at them all does.
    pub fn new<R: Net>(
        rt: &R,
        alloc: Global,
        sockets: Vec<S>,
        most: Duration,
    ) -> io::Result<Sockets<S>> {
        let own = if sockets.len() == 1 { Some(most) } else { None };
        for socket in &sockets {
            socket.set_timeout(own)?;
        }
        Ok(Sockets {
            sockets,
            first: 0,
            poll: SocketPoll::new(rt, alloc)?,
            is_registered: false,
            most,
        })
    }

    /// Sockets from which one thread alone takes. Their calls don't wait; a look at them all does, for at most `most`.
    pub fn with_registration<R: Net>(
        rt: &R,
        alloc: Global,
        sockets: Vec<S>,
        most: Duration,
    ) -> io::Result<Sockets<S>> {
        for socket in &sockets {
            socket.set_timeout(None)?;
        }
        let mut poll = SocketPoll::new(rt, alloc)?;
        poll.register_all(sockets.as_slice())?;
        Ok(Sockets {
            sockets,
            first: 0,
            poll,
            is_registered: true,
            most,
        })
    }

    /// Looks for something that came, for at most `most`. Whether there is something.
    fn wait_ready(&mut self, most: Duration) -> bool {
        if self.is_registered {
            self.poll.wait_registered(most)
        } else {
            self.poll.wait_ready(self.sockets.as_slice(), most)
        }
    }

    pub fn all(&self) -> &[S] {
        self.sockets.as_slice()
    }

    /// The socket at this place.
    pub fn get(&self, place: usize) -> Option<&S> {
        self.sockets.get(place)
    }

    /// Whether something came for one of them, without waiting.
    pub fn poll_now(&mut self) -> bool {
        self.wait_ready(Duration::ZERO)
    }

    /// Takes what came for one of them already, with its place. Each is asked once, the one that gave something last at the end, so that none keeps another
    /// from being asked.
    pub fn take_now(&mut self, buffer: &mut [u8]) -> io::Result<(usize, S::Taken)> {
        let count = self.sockets.len();
        for turn in 0..count {
            let place = self.first.wrapping_add(turn) % count;
            let Some(socket) = self.sockets.get(place) else {
                break;
            };
            match socket.take(buffer) {
                Ok(taken) => {
                    self.first = place.wrapping_add(1);
                    return Ok((place, taken));
                }
                Err(e) if is_no_data(e.kind()) => {}
                Err(e) => return Err(e),
            }
        }
        Err(io::Error::from(ErrorKind::WouldBlock))
    }

    /// Takes what came for one of them, with its place. It may wait for a while.
    pub fn take(&mut self, buffer: &mut [u8]) -> io::Result<(usize, S::Taken)> {
        match self.take_now(buffer) {
            Err(e) if is_no_data(e.kind()) && (self.is_registered || self.sockets.len() > 1) => {
                self.wait_ready(self.most);
                self.take_now(buffer)
            }
            answer => answer,
        }
    }
}
