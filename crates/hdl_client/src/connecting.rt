//! Connections to a server.

ghost use Rattle.std.specs.Prelude.{None, IfErr};
ghost use Rattle.hdl_client.specs.Connecting.{IsUnconnected};

use crate::fault::{ClientFault, ConnectFault};
use crate::session::Session;
use crate::transport::Transport;
use std::io::{self, ErrorKind, Read, Write};
use std::net::{HostAddrs, SocketAddr, TcpStream, ToSocketAddrs};
use std::time::{Duration, Instant};

/// How many seconds a connection, the sending of a request, and its whole answer may take each.
const TIMEOUT_SECONDS: u64 = 10;

/// A connection that gives each request a time to be sent, and as much again for its whole answer, however it comes in parts. In a
/// batch an answer's time begins with the last request that was sent. Or it gives both together one time ([`connect_within`]).
#[derive(Drop)]
pub struct Connection {
    rt: HostRuntime,
    stream: TcpStream,
    limit: Duration,
    /// Whether an answer has a time of its own.
    is_patient: bool,
    /// Since when it is sent, or waited.
    since: Instant,
    /// Whether something came since a request was sent.
    has_read: bool,
}

/// What is left of a time that began then.
fn time_left(rt: &HostRuntime, since: Instant, limit: Duration) -> io::Result<Duration> {
    let left = limit.saturating_sub(since.elapsed(rt)?);
    if left.is_zero() {
        return Err(ErrorKind::TimedOut.into());
    }
    Ok(left)
}

impl Connection {
    fn new(rt: HostRuntime, stream: TcpStream) -> Result<Connection, ConnectFault> {
        let (Ok(()), Ok(since)) = (stream.set_nodelay(true), Instant::now(&rt)) else {
            return Err(ConnectFault::Failed);
        };
        Ok(Connection {
            rt,
            stream,
            limit: Duration::from_secs(TIMEOUT_SECONDS),
            is_patient: true,
            since,
            has_read: false,
        })
    }

    /// The time that is left.
    fn time_left(&self) -> io::Result<Duration> {
        time_left(&self.rt, self.since, self.limit)
    }

    fn begin(&mut self) -> io::Result<()> {
        self.since = Instant::now(&self.rt)?;
        Ok(())
    }
}

impl Read for Connection {
    fn read(&mut self, buffer: &mut [u8]) -> io::Result<usize> {
        self.has_read = true;
        self.stream.set_read_timeout(Some(self.time_left()?))?;
        self.stream.read(buffer)
    }
}

impl Write for Connection {
    fn write(&mut self, octets: &[u8]) -> io::Result<usize> {
        if self.has_read {
            self.has_read = false;
            self.begin()?;
        }
        self.stream.set_write_timeout(Some(self.time_left()?))?;
        self.stream.write(octets)
    }

    fn flush(&mut self) -> io::Result<()> {
        self.stream.flush()?;
        if self.is_patient {
            self.begin()?;
        }
        Ok(())
    }
}

impl Transport for Connection {
    ghost sent = { λ _. None };

    ghost received = { λ _. None };

    fn send_all(&mut self, octets: &[u8]) -> io::Result<()> {
        self.write_all(octets)?;
        self.flush()
    }

    fn receive_exact(&mut self, buffer: &mut [u8]) -> io::Result<()> {
        self.read_exact(buffer)
    }
}

/// Why a text gave no addresses.
fn name_fault(kind: ErrorKind) -> ClientFault
    ensures { IsUnconnected result }
{
    match kind {
        ErrorKind::InvalidInput => ClientFault::NoConnection(ConnectFault::NotHostPort),
        ErrorKind::OutOfMemory => ClientFault::Memory,
        _ => ClientFault::NoConnection(ConnectFault::UnknownName),
    }
}

/// What an address's fault is.
fn address_fault(kind: ErrorKind) -> ConnectFault {
    match kind {
        ErrorKind::ConnectionRefused => ConnectFault::Refused,
        ErrorKind::HostUnreachable | ErrorKind::NetworkUnreachable => ConnectFault::NoRoute,
        ErrorKind::TimedOut | ErrorKind::WouldBlock => ConnectFault::Silent,
        _ => ConnectFault::Failed,
    }
}

/// The addresses of `HOST:PORT`.
fn addresses_of(rt: &HostRuntime, server: &str) -> Result<HostAddrs, ClientFault>
    ensures unconnected { IfErr result IsUnconnected }
{
    match server.to_socket_addrs(rt) {
        Ok(addresses) => Ok(addresses),
        Err(error) => Err(name_fault(error.kind())),
    }
}

/// A stream to this address, if it answers within the time. Without time there is none.
fn stream_to(
    rt: &HostRuntime,
    address: &SocketAddr,
    time: io::Result<Duration>,
) -> Result<TcpStream, ConnectFault> {
    let connected = match time {
        Ok(time) => TcpStream::connect_timeout(rt, address, time),
        Err(error) => Err(error),
    };
    match connected {
        Ok(stream) => Ok(stream),
        Err(error) => Err(address_fault(error.kind())),
    }
}

/// Connects to `HOST:PORT`, by the first of its addresses that answers within ten seconds. The fault says why there is no connection: that of the address
/// that was tried last, or why there is none.
pub fn connect(rt: &HostRuntime, server: &str) -> Result<Session<Connection>, ClientFault>
    ensures unconnected { IfErr result IsUnconnected }
{
    let mut last = ConnectFault::UnknownName;
    for address in addresses_of(rt, server)? {
        match stream_to(rt, &address, Ok(Duration::from_secs(TIMEOUT_SECONDS))) {
            Ok(stream) => return Ok(Session::new(rt.alloc(), Connection::new(*rt, stream)?)),
            Err(fault) => last = fault,
        }
    }
    Err(ClientFault::NoConnection(last))
}

/// Connects to `HOST:PORT` within a time that began then, which is that of the first request too: it has to be answered whole before the time is over. Each
/// later request has the same time, for being sent and for its whole answer together. The fault is as [`connect`] tells it.
pub fn connect_within(
    rt: &HostRuntime,
    server: &str,
    since: Instant,
    limit: Duration,
) -> Result<Session<Connection>, ClientFault>
    ensures unconnected { IfErr result IsUnconnected }
{
    let mut last = ConnectFault::UnknownName;
    for address in addresses_of(rt, server)? {
        match stream_to(rt, &address, time_left(rt, since, limit)) {
            Ok(stream) => {
                let mut connection = Connection::new(*rt, stream)?;
                connection.limit = limit;
                connection.is_patient = false;
                connection.since = since;
                return Ok(Session::new(rt.alloc(), connection));
            }
            Err(fault) => last = fault,
        }
    }
    Err(ClientFault::NoConnection(last))
}
