//! A stream to a member.

use std::io;
use std::io::{Read, Write};
use std::net::{Net, TcpStream, ToSocketAddrs};
use std::os::unix::net::UnixStream;
use std::time::Duration;

/// How many seconds a member has to take a connection.
const CONNECT_SECONDS: u64 = 1;

/// What the path of a Unix socket stands behind.
const UNIX: &str = "unix:";

/// A stream to a member: by TCP, or by a Unix socket.
#[derive(Drop)]
pub(crate) enum MemberStream {
    Tcp(TcpStream),
    Unix(UnixStream),
}

fn connect_unix<R: Net>(rt: &R, path: &str, timeout: Duration) -> io::Result<UnixStream> {
    let stream = UnixStream::connect(rt, path)?;
    stream.set_read_timeout(Some(timeout))?;
    stream.set_write_timeout(Some(timeout))?;
    Ok(stream)
}

/// A stream to the first address that takes a connection.
fn connect_tcp<R: Net<Stream = TcpStream>>(
    rt: &R,
    address: &str,
    timeout: Duration,
) -> io::Result<TcpStream> {
    let patience = Duration::from_secs(CONNECT_SECONDS);
    for address in address.to_socket_addrs(rt)? {
        if let Ok(stream) = TcpStream::connect_timeout(rt, &address, patience) {
            stream.set_nodelay(true)?;
            stream.set_read_timeout(Some(timeout))?;
            stream.set_write_timeout(Some(timeout))?;
            return Ok(stream);
        }
    }
    Err(io::Error::from(io::ErrorKind::ConnectionRefused))
}

impl MemberStream {
    /// A stream to the member at `HOST:PORT`, or at `unix:PATH`, which has so long to take a request, and to send more of its answer.
    pub(crate) fn connect<R: Net<Stream = TcpStream>>(
        rt: &R,
        address: &str,
        timeout: Duration,
    ) -> io::Result<MemberStream> {
        match address.strip_prefix(UNIX) {
            Some(path) => Ok(MemberStream::Unix(connect_unix(rt, path, timeout)?)),
            None => Ok(MemberStream::Tcp(connect_tcp(rt, address, timeout)?)),
        }
    }

    /// From now on a call that would wait fails with `WouldBlock`.
    pub(crate) fn set_nonblocking(&self) -> io::Result<()> {
        match self {
            MemberStream::Tcp(stream) => stream.set_nonblocking(true),
            MemberStream::Unix(stream) => stream.set_nonblocking(true),
        }
    }
}

impl Read for MemberStream {
    fn read(&mut self, buf: &mut [u8]) -> io::Result<usize> {
        match self {
            MemberStream::Tcp(stream) => stream.read(buf),
            MemberStream::Unix(stream) => stream.read(buf),
        }
    }
}

impl Write for MemberStream {
    fn write(&mut self, buf: &[u8]) -> io::Result<usize> {
        match self {
            MemberStream::Tcp(stream) => stream.write(buf),
            MemberStream::Unix(stream) => stream.write(buf),
        }
    }

    fn flush(&mut self) -> io::Result<()> {
        match self {
            MemberStream::Tcp(stream) => stream.flush(),
            MemberStream::Unix(stream) => stream.flush(),
        }
    }
}
