//! The header in which a proxy says for which a connection speaks, before the first octet of its client.

use hdl_proxy_protocol::{HeaderStep, read_header};
use std::alloc::Global;
use std::io::{self, ErrorKind, Read};

/// How many octets of a header are read at a time.
const READ_AT_ONCE: usize = 64;

/// For how many milliseconds a header is waited for.
pub const HEADER_WAIT_MILLIS: u64 = 10_000;

/// The header of a connection, as far as it came.
#[derive(Drop)]
pub struct ProxyHeader {
    octets: Vec<u8>,
}

impl ProxyHeader {
    /// An introduction of which no octet came yet.
    pub fn new(alloc: Global) -> ProxyHeader {
        ProxyHeader {
            octets: Vec::new(alloc),
        }
    }

    /// What came is a beginning of a header, or a whole one; else an error.
    fn step(&self) -> io::Result<HeaderStep> {
        match read_header(self.octets.as_slice()) {
            Ok(step) => Ok(step),
            Err(_) => Err(io::Error::from(ErrorKind::InvalidData)),
        }
    }

    /// Reads at most `most` octets.
    fn read_some<S: Read>(&mut self, stream: &mut S, most: usize) -> io::Result<HeaderStep> {
        let mut room = [0; READ_AT_ONCE];
        let most = most.min(READ_AT_ONCE);
        let count = stream.read(&mut room[..most])?.min(most);
        if count == 0 {
            return Err(io::Error::from(ErrorKind::UnexpectedEof));
        }
        self.octets.extend_from_slice(&room[..count])?;
        self.step()
    }

    /// Reads on by one call, and nothing of what follows the header. A connection that ends before it, or has none, is an error.
    pub fn read_on<S: Read>(&mut self, stream: &mut S) -> io::Result<HeaderStep> {
        match self.step()? {
            HeaderStep::More(count) => self.read_some(stream, count),
            whole => Ok(whole),
        }
    }
}
