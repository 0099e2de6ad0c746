//! The time limits of a connection.

use crate::lane_listener::LaneListener;
use crate::progress::Progress;
use crate::proxy_header::{HEADER_WAIT_MILLIS, ProxyHeader};
use crate::sockets::is_no_data;
use hdl_proxy_protocol::HeaderStep;
use hdl_telemetry::StreamRecorder;
use std::io::{self, ErrorKind, Read, Write};
use std::net::{SocketAddr, TcpStream};
use std::thread;
use std::time::Duration;

/// For how many seconds one call waits for octets, or for room, after which the limits are looked at.
const TICK_SECONDS: u64 = 1;

/// For how many milliseconds the rest of a frame is waited for.
const FRAME_WAIT_MILLIS: u64 = 10_000;

/// For how many ticks a connection may take nothing of an answer.
const WRITE_TICKS: u64 = 10;

/// How many milliseconds a lane waits before it accepts again, where the machine had no room for a connection.
const RETRY_MILLIS: u64 = 100;

/// The time limits of the connection of one lane.
#[derive(Drop)]
pub struct ConnectionTimeouts<R> {
    rt: R,
    lane_listener: LaneListener,
    progress: Progress,
    /// For how many milliseconds the rest of the frame under way was waited for. What an answer before it takes doesn't count.
    waited: u64,
    recorder: Option<StreamRecorder<R>>,
    /// The header that is awaited before anything else, if the connection is a proxy's.
    proxy_header: Option<ProxyHeader>,
}

impl<R: std::rt::Clock + Drop> ConnectionTimeouts<R> {
    /// The time limits of a lane without a connection.
    pub fn new(
        rt: R,
        lane_listener: LaneListener,
        recorder: Option<StreamRecorder<R>>,
    ) -> ConnectionTimeouts<R> {
        ConnectionTimeouts {
            rt,
            lane_listener,
            recorder,
            progress: Progress::new(),
            waited: 0,
            proxy_header: None,
        }
    }

    /// A connection for the lane. It may wait for one for a while. A server that is to end takes none.
    pub fn accept(&mut self) -> io::Result<TcpStream> {
        if self.lane_listener.is_ending() {
            return Err(io::Error::from(ErrorKind::NotConnected));
        }
        self.lane_listener.accept()
    }

    /// Begins to watch this connection.
    pub fn begin(&mut self, stream: &TcpStream) {
        // a connection has its listener's time to receive
        let _ = stream.set_read_timeout(Some(Duration::from_secs(TICK_SECONDS)));
        let _ = stream.set_write_timeout(Some(Duration::from_secs(TICK_SECONDS)));
        self.progress = Progress::new();
        self.waited = 0;
        self.lane_listener.set_busy();
        let peer = stream.peer_addr().ok();
        self.proxy_header = self.lane_listener.proxy_header_of(peer);
        if let Some(recorder) = &mut self.recorder {
            recorder.begin(peer);
        }
    }

    /// Ends watching: the lane is free, and nothing more is recorded.
    pub fn end(&mut self) {
        self.lane_listener.set_free();
        if let Some(recorder) = &mut self.recorder {
            recorder.end();
        }
    }

    /// The machine has no room for the client that waits: a little later it may have.
    pub fn pause(&self) {
        thread::sleep(&self.rt, Duration::from_millis(RETRY_MILLIS));
    }

    /// The lane takes no more connections.
    pub fn stop(&mut self) {
        self.lane_listener.set_busy();
    }

    /// Notes octets that came after `waited` milliseconds. Whether the frame that goes on with them isn't late.
    fn note_received(&mut self, octets: &[u8], waited: u64) -> bool {
        if let Some(recorder) = &mut self.recorder {
            recorder.note_octets(octets);
        }
        let was_begun = self.progress.is_begun();
        let is_whole = self.progress.follow(octets);
        self.waited = if was_begun && !is_whole {
            self.waited.saturating_add(waited)
        } else {
            0
        };
        self.waited <= FRAME_WAIT_MILLIS
    }

    /// Whether a connection from which nothing came since this moment is to be closed.
    fn must_close(&mut self, since: u64) -> bool {
        let now = self.lane_listener.moment(&self.rt);
        let waited = self.waited.saturating_add(now.saturating_sub(since));
        (self.progress.is_begun() && waited > FRAME_WAIT_MILLIS)
            || self.lane_listener.must_make_room(now)
    }

    /// The header is whole. A proxy may speak for itself.
    fn end_proxy_header(&mut self, client: Option<SocketAddr>) {
        self.proxy_header = None;
        if let (Some(recorder), Some(client)) = (&mut self.recorder, client) {
            recorder.set_client(client);
        }
    }

    /// Reads the header that is awaited, if one is. Whether it is whole; else the connection is to be closed.
    fn read_proxy_header(&mut self, stream: &mut TcpStream, since: u64) -> bool {
        for _ in 0..u64::MAX {
            let Some(proxy_header) = &mut self.proxy_header else {
                return true;
            };
            match proxy_header.read_on(stream) {
                Ok(HeaderStep::Whole(client)) => self.end_proxy_header(client),
                Ok(HeaderStep::More(_)) => {}
                Err(e) if is_no_data(e.kind()) => {}
                Err(_) => return false,
            }
            let waited = self.lane_listener.moment(&self.rt).saturating_sub(since);
            if waited > HEADER_WAIT_MILLIS || self.lane_listener.is_ending() {
                return false;
            }
        }
        false
    }

    /// Reads some octets, and answers how many. 0: the peer closed the connection, or is too slow, or has to make room for another, or the server
    /// is to end.
    pub fn read(&mut self, stream: &mut TcpStream, buffer: &mut [u8]) -> io::Result<usize> {
        let since = self.lane_listener.moment(&self.rt);
        self.lane_listener.set_silent(since);
        if !self.read_proxy_header(stream, since) {
            return Ok(0);
        }
        for _ in 0..u64::MAX {
            if self.lane_listener.is_ending() {
                break;
            }
            match stream.read(buffer) {
                Ok(count) => {
                    let count = count.min(buffer.len());
                    let waited = self.lane_listener.moment(&self.rt).saturating_sub(since);
                    if !self.note_received(&buffer[..count], waited) {
                        break;
                    }
                    self.lane_listener.set_busy();
                    return Ok(count);
                }
                Err(e) if is_no_data(e.kind()) => {
                    if self.must_close(since) {
                        break;
                    }
                }
                Err(e) => return Err(e),
            }
        }
        Ok(0)
    }

    /// Writes a beginning of the octets, and answers how many. A peer that takes none for too long is an error. A call that waits comes back
    /// with what it took before, and only the next one finds out whether there is room again; so each waits a tick alone.
    pub fn write(&mut self, stream: &mut TcpStream, octets: &[u8]) -> io::Result<usize> {
        for _ in 0..WRITE_TICKS {
            match stream.write(octets) {
                Err(e) if is_no_data(e.kind()) => {}
                Ok(count) => {
                    let count = count.min(octets.len());
                    if let Some(recorder) = &mut self.recorder {
                        recorder.note_written(&octets[..count]);
                    }
                    return Ok(count);
                }
                Err(e) => return Err(e),
            }
        }
        Err(io::Error::from(ErrorKind::TimedOut))
    }
}
