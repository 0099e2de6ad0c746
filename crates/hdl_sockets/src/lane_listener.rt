//! Since when the connections of a publisher are silent, and whether a client waits for one of its lanes.

use crate::proxy_header::ProxyHeader;
use crate::shutdown_flag::ShutdownFlag;
use crate::sockets::Sockets;
use mio::unix::SourceFd;
use mio::{Interest, Poll, Token};
use std::alloc::Global;
use std::io;
use std::net::{IpAddr, Net, SocketAddr, TcpListener, TcpStream};
use std::os::fd::AsRawFd;
use std::sync::Arc;
use std::sync::atomic::AtomicU64;
use std::sync::atomic::Ordering::SeqCst;
use std::time::{Duration, Instant};

/// The moment of a lane without a connection, which is free for each client that comes: it counts as silent longer than any other.
const FREE: u64 = 0;

/// The moment of a lane that is at work.
const BUSY: u64 = u64::MAX;

/// Since when the lane at each place is silent, in milliseconds of all their clocks, or `FREE` or `BUSY`.
#[derive(Drop)]
struct IdleTimes {
    since: Vec<AtomicU64>,
}

impl IdleTimes {
    /// `lanes` lanes, all free.
    fn new(alloc: Global, lanes: usize) -> io::Result<IdleTimes> {
        let mut since = Vec::with_capacity(alloc, lanes)?;
        for _ in 0..lanes {
            since.push(AtomicU64::new(FREE))?;
        }
        Ok(IdleTimes { since })
    }

    /// The lane at this place is silent since this moment.
    fn put(&self, place: usize, moment: u64) {
        if let Some(since) = self.since.get(place) {
            since.store(moment, SeqCst);
        }
    }

    /// Whether another lane than that at this place is free.
    fn has_other_free(&self, place: usize) -> bool {
        let mut others = self.since.iter().enumerate();
        others.any(|(other, since)| other != place && since.load(SeqCst) == FREE)
    }

    /// Whether no other lane is silent for longer than that at this place, which is since this moment; of equal ones the first is.
    fn is_longest(&self, place: usize, moment: u64) -> bool {
        let mut others = self.since.iter().enumerate();
        others.all(|(other, since)| {
            let theirs = since.load(SeqCst);
            theirs > moment || (theirs == moment && other >= place)
        })
    }
}

/// The listeners of a publisher, as one of its stream lanes has them, and how that lane stands among the others.
#[derive(Drop)]
pub struct LaneListener {
    listeners: Sockets<TcpListener>,
    idle_times: Arc<IdleTimes>,
    place: usize,
    /// When the publisher's clocks began.
    start: Instant,
    /// For how many milliseconds a connection may be silent while another client waits.
    idle_millis: u64,
    /// Since when the connection is silent.
    since: u64,
    shutdown: Arc<ShutdownFlag>,
    /// The proxy that says for which its connections speak.
    proxied: Option<IpAddr>,
    alloc: Global,
}

impl LaneListener {
    /// How many milliseconds after the start it is, from 1 on. A clock that fails says the last moment again.
    pub fn moment<R: std::rt::Clock>(&self, rt: &R) -> u64 {
        match Instant::now(rt) {
            Ok(now) => {
                let passed = now.saturating_duration_since(self.start).as_millis();
                u64::try_from(passed).unwrap_or(BUSY).max(1)
            }
            Err(_) => self.since,
        }
    }

    /// Notes that the lane has no connection.
    pub fn set_free(&mut self) {
        self.idle_times.put(self.place, FREE);
    }

    /// The lane is at work, or is no more.
    pub fn set_busy(&mut self) {
        self.idle_times.put(self.place, BUSY);
    }

    /// The connection is silent since this moment.
    pub fn set_silent(&mut self, moment: u64) {
        self.since = moment;
        self.idle_times.put(self.place, moment);
    }

    /// Whether the server is asked to end.
    pub fn is_ending(&self) -> bool {
        self.shutdown.is_requested()
    }

    /// The header with which a connection of this peer has to begin, if the peer is the proxy.
    pub fn proxy_header_of(&self, peer: Option<SocketAddr>) -> Option<ProxyHeader> {
        let peer = peer?.ip().to_canonical();
        let proxy = self.proxied?.to_canonical();
        if peer == proxy {
            Some(ProxyHeader::new(self.alloc))
        } else {
            None
        }
    }

    /// Whether another lane of the publisher is free.
    pub fn has_other_free_lane(&self) -> bool {
        self.idle_times.has_other_free(self.place)
    }

    /// Whether a client waits at one of the publisher's addresses.
    pub fn poll_for_client(&mut self) -> bool {
        self.listeners.poll_now()
    }

    /// Whether the silent connection has to make room: it is silent for too long, longest among all of its publisher, and a client waits.
    pub fn must_make_room(&mut self, now: u64) -> bool {
        now.saturating_sub(self.since) >= self.idle_millis
            && self.idle_times.is_longest(self.place, self.since)
            && self.poll_for_client()
    }

    /// A connection that came at one of the publisher's addresses. It may wait for one for a while.
    pub fn accept(&mut self) -> io::Result<TcpStream> {
        let (_, stream) = self.listeners.take(&mut [])?;
        Ok(stream)
    }

    /// A connection that came already.
    pub fn accept_now(&mut self) -> io::Result<TcpStream> {
        let (_, stream) = self.listeners.take_now(&mut [])?;
        Ok(stream)
    }

    /// Has the calls of all workers of the publisher wait at its one listener, or not. Those at several don't wait anyhow.
    pub fn set_waiting(&self, waits: bool) -> io::Result<()> {
        match self.listeners.all() {
            [listener] => listener.set_nonblocking(!waits),
            _ => Ok(()),
        }
    }

    /// Has a poll tell by this token of clients that come at the publisher's addresses.
    pub fn register_with(&self, poll: &Poll, token: Token) -> io::Result<()> {
        for listener in self.listeners.all() {
            let descriptor = listener.as_raw_fd();
            poll.registry()
                .register(&mut SourceFd(&descriptor), token, Interest::READABLE)?;
        }
        Ok(())
    }
}

/// Other owners of the same listeners.
fn share(alloc: Global, listeners: &[TcpListener]) -> io::Result<Vec<TcpListener>> {
    let mut owned = Vec::with_capacity(alloc, listeners.len())?;
    for listener in listeners {
        owned.push(listener.try_clone()?)?;
    }
    Ok(owned)
}

/// How long a publisher's workers wait for a connection, for how many seconds a connection may be silent while another client waits, whether
/// the server is to end, and from which proxy each connection begins with a header of the PROXY protocol.
#[derive(Drop)]
pub struct ListenerConfig {
    pub door: Duration,
    pub idle_seconds: u32,
    pub shutdown: Arc<ShutdownFlag>,
    pub proxied: Option<IpAddr>,
}

/// The listener of the lane at this place.
fn lane_listener_at<R: Net>(
    rt: &R,
    alloc: Global,
    listeners: Vec<TcpListener>,
    beside: (&Arc<IdleTimes>, usize),
    start: Instant,
    config: &ListenerConfig,
) -> io::Result<LaneListener> {
    let (idle_times, place) = beside;
    let shutdown = Arc::try_clone(&config.shutdown)?;
    let idle_times = Arc::try_clone(idle_times)?;
    let listeners = Sockets::new(rt, alloc, listeners, config.door)?;
    Ok(LaneListener {
        listeners,
        idle_times,
        place,
        start,
        idle_millis: u64::from(config.idle_seconds).saturating_mul(1000),
        since: 1,
        shutdown,
        proxied: config.proxied,
        alloc,
    })
}

/// A lane's listener, over clones of these, for each of `lanes` lanes.
pub fn lane_listeners_at<R: Net + std::rt::Clock>(
    rt: &R,
    alloc: Global,
    listeners: &[TcpListener],
    lanes: u16,
    config: &ListenerConfig,
) -> io::Result<Vec<LaneListener>> {
    let lanes = usize::from(lanes);
    let idle_times = Arc::new(alloc, IdleTimes::new(alloc, lanes)?)?;
    let start = Instant::now(rt)?;
    let mut lane_listeners = Vec::with_capacity(alloc, lanes)?;
    for place in 0..lanes {
        let listeners = share(alloc, listeners)?;
        let beside = (&idle_times, place);
        lane_listeners.push(lane_listener_at(rt, alloc, listeners, beside, start, config)?)?;
    }
    Ok(lane_listeners)
}
