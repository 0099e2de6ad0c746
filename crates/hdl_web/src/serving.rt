//! The proxy over sockets.

use crate::accepted::{AcceptedConnections, ConnectionHandler};
use crate::event_loop::EventLoop;
use crate::log::{AccessLogEntry, write_lines};
use crate::logged::LoggedConnection;
use crate::servers::{ChangeServers, Resolver};
use crate::service::ProxyService;
use crate::shared::Shared;
use crate::standbys::{Notice, write_notices};
use crate::workers::{ProxyWorkers, start_upstreams};
use crate::write_timeout::WriteTimeout;
use bytes::Bytes;
use crossbeam_channel::{Receiver, Sender, unbounded};
use http_body_util::Full;
use hyper::rt::{Timer, TokioTimer};
use hyper::server::conn::http1::{Builder, Connection};
use std::alloc::{AllocGlobal, Global};
use std::hash::RandomState;
use std::io::{self, Eprint, Write};
use std::net::SocketAddr;
use std::random::RandomSource;
use std::sync::{Arc, Wait};
use std::thread::{self, Threads};
use std::time::{Clock, Duration};
use tokio::net::TcpStream;
use tokio::runtime::LocalRuntime;
use tokio::time::{Handle, Sleep};

/// The most octets of a request's head.
const HEAD_MOST: usize = 8192;

/// The most fields of a request's head.
const FIELDS_MOST: usize = 64;

/// How long a head may take to come, in seconds; also how long a connection may be idle.
const HEAD_SECONDS: u64 = 10;

/// How long no connection is taken where there is no room for another one, in milliseconds.
const PAUSE_MILLIS: u64 = 100;

/// The limits of connections: of a head's octets and fields, and of the time that it takes.
pub(crate) fn with_limits<T: Timer>(mut http: Builder<T>) -> Builder<T> {
    http.max_buf_size(HEAD_MOST);
    http.max_headers(FIELDS_MOST);
    http.header_read_timeout(Some(Duration::from_secs(HEAD_SECONDS)));
    http
}

/// What all connections share.
#[derive(Drop)]
struct ConnectionFactory<R> {
    rt: R,
    alloc: Global,
    http: Builder<TokioTimer<R>>,
    timers: Handle,
    shared: Arc<Shared<R>>,
}

impl<R: Wait + Clock + Copy + Drop> ConnectionHandler for ConnectionFactory<R> {
    type Served = LoggedConnection<
        R,
        Connection<WriteTimeout<R>, ProxyService<R>, Full<Bytes>, TokioTimer<R>>,
    >;

    fn receive(&self, socket: TcpStream) -> Option<Self::Served> {
        let timers = self.timers.clone().ok()?;
        let theirs = self.timers.clone().ok()?;
        let shared = Arc::try_clone(&self.shared).ok()?;
        let told = Arc::try_clone(&self.shared).ok()?;
        let socket = WriteTimeout::new(socket, self.rt, timers);
        let service = ProxyService::new(self.rt, self.alloc, theirs, shared);
        Some(LoggedConnection::new(self.http.serve_connection(socket, service), told))
    }

    fn pause(&self) -> Option<Sleep> {
        let limit = Duration::from_millis(PAUSE_MILLIS);
        self.timers.sleep(&self.rt, limit).ok()
    }
}

/// What all connections share, in this runtime.
fn open_factory<R>(
    rt: &R,
    runtime: &LocalRuntime,
    shared: Arc<Shared<R>>,
) -> io::Result<ConnectionFactory<R>>
where
    R: Wait + Clock + RandomSource + AllocGlobal + Copy + Drop,
{
    let timers = runtime.handle().time().clone()?;
    let timer = TokioTimer::new(*rt, timers.clone()?);
    let http = with_limits(Builder::new(rt.alloc(), RandomState::new(rt)?).timer(timer));
    Ok(ConnectionFactory {
        rt: *rt,
        alloc: rt.alloc(),
        http,
        timers,
        shared,
    })
}

/// Serves every connection, on this thread.
fn serve_all<R, H>(
    rt: &R,
    runtime: &mut LocalRuntime,
    accepted: AcceptedConnections<H>,
) -> io::Result<()>
where
    R: Wait + Clock + RandomSource + AllocGlobal,
    H: ConnectionHandler,
{
    runtime.run_all(rt, accepted)
}

/// Serves the connections of an event loop's listener, whose questions and orders go to this board.
fn serve_loop<R>(rt: &R, event_loop: EventLoop, shared: Arc<Shared<R>>) -> io::Result<()>
where
    R: Wait + Clock + RandomSource + AllocGlobal + Copy + Drop,
{
    let EventLoop {
        mut runtime,
        listener,
    } = event_loop;
    let factory = open_factory(rt, &runtime, shared)?;
    serve_all(
        rt,
        &mut runtime,
        AcceptedConnections::new(listener.incoming(), factory),
    )
}

/// Serves each event loop on a thread of its own. Where one of them ends, all do, with its fault.
fn serve_loops<R>(rt: &R, loops: Vec<EventLoop>, shared: Arc<Shared<R>>) -> io::Result<()>
where
    R: Wait + Threads + Clock + RandomSource + AllocGlobal + Copy + Send + Sync + Drop + 'static,
{
    let (ended, ends) = unbounded(rt.alloc())?;
    for event_loop in loops {
        let theirs = *rt;
        let shared = Arc::try_clone(&shared)?;
        let ended = ended.clone()?;
        drop(thread::spawn(rt, move || {
            let end = serve_loop(&theirs, event_loop, shared);
            let _ = ended.send(&theirs, end);
        })?);
    }
    match ends.recv(rt) {
        Ok(end) => end,
        Err(_) => Err(io::Error::other("all threads that serve have ended")),
    }
}

fn report_addresses(output: &mut impl Write, addresses: &[SocketAddr]) -> io::Result<()> {
    for address in addresses {
        writeln!(output, "http://{address}/")?;
    }
    output.flush()
}

/// Starts the thread that writes the lines of visits, where they are written.
fn start_log<R, L>(rt: &R, log: Option<L>) -> io::Result<Option<Sender<AccessLogEntry>>>
where
    R: Wait + Threads + Eprint + AllocGlobal + Copy + Send + Drop + 'static,
    L: Write + Send + Drop + 'static,
{
    let Some(out) = log else {
        return Ok(None);
    };
    let alloc = rt.alloc();
    let (entries, come) = unbounded(alloc)?;
    let theirs = *rt;
    drop(thread::spawn(rt, move || write_lines(&theirs, alloc, out, come))?);
    Ok(Some(entries))
}

/// Starts the thread that writes the lines about servers.
fn start_notices<R>(rt: &R, shared: &Arc<Shared<R>>, come: Receiver<Notice>) -> io::Result<()>
where
    R: Wait + Threads + Clock + Eprint + AllocGlobal + Copy + Send + Sync + Drop + 'static,
{
    let theirs = Arc::try_clone(shared)?;
    drop(thread::spawn(rt, move || write_notices(&theirs, come))?);
    Ok(())
}

/// What listens: event loops, and the addresses of their listeners.
#[derive(Drop)]
pub struct Listening {
    pub addresses: Vec<SocketAddr>,
    pub loops: Vec<EventLoop>,
}

/// Serves HTTP on these event loops until the process ends. Each has a thread of its own, and so has each asker, so as many questions are asked at once. A line
/// of each visit is written to the log, if there is one. The addresses are printed once servers can be asked.
pub fn serve_http<R, S, C, L>(
    rt: &R,
    listening: Listening,
    workers_of_all: ProxyWorkers<S, C>,
    log: Option<L>,
    output: &mut impl Write,
) -> io::Result<()>
where
    R: Wait
        + Threads
        + Clock
        + RandomSource
        + Eprint
        + AllocGlobal
        + Copy
        + Send
        + Sync
        + Drop
        + 'static,
    S: Resolver + Send + 'static,
    C: ChangeServers + Send + 'static,
    L: Write + Send + Drop + 'static,
{
    let Listening { addresses, loops } = listening;
    let entries = start_log(rt, log)?;
    let (notices, come) = unbounded(rt.alloc())?;
    let shared = start_upstreams(rt, workers_of_all, entries, notices)?;
    start_notices(rt, &shared, come)?;
    report_addresses(output, &addresses)?;
    serve_loops(rt, loops, shared)
}
