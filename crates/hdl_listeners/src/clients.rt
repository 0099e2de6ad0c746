//! Several clients at a time on one thread, none of which holds another up.

use hdl_sockets::is_no_data;
use std::alloc::Global;
use std::collections::VecDeque;
use std::io::{self, Read, Write};
use std::net::{TcpListener, TcpStream};
use std::os::unix::net::{UnixListener, UnixStream};
use std::rt::Clock;
use std::thread;
use std::time::{Duration, Instant};

/// How many clients are served at a time. Where one more comes, the one that came first is left.
const CLIENTS_MOST: usize = 32;

/// For how many seconds a client may take to ask, and to take its answer.
const TIMEOUT_SECONDS: u64 = 5;

/// How many octets of a request are read at most, and at a time.
const REQUEST_MOST: usize = 4096;

const CHUNK: usize = 1024;

/// For how many milliseconds the thread sleeps that waits for slow clients, and after a client that the machine had no room for.
const PAUSE_MILLIS: u64 = 5;

const RETRY_MILLIS: u64 = 500;

/// What the octets of a client come to.
#[derive(Drop)]
pub enum Response {
    /// It shall say more.
    NeedMore,
    /// It gets these, and its connection is closed.
    Octets(Vec<u8>),
    /// It stays connected, as long as the program runs.
    KeepOpen,
    /// Its connection is closed.
    Close,
}

/// What answers clients.
pub trait RequestHandler {
    /// What a client comes to that said these octets so far.
    fn answer(&self, alloc: Global, request: &[u8]) -> Response;
}

/// Where clients come in.
pub trait ClientListener {
    type Stream: Read + Write + Drop;

    /// The next client, whose calls don't wait. Whether this one waits for it is said.
    fn accept(&self, may_wait: bool) -> io::Result<Self::Stream>;
}

impl ClientListener for TcpListener {
    type Stream = TcpStream;

    fn accept(&self, may_wait: bool) -> io::Result<TcpStream> {
        self.set_nonblocking(!may_wait)?;
        let (stream, _) = TcpListener::accept(self)?;
        stream.set_nonblocking(true)?;
        Ok(stream)
    }
}

impl ClientListener for UnixListener {
    type Stream = UnixStream;

    fn accept(&self, may_wait: bool) -> io::Result<UnixStream> {
        self.set_nonblocking(!may_wait)?;
        let (stream, _) = UnixListener::accept(self)?;
        stream.set_nonblocking(true)?;
        Ok(stream)
    }
}

/// What becomes of a client.
#[derive(Clone, Copy, PartialEq, Eq)]
enum ClientState {
    /// It asks, or takes its answer.
    Active,
    KeptOpen,
    Closed,
}

/// Writes of these octets what a client takes: how many it took, and what becomes of it.
fn write_some<S: Write>(stream: &mut S, octets: &[u8]) -> (usize, ClientState) {
    let mut written = 0usize;
    for _ in 0..octets.len() {
        let Some(rest) = octets.get(written..) else {
            break;
        };
        match stream.write(rest) {
            Ok(count) if count > 0 => written = written.saturating_add(count),
            Err(e) if is_no_data(e.kind()) => return (written, ClientState::Active),
            _ => break,
        }
    }
    (written, ClientState::Closed)
}

/// A client: what it said, and what it has of its answer.
#[derive(Drop)]
struct Client<S> {
    stream: S,
    /// When it came, where the clock said it.
    came: Option<Instant>,
    request: Vec<u8>,
    reply: Option<Vec<u8>>,
    written: usize,
}

impl<S: Read + Write + Drop> Client<S> {
    fn new(alloc: Global, stream: S, came: Option<Instant>) -> Client<S> {
        Client {
            stream,
            came,
            request: Vec::new(alloc),
            reply: None,
            written: 0,
        }
    }

    /// Writes of the answer what the client takes.
    fn write_response(&mut self) -> ClientState {
        let Some(reply) = &self.reply else {
            return ClientState::Active;
        };
        let Some(rest) = reply.get(self.written..) else {
            return ClientState::Closed;
        };
        let (count, state) = write_some(&mut self.stream, rest);
        self.written = self.written.saturating_add(count);
        state
    }

    /// Some octets came.
    fn note_octets<D: RequestHandler>(
        &mut self,
        alloc: Global,
        handler: &D,
        octets: &[u8],
    ) -> ClientState {
        if self.request.extend_from_slice(octets).is_err() || self.request.len() > REQUEST_MOST {
            return ClientState::Closed;
        }
        match handler.answer(alloc, self.request.as_slice()) {
            Response::NeedMore => ClientState::Active,
            Response::Octets(reply) => {
                self.reply = Some(reply);
                self.write_response()
            }
            Response::KeepOpen => ClientState::KeptOpen,
            Response::Close => ClientState::Closed,
        }
    }

    /// Reads once.
    fn read_once<D: RequestHandler>(&mut self, alloc: Global, handler: &D) -> ClientState {
        let mut octets = [0; CHUNK];
        match self.stream.read(&mut octets) {
            Ok(count) if count > 0 => self.note_octets(alloc, handler, &octets[..count.min(CHUNK)]),
            Err(e) if is_no_data(e.kind()) => ClientState::Active,
            _ => ClientState::Closed,
        }
    }

    /// Goes on with the client, unless it has taken too long.
    fn advance<D: RequestHandler>(
        &mut self,
        alloc: Global,
        handler: &D,
        now: Option<Instant>,
    ) -> ClientState {
        if let (Some(came), Some(now)) = (self.came, now) {
            if now.saturating_duration_since(came) > Duration::from_secs(TIMEOUT_SECONDS) {
                return ClientState::Closed;
            }
        }
        if self.reply.is_some() {
            self.write_response()
        } else {
            self.read_once(alloc, handler)
        }
    }
}

/// The clients that ask, the one that came first at the front, and those that stay.
#[derive(Drop)]
struct Clients<S> {
    active: VecDeque<Client<S>>,
    kept_open: Vec<Client<S>>,
}

impl<S: Read + Write + Drop> Clients<S> {
    /// A client came. One that finds no memory is left.
    fn add(&mut self, client: Client<S>) {
        if self.active.len() >= CLIENTS_MOST {
            self.active.pop_front();
        }
        let _ = self.active.push_back(client);
    }

    /// Goes on with each client.
    fn advance_all<D: RequestHandler>(&mut self, alloc: Global, handler: &D, now: Option<Instant>) {
        for _ in 0..self.active.len() {
            let Some(mut client) = self.active.pop_front() else {
                break;
            };
            match client.advance(alloc, handler, now) {
                ClientState::Active => {
                    let _ = self.active.push_back(client);
                }
                ClientState::KeptOpen => {
                    let _ = self.kept_open.push(client);
                }
                ClientState::Closed => {}
            }
        }
    }
}

/// Answers each client that comes, as long as the program runs. It waits for the next client while no one asks, and else looks for one between its looks at the others.
pub fn serve_clients<R: Clock, G: ClientListener, D: RequestHandler>(
    rt: &R,
    alloc: Global,
    listener: &G,
    handler: &D,
) {
    let mut clients = Clients {
        active: VecDeque::new(alloc),
        kept_open: Vec::new(alloc),
    };
    for _ in 0..u64::MAX {
        let may_wait = clients.active.is_empty();
        match listener.accept(may_wait) {
            Ok(stream) => clients.add(Client::new(alloc, stream, Instant::now(rt).ok())),
            Err(e) if is_no_data(e.kind()) => {
                if !may_wait {
                    thread::sleep(rt, Duration::from_millis(PAUSE_MILLIS));
                }
            }
            Err(_) => thread::sleep(rt, Duration::from_millis(RETRY_MILLIS)),
        }
        clients.advance_all(alloc, handler, Instant::now(rt).ok());
    }
}
