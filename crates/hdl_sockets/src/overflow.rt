//! Many connections on one lane, as peers of it. They tell nothing.
//!
//! The worker of such a lane is that of datagrams: one frame at a time, each answered before the next is received. `hdl_overflow_lane` keeps what is read and
//! owed, and whose number is whose; here are the sockets, none of which waits.

use crate::acceptor::Acceptor;
use crate::client_sockets::ClientSockets;
use crate::lane_listener::LaneListener;
use crate::sockets::is_no_data;
use hdl_frame::ENVELOPE_LEN;
use hdl_limits::{MESSAGE_MAX, PEERS_MAX};
use hdl_overflow_lane::Connections;
use hdl_telemetry::Recorder;
use hdl_workers::{DoorFault, Packets};
use mio::net::TcpStream;
use mio::{Events, Interest, Poll, Token};
use std::alloc::Global;
use std::io::{self, ErrorKind, Read, Write};
use std::net::{Net, SocketAddr};
use std::time::Duration;

/// The listeners' token; that of a connection is one more than its place.
const LISTENER: Token = Token(0);

/// How many events are taken, clients accepted, and places looked at, in one call.
const STEPS_PER_POLL: usize = 64;

/// How many frames are received between two looks for events.
const FRAMES_PER_POLL: u32 = 32;

/// How many octets are asked of a connection at a time.
const READ_AT_ONCE: usize = 8192;

/// How many writes one answer is tried by before others have their turn.
const WRITES_PER_TURN: u32 = 64;

/// Milliseconds between two looks at the limits of time.
const TICK_MILLIS: u64 = 1000;

/// What stands next at a place.
enum NextAtPlace {
    /// A frame: the number of its peer, and its length in octets.
    Frame(u16, usize),
    /// Something more may stand there.
    More,
    /// Nothing, until the socket is ready again.
    Nothing,
    /// Its end.
    End,
}

/// The connections of a lane.
#[derive(Drop)]
pub struct OverflowLane {
    acceptor: Acceptor,
    poll: Poll,
    events: Events,
    /// How long a look for events may take.
    poll_timeout: Duration,
    book: Connections,
    sockets: ClientSockets,
    /// Where the frame that was received last came from.
    last_asker: Option<usize>,
    /// How many frames are still received before the next look for events.
    until_poll: u32,
    /// The moment of this call, and that at which the limits of time were looked at.
    now: u64,
    ticked: u64,
    /// Whether some connection may be too slow.
    may_have_slow: bool,
}

impl OverflowLane {
    /// A lane without connections, at the lane's listeners, of at most `most` connections. A look for events waits at most `poll_timeout`.
    pub fn new<R: Net>(
        rt: &R,
        alloc: Global,
        lane_listener: LaneListener,
        most: usize,
        poll_timeout: Duration,
    ) -> io::Result<OverflowLane> {
        let poll = Poll::new(rt)?;
        lane_listener.register_with(&poll, LISTENER)?;
        Ok(OverflowLane {
            acceptor: Acceptor::new(lane_listener, most),
            poll,
            events: Events::with_capacity(alloc, STEPS_PER_POLL)?,
            poll_timeout,
            book: Connections::new(alloc),
            sockets: ClientSockets::new(alloc),
            last_asker: None,
            until_poll: 0,
            now: 0,
            ticked: 0,
            may_have_slow: false,
        })
    }

    /// Leaves the connection at this place.
    fn close(&mut self, place: usize) {
        self.sockets.close(place);
        self.book.leave(place);
        self.acceptor.note_left();
        if self.last_asker == Some(place) {
            self.last_asker = None;
        }
    }

    /// Waits for events, if nothing is known to stand anywhere, and notes where something may stand.
    fn poll_events(&mut self) {
        let most = if self.sockets.is_queue_empty() {
            self.acceptor
                .poll_timeout(self.book.len(), self.now, self.poll_timeout)
        } else {
            Duration::ZERO
        };
        self.until_poll = FRAMES_PER_POLL;
        if self.poll.poll(&mut self.events, Some(most)).is_err() {
            return;
        }
        for event in self.events.iter() {
            let token = event.token();
            if token == LISTENER {
                self.acceptor.note_readable();
            } else {
                self.sockets.queue(token.0.saturating_sub(1));
            }
        }
    }

    /// Takes a client in. What can't be had closes the connection.
    fn admit(&mut self, stream: std::net::TcpStream) {
        let _ = stream.set_nodelay(true);
        if stream.set_nonblocking(true).is_err() {
            return;
        }
        let Some(place) = self.book.enter(self.now) else {
            return;
        };
        let proxy_header = self
            .acceptor
            .lane_listener
            .proxy_header_of(stream.peer_addr().ok());
        let mut stream = TcpStream::from_std(stream);
        let token = Token(place.saturating_add(1));
        let both = Interest::READABLE | Interest::WRITABLE;
        let is_in = self
            .poll
            .registry()
            .register(&mut stream, token, both)
            .is_ok()
            && self.sockets.put(place, stream, proxy_header).is_ok();
        if !is_in {
            self.close(place);
        }
    }

    /// Takes in those who wait and have no other lane.
    fn admit_some(&mut self) {
        if !self.acceptor.begin_accepting(self.book.len(), self.now) {
            return;
        }
        for _ in 0..STEPS_PER_POLL {
            match self.acceptor.accept(self.book.len(), self.now) {
                Some(stream) => self.admit(stream),
                None => break,
            }
        }
        self.acceptor.end_accepting();
    }

    /// Writes what is owed at this place, as far as that goes. False: the connection is broken.
    fn flush(&mut self, place: usize) -> bool {
        for _ in 0..WRITES_PER_TURN {
            let owed = self.book.owed(place);
            if owed.is_empty() {
                return true;
            }
            let Some(stream) = self.sockets.stream(place) else {
                return false;
            };
            match stream.write(owed) {
                Ok(0) => return false,
                Ok(count) => self.book.wrote(place, count, self.now),
                Err(e) if e.kind() == ErrorKind::Interrupted => {}
                Err(e) => {
                    self.book.refuses(place, self.now);
                    self.may_have_slow = true;
                    return is_no_data(e.kind());
                }
            }
        }
        self.sockets.queue(place);
        true
    }

    /// Whether the rest of a frame is waited for at this place, or an answer isn't taken there.
    fn keeps_waiting(&self, place: usize) -> bool {
        match self.book.timing(place) {
            Some(pace) => pace.keeps_waiting(),
            None => false,
        }
    }

    /// Notes that nothing more can be read at this place for now.
    fn note_waiting(&mut self, place: usize) -> NextAtPlace {
        self.book.waits(place, self.now);
        self.may_have_slow = self.may_have_slow || self.keeps_waiting(place);
        NextAtPlace::Nothing
    }

    /// Reads once at this place, in the header of a proxy first.
    fn read_once(&mut self, place: usize) -> NextAtPlace {
        match self.sockets.read_proxy_header(place) {
            None => self.read_frames(place),
            Some(Ok(_)) => NextAtPlace::More,
            Some(Err(e)) if is_no_data(e.kind()) => self.note_waiting(place),
            Some(Err(_)) => NextAtPlace::End,
        }
    }

    /// Reads once at this place what belongs to frames.
    fn read_frames(&mut self, place: usize) -> NextAtPlace {
        let Some(stream) = self.sockets.stream(place) else {
            return NextAtPlace::End;
        };
        let mut octets = [0; READ_AT_ONCE];
        match stream.read(&mut octets) {
            Ok(0) => NextAtPlace::End,
            Ok(count) => match self.book.note_octets(place, &octets[..count], self.now) {
                Ok(()) => NextAtPlace::More,
                Err(_) => NextAtPlace::End,
            },
            Err(e) if is_no_data(e.kind()) => self.note_waiting(place),
            Err(_) => NextAtPlace::End,
        }
    }

    /// What stands next at this place. Nothing is read where something is owed.
    fn next_at(&mut self, place: usize, buffer: &mut [u8]) -> NextAtPlace {
        if buffer.len() < ENVELOPE_LEN + MESSAGE_MAX as usize || !self.flush(place) {
            return NextAtPlace::End;
        }
        if !self.book.owed(place).is_empty() {
            return NextAtPlace::Nothing;
        }
        if self.book.is_over(place) {
            return NextAtPlace::End;
        }
        match self.book.next_frame(place, buffer) {
            Ok(Some((number, len))) => NextAtPlace::Frame(number, len),
            Ok(None) => self.read_or_refuse(place),
            Err(_) => NextAtPlace::End,
        }
    }

    /// Reads on, unless a refusal is owed.
    fn read_or_refuse(&mut self, place: usize) -> NextAtPlace {
        if self.book.owed(place).is_empty() {
            self.read_once(place)
        } else {
            NextAtPlace::More
        }
    }

    /// The frame that stands first in the queue, if one does.
    fn take_first(&mut self, buffer: &mut [u8]) -> Option<(u16, usize)> {
        let place = self.sockets.next_queued()?;
        match self.next_at(place, buffer) {
            NextAtPlace::Frame(number, len) => {
                self.sockets.queue(place);
                self.last_asker = Some(place);
                return Some((number, len));
            }
            NextAtPlace::More => self.sockets.queue(place),
            NextAtPlace::Nothing => {}
            NextAtPlace::End => self.close(place),
        }
        None
    }

    /// The next frame of those in the queue.
    fn take_next(&mut self, buffer: &mut [u8]) -> Option<(u16, usize)> {
        for _ in 0..STEPS_PER_POLL {
            if self.sockets.is_queue_empty() {
                break;
            }
            if let Some(found) = self.take_first(buffer) {
                return Some(found);
            }
        }
        None
    }

    /// Closes the connections that are too slow, and finds the place of the one that is silent longest, and since when.
    fn close_slow(&mut self) -> Option<(usize, u64)> {
        let mut longest: Option<(usize, u64)> = None;
        for place in 0..self.sockets.places() {
            if self.sockets.is_queued(place) {
                continue;
            }
            let Some(pace) = self.book.timing(place) else {
                continue;
            };
            self.may_have_slow = self.may_have_slow || pace.keeps_waiting();
            if pace.is_late(self.now) || self.sockets.stream(place).is_none() {
                self.close(place);
            } else if let Some(since) = pace.silent_since() {
                longest = longer(longest, place, since);
            }
        }
        longest
    }

    /// Closes the connections that are too slow, if some may be, and finds the one that is silent longest, if one may have to go.
    fn check_timeouts(&mut self) -> Option<(usize, u64)> {
        if !self.may_have_slow && !self.acceptor.is_full(self.book.len(), self.now) {
            return None;
        }
        self.may_have_slow = self.sockets.has_dropped();
        self.close_slow()
    }

    /// Looks at the limits of time.
    fn tick(&mut self) {
        if self.now.saturating_sub(self.ticked) < TICK_MILLIS {
            return;
        }
        self.ticked = self.now;
        let longest = self.check_timeouts();
        let since = longest.map(|(_, since)| since);
        if self.acceptor.report_state(self.book.len(), since, self.now) {
            if let Some((place, _)) = longest {
                self.close(place);
                self.acceptor.note_readable();
            }
        }
    }

    /// Writes the last answer as far as that goes, and looks for events if it is time to: that may take a while.
    fn flush_and_poll(&mut self, now: u64) {
        self.now = now;
        if let Some(place) = self.last_asker {
            self.last_asker = None;
            if !self.flush(place) {
                self.close(place);
            }
        }
        if self.sockets.is_queue_empty() || self.until_poll == 0 {
            self.poll_events();
        }
    }

    /// The next frame of any connection.
    fn next_frame(&mut self, now: u64, buffer: &mut [u8]) -> Option<(u16, usize)> {
        self.now = now;
        self.until_poll = self.until_poll.saturating_sub(1);
        self.tick();
        self.admit_some();
        self.take_next(buffer)
    }

    /// The address of the client whose frame was received last.
    fn last_client(&self) -> Option<SocketAddr> {
        self.sockets.client(self.last_asker?)
    }

    /// Queues a datagram of an answer. False: its client is left.
    fn put_reply(&mut self, number: u16, datagram: &[u8]) -> bool {
        if self.book.put_datagram(number, datagram).is_some() {
            return true;
        }
        if let Some(place) = self.last_asker {
            self.close(place);
        }
        false
    }
}

/// The one of two silent connections that is silent longer.
fn longer(first: Option<(usize, u64)>, place: usize, since: u64) -> Option<(usize, u64)> {
    match first {
        Some((_, moment)) if moment <= since => first,
        _ => Some((place, since)),
    }
}

/// An overflow lane as a place where frames come in from numbered peers. Of a server that is to end it fails.
#[derive(Drop)]
pub struct OverflowDoor<R> {
    rt: R,
    lane: OverflowLane,
    recorder: Option<Recorder<R>>,
    faults: u64,
}

impl<R> OverflowDoor<R> {
    pub fn new(rt: R, lane: OverflowLane, recorder: Option<Recorder<R>>) -> OverflowDoor<R> {
        OverflowDoor {
            rt,
            lane,
            recorder,
            faults: 0,
        }
    }
}

impl<R: std::rt::Clock + Drop> OverflowDoor<R> {
    /// The moment, of the clock that the lanes of the publisher share.
    fn now(&self) -> u64 {
        self.lane.acceptor.lane_listener.moment(&self.rt)
    }
}

impl<R: std::rt::Clock + Drop> Packets for OverflowDoor<R> {
    ghost use Rattle.std.specs.Prelude.{false, []};

    ghost is_observed = { false };

    ghost received = { λ _. [] };

    ghost sent = { λ _. [] };

    ghost fault_count = { λ p. p.faults };

    /// Receives a frame. It may wait, since one frame is under way at a time.
    fn receive(
        &mut self,
        buffer: &mut [u8],
        _may_wait: bool,
    ) -> Result<Option<(u16, usize)>, DoorFault> {
        let before = self.now();
        self.lane.flush_and_poll(before);
        if self.lane.acceptor.lane_listener.is_ending() {
            self.faults = self.faults.saturating_add(1);
            return Err(DoorFault);
        }
        let now = self.now();
        // each frame of the book is within these bounds
        match self.lane.next_frame(now, buffer) {
            Some((number, len))
                if number > 0 && usize::from(number) <= PEERS_MAX && len <= buffer.len() => {
                if let Some(recorder) = &mut self.recorder {
                    recorder.set_connections(self.lane.book.len());
                    recorder.note_lone_request(number, &buffer[..len]);
                }
                Ok(Some((number, len)))
            }
            _ => Ok(None),
        }
    }

    fn end_reply(&mut self) {
        self.lane.book.end_reply();
    }

    fn most_under_way(&self) -> usize {
        1
    }

    fn send(&mut self, peer: u16, octets: &[u8]) -> Result<(), DoorFault> {
        if let Some(recorder) = &mut self.recorder {
            if let Some(entry) = recorder.note_reply(peer, octets) {
                recorder.put(self.lane.last_client(), &entry);
            }
        }
        if self.lane.put_reply(peer, octets) {
            return Ok(());
        }
        self.faults = self.faults.saturating_add(1);
        Err(DoorFault)
    }

    fn faults(&self) -> u64 {
        self.faults
    }
}
