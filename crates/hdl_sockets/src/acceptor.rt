//! Where the connections of a crowd come in: those for which no other lane of their publisher is free.

use crate::lane_listener::LaneListener;
use crate::sockets::is_no_data;
use std::net::TcpStream;
use std::time::Duration;

/// For how many milliseconds no client is accepted once the machine had no room for a connection.
const REFUSE_MILLIS: u64 = 1000;

/// In how many milliseconds is looked again whether a client waits that a free lane should take.
const RECHECK_MILLIS: u64 = 1;

/// The listeners of a crowd, shared with the other lanes of its publisher.
#[derive(Drop)]
pub struct Acceptor {
    pub lane_listener: LaneListener,
    /// The most connections.
    most: usize,
    /// Whether a client may wait at them.
    is_readable: bool,
    /// No client is accepted before this moment.
    accepts_from: u64,
}

impl Acceptor {
    pub fn new(lane_listener: LaneListener, most: usize) -> Acceptor {
        Acceptor {
            lane_listener,
            most,
            is_readable: true,
            accepts_from: 0,
        }
    }

    /// Notes that a client may be waiting at the listeners.
    pub fn note_readable(&mut self) {
        self.is_readable = true;
    }

    /// Whether a crowd of `count` connections accepts no more at this moment.
    pub fn is_full(&self, count: usize, now: u64) -> bool {
        count >= self.most || now < self.accepts_from
    }

    /// How long a look for events may take: `most`, but no time if a client is to be accepted, and little if one waits for another lane, which is free.
    pub fn poll_timeout(&self, count: usize, now: u64, most: Duration) -> Duration {
        if !self.is_readable || self.is_full(count, now) {
            most
        } else if self.lane_listener.has_other_free_lane() {
            Duration::from_millis(RECHECK_MILLIS).min(most)
        } else {
            Duration::ZERO
        }
    }

    /// Whether a client is to be accepted into a crowd of `count` connections: one waits, there is room, and no other lane is free.
    fn look_for_client(&mut self, count: usize, now: u64) -> bool {
        if !self.is_readable || self.is_full(count, now) {
            return false;
        }
        if self.lane_listener.has_other_free_lane() {
            self.is_readable = self.lane_listener.poll_for_client();
            return false;
        }
        true
    }

    /// Makes the listeners non-blocking, if a client is to be accepted into a crowd of `count` connections. A worker that comes to them meanwhile finds no client, and comes
    /// again.
    pub fn begin_accepting(&mut self, count: usize, now: u64) -> bool {
        self.look_for_client(count, now) && self.lane_listener.set_waiting(false).is_ok()
    }

    /// The listeners wait for clients again.
    pub fn end_accepting(&mut self) {
        let _ = self.lane_listener.set_waiting(true);
    }

    /// Accepts a client into a crowd of `count` connections, if there is room and one waits.
    pub fn accept(&mut self, count: usize, now: u64) -> Option<TcpStream> {
        if !self.look_for_client(count, now) {
            return None;
        }
        match self.lane_listener.accept_now() {
            Ok(stream) => Some(stream),
            Err(e) if is_no_data(e.kind()) => {
                self.is_readable = false;
                None
            }
            Err(_) => {
                self.accepts_from = now.saturating_add(REFUSE_MILLIS);
                None
            }
        }
    }

    /// A connection was left, so there is room.
    pub fn note_left(&mut self) {
        self.accepts_from = 0;
        self.lane_listener.set_free();
    }

    /// Writes down how the crowd is, for the other lanes: free, or silent since this moment, or at work. Whether the connection that is
    /// silent longest has to make room.
    pub fn report_state(&mut self, count: usize, longest: Option<u64>, now: u64) -> bool {
        if !self.is_full(count, now) {
            self.lane_listener.set_free();
            return false;
        }
        match longest {
            Some(since) => {
                self.lane_listener.set_silent(since);
                self.lane_listener.must_make_room(now)
            }
            None => {
                self.lane_listener.set_busy();
                false
            }
        }
    }
}
