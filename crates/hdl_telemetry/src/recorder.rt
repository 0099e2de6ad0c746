//! Reading along with a lane: its replies are counted, and each change gets a line.

use crate::counts::Counts;
use crate::log::LogSender;
use crate::stopwatch::Stopwatch;
use hdl_audit::{Detail, Entry, Follower, Moment, UnansweredFrame};
use hdl_frame::Cutter;
use std::alloc::{AllocError, Global};
use std::collections::VecDeque;
use std::io;
use std::net::SocketAddr;
use std::rt::Clock;
use std::sync::Arc;
use std::time::SystemTime;
use std::vec::IntoIter;

/// What is recorded of a publisher's lanes, and the senders of those that are to come, if there is a log.
#[derive(Drop)]
pub struct PublisherTelemetry {
    pub counts: Arc<Counts>,
    pub senders: IntoIter<LogSender>,
}

/// What is followed for this sender: names are for lines alone.
fn detail_for(sender: &Option<LogSender>) -> Detail {
    if sender.is_some() {
        Detail::Names
    } else {
        Detail::Operations
    }
}

/// Reads along with the frames of one lane, and the replies to them.
#[derive(Drop)]
pub struct Recorder<R> {
    rt: R,
    alloc: Global,
    counts: Arc<Counts>,
    /// The lane's place among those of its publisher.
    lane: usize,
    sender: Option<LogSender>,
    follower: Follower,
    stopwatch: Stopwatch,
}

impl<R: Clock + Drop> Recorder<R> {
    /// The recorder of the lane at this place, with the next sender.
    pub fn new(
        rt: R,
        alloc: Global,
        telemetry: &mut PublisherTelemetry,
        lane: usize,
    ) -> io::Result<Recorder<R>> {
        let sender = telemetry.senders.next();
        Ok(Recorder {
            rt,
            alloc,
            counts: Arc::try_clone(&telemetry.counts)?,
            lane,
            follower: Follower::new(alloc, detail_for(&sender)),
            stopwatch: Stopwatch::new(),
            sender,
        })
    }

    /// Notes that the lane has `count` connections.
    pub fn set_connections(&self, count: usize) {
        self.counts.set_connections(self.lane, count);
    }

    /// A connection begins, or nothing of the lane is certain any more.
    fn begin(&mut self) {
        self.follower = Follower::new(self.alloc, detail_for(&self.sender));
        self.stopwatch = Stopwatch::new();
    }

    /// A frame came.
    fn note_request(&mut self, peer: u16, frame: &[u8]) {
        self.stopwatch.begin(&self.rt);
        self.follower.note_request(peer, frame);
    }

    /// A frame came on a lane that has one at a time.
    pub fn note_lone_request(&mut self, peer: u16, frame: &[u8]) {
        self.follower.forget_unanswered();
        self.stopwatch = Stopwatch::new();
        self.note_request(peer, frame);
    }

    /// The moment, in milliseconds since the beginning of 1970; 0 where the clock fails.
    fn moment(&self) -> u64 {
        let Ok(now) = SystemTime::now(&self.rt) else {
            return 0;
        };
        match now.duration_since(SystemTime::UNIX_EPOCH) {
            Ok(since) => u64::try_from(since.as_millis()).unwrap_or(0),
            Err(_) => 0,
        }
    }

    /// A frame of a reply goes. The entry of the change that it ends, where there is a log.
    pub fn note_reply(&mut self, peer: u16, frame: &[u8]) -> Option<Entry> {
        let time = self.stopwatch.end(&self.rt);
        if let Some(time) = time {
            self.counts.count_time(time);
        }
        let followed = self.follower.note_reply(peer, frame)?;
        self.counts.count(followed.operation, followed.answer.code);
        if followed.answer.accepts_change() {
            self.counts.set_changed(self.moment());
        }
        if self.sender.is_none() {
            return None;
        }
        followed.entry
    }

    /// The line of an entry: moment, publisher, lane, address, and what the entry says.
    fn line_of(&self, from: Option<SocketAddr>, entry: &Entry) -> Result<String, AllocError> {
        let moment = Moment(self.moment());
        let publisher = self.counts.publisher.as_str();
        let lane = self.lane;
        match from {
            Some(from) => format!(in self.alloc; "{moment} {publisher} {lane} {from} {entry}\n"),
            None => format!(in self.alloc; "{moment} {publisher} {lane} - {entry}\n"),
        }
    }

    /// Sends the line of an entry. Where memory for it is refused it is lost.
    pub fn put(&mut self, from: Option<SocketAddr>, entry: &Entry) {
        let line = self.line_of(from, entry);
        if let Some(sender) = &mut self.sender {
            match line {
                Ok(line) => sender.send(line),
                Err(_) => sender.count_lost(),
            }
        }
    }
}

/// Reads along with the frames of a lane of datagrams, of which several may be under way: each is followed once it is the oldest, so that it is certain which
/// one a reply answers.
#[derive(Drop)]
pub struct PacketRecorder<R> {
    recorder: Recorder<R>,
    /// What the frames after the oldest ask; nothing of one for which memory was refused.
    waiting: VecDeque<Result<Option<UnansweredFrame>, AllocError>>,
    /// Whether the oldest is followed.
    is_busy: bool,
}

impl<R: Clock + Drop> PacketRecorder<R> {
    /// The recorder of a lane that got no frame yet.
    pub fn new(recorder: Recorder<R>) -> PacketRecorder<R> {
        let alloc = recorder.alloc;
        PacketRecorder {
            recorder,
            waiting: VecDeque::new(alloc),
            is_busy: false,
        }
    }

    /// Notes the request in a frame that came from this peer.
    pub fn note_request(&mut self, peer: u16, frame: &[u8]) {
        if !self.is_busy {
            self.is_busy = true;
            self.recorder.note_lone_request(peer, frame);
            return;
        }
        let question = self.recorder.follower.question(peer, frame);
        if self.waiting.push_back(question).is_err() {
            self.recorder.follower.mark_uncertain();
        }
    }

    /// The reply to the oldest frame is whole, or there is none.
    pub fn end_reply(&mut self) {
        match self.waiting.pop_front() {
            Some(next) => {
                let follower = &mut self.recorder.follower;
                follower.forget_unanswered();
                follower.put(next);
            }
            None => self.is_busy = false,
        }
    }

    /// A datagram of the reply to the oldest frame goes. The entry of the change that it ends, where there is a log.
    pub fn note_reply(&mut self, peer: u16, datagram: &[u8]) -> Option<Entry> {
        self.recorder.note_reply(peer, datagram)
    }

    /// Sends the line of an entry. Where memory for it is refused it is lost.
    pub fn put(&mut self, from: Option<SocketAddr>, entry: &Entry) {
        self.recorder.put(from, entry);
    }
}

/// Reads along with the connections of a stream lane, one at a time.
#[derive(Drop)]
pub struct StreamRecorder<R> {
    recorder: Recorder<R>,
    from: Option<SocketAddr>,
    /// What cuts the octets of each way into frames; none where memory for them was refused.
    incoming: Option<Cutter>,
    outgoing: Option<Cutter>,
}

impl<R: Clock + Drop> StreamRecorder<R> {
    /// A recorder of a lane that has no connection yet.
    pub fn new(recorder: Recorder<R>) -> StreamRecorder<R> {
        StreamRecorder {
            recorder,
            from: None,
            incoming: None,
            outgoing: None,
        }
    }

    /// A connection begins, which comes from this address.
    pub fn begin(&mut self, from: Option<SocketAddr>) {
        let alloc = self.recorder.alloc;
        self.recorder.begin();
        self.recorder.set_connections(1);
        self.from = from;
        self.incoming = Some(Cutter::new(alloc));
        self.outgoing = Some(Cutter::new(alloc));
    }

    /// The proxy that the connection comes from named its client.
    pub fn set_client(&mut self, client: SocketAddr) {
        self.from = Some(client);
    }

    /// Notes that the connection has ended.
    pub fn end(&mut self) {
        self.recorder.set_connections(0);
    }

    /// Notes octets that came. If they can't be cut into frames, nothing after them is recorded.
    pub fn note_octets(&mut self, octets: &[u8]) {
        let Some(cutter) = &mut self.incoming else {
            return;
        };
        if cutter.feed(octets).is_err() {
            self.incoming = None;
            return;
        }
        // each frame ends with one of these octets or after it
        for _ in 0..octets.len() {
            match cutter.next_frame() {
                Ok(Some(frame)) => self.recorder.note_request(0, frame.bytes),
                _ => break,
            }
        }
    }

    /// Notes octets that were written, and logs the replies in them.
    pub fn note_written(&mut self, octets: &[u8]) {
        let Some(cutter) = &mut self.outgoing else {
            return;
        };
        if cutter.feed(octets).is_err() {
            self.outgoing = None;
            return;
        }
        for _ in 0..octets.len() {
            match cutter.next_frame() {
                Ok(Some(frame)) => {
                    if let Some(entry) = self.recorder.note_reply(0, frame.bytes) {
                        self.recorder.put(self.from, &entry);
                    }
                }
                _ => break,
            }
        }
    }
}
