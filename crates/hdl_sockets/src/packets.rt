//! The machine's datagram sockets as doors. They tell nothing.

use crate::error_reply::too_long_reply;
use crate::shutdown_flag::ShutdownFlag;
use crate::sockets::{PacketSocket, Sockets, is_no_data};
use crate::verified_addresses::VerifiedAddresses;
use hdl_frame::{ENVELOPE_LEN, Envelope};
use hdl_limits::UNDER_WAY_MAX;
use hdl_peers::Peers;
use hdl_telemetry::{PacketRecorder, Recorder};
use hdl_workers::{DoorFault, Packets};
use std::alloc::Global;
use std::io;
use std::net::SocketAddr;
use std::sync::Arc;

/// How many datagrams that are no frame one call passes over.
const SKIPPED_MOST: u32 = 64;

/// Where a datagram came from: the place of the socket that received it, and the sender's address. The reply goes the same way.
#[derive(Clone, Copy, Debug, PartialEq, Eq)]
pub struct DatagramSender {
    place: usize,
    address: SocketAddr,
}

/// How far the reply to the oldest frame is.
#[derive(Clone, Copy)]
enum ReplyState {
    /// Nothing of it was sent.
    NotBegun,
    /// Its datagrams go.
    Sending,
    /// Another reply went in its place.
    Withheld,
}

/// The datagram sockets of a publisher, who has which number, and who answered a challenge.
#[derive(Drop)]
struct DatagramSockets<R> {
    alloc: Global,
    sockets: Sockets<PacketSocket>,
    peers: Peers<DatagramSender>,
    verified: VerifiedAddresses<R, DatagramSender>,
    reply_state: ReplyState,
    shutdown: Arc<ShutdownFlag>,
    recorder: Option<PacketRecorder<R>>,
}

impl<R: std::rt::Clock + Drop> DatagramSockets<R> {
    /// A frame came from the peer with this number.
    fn note_request(&mut self, peer: u16, frame: &[u8]) {
        if let Some(recorder) = &mut self.recorder {
            recorder.note_request(peer, frame);
        }
    }

    /// The reply to the oldest frame is whole, or there is none.
    fn end_reply(&mut self) {
        self.peers.end_reply();
        self.reply_state = ReplyState::NotBegun;
        if let Some(recorder) = &mut self.recorder {
            recorder.end_reply();
        }
    }

    /// Takes a datagram that came, and waits for one if it may.
    fn take(
        &mut self,
        buffer: &mut [u8],
        may_wait: bool,
    ) -> io::Result<(usize, (usize, SocketAddr))> {
        if may_wait {
            self.sockets.take(buffer)
        } else {
            self.sockets.take_now(buffer)
        }
    }

    /// The next datagram of a reply is recorded.
    fn record(&mut self, peer: u16, datagram: &[u8]) {
        if let Some(recorder) = &mut self.recorder {
            if let Some(entry) = recorder.note_reply(peer, datagram) {
                let from = self.peers.address(peer);
                recorder.put(from.map(|origin| origin.address), &entry);
            }
        }
    }

    /// Sends octets back to where they are asked from. Whether they went.
    fn send_back(&self, to: DatagramSender, octets: &[u8]) -> bool {
        match self.sockets.get(to.place) {
            Some(packets) => packets.send(octets, to.address),
            None => false,
        }
    }

    /// Whether the reply that begins with this datagram may go whole: it isn't much longer than what asked, or its address answered a challenge, perhaps
    /// by the very frame that it replies to.
    fn permit_reply(&mut self, to: DatagramSender, first: &[u8]) -> bool {
        let Some(packets) = self.sockets.get(to.place) else {
            return false;
        };
        let Some(times) = packets.times else {
            return true;
        };
        if self.peers.answers_challenge() {
            self.verified.put(to);
        }
        let Some(envelope) = first.first_chunk::<ENVELOPE_LEN>() else {
            return false;
        };
        let length = Envelope::read(envelope).length;
        self.peers.is_within(times, length) || self.verified.has(to)
    }

    /// Sends another reply in place of the one that begins with this datagram. Memory that is refused is a lost datagram.
    fn send_error_reply(&self, to: DatagramSender, first: &[u8]) -> bool {
        match too_long_reply(self.alloc, first) {
            Some(octets) => self.send_back(to, octets.as_slice()),
            None => true,
        }
    }

    /// Begins a reply by its first datagram, or by another reply in its place. Whether that went.
    fn begin(&mut self, to: DatagramSender, first: &[u8]) -> bool {
        if self.permit_reply(to, first) {
            self.reply_state = ReplyState::Sending;
            self.send_back(to, first)
        } else {
            self.reply_state = ReplyState::Withheld;
            self.send_error_reply(to, first)
        }
    }

    /// Sends the next datagram of a reply, unless another reply went in its place. Whether what is sent went.
    fn send_next(&mut self, to: DatagramSender, octets: &[u8]) -> bool {
        match self.reply_state {
            ReplyState::NotBegun => self.begin(to, octets),
            ReplyState::Sending => self.send_back(to, octets),
            ReplyState::Withheld => true,
        }
    }

    /// The next datagram of a reply is due to a peer. Whether what is sent of it went.
    fn send(&mut self, peer: u16, octets: &[u8]) -> bool {
        self.record(peer, octets);
        self.peers.note_reply(octets);
        match self.peers.address(peer) {
            Some(to) => self.send_next(to, octets),
            None => false,
        }
    }
}

/// A publisher's datagram sockets as a door. Of a server that is to end it fails.
#[derive(Drop)]
pub struct SocketPackets<R> {
    post: DatagramSockets<R>,
    faults: u64,
}

impl<R: std::rt::Clock + Drop> SocketPackets<R> {
    pub fn new(
        rt: R,
        alloc: Global,
        sockets: Sockets<PacketSocket>,
        shutdown: Arc<ShutdownFlag>,
        recorder: Option<Recorder<R>>,
    ) -> SocketPackets<R> {
        let recorder = match recorder {
            Some(recorder) => Some(PacketRecorder::new(recorder)),
            None => None,
        };
        let post = DatagramSockets {
            alloc,
            sockets,
            peers: Peers::new(alloc),
            verified: VerifiedAddresses::new(rt, alloc),
            reply_state: ReplyState::NotBegun,
            shutdown,
            recorder,
        };
        SocketPackets { post, faults: 0 }
    }
}

impl<R: std::rt::Clock + Drop> Packets for SocketPackets<R> {
    ghost use Rattle.std.specs.Prelude.{false, []};

    ghost is_observed = { false };

    ghost received = { λ _. [] };

    ghost sent = { λ _. [] };

    ghost fault_count = { λ p. p.faults };

    fn receive(
        &mut self,
        buffer: &mut [u8],
        may_wait: bool,
    ) -> Result<Option<(u16, usize)>, DoorFault> {
        if self.post.shutdown.is_requested() {
            self.faults = self.faults.saturating_add(1);
            return Err(DoorFault);
        }
        for _ in 0..SKIPPED_MOST {
            match self.post.take(buffer, may_wait) {
                Ok((place, (length, address))) => {
                    let length = length.min(buffer.len());
                    let from = DatagramSender { place, address };
                    if let Ok(Some(peer)) = self.post.peers.note_octets(from, &buffer[..length]) {
                        self.post.note_request(peer, &buffer[..length]);
                        return Ok(Some((peer, length)));
                    }
                }
                Err(e) if is_no_data(e.kind()) => return Ok(None),
                Err(_) => {
                    self.faults = self.faults.saturating_add(1);
                    return Err(DoorFault);
                }
            }
        }
        Ok(None)
    }

    fn end_reply(&mut self) {
        self.post.end_reply();
    }

    fn most_under_way(&self) -> usize {
        UNDER_WAY_MAX
    }

    fn send(&mut self, peer: u16, octets: &[u8]) -> Result<(), DoorFault> {
        if self.post.send(peer, octets) {
            return Ok(());
        }
        self.faults = self.faults.saturating_add(1);
        Err(DoorFault)
    }

    fn faults(&self) -> u64 {
        self.faults
    }
}
