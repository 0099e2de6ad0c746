//! The connections of a crowd.

ghost use Rattle.std.specs.Prelude.{◌≡◌, ◌≤◌, ◌<◌, ◌+◌, ◌-◌, ◌^◌, ◌∷◌, [], ℕ, true, IsTrue, IsSome, length, option_map, take, None, Some, IfSome, IfNone, IfErr, IfOk, OnOk, OnErr, MatchOption};
ghost use Rattle.slab.specs.Slab.{get, slab_len, HasRoomFor, Updates, SameValues};
ghost use Rattle.hdl_frame.specs.Frames.{IsFrame};
ghost use Rattle.hdl_limits.specs.declared.TheConstants.{PEERS_MAX};
ghost use Rattle.hdl_peers.specs.Peers.{address_among, holds, reply_seen, finish_oldest, with_room};
ghost use Rattle.hdl_overflow_lane.specs.Connections.{Goes, IsAt, IsNumberAt, Rests, SameBut, SamePaces, pace_at};
ghost use Rattle.hdl_overflow_lane.specs.Joining.{said_of};
ghost use Rattle.hdl_overflow_lane.specs.Timing.{at_first, after_octets, after_frame, after_reading, after_writing, after_refusal};
ghost use Rattle.hdl_overflow_lane.specs.ConnectionBuffers.{fresh, is_begun, is_over, reads, hands, says, writes};

use crate::buffers::ConnectionBuffers;
use crate::entry::{ConnectionEntry, ConnectionId};
use crate::timing::Timing;
use hdl_frame::ENVELOPE_LEN;
use hdl_limits::MESSAGE_MAX;
use hdl_peers::Peers;
use slab::Slab;
use std::alloc::Global;

/// The connection is to be left: memory was refused, or it isn't there.
#[derive(Clone, Copy, PartialEq, Eq)]
pub struct Disconnected;

/// The connections of a crowd, by their places, and which peers' numbers they have.
#[derive(Drop)]
pub struct Connections {
    alloc: Global,
    entries: Slab<ConnectionEntry>,
    /// The serial of the connection that came last.
    last: u64,
    peers: Peers<ConnectionId>,
}

impl Connections {
    /// A book without connections.
    pub fn new(alloc: Global) -> Connections {
        Connections {
            alloc,
            entries: Slab::new(alloc),
            last: 0,
            peers: Peers::new(alloc),
        }
    }

    /// A connection comes: its place, which no other connection has. Its serial is one more than that of the connection before, so no two ever have the same. None where
    /// memory is refused, or no serial is left.
    pub fn enter(&mut self, now: u64) -> Option<usize>
        ensures serial { IfSome result (λ _. self.new.last ≡ self.old.last + 1) }
        ensures vacant { IfSome result (λ place. get self.old.entries place ≡ None) }
        ensures entered { IfSome result (λ place. Updates self.old.entries self.new.entries place (Some (record { serial = self.new.last; talk = fresh; timing = at_first now }))) }
        ensures succeeds { self.old.last < 2 ^ 64 - 1 → HasRoomFor self.old.entries 1 → IsSome result }
        ensures refused { IfNone result ((self.new.last ≡ self.old.last) × SameValues self.old.entries self.new.entries) }
        ensures peers { self.new.peers ≡ self.old.peers }
    {
        let Some(serial) = self.last.checked_add(1) else {
            return None;
        };
        let entry = ConnectionEntry {
            serial,
            talk: ConnectionBuffers::new(self.alloc),
            timing: Timing::new(now),
        };
        match self.entries.insert(entry) {
            Ok(place) => {
                self.last = serial;
                Some(place)
            }
            Err(_) => None,
        }
    }

    /// The connection at this place is left. Its serial is given to no other, so no other connection gets what is kept under its number.
    pub fn leave(&mut self, place: usize)
        ensures left { Updates self.old.entries self.new.entries place None }
        ensures last { self.new.last ≡ self.old.last }
        ensures peers { self.new.peers ≡ self.old.peers }
    {
        drop(self.entries.try_remove(place));
    }

    /// Notes octets that were read on the connection at this place. An `Err` changes nothing.
    pub fn note_octets(&mut self, place: usize, octets: &[u8], now: u64) -> Result<(), Disconnected>
        ensures ok { OnOk result (Goes self.old.entries self.new.entries place (reads octets.now ∷ [])) }
        ensures timing { OnOk result (pace_at self.new.entries place ≡ option_map (λ e. after_octets now e.timing) (get self.old.entries place)) }
        ensures unchanged { OnErr result (SameValues self.old.entries self.new.entries) }
        ensures last { self.new.last ≡ self.old.last }
        ensures peers { self.new.peers ≡ self.old.peers }
    {
        let Some(entry) = self.entries.get_mut(place) else {
            return Err(Disconnected);
        };
        match entry.note_octets(octets, now) {
            Ok(()) => Ok(()),
            Err(_) => Err(Disconnected),
        }
    }

    /// The frame that stands next on the connection at this place, at the front of the buffer, and whose it is.
    fn take_frame(
        &mut self,
        place: usize,
        buffer: &mut [u8],
    ) -> Result<Option<(ConnectionId, usize)>, Disconnected>
        requires room { ENVELOPE_LEN + MESSAGE_MAX ≤ length buffer.old }
        ensures frame { IfOk result (λ found. IfSome found (λ f. (f.1 ≤ length buffer.new) × IsFrame (take f.1 buffer.new) × IsAt self.new.entries f.0 place × Goes self.old.entries self.new.entries place (hands (take f.1 buffer.new) ∷ []))) }
        ensures none { IfOk result (λ found. IfNone found (Rests self.old.entries self.new.entries place)) }
        ensures timing { IfOk result (λ found. pace_at self.new.entries place ≡ option_map (λ e. after_frame found e.timing) (get self.old.entries place)) }
        ensures others { SameBut place self.old.entries self.new.entries }
        ensures last { self.new.last ≡ self.old.last }
        ensures peers { self.new.peers ≡ self.old.peers }
    {
        let Some(entry) = self.entries.get_mut(place) else {
            return Err(Disconnected);
        };
        let serial = entry.serial;
        match entry.next_frame(buffer) {
            Ok(Some(len)) => Ok(Some((ConnectionId { place, serial }, len))),
            Ok(None) => Ok(None),
            Err(_) => Err(Disconnected),
        }
    }

    /// The number under which a frame of the connection goes to the service.
    fn number(&mut self, member: ConnectionId, frame: &[u8]) -> Result<u16, Disconnected>
        requires frame { IsFrame frame.now }
        ensures number { IfOk result (λ number. (0 < number) × (number ≤ PEERS_MAX) × (address_among self.new.peers.known number ≡ Some member)) }
        ensures kept { (n : ℕ) → IsTrue (holds (with_room self.old.peers) n) → IfSome (address_among self.old.peers.known n) (λ m. address_among self.new.peers.known n ≡ Some m) }
        ensures entries { self.new.entries ≡ self.old.entries }
        ensures last { self.new.last ≡ self.old.last }
    {
        match self.peers.note_octets(member, frame) {
            Ok(Some(number)) => Ok(number),
            Ok(None) | Err(_) => Err(Disconnected),
        }
    }

    /// The frame that stands next on the connection at this place, copied to the front of the buffer: its number among the lane's peers, and its length. The
    /// number is this connection's until the reply is whole ([`end_reply`](Connections::end_reply)), and longer while something is followed under it. None where no whole frame stands there; a faulty
    /// envelope is refused when it is met, and nothing is handed out after it. What is an `Err` is for the caller to leave.
    pub fn next_frame(
        &mut self,
        place: usize,
        buffer: &mut [u8],
    ) -> Result<Option<(u16, usize)>, Disconnected>
        requires room { ENVELOPE_LEN + MESSAGE_MAX ≤ length buffer.old }
        ensures frame { IfOk result (λ found. IfSome found (λ f. (f.1 ≤ length buffer.new) × Goes self.old.entries self.new.entries place (hands (take f.1 buffer.new) ∷ []))) }
        ensures number { IfOk result (λ found. IfSome found (λ f. (0 < f.0) × (f.0 ≤ PEERS_MAX) × IsNumberAt self.new.peers.known self.new.entries f.0 place)) }
        ensures none { IfOk result (λ found. IfNone found (Rests self.old.entries self.new.entries place)) }
        ensures timing { IfOk result (λ found. pace_at self.new.entries place ≡ option_map (λ e. after_frame found e.timing) (get self.old.entries place)) }
        ensures kept { (n : ℕ) → IsTrue (holds (with_room self.old.peers) n) → IfSome (address_among self.old.peers.known n) (λ m. address_among self.new.peers.known n ≡ Some m) }
        ensures others { SameBut place self.old.entries self.new.entries }
        ensures last { self.new.last ≡ self.old.last }
    {
        match self.take_frame(place, buffer)? {
            Some((member, len)) => {
                let number = self.number(member, &buffer[..len])?;
                Ok(Some((number, len)))
            }
            None => Ok(None),
        }
    }

    /// A datagram of the reply to the oldest frame without a whole one, which had this number: it is said to the connection that has the number, whose place
    /// is answered. None where that is left, or memory is refused; then nothing is said.
    pub fn put_datagram(&mut self, number: u16, datagram: &[u8]) -> Option<usize>
        ensures said { IfSome result (λ place. IsNumberAt self.old.peers.known self.old.entries number place × Goes self.old.entries self.new.entries place (says (said_of datagram.now) ∷ [])) }
        ensures unsaid { IfNone result (SameValues self.old.entries self.new.entries) }
        ensures paces { SamePaces self.old.entries self.new.entries }
        ensures known { self.new.peers.known ≡ self.old.peers.known }
        ensures followed { self.new.peers.followed ≡ self.old.peers.followed }
        ensures under_way { self.new.peers.under_way ≡ reply_seen datagram.now self.old.peers.under_way }
        ensures last { self.new.last ≡ self.old.last }
    {
        self.peers.note_reply(datagram);
        let member = self.peers.address(number)?;
        self.say(member, datagram)
    }

    /// The reply to the oldest frame is whole, or there is none.
    pub fn end_reply(&mut self)
        ensures peers { self.new.peers ≡ finish_oldest self.old.peers }
        ensures entries { self.new.entries ≡ self.old.entries }
        ensures last { self.new.last ≡ self.old.last }
    {
        self.peers.end_reply();
    }

    /// Says a datagram to this connection, if it is there.
    fn say(&mut self, member: ConnectionId, datagram: &[u8]) -> Option<usize>
        ensures said { IfSome result (λ place. IsAt self.old.entries member place × Goes self.old.entries self.new.entries place (says (said_of datagram.now) ∷ [])) }
        ensures unsaid { IfNone result (SameValues self.old.entries self.new.entries) }
        ensures paces { SamePaces self.old.entries self.new.entries }
        ensures peers { self.new.peers ≡ self.old.peers }
        ensures last { self.new.last ≡ self.old.last }
    {
        let entry = self.entries.get_mut(member.place)?;
        if entry.serial != member.serial {
            return None;
        }
        match entry.say(datagram) {
            Ok(()) => Some(member.place),
            Err(_) => None,
        }
    }

    /// What is owed to the connection at this place.
    pub fn owed(&self, place: usize) -> &[u8]
        ensures { MatchOption (get self.now.entries place) (result.now ≡ []) (λ e. result.now ≡ e.talk.owed) }
    {
        match self.entries.get(place) {
            Some(entry) => entry.talk.owed(),
            None => &[],
        }
    }

    /// Notes that `count` of the octets owed to the connection at this place were written.
    pub fn wrote(&mut self, place: usize, count: usize, now: u64)
        ensures written { MatchOption (get self.old.entries place) (SameValues self.old.entries self.new.entries) (λ e. Goes self.old.entries self.new.entries place (writes (take count e.talk.owed) ∷ [])) }
        ensures timing { pace_at self.new.entries place ≡ option_map (λ e. after_writing (length e.talk.owed) count now e.timing) (get self.old.entries place) }
        ensures peers { self.new.peers ≡ self.old.peers }
        ensures last { self.new.last ≡ self.old.last }
    {
        if let Some(entry) = self.entries.get_mut(place) {
            entry.wrote(count, now);
        }
    }

    /// Notes that nothing more can be read at this place for now, and gives back what isn't needed meanwhile.
    pub fn waits(&mut self, place: usize, now: u64)
        ensures talks { MatchOption (get self.old.entries place) (SameValues self.old.entries self.new.entries) (λ _. Goes self.old.entries self.new.entries place []) }
        ensures timing { pace_at self.new.entries place ≡ option_map (λ e. after_reading (is_begun e.talk) now e.timing) (get self.old.entries place) }
        ensures peers { self.new.peers ≡ self.old.peers }
        ensures last { self.new.last ≡ self.old.last }
    {
        if let Some(entry) = self.entries.get_mut(place) {
            entry.waits(now);
        }
    }

    /// Notes that the connection at this place takes no more of what is owed for now.
    pub fn refuses(&mut self, place: usize, now: u64)
        ensures talks { MatchOption (get self.old.entries place) (SameValues self.old.entries self.new.entries) (λ _. Goes self.old.entries self.new.entries place []) }
        ensures timing { pace_at self.new.entries place ≡ option_map (λ e. after_refusal now e.timing) (get self.old.entries place) }
        ensures peers { self.new.peers ≡ self.old.peers }
        ensures last { self.new.last ≡ self.old.last }
    {
        if let Some(entry) = self.entries.get_mut(place) {
            entry.refuses(now);
        }
    }

    /// Whether the connection at this place is to be left: its envelope was faulty, and the refusal is written. So is one that isn't there.
    pub fn is_over(&self, place: usize) -> bool
        ensures { MatchOption (get self.now.entries place) (result ≡ true) (λ e. result ≡ is_over e.talk) }
    {
        match self.entries.get(place) {
            Some(entry) => entry.is_over(),
            None => true,
        }
    }

    /// Since when the connection at this place keeps others waiting, if one is there.
    pub fn timing(&self, place: usize) -> Option<Timing>
        ensures { result ≡ pace_at self.now.entries place }
    {
        let entry = self.entries.get(place)?;
        Some(entry.timing)
    }

    /// How many connections there are.
    pub fn len(&self) -> usize
        ensures { result ≡ slab_len self.now.entries }
    {
        self.entries.len()
    }
}
