//! The numbers of a datagram lane's peers.

ghost use Rattle.std.specs.Prelude.{◌≡◌, ◌≤◌, ◌<◌, ◌+◌, ◌++◌, ◌∷◌, ℕ, [], None, Ok, IsTrue, IsFalse, IfErr, IfOk, IfSome, IfNone, IsSome, MatchOption, length};
ghost use Rattle.std.specs.List.{position};
ghost use Rattle.hdl_frame.specs.Frames.{IsFrame};
ghost use Rattle.hdl_limits.specs.declared.TheConstants.{CHALLENGES_MAX, PARTIALS_MAX, PEERS_MAX, UNDER_WAY_MAX};
ghost use Rattle.hdl_peers.specs.Allowance.{answers_challenge, is_within_last};
ghost use Rattle.hdl_peers.specs.Peers.{address_among, arrival, IsNumberOf, holds, oldest, reply_seen, finish_oldest, with_room};

use crate::lane_history::LaneHistory;
use hdl_frame::one_datagram;
use std::alloc::{AllocError, Global};
use std::marker::Model;

/// The addresses from which frames came, by number from 1 on, what is kept under their numbers, and the frames under way. Contracts see a `Roll`.
#[derive(Drop)]
pub struct Peers<A> {
    known: Vec<A>,
    lane_history: LaneHistory,
}

impl<A> Model for Peers<A> {
    ghost use Rattle.std.specs.Prelude.{◌≤◌, length};
    ghost use Rattle.hdl_limits.specs.declared.TheConstants.{PEERS_MAX};
    ghost use Rattle.hdl_peers.specs.LaneHistory.{followed_by};
    ghost use Rattle.hdl_peers.specs.Peers.{Roll};

    ghost Value = { Roll A };

    ghost view = { λ p. record { known = p.known.items; followed = followed_by p.lane_history; under_way = p.lane_history.under_way.items } };

    ghost invariant = { λ p. length p.known.items ≤ PEERS_MAX };
}

impl<A: Eq + Copy> Peers<A> {
    /// Peers of which none is known.
    pub fn new(alloc: Global) -> Peers<A>
        ensures { result ≡ record { known = []; followed = record { partials = []; challenges = [] }; under_way = [] } }
    {
        Peers {
            known: Vec::new(alloc),
            lane_history: LaneHistory::new(),
        }
    }

    /// The number of an address: the one that it has, else the first under which nothing is kept or under way, which may be a new one.
    fn number(&mut self, from: A) -> Result<u16, AllocError>
        ensures own { IfOk result (λ n. (0 < n) × (n ≤ PEERS_MAX) × IsNumberOf A.eq self.new.known from n) }
        ensures kept { (n : ℕ) → IsTrue (holds self.old n) → IfSome (address_among self.old.known n) (λ a. address_among self.new.known n ≡ Some a) }
        ensures followed { self.new.followed ≡ self.old.followed }
        ensures under_way { self.new.under_way ≡ self.old.under_way }
    {
        if let Some(place) = self.known.iter().position(|known| *known == from) {
            return Ok(place as u16 + 1);
        }
        match self.free_place() {
            Some(place) => Ok(self.seat(place, from)),
            None => self.seat_behind(from),
        }
    }

    /// The place of the first number that was given and under which nothing is kept or under way. Where there is none few were given.
    fn free_place(&self) -> Option<usize>
        ensures free { IfSome result (λ place. (place < length self.now.known) × IsFalse (holds self.now (place + 1))) }
        ensures few { IfNone result (length self.now.known ≤ PARTIALS_MAX + CHALLENGES_MAX + UNDER_WAY_MAX) }
    {
        self.lane_history.free_place(self.known.len())
    }

    /// Gives the number after this place, under which nothing is kept or under way, to the address.
    fn seat(&mut self, place: usize, from: A) -> u16
        requires place { place < length self.old.known }
        requires free { IsFalse (holds self.old (place + 1)) }
        ensures own { (0 < result) × (result ≤ PEERS_MAX) × IsNumberOf A.eq self.new.known from result }
        ensures kept { (n : ℕ) → IsTrue (holds self.old n) → IfSome (address_among self.old.known n) (λ a. address_among self.new.known n ≡ Some a) }
        ensures followed { self.new.followed ≡ self.old.followed }
        ensures under_way { self.new.under_way ≡ self.old.under_way }
    {
        self.known[place] = from;
        place as u16 + 1
    }

    /// Gives the next number to the address.
    fn seat_behind(&mut self, from: A) -> Result<u16, AllocError>
        requires room { length self.old.known < PEERS_MAX }
        ensures own { IfOk result (λ n. (0 < n) × (n ≤ PEERS_MAX) × IsNumberOf A.eq self.new.known from n) }
        ensures kept { (n : ℕ) → IsTrue (holds self.old n) → IfSome (address_among self.old.known n) (λ a. address_among self.new.known n ≡ Some a) }
        ensures followed { self.new.followed ≡ self.old.followed }
        ensures under_way { self.new.under_way ≡ self.old.under_way }
    {
        let place = self.known.len();
        self.known.push(from)?;
        Ok(place as u16 + 1)
    }

    /// Notes octets that came from this address. The number under which they come, which is the address's until their reply is whole, and longer while something is kept
    /// under it. None where they are no frame; then nothing changes. Where as many frames are under way as may be, the oldest is settled first; memory that is
    /// refused changes no more than that.
    pub fn note_octets(&mut self, from: A, octets: &[u8]) -> Result<Option<u16>, AllocError>
        ensures own { IfOk result (λ number. IfSome number (λ n. (0 < n) × (n ≤ PEERS_MAX) × IsNumberOf A.eq self.new.known from n)) }
        ensures kept { (n : ℕ) → IsTrue (holds (with_room self.old) n) → IfSome (address_among self.old.known n) (λ a. address_among self.new.known n ≡ Some a) }
        ensures some { IsFrame octets.now → IfOk result (λ number. IsSome number) }
        ensures no_frame { ¬ IsFrame octets.now → (result ≡ Ok None) × (self.new ≡ self.old) }
        ensures followed { IsFrame octets.now → self.new.followed ≡ (with_room self.old).followed }
        ensures under_way { IfOk result (λ number. IfSome number (λ n. self.new.under_way ≡ (with_room self.old).under_way ++ arrival octets.now n ∷ [])) }
        ensures refused { IfErr result (λ _. self.new.under_way ≡ (with_room self.old).under_way) }
    {
        let Ok(frame) = one_datagram(octets) else {
            return Ok(None);
        };
        self.make_room();
        let number = self.number(from)?;
        self.lane_history.note_frame(number, &frame);
        Ok(Some(number))
    }

    /// Settles the oldest frame where there is no room for one more.
    fn make_room(&mut self)
        ensures made { self.new ≡ with_room self.old }
        ensures room { length self.new.under_way < UNDER_WAY_MAX }
    {
        if self.lane_history.is_full() {
            self.lane_history.finish_oldest();
        }
    }

    /// A datagram of the reply to the oldest frame is sent.
    pub fn note_reply(&mut self, datagram: &[u8])
        ensures known { self.new.known ≡ self.old.known }
        ensures followed { self.new.followed ≡ self.old.followed }
        ensures under_way { self.new.under_way ≡ reply_seen datagram.now self.old.under_way }
    {
        self.lane_history.note_reply(datagram);
    }

    /// The reply to the oldest frame is whole, or there is none.
    pub fn end_reply(&mut self)
        ensures { self.new ≡ finish_oldest self.old }
    {
        self.lane_history.finish_oldest();
    }

    /// Whether a reply to the oldest frame whose message has this many octets is one datagram, or has in all its datagrams at most this many times
    /// the octets that asked. False where nothing came.
    pub fn is_within(&self, times: u32, length: u32) -> bool
        ensures { result ≡ is_within_last times length (oldest self.now.under_way) }
    {
        self.lane_history.is_within(times, length)
    }

    /// Whether who sent the oldest frame answered a challenge by it: it was a challenge response, and the reply says success.
    pub fn answers_challenge(&self) -> bool
        ensures { result ≡ answers_challenge self.now.followed (oldest self.now.under_way) }
    {
        self.lane_history.answers_challenge()
    }

    /// The address that has this number.
    pub fn address(&self, number: u16) -> Option<A>
        ensures { result ≡ address_among self.now.known number }
    {
        if number == 0 {
            return None;
        }
        self.known.get(number as usize - 1).copied()
    }
}
