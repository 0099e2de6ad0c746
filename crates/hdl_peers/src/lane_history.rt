//! What the service keeps of a lane, by the frames that came and the replies that were sent.
//!
//! The service keeps four partial messages and eight challenges of a lane at most, each by the number of the peer that it came from.
//! What came and what was answered shows which, since frames are answered in the order in which they come. Some may be under way: each is followed once its
//! reply is whole.
//!
//! - A frame with TC that isn't answered has begun a message, or goes on with one that is kept. A fifth message displaces the oldest.
//!   One that is answered made its message whole, and of that nothing is kept; but where the answer is busy, nothing has changed.
//! - A reply of code 402 is a challenge under its SessionId. It displaces one that has this SessionId, and as a ninth the oldest.
//!   A challenge response of the same peer with this SessionId spends it, unless the answer is busy, or says that the message is
//!   out of the grammar.
//!
//! A spent one makes room, so an older one than the last eight may be pending: it isn't enough to know the last eight.

ghost use Rattle.std.specs.Prelude.{◌≡◌, ◌≤◌, ◌<◌, ◌+◌, ◌==◌, ◌||◌, ◌++◌, ◌∷◌, [], IsFalse, IfNone, IfSome, drop, find, length, nat_lt, not};
ghost use Rattle.std.specs.List.{list_any, position};
ghost use Rattle.hdl_limits.specs.declared.TheConstants.{CHALLENGES_MAX, PARTIALS_MAX, PEERS_MAX, UNDER_WAY_MAX};
ghost use Rattle.hdl_peers.specs.Allowance.{answers_challenge, is_within_last};
ghost use Rattle.hdl_peers.specs.Exchange.{exchange_of};
ghost use Rattle.hdl_peers.specs.Followed.{leave_answered, add_challenge, end_message, is_held, is_of, operation_of, redeem, finish_exchange, finish_by, with_piece};
ghost use Rattle.hdl_peers.specs.Peers.{is_under_way, oldest, reply_seen};
ghost use Rattle.hdl_peers.specs.LaneHistory.{followed_by};

use crate::exchange::Exchange;
use crate::kept::{Mark, MessageKey, SentChallenge, put};
use arrayvec::ArrayVec;
use hdl_frame::Frame;
use hdl_limits::{CHALLENGES_MAX, PARTIALS_MAX, UNDER_WAY_MAX};
use hdl_msg::{OpCode, ResponseCode};

/// Codes of replies: busy, out of the grammar, and a challenge.
const BUSY: u32 = ResponseCode::ServerBusy as u32;

const MALFORMED: u32 = ResponseCode::ProtocolError as u32;

const CHALLENGE: u32 = ResponseCode::AuthenticationNeeded as u32;

/// The operation of a challenge response.
const RESPONSE: u32 = OpCode::ChallengeResponse as u32;

/// What the service keeps of a lane, by the frames that came and the replies that were sent. Frames that come are seen by `note_frame`, each datagram of
/// the reply to the oldest by `note_reply`, and `finish_oldest` says that this reply is whole.
#[derive(Drop)]
pub struct LaneHistory {
    /// The partial messages, the oldest first.
    partials: ArrayVec<Mark, PARTIALS_MAX>,
    /// The challenges, the oldest first.
    challenges: ArrayVec<SentChallenge, CHALLENGES_MAX>,
    /// The frames that aren't settled, the oldest first.
    under_way: ArrayVec<Exchange, UNDER_WAY_MAX>,
}

impl LaneHistory {
    /// The trail of a lane of which nothing is kept.
    pub fn new() -> LaneHistory
        ensures followed { followed_by result ≡ record { partials = []; challenges = [] } }
        ensures under_way { result.under_way.items ≡ [] }
    {
        LaneHistory {
            partials: ArrayVec::new(),
            challenges: ArrayVec::new(),
            under_way: ArrayVec::new(),
        }
    }

    /// Whether something is kept under the number, or a frame of it is under way.
    pub fn holds(&self, number: u16) -> bool
        ensures { result ≡ is_held (followed_by self.now) number || is_under_way self.now.under_way.items number }
    {
        self.holds_pieces(number) || self.holds_challenge(number) || self.holds_frame(number)
    }

    /// Whether a frame of the number is under way.
    fn holds_frame(&self, number: u16) -> bool
        ensures { result ≡ is_under_way self.now.under_way.items number }
    {
        let mut frames = self.under_way.as_slice().iter();
        frames.any(|exchange| exchange.key.number == number)
    }

    /// Whether pieces of a message are kept under the number.
    fn holds_pieces(&self, number: u16) -> bool
        ensures { result ≡ list_any (λ m. m.key.number == number) self.now.partials.items }
    {
        let mut partials = self.partials.as_slice().iter();
        partials.any(|mark| mark.key.number == number)
    }

    /// Whether a challenge is kept under the number.
    fn holds_challenge(&self, number: u16) -> bool
        ensures { result ≡ list_any (λ s. s.number == number) self.now.challenges.items }
    {
        let mut challenges = self.challenges.as_slice().iter();
        challenges.any(|sent| sent.number == number)
    }

    /// The place of the first of the numbers 1 to `count` that is free. None: `count` numbers are in use, at least.
    pub fn free_place(&self, count: usize) -> Option<usize>
        requires { count ≤ PEERS_MAX }
        ensures free { IfSome result (λ place. (place < count) × IsFalse (is_held (followed_by self.now) (place + 1) || is_under_way self.now.under_way.items (place + 1))) }
        ensures few { IfNone result (count ≤ PARTIALS_MAX + CHALLENGES_MAX + UNDER_WAY_MAX) }
    {
        for place in 0..count.min(self.count_kept() + 1) {
            if !self.holds(place as u16 + 1) {
                return Some(place);
            }
        }
        None
    }

    /// How many messages and challenges are kept, and frames under way.
    fn count_kept(&self) -> usize
        ensures count { result ≡ length self.now.partials.items + length self.now.challenges.items + length self.now.under_way.items }
        ensures few { result ≤ PARTIALS_MAX + CHALLENGES_MAX + UNDER_WAY_MAX }
    {
        self.partials.as_slice().len()
            + self.challenges.as_slice().len()
            + self.under_way.as_slice().len()
    }

    /// Whether there is no room for one frame more.
    pub fn is_full(&self) -> bool
        ensures full { result ≡ not (nat_lt (length self.now.under_way.items) UNDER_WAY_MAX) }
        ensures few { length self.now.under_way.items ≤ UNDER_WAY_MAX }
    {
        self.under_way.is_full()
    }

    /// The oldest frame under way.
    fn oldest(&self) -> Option<Exchange>
        ensures { result ≡ oldest self.now.under_way.items }
    {
        self.under_way.as_slice().first().copied()
    }

    /// Notes a frame that came from the peer with this number.
    pub(crate) fn note_frame(&mut self, number: u16, frame: &Frame<'_>)
        requires room { length self.old.under_way.items < UNDER_WAY_MAX }
        ensures followed { followed_by self.new ≡ followed_by self.old }
        ensures under_way { self.new.under_way.items ≡ self.old.under_way.items ++ exchange_of number frame.now.envelope frame.now.bytes.now ∷ [] }
    {
        self.under_way.push(Exchange::of(number, frame));
    }

    /// A datagram of the reply to the oldest frame is sent.
    pub fn note_reply(&mut self, datagram: &[u8])
        ensures followed { followed_by self.new ≡ followed_by self.old }
        ensures under_way { self.new.under_way.items ≡ reply_seen datagram.now self.old.under_way.items }
    {
        if let Some(exchange) = self.under_way.get_mut(0) {
            *exchange = exchange.with_reply(datagram);
        }
    }

    /// Whether a reply to the oldest frame whose message has `length` octets is one datagram, or has at most `times` times the octets that asked.
    pub fn is_within(&self, times: u32, length: u32) -> bool
        ensures { result ≡ is_within_last times length (oldest self.now.under_way.items) }
    {
        match self.oldest() {
            Some(exchange) => exchange.is_within(times, length),
            None => false,
        }
    }

    /// The reply to the oldest frame is whole, or there is none.
    pub fn finish_oldest(&mut self)
        ensures followed { followed_by self.new ≡ finish_exchange (followed_by self.old) (oldest self.old.under_way.items) }
        ensures under_way { self.new.under_way.items ≡ drop 1 self.old.under_way.items }
    {
        let Some(exchange) = self.oldest() else {
            return;
        };
        self.under_way.remove(0);
        self.follow(exchange);
    }

    /// What a frame and the reply to it leave.
    fn follow(&mut self, exchange: Exchange)
        ensures followed { followed_by self.new ≡ finish_by (followed_by self.old) exchange exchange.reply }
        ensures under_way { self.new.under_way.items ≡ self.old.under_way.items }
    {
        match exchange.reply {
            None => {
                if exchange.is_piece {
                    self.keep(exchange);
                }
            }
            Some((BUSY, _)) => {}
            Some((code, session)) => self.close(exchange, code, session),
        }
    }

    /// A message was answered by this code, under this SessionId.
    fn close(&mut self, exchange: Exchange, code: u32, session: u32)
        ensures under_way { self.new.under_way.items ≡ self.old.under_way.items }
        ensures followed { followed_by self.new ≡ leave_answered (followed_by self.old) exchange code session }
    {
        let operation = self.operation(exchange);
        self.end(exchange);
        self.redeem(exchange.key, operation, code);
        self.challenge(exchange.key.number, code, session);
    }

    /// Whether the oldest frame is a challenge response, or makes one whole, and the reply to it says success.
    pub fn answers_challenge(&self) -> bool
        ensures { result ≡ answers_challenge (followed_by self.now) (oldest self.now.under_way.items) }
    {
        let Some(exchange) = self.oldest() else {
            return false;
        };
        self.operation(exchange) == Some(RESPONSE) && exchange.is_success()
    }

    /// The operation of the message that the frame brings, or makes whole.
    fn operation(&self, exchange: Exchange) -> Option<u32>
        ensures { result ≡ operation_of exchange self.now.partials.items }
    {
        if exchange.operation.is_some() || !exchange.is_piece {
            return exchange.operation;
        }
        let mark = self.message(exchange.key)?;
        mark.operation
    }

    /// The message of this key.
    fn message(&self, key: MessageKey) -> Option<Mark>
        ensures { result ≡ find (is_of key) self.now.partials.items }
    {
        let Some(place) = self.place(key) else {
            return None;
        };
        self.partials.get(place).copied()
    }

    /// The place of the message of this key.
    fn place(&self, key: MessageKey) -> Option<usize>
        ensures { result ≡ position (is_of key) self.now.partials.items }
    {
        let mut partials = self.partials.as_slice().iter();
        partials.position(|mark| mark.is_of(key))
    }

    /// A piece is kept, or is ignored since it came before or says another length.
    fn keep(&mut self, exchange: Exchange)
        ensures under_way { self.new.under_way.items ≡ self.old.under_way.items }
        ensures challenges { self.new.challenges.items ≡ self.old.challenges.items }
        ensures partials { self.new.partials.items ≡ with_piece exchange self.old.partials.items }
    {
        let Some(place) = self.place(exchange.key) else {
            put(&mut self.partials, Mark::first_mark(exchange));
            return;
        };
        if let Some(mark) = self.partials.get_mut(place) {
            *mark = mark.with_frame(exchange);
        }
    }

    /// A message that came in pieces is answered, so nothing of it is kept any more.
    fn end(&mut self, exchange: Exchange)
        ensures under_way { self.new.under_way.items ≡ self.old.under_way.items }
        ensures challenges { self.new.challenges.items ≡ self.old.challenges.items }
        ensures partials { self.new.partials.items ≡ end_message exchange self.old.partials.items }
    {
        if exchange.is_piece {
            self.partials.retain(|mark| !mark.is_of(exchange.key));
        }
    }

    /// A response of this key spends its challenge, if there is one.
    fn redeem(&mut self, key: MessageKey, operation: Option<u32>, code: u32)
        ensures under_way { self.new.under_way.items ≡ self.old.under_way.items }
        ensures partials { self.new.partials.items ≡ self.old.partials.items }
        ensures challenges { self.new.challenges.items ≡ redeem key operation code self.old.challenges.items }
    {
        if operation == Some(RESPONSE) && code != MALFORMED {
            self.challenges
                .retain(|sent| !sent.is_from(key.number, key.session));
        }
    }

    /// A challenge is put under its SessionId, which the service gives to no other.
    fn challenge(&mut self, number: u16, code: u32, session: u32)
        ensures under_way { self.new.under_way.items ≡ self.old.under_way.items }
        ensures partials { self.new.partials.items ≡ self.old.partials.items }
        ensures challenges { self.new.challenges.items ≡ add_challenge number code session self.old.challenges.items }
    {
        if code == CHALLENGE {
            self.challenges.retain(|sent| sent.session != session);
            put(&mut self.challenges, SentChallenge { number, session });
        }
    }
}
