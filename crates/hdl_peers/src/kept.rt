//! What the service keeps of a lane, as far as the trail sees it.

ghost use Rattle.std.specs.Prelude.{◌≡◌, ◌<◌};
ghost use Rattle.hdl_peers.specs.Followed.{first_mark, with_frame, is_of, is_from, put_behind};

use crate::exchange::Exchange;
use arrayvec::ArrayVec;

/// Whose message a frame belongs to: the number of its peer, and its SessionId and RequestId.
#[derive(Clone, Copy, Default, PartialEq, Eq)]
pub struct MessageKey {
    pub number: u16,
    pub session: u32,
    pub request: u32,
}

/// A message of which pieces are kept.
#[derive(Clone, Copy, Default)]
pub struct Mark {
    pub key: MessageKey,
    /// How many octets the message has.
    pub length: u32,
    /// The message's operation, once the piece that holds it came.
    pub operation: Option<u32>,
}

impl Mark {
    /// The message that begins with the frame.
    pub(crate) fn first_mark(exchange: Exchange) -> Mark
        ensures { result ≡ first_mark exchange }
    {
        Mark {
            key: exchange.key,
            length: exchange.length,
            operation: exchange.operation,
        }
    }

    /// The message with the frame's piece, which is ignored where it says another length.
    pub(crate) fn with_frame(self, exchange: Exchange) -> Mark
        ensures { result ≡ with_frame exchange self }
    {
        if self.length == exchange.length && self.operation.is_none() {
            Mark {
                operation: exchange.operation,
                ..self
            }
        } else {
            self
        }
    }

    /// Whether it is the message of this key.
    pub fn is_of(&self, key: MessageKey) -> bool
        ensures { result ≡ is_of key self.now }
    {
        self.key.number == key.number
            && self.key.session == key.session
            && self.key.request == key.request
    }
}

/// A challenge: the peer that it was sent to, and its number on the lane, which is its SessionId.
#[derive(Clone, Copy, Default)]
pub struct SentChallenge {
    pub number: u16,
    pub session: u32,
}

impl SentChallenge {
    /// Whether it was sent to this peer under this SessionId.
    pub fn is_from(&self, number: u16, session: u32) -> bool
        ensures { result ≡ is_from number session self.now }
    {
        self.number == number && self.session == session
    }
}

/// Puts one after the others, of which the oldest goes where there are as many as may be.
pub(crate) fn put<T: Default + Drop, const N: usize>(kept: &mut ArrayVec<T, N>, newest: T)
    requires { 0 < N }
    ensures put { kept.new.items ≡ put_behind N kept.old.items newest }
{
    if kept.is_full() {
        kept.remove(0);
    }
    kept.push(newest);
}
