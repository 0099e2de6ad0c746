//! A frame that came, and the reply to it.

ghost use Rattle.std.specs.Prelude.{◌≡◌};
ghost use Rattle.hdl_peers.specs.Exchange.{exchange_of, number_at, reply_of, with_reply};

use crate::kept::MessageKey;
use hdl_frame::{ENVELOPE_LEN, Envelope, Frame};

/// A frame that came, and what the reply to it said so far.
#[derive(Clone, Copy, Default)]
pub struct Exchange {
    pub key: MessageKey,
    /// Whether it is a piece of its message, and how many octets that has.
    pub is_piece: bool,
    pub length: u32,
    /// The operation, where the frame has the front of its message.
    pub operation: Option<u32>,
    /// The reply's code and SessionId.
    pub reply: Option<(u32, u32)>,
}

/// The number in the four octets from this place on, if there are this many.
fn number_at(octets: &[u8], place: usize) -> Option<u32>
    ensures { result ≡ number_at octets.now place }
{
    if octets.len().saturating_sub(place) < 4 {
        return None;
    }
    Some(u32::from_be_bytes([
        octets[place],
        octets[place + 1],
        octets[place + 2],
        octets[place + 3],
    ]))
}

/// The code and the SessionId of a reply, by its first datagram.
fn reply_of(datagram: &[u8]) -> Option<(u32, u32)>
    ensures { result ≡ reply_of datagram.now }
{
    let code = number_at(datagram, ENVELOPE_LEN + 4)?;
    let envelope = Envelope::read(datagram);
    if envelope.sequence == 0 {
        Some((code, envelope.session))
    } else {
        None
    }
}

impl Exchange {
    /// A frame of the peer with this number, unanswered.
    pub(crate) fn of(number: u16, frame: &Frame<'_>) -> Exchange
        ensures { result ≡ exchange_of number frame.now.envelope frame.now.bytes.now }
    {
        let envelope = frame.envelope;
        let is_piece = envelope.is_truncated();
        let is_front = !is_piece || envelope.sequence == 0;
        Exchange {
            key: MessageKey {
                number,
                session: envelope.session,
                request: envelope.request,
            },
            is_piece,
            length: envelope.length,
            operation: if is_front {
                number_at(frame.bytes, ENVELOPE_LEN)
            } else {
                None
            },
            reply: None,
        }
    }

    /// The exchange with a datagram of its reply.
    pub(crate) fn with_reply(self, datagram: &[u8]) -> Exchange
        ensures { result ≡ with_reply datagram.now self }
    {
        match self.reply {
            Some(_) => self,
            None => Exchange {
                reply: reply_of(datagram),
                ..self
            },
        }
    }
}
