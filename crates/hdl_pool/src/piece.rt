//! A piece of a message, and the message to which it belongs.

ghost use Rattle.std.specs.Prelude.{◌≡◌, true};
ghost use Rattle.hdl_frame.specs.Envelope.{envelope_at, is_truncated};
ghost use Rattle.hdl_frame.specs.Splitting.{IsFrameOf};

use hdl_frame::{Envelope, Frame};

/// Which message of a lane a piece belongs to: the peer that sent it, and the SessionId and RequestId of its envelope.
#[derive(Clone, Copy, PartialEq, Eq)]
pub struct MessageKey {
    /// The sender: 0 on a stream, the peer's number on a datagram lane.
    pub peer: u16,
    pub session: u32,
    pub request: u32,
}

impl MessageKey {
    ghost use Rattle.hdl_pool.specs.Partial.{key_of};

    /// The key of a frame with this envelope from this peer.
    pub(crate) fn of(peer: u16, envelope: &Envelope) -> MessageKey
        ensures key { result ≡ key_of peer envelope.now }
    {
        MessageKey {
            peer,
            session: envelope.session,
            request: envelope.request,
        }
    }
}

/// A frame with TC, as a piece of a message.
#[derive(Clone, Copy)]
pub(crate) struct Arrival<'a> {
    pub(crate) key: MessageKey,
    /// The length of the whole message, in octets.
    pub(crate) message_len: u32,
    /// The number of the piece, from 0.
    pub(crate) number: u32,
    pub(crate) payload: &'a [u8],
}

impl<'a> Arrival<'a> {
    ghost use Rattle.hdl_pool.specs.Partial.{piece_of, IsPiece};
    ghost use Rattle.hdl_pool.specs.Arrival.{piece_in};

    /// The frame from this peer, as a piece.
    #[tactic(auto, using(crate::proofs::PieceLemmas::piece_fits))]
    pub(crate) fn of(peer: u16, frame: &Frame<'a>) -> Arrival<'a>
        requires frame { IsFrameOf frame.now.bytes.now frame.now }
        requires piece { is_truncated (envelope_at frame.now.bytes.now) ≡ true }
        ensures piece { piece_in result ≡ piece_of peer frame.now.bytes.now }
        ensures fits { IsPiece (piece_in result) }
    {
        let envelope = frame.envelope;
        Arrival {
            key: MessageKey::of(peer, &envelope),
            message_len: envelope.length,
            number: envelope.sequence,
            payload: frame.payload(),
        }
    }
}
