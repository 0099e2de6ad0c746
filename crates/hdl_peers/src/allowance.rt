//! How much of a reply may go to an address that nothing shows to be there.

ghost use Rattle.std.specs.Prelude.{◌≡◌};
ghost use Rattle.hdl_frame.specs.Pieces.{datagram_count, piece_count};
ghost use Rattle.hdl_peers.specs.Allowance.{asked_octets, is_success, is_within, octets_in, reply_octets};

use crate::exchange::Exchange;
use hdl_frame::ENVELOPE_LEN;
use hdl_limits::PIECE_LEN;
use hdl_msg::ResponseCode;

/// The code of success.
const SUCCESS: u32 = ResponseCode::Success as u32;

/// How many pieces a message of `length` octets has.
fn piece_count(length: u32) -> u64
    ensures { result ≡ piece_count length }
{
    u64::from(length.div_ceil(PIECE_LEN))
}

/// How many datagrams carry a reply whose message has `length` octets.
fn datagram_count(length: u32) -> u64
    ensures { result ≡ datagram_count length }
{
    if length <= PIECE_LEN {
        1
    } else {
        piece_count(length)
    }
}

/// The octets of a message of this many in this many datagrams.
fn octets_in(count: u64, length: u32) -> u128
    ensures { result ≡ octets_in count length }
{
    ENVELOPE_LEN as u128 * u128::from(count) + u128::from(length)
}

impl Exchange {
    /// The octets that asked.
    fn asked_octets(&self) -> u128
        ensures { result ≡ asked_octets self.now }
    {
        let count = if self.is_piece {
            piece_count(self.length)
        } else {
            1
        };
        octets_in(count, self.length)
    }

    /// Whether a reply whose message has this many octets is one datagram, or has at most this many times the octets that asked, envelopes with both.
    pub(crate) fn is_within(&self, times: u32, length: u32) -> bool
        ensures { result ≡ is_within times length self.now }
    {
        let count = datagram_count(length);
        count == 1 || octets_in(count, length) <= u128::from(times) * self.asked_octets()
    }

    /// Whether the reply says success.
    pub(crate) fn is_success(&self) -> bool
        ensures { result ≡ is_success self.now.reply }
    {
        match self.reply {
            Some((code, _)) => code == SUCCESS,
            None => false,
        }
    }
}
