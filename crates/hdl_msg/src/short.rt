//! Short replies, which answer what was not decided.

ghost use Rattle.std.specs.Prelude.{◌≡◌};
ghost use Rattle.hdl_msg.specs.Codes.{response_number};
ghost use Rattle.hdl_msg.specs.Reply.{short_reply};

use crate::codes::ResponseCode;
use byteorder::{BigEndian, ByteOrder};
use hdl_frame::{ENVELOPE_LEN, Envelope};

/// Envelope, header, and an empty string for body and for credential: MessageLength is 32, and BodyLength 4.
#[tactic(auto, unfolding(crate::specs::Reply::short_reply, crate::specs::Message::header_octets, hdl_frame::specs::Envelope::envelope_octets))]
fn short(code: u32, came: &Envelope) -> [u8; 52]
    ensures { result ≡ short_reply code came.now }
{
    let envelope = Envelope::of_message(came.session, came.request, 32);
    let mut octets = [0; 52];
    octets[..ENVELOPE_LEN].copy_from_slice(&envelope.to_octets());
    BigEndian::write_u32(&mut octets[24..28], code);
    BigEndian::write_u32(&mut octets[40..44], 4);
    octets
}

/// The reply to an event that memory or the store refused: code 3 and nothing else. It echoes SessionId and RequestId of the
/// envelope that came, and takes no memory.
pub fn busy(came: &Envelope) -> [u8; 52]
    ensures { result ≡ short_reply (response_number ResponseCode.ServerBusy) came.now }
{
    short(ResponseCode::ServerBusy.number(), came)
}

/// The reply to a frame or a message that is out of the grammar: code 4 and nothing else. It echoes SessionId and RequestId of
/// the envelope that came, and takes no memory.
pub fn refuse(came: &Envelope) -> [u8; 52]
    ensures { result ≡ short_reply (response_number ResponseCode.ProtocolError) came.now }
{
    short(ResponseCode::ProtocolError.number(), came)
}
