//! The envelope: its layout, which envelopes are accepted, and the length of the payload.

ghost use Rattle.std.specs.Prelude.{◌≡◌, ◌≤◌, length, None};
ghost use Rattle.hdl_frame.specs.Envelope.{envelope_at, envelope_octets, message_envelope, fault_of, payload_len, is_compressed, is_encrypted, is_truncated};

use byteorder::{BigEndian, ByteOrder};
use hdl_limits::{MESSAGE_MAX, PIECE_LEN};
use thiserror::Error;

/// The length of an envelope, in octets.
pub const ENVELOPE_LEN: usize = 20;

/// The major version of the protocol. Any minor version is accepted.
pub const MAJOR_VERSION: u8 = 2;

/// The minor version of envelopes that this crate writes.
pub const MINOR_VERSION: u8 = 1;

/// MessageFlag bit CP: the message is compressed. Such envelopes are refused.
pub const COMPRESSED: u16 = 0x8000;

/// MessageFlag bit EC: the message is encrypted. Such envelopes are refused.
pub const ENCRYPTED: u16 = 0x4000;

/// MessageFlag bit TC: the frame is a piece of a message. All bits but CP, EC and TC are ignored.
pub const TRUNCATED: u16 = 0x2000;

/// The envelope of a message or of a piece of one (RFC 3652, section 2.1, in our profile).
///
/// ```text
///  0        1        2                 4
/// +--------+--------+-----------------+-----------------------------------+
/// | major  | minor  | MessageFlag     | SessionId                         |
/// +--------+--------+-----------------+-----------------------------------+
/// | RequestId                         | SequenceNumber                    |
/// +-----------------------------------+-----------------------------------+
/// | MessageLength                     |
/// +-----------------------------------+
/// ```
///
/// Numbers are sent highest octet first. `length` is the length of the whole message without the envelope, in octets,
/// in each piece too. Without TC, `sequence` has no meaning.
#[derive(Clone, Copy, Debug, PartialEq, Eq)]
pub struct Envelope {
    pub major: u8,
    pub minor: u8,
    pub flags: u16,
    pub session: u32,
    pub request: u32,
    pub sequence: u32,
    pub length: u32,
}

/// Why no frame can be cut. The first three are the faults of the next envelope, and are tested in this order.
#[derive(Clone, Copy, Debug, PartialEq, Eq, Error)]
pub enum FrameFault {
    /// The major version isn't 2.
    #[error("unknown protocol version")]
    Version(Envelope),
    /// CP or EC is set; or TC is, and the piece would begin at or after the end of the message.
    #[error("compressed, encrypted, or a piece past the message's end")]
    Flags(Envelope),
    /// MessageLength is over 65,536.
    #[error("message too long")]
    TooLong(Envelope),
    /// Memory was refused.
    #[error("out of memory")]
    Memory,
}

impl Envelope {
    ghost use Rattle.hdl_frame.specs.Envelope.{envelope_at, envelope_octets, message_envelope, fault_of, payload_len, is_compressed, is_encrypted, is_truncated};

    /// The envelope of a whole message in one frame, without flags. `length` is the length of the message in octets.
    pub fn of_message(session: u32, request: u32, length: u32) -> Envelope
        ensures envelope { result ≡ message_envelope session request length }
    {
        Envelope {
            major: MAJOR_VERSION,
            minor: MINOR_VERSION,
            flags: 0,
            session,
            request,
            sequence: 0,
            length,
        }
    }

    /// The envelope in the first 20 octets. Any 20 octets are an envelope.
    #[tactic(auto, unfolding(crate::specs::Envelope::envelope_at))]
    pub fn read(octets: &[u8]) -> Envelope
        requires whole { ENVELOPE_LEN ≤ length octets.now }
        ensures envelope { result ≡ envelope_at octets.now }
    {
        Envelope {
            major: octets[0],
            minor: octets[1],
            flags: BigEndian::read_u16(&octets[2..4]),
            session: BigEndian::read_u32(&octets[4..8]),
            request: BigEndian::read_u32(&octets[8..12]),
            sequence: BigEndian::read_u32(&octets[12..16]),
            length: BigEndian::read_u32(&octets[16..20]),
        }
    }

    /// The envelope's 20 octets.
    #[tactic(auto, unfolding(crate::specs::Envelope::envelope_octets))]
    pub fn to_octets(self) -> [u8; ENVELOPE_LEN]
        ensures octets { result ≡ envelope_octets self }
    {
        let mut octets = [0; ENVELOPE_LEN];
        octets[0] = self.major;
        octets[1] = self.minor;
        BigEndian::write_u16(&mut octets[2..4], self.flags);
        BigEndian::write_u32(&mut octets[4..8], self.session);
        BigEndian::write_u32(&mut octets[8..12], self.request);
        BigEndian::write_u32(&mut octets[12..16], self.sequence);
        BigEndian::write_u32(&mut octets[16..20], self.length);
        octets
    }

    /// Whether CP is set.
    pub fn is_compressed(self) -> bool
        ensures { result ≡ is_compressed self }
    {
        self.flags & COMPRESSED != 0
    }

    /// Whether EC is set.
    pub fn is_encrypted(self) -> bool
        ensures { result ≡ is_encrypted self }
    {
        self.flags & ENCRYPTED != 0
    }

    /// Whether TC is set, so that the frame is a piece of a message.
    pub fn is_truncated(self) -> bool
        ensures { result ≡ is_truncated self }
    {
        self.flags & TRUNCATED != 0
    }

    /// The first fault of the envelope (Version, Flags or TooLong), or `None`.
    #[tactic(auto, unfolding(crate::specs::Envelope::fault_of))]
    pub fn fault(self) -> Option<FrameFault>
        ensures first_fault { result ≡ fault_of self }
    {
        let is_past_end = PIECE_LEN as u64 * self.sequence as u64 >= self.length as u64;
        let is_past_end = self.is_truncated() && is_past_end;
        if self.major != MAJOR_VERSION {
            Some(FrameFault::Version(self))
        } else if self.is_compressed() || self.is_encrypted() || is_past_end {
            Some(FrameFault::Flags(self))
        } else if self.length > MESSAGE_MAX {
            Some(FrameFault::TooLong(self))
        } else {
            None
        }
    }

    /// The length of the payload of an accepted envelope, in octets.
    #[tactic(auto, unfolding(crate::specs::Envelope::fault_of, crate::specs::Envelope::payload_len))]
    pub fn payload_len(self) -> usize
        requires accepted { fault_of self ≡ None }
        ensures len { result ≡ payload_len self }
        ensures bound { result ≤ MESSAGE_MAX }
    {
        if self.is_truncated() {
            (self.length - PIECE_LEN * self.sequence).min(PIECE_LEN) as usize
        } else {
            self.length as usize
        }
    }
}
