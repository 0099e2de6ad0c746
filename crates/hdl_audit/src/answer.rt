//! What the front of a reply says.

ghost use Rattle.std.specs.Prelude.{◌≡◌, ◌≤◌, ◌+◌, length};
ghost use Rattle.hdl_audit.specs.ReplySummary.{accepts_change, answer_of, changes, ends_change, is_challenge};
ghost use Rattle.hdl_frame.specs.Envelope.{u32_at};

use hdl_frame::{ENVELOPE_LEN, Envelope};
use hdl_msg::{OpCode, ResponseCode};

/// How many octets a frame has at least that says operation and code.
const FRONT_LEN: usize = ENVELOPE_LEN + 8;

/// What a reply says first.
#[derive(Clone, Copy, PartialEq, Eq)]
pub struct ReplySummary {
    pub session: u32,
    pub request: u32,
    /// The number of the operation; 0 in a short reply.
    pub operation: u32,
    pub code: u32,
}

/// The number in the four octets from this place on.
fn u32_at(octets: &[u8], place: usize) -> u32
    requires { place + 4 ≤ length octets.now }
    ensures { result ≡ u32_at octets.now place }
{
    u32::from_be_bytes([
        octets[place],
        octets[place + 1],
        octets[place + 2],
        octets[place + 3],
    ])
}

/// Whether an operation of this number changes a handle.
pub(crate) fn changes(operation: u32) -> bool
    ensures { result ≡ changes operation }
{
    OpCode::CreateHandle as u32 <= operation && operation <= OpCode::ModifyValue as u32
}

impl ReplySummary {
    /// What a frame of a reply says, or a datagram, where it has the reply's front.
    pub fn of(frame: &[u8]) -> Option<ReplySummary>
        ensures { result ≡ answer_of frame.now }
    {
        if frame.len() < FRONT_LEN {
            return None;
        }
        let envelope = Envelope::read(frame);
        if envelope.sequence != 0 {
            return None;
        }
        Some(ReplySummary {
            session: envelope.session,
            request: envelope.request,
            operation: u32_at(frame, ENVELOPE_LEN),
            code: u32_at(frame, ENVELOPE_LEN + 4),
        })
    }

    /// Whether it is a challenge.
    pub(crate) fn is_challenge(self) -> bool
        ensures { result ≡ is_challenge self }
    {
        self.code == ResponseCode::AuthenticationNeeded as u32
    }

    /// Whether it says that a change was accepted.
    pub fn accepts_change(self) -> bool
        ensures { result ≡ accepts_change self }
    {
        changes(self.operation) && self.code == ResponseCode::Success as u32
    }

    /// Whether nothing was done for want of memory or of the table, so that the same may be asked again.
    pub(crate) fn is_busy(self) -> bool {
        self.code == ResponseCode::ServerBusy as u32
    }

    /// Whether it says that a change was accepted or refused.
    pub(crate) fn ends_change(self) -> bool
        ensures { result ≡ ends_change self }
    {
        changes(self.operation) && !self.is_challenge()
    }
}
