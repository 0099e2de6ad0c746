//! What came on an open lane.

use hdl_frame::Envelope;
use hdl_limits::Octets;

/// Octets that should be one frame: the lane that they came on, who sent them, when they came in milliseconds, and a nonce for a
/// challenge.
pub(crate) struct Received {
    pub lane: u16,
    pub peer: u16,
    pub moment: u64,
    pub nonce: [u8; 16],
    pub bytes: Octets,
}

/// A message that a frame brought, but for its octets: the lane that the frame came on, who sent it, when it came in milliseconds,
/// a nonce for a challenge, and the frame's envelope.
#[derive(Clone, Copy)]
pub(crate) struct Origin {
    pub lane: u16,
    pub peer: u16,
    pub moment: u64,
    pub nonce: [u8; 16],
    pub envelope: Envelope,
}
