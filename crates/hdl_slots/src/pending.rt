//! A challenge that waits for its response.

use hdl_auth::algorithm::Digest;
use hdl_limits::Octets;

/// A challenge as it was sent, and the challenged request.
#[derive(Drop)]
pub struct Pending {
    /// The sender of the request: 0 on a stream, the peer's number on a datagram lane.
    pub peer: u16,
    /// When the request came, in milliseconds.
    pub moment: u64,
    /// The challenge's nonce.
    pub nonce: [u8; 16],
    /// The digest of the request's header and body.
    pub digest: Digest,
    /// The challenged request's message.
    pub message: Octets,
}

/// A challenge and the number under which it was sent. Each lane has its own numbers.
#[derive(Drop)]
pub struct Challenge {
    pub number: u32,
    pub pending: Pending,
}
