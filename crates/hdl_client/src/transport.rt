//! A stream of octets to a server and back.

ghost use Rattle.std.specs.Prelude.{ℕ, List, Option, OnOk};
ghost use Rattle.std.specs.Io.KnownBytes.{Appends, Keeps};

use std::io;

/// A stream of octets to a server and back. Contracts see all octets that went and came on one that is observed. A socket isn't: of it they
/// name no octet.
pub trait Transport {
    /// The octets that were sent, if it is observed.
    ghost sent: { Self → Option (List ℕ) };

    /// The octets that came, if it is observed.
    ghost received: { Self → Option (List ℕ) };

    /// Sends all these octets.
    fn send_all(&mut self, octets: &[u8]) -> io::Result<()>
        ensures sent { OnOk result (Appends (sent self.old) (sent self.new) octets.now) }
        ensures received { Keeps (received self.old) (received self.new) };

    /// Fills the buffer with the octets that come next.
    fn receive_exact(&mut self, buffer: &mut [u8]) -> io::Result<()>
        ensures received { OnOk result (Appends (received self.old) (received self.new) buffer.new) }
        ensures sent { Keeps (sent self.old) (sent self.new) };
}
