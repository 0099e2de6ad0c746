//! Who is asked with a key.

use crate::suffix::SUFFIX_LEN;
use hdl_client::{Key, Reply};
use hdl_limits::Octets;
use hdl_msg::RequestBody;
use std::alloc::AllocError;

/// Why a request has no reply.
#[derive(Clone, Copy, Debug, PartialEq, Eq)]
pub enum NoReply {
    /// The server wasn't reached, so nothing was sent.
    Unreached,
    /// It was sent, and no reply came that can be read: what became of it isn't known.
    Silent,
    Memory,
}

impl From<AllocError> for NoReply {
    fn from(_: AllocError) -> NoReply {
        NoReply::Memory
    }
}

/// A way to ask with a key: servers over sockets.
pub trait ChangeServer: Drop {
    ghost use Rattle.std.specs.Prelude.{◌≡◌, ◌++◌, ◌∷◌, [], List, Bool, IsTrue};
    ghost use Rattle.hdl_msg.specs.RequestBody.{requested_operation};
    ghost use Rattle.hdl_rest.specs.Exchange.{Exchange, exchange, reply_of};

    /// Whether contracts may speak of what is asked. Of a server that isn't observed, as over sockets, no clause names a request.
    ghost is_observed: { Bool };

    /// What was asked, oldest first.
    ghost asked: { Self → List Exchange };

    /// Lets go of what connections there are, so that the next request begins on a new one: none of an order's requests fails just
    /// because its connection was old, and none is sent twice.
    fn renew(&mut self)
        ensures asked { IsTrue is_observed → asked self.new ≡ asked self.old };

    /// The reply to a request, whose challenge the key answers. The connection, time-outs, and which server to ask after a referral are the
    /// service's. It may wait, but not for ever.
    fn ask(&mut self, body: &RequestBody, key: &Key) -> Result<Reply, NoReply>
        ensures asked { IsTrue is_observed → asked self.new ≡ asked self.old ++ exchange (requested_operation body.now) key.now (reply_of result) ∷ [] };

    /// Octets that no one can guess, of which the suffix of a new name is made.
    fn draw(&mut self) -> [u8; SUFFIX_LEN]
        ensures asked { IsTrue is_observed → asked self.new ≡ asked self.old };

    /// The handles of a prefix in canonical form that a copy of the table has, where there is a copy.
    fn copied(&self, prefix: &[u8]) -> Option<&[Octets]>;
}
