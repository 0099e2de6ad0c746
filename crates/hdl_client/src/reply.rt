//! A reply that came.

ghost use Rattle.std.specs.Prelude.{◌≡◌, IfOk, OnErr};
ghost use Rattle.hdl_msg.specs.Reply.{SpellsReply, reply_seen};
ghost use Rattle.hdl_client.specs.Reply.{IsReplyTo, IsNoReplyTo};
ghost use Rattle.hdl_client.specs.About.{AnswersRequest};

use crate::about::check_answer;
use crate::exchange::OwnedFrame;
use crate::fault::ClientFault;
use hdl_frame::Envelope;
use hdl_msg::{ReplyView, read_reply};
use hdl_value::Wire;
use std::alloc::Global;
use std::marker::Model;

/// A reply: a message that came whole in one frame and that `read_reply` reads. Contracts see the layout of its values, its envelope and its message.
#[derive(Drop)]
pub struct Reply {
    wire: Wire,
    envelope: Envelope,
    message: Vec<u8>,
}

impl Model for Reply {
    ghost use Rattle.hdl_client.specs.Reply.{Delivery, IsReply};

    ghost Value = { Delivery };

    ghost view = { λ r. record { wire = r.wire; envelope = r.envelope; message = r.message.items } };

    ghost invariant = { λ r. IsReply r.wire r.envelope r.message.items };
}

impl Reply {
    ghost use Rattle.hdl_client.specs.Reply.{IsReplyTo, IsNoReplyTo};

    /// The reply in this frame to the request with this RequestId, if it is one by this layout of values.
    pub fn of_frame(wire: Wire, frame: OwnedFrame, request: u32) -> Result<Reply, ClientFault>
        ensures delivered { IfOk result (λ reply. reply ≡ record { wire = wire; envelope = frame.envelope; message = frame.payload.items }) }
        ensures own { IfOk result (IsReplyTo wire request) }
        ensures refused { OnErr result (IsNoReplyTo wire request frame.envelope frame.payload.items) }
    {
        let OwnedFrame { envelope, payload } = frame;
        if envelope.is_truncated() {
            return Err(ClientFault::NoReply);
        }
        if envelope.request != request {
            return Err(ClientFault::OtherRequest);
        }
        match read_reply(wire, &payload) {
            Ok(_) => Ok(Reply {
                wire,
                envelope,
                message: payload,
            }),
            Err(_) => Err(ClientFault::NoReply),
        }
    }

    /// This reply, if it is about what the request with this message asks.
    pub(crate) fn about(self, alloc: Global, message: &[u8]) -> Result<Reply, ClientFault>
        ensures same { IfOk result (λ reply. reply ≡ self) }
        ensures answers { IfOk result (λ reply. AnswersRequest self.wire message.now reply.message) }
    {
        check_answer(alloc, self.wire, message, &self.view())?;
        Ok(self)
    }

    /// The envelope that it came in.
    pub fn envelope(&self) -> Envelope
        ensures { result ≡ self.now.envelope }
    {
        self.envelope
    }

    /// The octets of its message.
    pub fn message(&self) -> &[u8]
        ensures { result.now ≡ self.now.message }
    {
        &self.message
    }

    /// What it says, where it stands.
    pub fn view(&self) -> ReplyView<'_>
        ensures seen { SpellsReply self.now.wire self.now.message (reply_seen result) }
    {
        match read_reply(self.wire, &self.message) {
            Ok(reply) => reply,
            Err(_) => unreachable!(),
        }
    }
}
