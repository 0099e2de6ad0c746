//! Requests on one connection.

ghost use Rattle.std.specs.Prelude.{◌≡◌, IfOk, OnOk, option_copied};
ghost use Rattle.std.specs.Io.KnownBytes.{Appends, Keeps};
ghost use Rattle.hdl_msg.specs.RequestBody.{request_message};
ghost use Rattle.hdl_client.specs.Challenge.{plain_header};
ghost use Rattle.hdl_client.specs.Exchange.{frame_octets, next_number, Exchanged};
ghost use Rattle.hdl_client.specs.Asking.{IsBehind, IsAsked};
ghost use Rattle.hdl_client.specs.Reply.{IsReplyTo};
ghost use Rattle.hdl_client.specs.About.{AnswersRequest};

use crate::challenge::{Key, challenge_answer, request_message};
use crate::exchange::{receive, send};
use crate::fault::ClientFault;
use crate::reply::Reply;
use crate::transport::Transport;
use hdl_msg::RequestBody;
use hdl_value::Wire;
use std::alloc::Global;

/// A connection to a service, and the numbers of the requests on it, which begin at 1.
#[derive(Drop)]
pub struct Session<S> {
    pub(crate) alloc: Global,
    pub(crate) stream: S,
    request: u32,
}

impl<S: Transport> Session<S> {
    pub fn new(alloc: Global, stream: S) -> Session<S> {
        Session {
            alloc,
            stream,
            request: 0,
        }
    }

    /// Sends a message under the next RequestId, and gives this.
    pub(crate) fn send_next(&mut self, session: u32, message: &[u8]) -> Result<u32, ClientFault>
        ensures request { IfOk result (λ request. request ≡ self.new.request) }
        ensures number { self.new.request ≡ next_number self.old.request }
        ensures sent { OnOk result (Appends (S.sent self.old.stream) (S.sent self.new.stream) (frame_octets session self.new.request message.now)) }
        ensures received { Keeps (S.received self.old.stream) (S.received self.new.stream) }
    {
        self.request = self.request.wrapping_add(1);
        send(self.alloc, &mut self.stream, session, self.request, message)?;
        Ok(self.request)
    }

    /// Sends a message under this SessionId, and takes the reply to it.
    fn exchange_within(
        &mut self,
        wire: Wire,
        session: u32,
        message: &[u8],
    ) -> Result<Reply, ClientFault>
        ensures reply { IfOk result (IsReplyTo wire self.new.request) }
        ensures number { self.new.request ≡ next_number self.old.request }
        ensures exchanged { IfOk result (Exchanged S.Transport wire session self.new.request message.now self.old.stream self.new.stream) }
    {
        let request = self.send_next(session, message)?;
        let frame = receive(self.alloc, &mut self.stream)?;
        Reply::of_frame(wire, frame, request)
    }

    /// Sends the message of a request, as `write_request` makes it, and takes the reply to it, whose values have this layout. After a fault the stream may still bring
    /// the reply.
    pub fn exchange(&mut self, wire: Wire, message: &[u8]) -> Result<Reply, ClientFault>
        ensures reply { IfOk result (IsReplyTo wire self.new.request) }
        ensures exchanged { IfOk result (Exchanged S.Transport wire 0 (next_number self.old.request) message.now self.old.stream self.new.stream) }
    {
        self.exchange_within(wire, 0, message)
    }

    /// The reply to the answer to a challenge by this key, where there is one and the reply that came is a challenge; else that reply.
    fn after_challenge(
        &mut self,
        wire: Wire,
        key: Option<&Key>,
        message: &[u8],
        reply: Reply,
    ) -> Result<Reply, ClientFault>
        requires { IsReplyTo wire self.old.request reply }
        ensures reply { IfOk result (IsReplyTo wire self.new.request) }
        ensures behind { IfOk result (IsBehind S.Transport (option_copied key.entry) wire self.old.request message.now self.old.stream self.new.stream reply) }
    {
        let Some(key) = key else {
            return Ok(reply);
        };
        match challenge_answer(self.alloc, key, message, &reply.view())? {
            Some(answer) => self.exchange_within(wire, reply.envelope().session, &answer),
            None => Ok(reply),
        }
    }

    /// Asks, answers the challenge where one comes and a key is there, and takes the reply. A reply about another operation, or about another handle, is
    /// refused. Values are written and read by this layout.
    pub fn ask(
        &mut self,
        wire: Wire,
        body: &RequestBody,
        key: Option<&Key>,
    ) -> Result<Reply, ClientFault>
        ensures reply { IfOk result (IsReplyTo wire self.new.request) }
        ensures asked { IfOk result (IsAsked S.Transport (option_copied key.entry) wire (next_number self.old.request) (request_message wire plain_header body.now) self.old.stream self.new.stream) }
        ensures answers { IfOk result (λ reply. AnswersRequest wire (request_message wire plain_header body.now) reply.message) }
    {
        let message = request_message(self.alloc, wire, body)?;
        let first = self.exchange_within(wire, 0, &message)?;
        let reply = self.after_challenge(wire, key, &message, first)?;
        let reply = reply.about(self.alloc, &message)?;
        Ok(reply)
    }
}
