//! The question for a server's site information.

ghost use Rattle.std.specs.Prelude.{IfOk};
ghost use Rattle.hdl_value.specs.declared.wire.Wire.TheVariants.{HandleNet};
ghost use Rattle.hdl_client.specs.Exchange.{next_number, Exchanged};
ghost use Rattle.hdl_client.specs.Reply.{IsReplyTo};
ghost use Rattle.hdl_client.specs.About.{AnswersRequest};
ghost use Rattle.hdl_client.specs.declared.site_question.TheConstants.{SITE_QUESTION};

use crate::fault::ClientFault;
use crate::reply::Reply;
use crate::session::Session;
use crate::transport::Transport;
use hdl_value::Wire;

/// A request for site information (OpCode 2), as, to our knowledge, the Handle.Net software asks it: SiteInfoSerialNumber `ffff`, the handle `/`,
/// and an empty credential.
const SITE_QUESTION: [u8; 33] = [
    0, 0, 0, 2, 0, 0, 0, 0, 0, 0, 0, 0, 0xff, 0xff, 0, 0, 0, 0, 0, 0, 0, 0, 0, 5, 0, 0, 0, 1, b'/',
    0, 0, 0, 0,
];

impl<S: Transport> Session<S> {
    /// Asks for the server's site information, and takes the reply. A reply about another operation is refused.
    pub fn ask_site(&mut self) -> Result<Reply, ClientFault>
        ensures reply { IfOk result (IsReplyTo HandleNet self.new.request) }
        ensures exchanged { IfOk result (Exchanged S.Transport HandleNet 0 (next_number self.old.request) SITE_QUESTION self.old.stream self.new.stream) }
        ensures answers { IfOk result (λ reply. AnswersRequest HandleNet SITE_QUESTION reply.message) }
    {
        let reply = self.exchange(Wire::HandleNet, &SITE_QUESTION)?;
        reply.about(self.alloc, &SITE_QUESTION)
    }
}
