//! Replies, each with its room taken before anything changes.

ghost use Rattle.std.specs.Prelude.{◌≡◌, IfOk, IfSome, IsTrue, OnErr, OnOk};
ghost use Rattle.hdl_msg.specs.Codes.{response_number};
ghost use Rattle.hdl_msg.specs.Reply.{short_reply, IsReplyFrame};
ghost use Rattle.hdl_msg.specs.declared.replies.ReplyContent.TheVariants as content;
ghost use Rattle.hdl_ops.specs.Replies.{fits};
ghost use Rattle.hdl_ops.specs.Tables.{apply_if, CanApply};
ghost use Rattle.hdl_laws.specs.Effects.{answer_octets};
ghost use Rattle.hdl_core.specs.Serving.{Announces};

use crate::origin::Origin;
use hdl_frame::Envelope;
use hdl_limits::Octets;
use hdl_msg::{ReplyContent, ResponseCode, refuse};
use hdl_ops::laws::empty_fits;
use hdl_ops::{Agent, Change, Decision, HashedRequest, Provenance, Refused, Rows, apply, render};
use std::alloc::Global;

/// Makes the change of a decision, if there is one.
fn make<R: Rows>(
    rows: &mut R,
    change: Option<Change>,
    provenance: &Provenance<'_>,
) -> Result<(), Refused>
    requires can_apply { IfSome change (λ change. CanApply (R.content rows.old) change) }
    ensures done { OnOk result (R.content rows.new ≡ apply_if (R.content rows.old) provenance.now.moment change) }
    ensures undone { OnErr result (R.content rows.new ≡ R.content rows.old) }
    ensures reads { R.reads rows.new ≡ R.reads rows.old }
{
    match change {
        Some(change) => apply(rows, change, provenance),
        None => Ok(()),
    }
}

/// Renders the reply of a decision and makes its change, which this agent asked for.
pub(crate) fn answer<R: Rows>(
    alloc: Global,
    asked: &HashedRequest<'_>,
    rows: &mut R,
    origin: &Origin,
    agent: Agent<'_>,
    decision: Decision,
) -> Result<Octets, Refused>
    requires fits { IsTrue (fits asked.now.algorithm asked.now.request.now decision.content) }
    requires can_apply { IfSome decision.change (λ change. CanApply (R.content rows.old) change) }
    ensures reply { IfOk result (λ octets. octets ≡ answer_octets asked.now.algorithm origin.now.moment origin.now.envelope asked.now.request.now (response_number decision.code) decision.content) }
    ensures read { IfOk result (λ octets. Announces asked.now.algorithm origin.now asked.now.request.now (response_number decision.code) decision.content → IsReplyFrame octets) }
    ensures done { OnOk result (R.content rows.new ≡ apply_if (R.content rows.old) origin.now.moment decision.change) }
    ensures undone { OnErr result (R.content rows.new ≡ R.content rows.old) }
    ensures reads { R.reads rows.new ≡ R.reads rows.old }
{
    let Decision {
        code,
        content,
        change,
    } = decision;
    let octets = render(alloc, asked, &origin.envelope, origin.moment, code, content)?;
    let moment = origin.moment;
    make(rows, change, &Provenance { moment, agent })?;
    Ok(Octets::new(octets))
}

/// The reply to a request that needs no look at the table, with nothing but its code.
pub(crate) fn code_reply(
    alloc: Global,
    asked: &HashedRequest<'_>,
    origin: &Origin,
    code: ResponseCode,
) -> Result<Octets, Refused>
    ensures reply { IfOk result (λ octets. octets ≡ answer_octets asked.now.algorithm origin.now.moment origin.now.envelope asked.now.request.now (response_number code) content.Empty) }
    ensures read { IfOk result (λ octets. Announces asked.now.algorithm origin.now asked.now.request.now (response_number code) content.Empty → IsReplyFrame octets) }
{
    let empty = ReplyContent::Empty;
    empty_fits();
    let octets = render(alloc, asked, &origin.envelope, origin.moment, code, empty)?;
    Ok(Octets::new(octets))
}

/// The short reply to a message that isn't in the grammar.
pub(crate) fn malformed_reply(alloc: Global, envelope: &Envelope) -> Result<Octets, Refused>
    ensures octets { IfOk result (λ octets. octets ≡ short_reply (response_number ResponseCode.ProtocolError) envelope.now) }
    ensures read { IfOk result (λ octets. IsReplyFrame octets) }
{
    let octets = Vec::from_slice(alloc, &refuse(envelope))?;
    Ok(Octets::new(octets))
}
