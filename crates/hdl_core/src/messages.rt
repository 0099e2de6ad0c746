//! Hearing a message that came on an open lane: a request that is decided, challenged, or comes back with a proof.

ghost use Rattle.std.specs.Prelude.{◌≡◌, ◌==◌, ◌<◌, ℕ, List, length, Some, None, IfOk, MatchOption, OnErr};
ghost use Rattle.hdl_msg.specs.declared.codes.OpCode.TheVariants.{GetSiteInfo};
ghost use Rattle.hdl_msg.specs.Codes.{response_number, IsNumberOf};
ghost use Rattle.hdl_msg.specs.Views.{operation_of};
ghost use Rattle.hdl_msg.specs.Reply.{IsReplyFrame};
ghost use Rattle.hdl_ops.specs.Views.{algorithms_by, response_view, site_by};
ghost use Rattle.hdl_reach.specs.Cost.{ReadsWithin};
ghost use Rattle.hdl_ops.specs.Cost.{anyone_cost, proof_cost};
ghost use Rattle.hdl_laws.specs.Cost.{IsUnchallenged};
ghost use Rattle.hdl_core.specs.Held.{state_at};
ghost use Rattle.hdl_laws.specs.Tasks.{is_denied, is_late, told_site};
ghost use Rattle.hdl_core.specs.Serving.{challenge_of_request, context, message_as, scene, sent_of, HasItsCode, IsDenied, IsDecidedForAnyone, IsInformed, IsRedeemed, RespondsAt, HandlesMessageAt};

use crate::answering::{answer, code_reply, malformed_reply};
use crate::lane_context::LaneContext;
use crate::lanes::Lanes;
use crate::origin::Origin;
use hdl_auth::algorithm::{Algorithm, Digest};
use hdl_frame::Envelope;
use hdl_limits::{CHALLENGE_LIFE_MILLIS, Octets};
use hdl_msg::{Body, Request, ResponseCode, read_request};
use hdl_ops::{
    Agent, Decision, HashedRequest, Level, Masked, NamedRequest, Owner, Proof, Refused, Response,
    decide, decide_site, render, render_challenge, response_of,
};
use hdl_slots::Pending;
use std::alloc::Global;

/// What comes of a request that is decided for anyone: its reply, or a challenge with the request's digest.
#[derive(Drop)]
pub(crate) enum RequestResult {
    Answered(Octets),
    Challenged(Octets, Digest),
}

/// The challenge of a request under this number, with the request's digest.
fn challenge(
    alloc: Global,
    asked: &HashedRequest<'_>,
    origin: &Origin,
    next: u32,
) -> Result<RequestResult, Refused>
    ensures challenged { IfOk result (λ heard. heard ≡ challenge_of_request asked.now.algorithm origin.now next asked.now.request.now) }
    ensures read { IfOk result (λ heard. IsReplyFrame (sent_of heard)) }
{
    let envelope = Envelope {
        session: next,
        ..origin.envelope
    };
    let (octets, digest) = render_challenge(alloc, asked, &envelope, origin.moment, &origin.nonce)?;
    Ok(RequestResult::Challenged(Octets::new(octets), digest))
}

/// Whether the decision is that a key has to be proved.
fn is_challenged(decision: &Decision) -> bool
    ensures { result ≡ (response_number decision.now.code == response_number ResponseCode.AuthenticationNeeded) }
{
    decision.code == ResponseCode::AuthenticationNeeded
}

/// Decides a request for anyone. A challenge gets the lane's next number.
fn decide_for_anyone<R: Masked>(
    lane_context: &LaneContext<'_>,
    rows: &mut R,
    origin: &Origin,
    next: u32,
    request: &Request<'_>,
) -> Result<RequestResult, Refused>
    ensures asked { IfOk result (λ heard. IsDecidedForAnyone (context lane_context.now (R.content rows.old)) origin.now next request.now heard (R.content rows.new)) }
    ensures read { IfOk result (λ heard. HasItsCode request.now → IsReplyFrame (sent_of heard)) }
    ensures undone { OnErr result (R.content rows.new ≡ R.content rows.old) }
    ensures cost { ReadsWithin (R.content rows.old) anyone_cost (R.reads rows.old) (R.reads rows.new) }
{
    let owner = &lane_context.owner;
    let named = NamedRequest::of_owner(owner, request)?;
    let asked = named.asked;
    let decision = decide(named, rows, &Level::Anyone)?;
    if is_challenged(&decision) {
        drop(decision);
        return challenge(owner.alloc, &asked, origin, next);
    }
    let octets = answer(owner.alloc, &asked, rows, origin, Agent::Anyone, decision)?;
    Ok(RequestResult::Answered(octets))
}

/// Whether the body asks for a change and none is taken.
fn is_denied(takes_changes: bool, body: &Body<'_>) -> bool
    ensures { result ≡ is_denied takes_changes (operation_of body.now) }
{
    if takes_changes {
        return false;
    }
    match body {
        Body::Create { .. } => true,
        Body::Delete { .. } => true,
        Body::Add { .. } => true,
        Body::Remove { .. } => true,
        Body::Modify { .. } => true,
        Body::Resolution { .. } => false,
        Body::List { .. } => false,
        Body::SiteInfo { .. } => false,
        Body::Response { .. } => false,
        Body::Other { .. } => false,
    }
}

/// The reply to a request for a change where none is taken. The table isn't read.
fn deny(owner: &Owner<'_>, origin: &Origin, request: &Request<'_>) -> Result<Octets, Refused>
    ensures denied { IfOk result (λ octets. IsDenied (algorithms_by owner.now) origin.now request.now octets) }
    ensures read { IfOk result (λ octets. IsReplyFrame octets) }
{
    let named = NamedRequest::of_owner(owner, request)?;
    code_reply(
        owner.alloc,
        &named.asked,
        origin,
        ResponseCode::OperationDenied,
    )
}

/// The site information that answers the operation: the owner's, for a question for it.
fn told_site<'a>(owner: &'a Owner<'_>, body: &Body<'_>) -> Option<&'a [u8]>
    ensures { MatchOption result (told_site (site_by owner.now) (operation_of body.now) ≡ None) (λ site. told_site (site_by owner.now) (operation_of body.now) ≡ Some site.now) }
{
    match body {
        Body::SiteInfo { .. } => owner.site(),
        Body::Resolution { .. } => None,
        Body::Create { .. } => None,
        Body::Delete { .. } => None,
        Body::Add { .. } => None,
        Body::Remove { .. } => None,
        Body::Modify { .. } => None,
        Body::List { .. } => None,
        Body::Response { .. } => None,
        Body::Other { .. } => None,
    }
}

/// The reply to a question for site information. The table isn't read.
fn inform(
    alloc: Global,
    origin: &Origin,
    request: &Request<'_>,
    site: &[u8],
) -> Result<Octets, Refused>
    ensures informed { IfOk result (λ octets. IsInformed origin.now request.now site.now octets) }
    ensures read { IfOk result (λ octets. IsNumberOf (Some GetSiteInfo) request.now.header.op_code → IsReplyFrame octets) }
{
    let asked = HashedRequest {
        algorithm: Algorithm::Sha1,
        request,
    };
    let decision = decide_site(alloc, &asked, site)?;
    let Decision { code, content, .. } = decision;
    let octets = render(
        alloc,
        &asked,
        &origin.envelope,
        origin.moment,
        code,
        content,
    )?;
    Ok(Octets::new(octets))
}

/// The moment of the message is later than the challenge's by more than a challenge lives; an earlier one counts as none.
fn is_late(origin: &Origin, pending: &Pending) -> bool
    ensures { (message : List ℕ) → result ≡ is_late (message_as origin.now message) pending.now }
{
    origin.moment.saturating_sub(pending.moment) > CHALLENGE_LIFE_MILLIS
}

/// The reply to a challenge response that names this challenge.
fn redeem<'a, R: Masked>(
    lane_context: &'a LaneContext<'a>,
    rows: &mut R,
    origin: &Origin,
    response: Response<'a>,
    pending: &'a Pending,
) -> Result<Octets, Refused>
    ensures redeemed { IfOk result (λ octets. IsRedeemed (context lane_context.now (R.content rows.old)) origin.now (response_view response.entry) pending.now octets (R.content rows.new)) }
    ensures read { IfOk result (λ octets. IsReplyFrame octets) }
    ensures undone { OnErr result (R.content rows.new ≡ R.content rows.old) }
    ensures cost { ReadsWithin (R.content rows.old) proof_cost (R.reads rows.old) (R.reads rows.new) }
{
    let owner = &lane_context.owner;
    let Ok(request) = read_request(owner.wire(), pending.message.as_slice()) else {
        return malformed_reply(owner.alloc, &origin.envelope);
    };
    if is_denied(lane_context.takes_changes, request.body()) {
        return deny(owner, origin, &request);
    }
    let asked = HashedRequest {
        algorithm: pending.digest.algorithm(),
        request: &request,
    };
    if is_late(origin, pending) {
        return code_reply(
            owner.alloc,
            &asked,
            origin,
            ResponseCode::AuthenticationTimeout,
        );
    }
    let proof = Proof {
        response,
        nonce: &pending.nonce,
        digest: &pending.digest,
    };
    let named = NamedRequest::read(owner, asked)?;
    let decision = decide(named, rows, &Level::Proven(proof))?;
    let Response { handle, index, .. } = response;
    let agent = Agent::Key { handle, index };
    answer(owner.alloc, &asked, rows, origin, agent, decision)
}

/// The reply to a challenge response. The challenge that it names is spent, unless the reply is refused.
fn respond<R: Masked>(
    lane_context: &LaneContext<'_>,
    rows: &mut R,
    lanes: &mut Lanes,
    origin: &Origin,
    request: &Request<'_>,
    response: Response<'_>,
) -> Result<Octets, Refused>
    requires there { origin.now.lane < length lanes.old }
    ensures responded { IfOk result (λ octets. RespondsAt (scene lane_context.now (R.content rows.old) lanes.old) origin.now.lane (record { origin = origin.now; request = request.now; response = response_view response.entry }) octets lanes.new (R.content rows.new)) }
    ensures read { IfOk result (λ octets. IsReplyFrame octets) }
    ensures undone { OnErr result (R.content rows.new ≡ R.content rows.old) }
    ensures unchanged { OnErr result (lanes.new ≡ lanes.old) }
    ensures cost { ReadsWithin (R.content rows.old) proof_cost (R.reads rows.old) (R.reads rows.new) }
    ensures unknown { IsUnchallenged (state_at lanes.old origin.now.lane) origin.now.peer → R.reads rows.new ≡ R.reads rows.old }
{
    let session = origin.envelope.session;
    let Some(pending) = lanes.find(origin.lane, origin.peer, session) else {
        let asked = HashedRequest {
            algorithm: Algorithm::Sha1,
            request,
        };
        return code_reply(
            lane_context.owner.alloc,
            &asked,
            origin,
            ResponseCode::ProtocolError,
        );
    };
    let octets = redeem(lane_context, rows, origin, response, pending)?;
    lanes.spend(origin.lane, origin.peer, session);
    Ok(octets)
}

/// Hears a message on a lane. A challenge takes a copy of the message with it into the lane's slot, once its reply is written.
pub(crate) fn handle_message<R: Masked>(
    lane_context: &LaneContext<'_>,
    rows: &mut R,
    lanes: &mut Lanes,
    origin: &Origin,
    message: &[u8],
) -> Result<Octets, Refused>
    requires there { origin.now.lane < length lanes.old }
    ensures heard { IfOk result (λ octets. HandlesMessageAt (scene lane_context.now (R.content rows.old) lanes.old) origin.now.lane (message_as origin.now message.now) octets lanes.new (R.content rows.new)) }
    ensures read { IfOk result (λ octets. IsReplyFrame octets) }
    ensures undone { OnErr result (R.content rows.new ≡ R.content rows.old) }
    ensures unchanged { OnErr result (lanes.new ≡ lanes.old) }
    ensures cost { ReadsWithin (R.content rows.old) proof_cost (R.reads rows.old) (R.reads rows.new) }
    ensures stranger { IsUnchallenged (state_at lanes.old origin.now.lane) origin.now.peer → ReadsWithin (R.content rows.old) anyone_cost (R.reads rows.old) (R.reads rows.new) }
{
    let owner = &lane_context.owner;
    let Ok(request) = read_request(owner.wire(), message) else {
        return malformed_reply(owner.alloc, &origin.envelope);
    };
    if let Some(response) = response_of(request.body()) {
        return respond(lane_context, rows, lanes, origin, &request, response);
    }
    if is_denied(lane_context.takes_changes, request.body()) {
        return deny(owner, origin, &request);
    }
    if let Some(site) = told_site(owner, request.body()) {
        return inform(owner.alloc, origin, &request, site);
    }
    let next = lanes.next_number(origin.lane);
    match decide_for_anyone(lane_context, rows, origin, next, &request)? {
        RequestResult::Answered(octets) => Ok(octets),
        RequestResult::Challenged(octets, digest) => {
            let nonce = origin.nonce;
            let copy = Vec::from_slice(owner.alloc, message)?;
            let pending = Pending {
                peer: origin.peer,
                moment: origin.moment,
                nonce,
                digest,
                message: Octets::new(copy),
            };
            lanes.challenge(origin.lane, pending);
            Ok(octets)
        }
    }
}
