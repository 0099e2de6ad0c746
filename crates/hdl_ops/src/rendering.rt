//! The reply to a request.

ghost use Rattle.std.specs.Prelude.{◌≡◌, ◌≤◌, length, IfOk, IsTrue, Some, None, if◌then◌else◌};
ghost use Rattle.hdl_msg.specs.Codes.{response_number};
ghost use Rattle.hdl_msg.specs.Reply.{digest_octets, reply_octets, reply_parts, IsAnnounced, IsReplyFrame};
ghost use Rattle.hdl_ops.specs.Replies.{digest_of, asked_digest, expiration, reply_header, reply_to, challenge_to, fits};

use crate::decision::HashedRequest;
use crate::requests::wants_digest;
use hdl_auth::algorithm::Digest;
use hdl_auth::digest;
use hdl_frame::Envelope;
use hdl_limits::MESSAGE_MAX;
use hdl_msg::{
    Header, Reply, ReplyContent, Request, ResponseCode, answer_header, reply_len, write_reply,
};
use hdl_value::Wire;
use std::alloc::{AllocError, Global};

/// How long a reply to Handle.Net software may be kept, in milliseconds: twelve hours.
pub const REPLY_LIFE_MILLIS: u64 = 43_200_000;

/// The ExpirationTime of a reply of this moment, in seconds. By the layout of Handle.Net software the reply's life ends then;
/// by our profile it is 0.
fn expiration(wire: Wire, moment: u64) -> u32
    ensures { result ≡ expiration wire moment }
{
    match wire {
        Wire::Profile => 0,
        Wire::HandleNet => match u32::try_from(moment / 1000 + REPLY_LIFE_MILLIS / 1000) {
            Ok(second) => second,
            Err(_) => u32::MAX,
        },
    }
}

/// The header of a reply of this moment to the request.
fn reply_header(request: &Request<'_>, moment: u64, code: u32) -> Header
    ensures { result ≡ reply_header moment request.now code }
{
    Header {
        expiration: expiration(request.wire(), moment),
        ..answer_header(request.header(), code)
    }
}

/// The digest of the request, where it asks for it.
fn asked_digest(asked: &HashedRequest<'_>) -> Option<Digest>
    ensures { result ≡ asked_digest asked.now.algorithm asked.now.request.now }
{
    if wants_digest(asked.request) {
        Some(digest(asked.algorithm, asked.request.signed()))
    } else {
        None
    }
}

/// How many octets of a reply's message are those of the digest and of the octet before it. No digest is made to know it.
fn digest_room(asked: &HashedRequest<'_>) -> usize
    ensures room { result ≡ length (digest_octets (asked_digest asked.now.algorithm asked.now.request.now)) }
    ensures short { result ≤ 33 }
{
    if wants_digest(asked.request) {
        asked.algorithm.size() + 1
    } else {
        0
    }
}

/// The content, if the message of a reply with it isn't too long.
#[tactic(auto, unfolding(crate::specs::Replies::fits))]
pub(crate) fn fitting(asked: &HashedRequest<'_>, content: ReplyContent) -> Option<ReplyContent>
    ensures { result ≡ (if fits asked.now.algorithm asked.now.request.now content then Some content else None) }
{
    let reply = Reply {
        session: 0,
        request: 0,
        header: reply_header(asked.request, 0, 0),
        digest: None,
        content,
    };
    if reply_len(&reply) > MESSAGE_MAX as usize - digest_room(asked) {
        return None;
    }
    let Reply { content, .. } = reply;
    Some(content)
}

/// The octets of the reply to what came in this envelope at this moment, with this code and content.
#[tactic(auto, unfolding(crate::specs::Replies::reply_to))]
pub fn render(
    alloc: Global,
    asked: &HashedRequest<'_>,
    envelope: &Envelope,
    moment: u64,
    code: ResponseCode,
    content: ReplyContent,
) -> Result<Vec<u8>, AllocError>
    requires fits { IsTrue (fits asked.now.algorithm asked.now.request.now content) }
    ensures octets { IfOk result (λ octets. octets.items ≡ reply_octets (reply_to asked.now.algorithm moment envelope.now.session envelope.now.request asked.now.request.now (response_number code) content)) }
    ensures read { IfOk result (λ octets. IsAnnounced (reply_parts (reply_to asked.now.algorithm moment envelope.now.session envelope.now.request asked.now.request.now (response_number code) content)) → IsReplyFrame octets.items) }
{
    let reply = Reply {
        session: envelope.session,
        request: envelope.request,
        header: reply_header(asked.request, moment, code.number()),
        digest: asked_digest(asked),
        content,
    };
    write_reply(alloc, &reply)
}

/// The octets of a challenge of this moment with this nonce in this envelope, and the digest of the request that it stands for.
#[tactic(auto, unfolding(crate::specs::Replies::challenge_to))]
pub fn render_challenge(
    alloc: Global,
    asked: &HashedRequest<'_>,
    envelope: &Envelope,
    moment: u64,
    nonce: &[u8; 16],
) -> Result<(Vec<u8>, Digest), AllocError>
    ensures octets { IfOk result (λ sent. sent.0.items ≡ reply_octets (challenge_to asked.now.algorithm moment envelope.now.session envelope.now.request asked.now.request.now nonce.now)) }
    ensures digest { IfOk result (λ sent. sent.1 ≡ digest_of asked.now.algorithm asked.now.request.now) }
    ensures read { IfOk result (λ sent. IsReplyFrame sent.0.items) }
{
    let request_digest = digest(asked.algorithm, asked.request.signed());
    let reply = Reply {
        session: envelope.session,
        request: envelope.request,
        header: reply_header(
            asked.request,
            moment,
            ResponseCode::AuthenticationNeeded.number(),
        ),
        digest: Some(request_digest),
        content: ReplyContent::Nonce { nonce: *nonce },
    };
    let octets = write_reply(alloc, &reply)?;
    Ok((octets, request_digest))
}
