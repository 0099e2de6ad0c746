//! Keys, and the answer to a challenge.

ghost use Rattle.std.specs.Prelude.{◌≡◌, ◌≢◌, ◌≤◌, ◌<◌, ◌⊎◌, ℕ, List, length, true, false, IfOk, IfErr, IfSome, MatchOption};
ghost use Rattle.hdl_auth.specs.declared.algorithm.Digest.{Digest};
ghost use Rattle.hdl_value.specs.declared.wire.Wire.TheVariants.{Profile};
ghost use Rattle.hdl_auth.specs.Digest.{algorithm_of, digest_of};
ghost use Rattle.hdl_msg.specs.RequestBody as requests;
ghost use Rattle.hdl_msg.specs.Reply.{reply_seen};
ghost use Rattle.hdl_client.specs.Challenge.{plain_header, response_of, Challenges, Answers, IsOtherChallenge};
ghost use Rattle.hdl_client.specs.declared.fault.ClientFault.TheVariants.{Memory, TooLong, OtherChallenge};
ghost use Rattle.hdl_client.specs.Challenge as challenge;

use crate::fault::ClientFault;
use hdl_auth::{digest, mac};
use hdl_limits::{MESSAGE_MAX, Octets};
use hdl_msg::{ContentView, Digest, Header, ReplyView, RequestBody, request_len, write_request};
use hdl_value::{HS_SECKEY, Wire};
use std::alloc::{AllocError, Global};

/// A secret key, and the reference to the HS_SECKEY value that holds it at the service. It can't be printed.
#[derive(Drop)]
pub struct Key {
    pub handle: Octets,
    pub index: u32,
    pub secret: Octets,
}

/// The header of a request without flags. Its OpCode is that of the body that it is written with.
pub const PLAIN: Header = Header {
    op_code: 0,
    response_code: 0,
    op_flag: 0,
    serial: 0,
    recursion: 0,
    reserved: 0,
    expiration: 0,
};

/// The message of a request without flags, its values by this layout.
pub fn request_message(
    alloc: Global,
    wire: Wire,
    body: &RequestBody,
) -> Result<Vec<u8>, ClientFault>
    ensures octets { IfOk result (λ v. v.items ≡ requests.request_message wire plain_header body.now) }
    ensures short { IfOk result (λ v. length v.items ≤ MESSAGE_MAX) }
    ensures refused { IfErr result (λ e. (e ≡ Memory) ⊎ ((e ≡ TooLong) × (MESSAGE_MAX < requests.request_length wire body.now))) }
{
    if request_len(wire, body) > MESSAGE_MAX as usize {
        return Err(ClientFault::TooLong);
    }
    Ok(write_request(alloc, wire, PLAIN, body)?)
}

/// The response by a key to the challenge with this nonce, of the request with this digest.
pub fn challenge_response(
    alloc: Global,
    key: &Key,
    nonce: &[u8; 16],
    request_digest: &Digest,
) -> Result<RequestBody, AllocError>
    ensures { IfOk result (λ b. b ≡ response_of key.now nonce.now request_digest.now) }
{
    let proof = mac(key.secret.as_slice(), nonce, request_digest);
    let mut answer = Vec::with_capacity(alloc, 33)?;
    answer.push(proof.algorithm().octet())?;
    answer.extend_from_slice(proof.as_slice())?;
    Ok(RequestBody::Response {
        kind: Octets::new(Vec::from_slice(alloc, HS_SECKEY)?),
        handle: Octets::new(Vec::from_slice(alloc, key.handle.as_slice())?),
        index: key.index,
        answer: Octets::new(answer),
    })
}

/// The octets of a request's message that its digest is made of: header and body, without the empty credential.
pub fn signed_part(message: &[u8]) -> &[u8]
    ensures { result.now ≡ challenge.signed_part message.now }
{
    &message[..message.len().saturating_sub(4)]
}

/// Whether a digest is that of the request with this message.
fn is_digest_of(request_digest: &Digest, message: &[u8]) -> bool
    ensures own { result ≡ true → request_digest.now ≡ digest_of (algorithm_of request_digest.now) (challenge.signed_part message.now) }
    ensures other { result ≡ false → request_digest.now ≢ digest_of (algorithm_of request_digest.now) (challenge.signed_part message.now) }
{
    digest(request_digest.algorithm(), signed_part(message)) == *request_digest
}

/// The message of the response by a key to the challenge with this nonce, of the request with this digest.
fn response_message(
    alloc: Global,
    key: &Key,
    nonce: &[u8; 16],
    request_digest: &Digest,
) -> Result<Vec<u8>, ClientFault>
    ensures octets { IfOk result (λ v. v.items ≡ requests.request_message Profile plain_header (response_of key.now nonce.now request_digest.now)) }
    ensures short { IfOk result (λ v. length v.items ≤ MESSAGE_MAX) }
    ensures refused { IfErr result (λ e. e ≢ OtherChallenge) }
{
    let body = challenge_response(alloc, key, nonce, request_digest)?;
    request_message(alloc, Wire::Profile, &body)
}

/// The message that answers a challenge of the request with this message; None where the reply is no challenge. A challenge whose
/// digest isn't that of the request is refused, since who answers it would sign another request.
pub fn challenge_answer(
    alloc: Global,
    key: &Key,
    message: &[u8],
    reply: &ReplyView<'_>,
) -> Result<Option<Vec<u8>>, ClientFault>
    ensures answers { IfOk result (λ r. MatchOption r
        ((nonce : List ℕ) (digest : Digest) → ¬ (Challenges (reply_seen reply.now) nonce digest))
        (λ v. Answers key.now message.now (reply_seen reply.now) v.items)) }
    ensures short { IfOk result (λ r. IfSome r (λ v. length v.items ≤ MESSAGE_MAX)) }
    ensures other { IfErr result (λ e. e ≡ OtherChallenge → IsOtherChallenge message.now (reply_seen reply.now)) }
{
    let (ContentView::Nonce { nonce }, Some(request_digest)) = (reply.content, &reply.digest) else {
        return Ok(None);
    };
    if !is_digest_of(request_digest, message) {
        return Err(ClientFault::OtherChallenge);
    }
    let answer = response_message(alloc, key, nonce, request_digest)?;
    Ok(Some(answer))
}
