//! What goes in place of a reply that is too long for its address: the reply of code 2 to the same request.

use hdl_auth::algorithm::Algorithm;
use hdl_frame::{ENVELOPE_LEN, Envelope};
use hdl_limits::MESSAGE_MAX;
use hdl_msg::{
    Digest, Header, OpFlag, Reply, ReplyContent, ResponseCode, answer_header, reply_len,
    write_reply,
};
use hdl_value::{octet_at, u16_at, u32_at};
use std::alloc::Global;

/// The header at the front of a message, and its body, of which the message may have a beginning alone.
fn header_and_body(message: &[u8]) -> Option<(Header, &[u8])> {
    let (op_code, rest) = u32_at(message)?;
    let (response_code, rest) = u32_at(rest)?;
    let (op_flag, rest) = u32_at(rest)?;
    let (serial, rest) = u16_at(rest)?;
    let (recursion, rest) = octet_at(rest)?;
    let (reserved, rest) = octet_at(rest)?;
    let (expiration, rest) = u32_at(rest)?;
    let (_, body) = u32_at(rest)?;
    let header = Header {
        op_code,
        response_code,
        op_flag,
        serial,
        recursion,
        reserved,
        expiration,
    };
    Some((header, body))
}

/// The digest at the front of a body.
fn digest_at(body: &[u8]) -> Option<Digest> {
    let (first, rest) = octet_at(body)?;
    if first == Algorithm::Sha1.octet() {
        return Some(Digest::Sha1(*rest.first_chunk::<20>()?));
    }
    if first == Algorithm::Sha256.octet() {
        return Some(Digest::Sha256(*rest.first_chunk::<32>()?));
    }
    None
}

/// The one datagram in place of a reply that begins with this one. None where it is no beginning of a reply, or memory is refused.
pub fn too_long_reply(alloc: Global, first: &[u8]) -> Option<Vec<u8>> {
    let (envelope, message) = first.split_first_chunk::<ENVELOPE_LEN>()?;
    let envelope = Envelope::read(envelope);
    let (header, body) = header_and_body(message)?;
    let reply = Reply {
        session: envelope.session,
        request: envelope.request,
        header: Header {
            expiration: header.expiration,
            ..answer_header(header, ResponseCode::Error.number())
        },
        digest: if header.has(OpFlag::ReturnDigest) {
            Some(digest_at(body)?)
        } else {
            None
        },
        content: ReplyContent::Empty,
    };
    if reply_len(&reply) > MESSAGE_MAX as usize {
        return None;
    }
    write_reply(alloc, &reply).ok()
}
