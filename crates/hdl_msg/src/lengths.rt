//! How long a reply is, without writing it. The greatest number stands for those that are more, so no sum can wrap.

ghost use Rattle.std.specs.Prelude.{◌≡◌, length};
ghost use Rattle.hdl_value.specs.Spelling.{string, references};
ghost use Rattle.hdl_value.specs.Wires.{wire_spelling};
ghost use Rattle.hdl_msg.specs.Message.{count_prefixed};
ghost use Rattle.hdl_msg.specs.Reply.{content_octets, digest_octets, reply_message, fixed_length};
ghost use Rattle.hdl_limits.specs.Counts.{at_most_u64};

use crate::replies::{Reply, ReplyContent};
use hdl_auth::algorithm::Digest;
use hdl_limits::Octets;
use hdl_value::{RawRef, Value, Wire};

/// Octets of a message beside its body: the header's 24, and the credential's length.
pub(crate) const OVERHEAD: usize = 28;

pub(crate) fn string_len(octets: &[u8]) -> usize
    ensures { result ≡ at_most_u64 (length (string octets.now)) }
{
    octets.len().saturating_add(4)
}

fn references_len(refs: &[RawRef]) -> usize
    ensures { result ≡ at_most_u64 (length (references refs.now)) }
{
    let mut total: usize = 4;
    for r in refs {
        let handle = string_len(r.handle.as_slice());
        total = total.saturating_add(handle.saturating_add(4));
    }
    total
}

/// How many octets stand in a value's layout beside strings, references and TTL.
fn fixed_len(wire: Wire) -> usize
    ensures { result ≡ fixed_length wire }
{
    match wire {
        Wire::Profile => 13,
        Wire::HandleNet => 9,
    }
}

fn value_len(wire: Wire, value: &Value) -> usize
    ensures { result ≡ at_most_u64 (length (wire_spelling wire value.now)) }
{
    let kind = string_len(value.kind.as_slice());
    let bytes = string_len(value.bytes.as_slice());
    let refs = references_len(value.references.as_slice());
    let ttl: &[u8] = &value.ttl;
    kind.saturating_add(bytes)
        .saturating_add(refs)
        .saturating_add(ttl.len())
        .saturating_add(fixed_len(wire))
}

pub(crate) fn values_len(wire: Wire, values: &[Value]) -> usize
    ensures { result ≡ at_most_u64 (length (count_prefixed (wire_spelling wire) values.now)) }
{
    let mut total: usize = 4;
    for value in values {
        total = total.saturating_add(value_len(wire, value));
    }
    total
}

pub(crate) fn handles_len(handles: &[Octets]) -> usize
    ensures { result ≡ at_most_u64 (length (count_prefixed string handles.now)) }
{
    let mut total: usize = 4;
    for handle in handles {
        total = total.saturating_add(string_len(handle.as_slice()));
    }
    total
}

fn digest_len(digest: Option<Digest>) -> usize
    ensures { result ≡ at_most_u64 (length (digest_octets digest)) }
{
    match digest {
        Some(digest) => digest.as_slice().len().saturating_add(1),
        None => 0,
    }
}

fn content_len(content: &ReplyContent) -> usize
    ensures { result ≡ at_most_u64 (length (content_octets content.now)) }
{
    match content {
        ReplyContent::Values {
            wire,
            handle,
            values,
        } => string_len(handle.as_slice()).saturating_add(values_len(*wire, values.as_slice())),
        ReplyContent::Handles { handles } => handles_len(handles.as_slice()),
        ReplyContent::Nothing => 0,
        ReplyContent::Referral { prefix } => prefix.as_slice().len().saturating_add(13),
        ReplyContent::Nonce { nonce } => string_len(nonce),
        ReplyContent::Empty => 4,
        ReplyContent::Site { octets } => octets.as_slice().len(),
    }
}

/// How many octets the message of the reply has, or the greatest `usize` where it has more. It writes nothing, so a caller
/// tests by it whether the reply may be written.
pub fn reply_len(reply: &Reply) -> usize
    ensures { result ≡ at_most_u64 (length (reply_message reply.now)) }
{
    digest_len(reply.digest)
        .saturating_add(content_len(&reply.content))
        .saturating_add(OVERHEAD)
}
