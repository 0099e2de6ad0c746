//! How long a request is, without writing it. The greatest number stands for those that are more, so no sum can wrap.

ghost use Rattle.std.specs.Prelude.{◌≡◌, length};
ghost use Rattle.hdl_msg.specs.Message.{body, count_prefixed, number};
ghost use Rattle.hdl_limits.specs.Counts.{at_most_u64};
ghost use Rattle.hdl_msg.specs.RequestBody.{requested_operation, request_length};

use crate::lengths::{OVERHEAD, handles_len, string_len, values_len};
use crate::request_body::RequestBody;
use hdl_value::Wire;

fn numbers_len(numbers: &[u32]) -> usize
    ensures { result ≡ at_most_u64 (length (count_prefixed number numbers.now)) }
{
    numbers.len().saturating_mul(4).saturating_add(4)
}

fn body_len(wire: Wire, asked: &RequestBody) -> usize
    ensures { result ≡ at_most_u64 (length (body wire (requested_operation asked.now))) }
{
    match asked {
        RequestBody::Resolution {
            handle,
            indexes,
            types,
        } => string_len(handle.as_slice())
            .saturating_add(numbers_len(indexes.as_slice()))
            .saturating_add(handles_len(types.as_slice())),
        RequestBody::Create { handle, values }
        | RequestBody::Add { handle, values }
        | RequestBody::Modify { handle, values } => {
            string_len(handle.as_slice()).saturating_add(values_len(wire, values.as_slice()))
        }
        RequestBody::Delete { handle } | RequestBody::List { handle } => {
            string_len(handle.as_slice())
        }
        RequestBody::Remove { handle, indexes } => {
            string_len(handle.as_slice()).saturating_add(numbers_len(indexes.as_slice()))
        }
        RequestBody::Response {
            kind,
            handle,
            answer,
            ..
        } => string_len(kind.as_slice())
            .saturating_add(string_len(handle.as_slice()))
            .saturating_add(string_len(answer.as_slice()))
            .saturating_add(4),
    }
}

/// How many octets the message of a request with this body has, or the greatest `usize` where it has more. It writes nothing, so
/// a caller tests by it whether the request may be written.
pub fn request_len(wire: Wire, body: &RequestBody) -> usize
    ensures length { result ≡ at_most_u64 (request_length wire body.now) }
{
    body_len(wire, body).saturating_add(OVERHEAD)
}
