//! Requests, written in the grammar that they are read in.

ghost use Rattle.std.specs.Prelude.{◌≡◌, ◌≤◌, ◌<◌, ◌^◌, ◌++◌, length, IfOk, OnOk};
ghost use Rattle.std.specs.List.{AllByRecursion};
ghost use Rattle.hdl_value.specs.Spelling.{string, CanBeSpelt};
ghost use Rattle.hdl_value.specs.Wires.{wire_spelling};
ghost use Rattle.hdl_msg.specs.Message.{SpellsRequest, body, count_prefixed, number};
ghost use Rattle.hdl_msg.specs.RequestBody.{requested_operation, request_read, request_message, request_length, CanBeRequested};

use crate::fields::{Header, put_header};
use crate::lengths::OVERHEAD;
use crate::replies::{put_handles, put_values};
use crate::request_body::RequestBody;
use crate::request_fits::{body_fits, header_fits};
use crate::request_lengths::request_len;
use hdl_limits::{MESSAGE_MAX, Octets};
use hdl_value::{Value, Wire, put_string, put_u32};
use std::alloc::{AllocError, Global};

fn put_numbers(out: &mut Vec<u8>, numbers: &[u32]) -> Result<(), AllocError>
    requires { length numbers.now < 2 ^ 32 }
    ensures { OnOk result (out.new.items ≡ out.old.items ++ count_prefixed number numbers.now) }
{
    put_u32(out, numbers.len() as u32)?;
    for number in numbers {
        put_u32(out, *number)?;
    }
    Ok(())
}

fn put_write(
    out: &mut Vec<u8>,
    wire: Wire,
    handle: &[u8],
    values: &[Value],
) -> Result<(), AllocError>
    requires handle { length handle.now < 2 ^ 32 }
    requires count { length values.now < 2 ^ 32 }
    requires each { AllByRecursion CanBeSpelt values.now }
    ensures { OnOk result (out.new.items ≡ out.old.items ++ (string handle.now ++ count_prefixed (wire_spelling wire) values.now)) }
{
    put_string(out, handle)?;
    put_values(out, wire, values)
}

fn put_resolution(
    out: &mut Vec<u8>,
    handle: &[u8],
    indexes: &[u32],
    types: &[Octets],
) -> Result<(), AllocError>
    requires handle { length handle.now < 2 ^ 32 }
    requires indexes { length indexes.now < 2 ^ 32 }
    requires types { length types.now < 2 ^ 32 }
    requires each { AllByRecursion (λ octets. length octets < 2 ^ 32) types.now }
    ensures { OnOk result (out.new.items ≡ out.old.items ++ (string handle.now ++ (count_prefixed number indexes.now ++ count_prefixed string types.now))) }
{
    put_string(out, handle)?;
    put_numbers(out, indexes)?;
    put_handles(out, types)
}

fn put_response(
    out: &mut Vec<u8>,
    kind: &[u8],
    handle: &[u8],
    index: u32,
    answer: &[u8],
) -> Result<(), AllocError>
    requires kind { length kind.now < 2 ^ 32 }
    requires handle { length handle.now < 2 ^ 32 }
    requires answer { length answer.now < 2 ^ 32 }
    ensures { OnOk result (out.new.items ≡ out.old.items ++ (string kind.now ++ (string handle.now ++ (number index ++ string answer.now)))) }
{
    put_string(out, kind)?;
    put_string(out, handle)?;
    put_u32(out, index)?;
    put_string(out, answer)
}

fn put_body(out: &mut Vec<u8>, wire: Wire, asked: &RequestBody) -> Result<(), AllocError>
    requires { CanBeRequested asked.now }
    ensures { OnOk result (out.new.items ≡ out.old.items ++ body wire (requested_operation asked.now)) }
{
    match asked {
        RequestBody::Resolution {
            handle,
            indexes,
            types,
        } => put_resolution(out, handle.as_slice(), indexes.as_slice(), types.as_slice()),
        RequestBody::Create { handle, values }
        | RequestBody::Add { handle, values }
        | RequestBody::Modify { handle, values } => {
            put_write(out, wire, handle.as_slice(), values.as_slice())
        }
        RequestBody::Delete { handle } | RequestBody::List { handle } => {
            put_string(out, handle.as_slice())
        }
        RequestBody::Remove { handle, indexes } => {
            put_string(out, handle.as_slice())?;
            put_numbers(out, indexes.as_slice())
        }
        RequestBody::Response {
            kind,
            handle,
            index,
            answer,
        } => put_response(
            out,
            kind.as_slice(),
            handle.as_slice(),
            *index,
            answer.as_slice(),
        ),
    }
}

/// The one spelling of a request, as `read_request` reads it (RFC 3652, section 2.2, in our profile): the header with the
/// operation's code, BodyLength, the body with its values by the layout, and an empty credential. Of `header` all but the OpCode is taken as it is. The octets
/// before the last four are those of which a digest is made.
///
/// The caller knows, by `request_len`, that the message has at most 65,536 octets. All memory is asked for at once, before
/// anything is written. The envelope that makes a frame of the message is `hdl_frame`'s.
pub fn write_request(
    alloc: Global,
    wire: Wire,
    header: Header,
    body: &RequestBody,
) -> Result<Vec<u8>, AllocError>
    requires short { request_length wire body.now ≤ MESSAGE_MAX }
    ensures spelt { IfOk result (λ v. SpellsRequest wire v.items (request_read wire header body.now)) }
    ensures octets { IfOk result (λ v. v.items ≡ request_message wire header body.now) }
    ensures length { IfOk result (λ v. length v.items ≡ request_length wire body.now) }
{
    let len = request_len(wire, body);
    let mut out = Vec::with_capacity(alloc, len)?;
    let header = Header {
        op_code: body.op_code().number(),
        ..header
    };
    header_fits(header);
    put_header(&mut out, header)?;
    put_u32(&mut out, (len - OVERHEAD) as u32)?;
    body_fits(wire, body);
    put_body(&mut out, wire, body)?;
    put_u32(&mut out, 0)?;
    Ok(out)
}
