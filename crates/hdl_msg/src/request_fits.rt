//! What the types of a request's parts say of them: they fit their fields.

ghost use Rattle.std.specs.Prelude.{◌≡◌, ◌<◌, ◌^◌, length};
ghost use Rattle.std.specs.List.{AllByRecursion};
ghost use Rattle.std.specs.Prelude.{map};
ghost use Rattle.hdl_value.specs.Spelling.{Fits, IsString, CanBeSpelt};
ghost use Rattle.hdl_value.specs.Wires.{WireFits, wire_seen};
ghost use Rattle.hdl_msg.specs.Message.{IsNumber, HeaderFits, OperationFits};
ghost use Rattle.hdl_msg.specs.RequestBody.{requested_operation, operation_read, CanBeRequested};

use crate::fields::Header;
use crate::request_body::RequestBody;
use hdl_limits::Octets;
use hdl_value::{Value, Wire, number_fits, string_fits, value_fits};

fn octet_fits(octet: u8)
    ensures { octet < 2 ^ 8 }
{
    let _ = octet;
}

fn serial_fits(serial: u16)
    ensures { serial < 2 ^ 16 }
{
    let _ = serial;
}

/// The numbers of a header fit its fields.
pub(crate) fn header_fits(header: Header)
    ensures { HeaderFits header }
{
    number_fits(header.op_code);
    number_fits(header.response_code);
    number_fits(header.op_flag);
    serial_fits(header.serial);
    octet_fits(header.recursion);
    octet_fits(header.reserved);
    number_fits(header.expiration);
}

fn numbers_fit(numbers: &[u32])
    ensures { AllByRecursion IsNumber numbers.now }
{
    for number in numbers {
        number_fits(*number);
    }
}

pub(crate) fn strings_fit(strings: &[Octets])
    requires { AllByRecursion (λ octets. length octets < 2 ^ 32) strings.now }
    ensures { AllByRecursion IsString strings.now }
{
    for string in strings {
        string_fits(string.as_slice());
    }
}

fn all_fit(values: &[Value])
    requires { AllByRecursion CanBeSpelt values.now }
    ensures { AllByRecursion Fits values.now }
{
    for value in values {
        value_fits(value);
    }
}

/// Values as their layout says them fit their fields, where lengths and counts do.
pub(crate) fn values_fit(wire: Wire, values: &[Value])
    requires { AllByRecursion CanBeSpelt values.now }
    ensures { AllByRecursion (WireFits wire) (map (wire_seen wire) values.now) }
{
    let _ = wire;
    all_fit(values);
}

/// The parts of a body fit their fields, where its lengths and counts do.
pub(crate) fn body_fits(wire: Wire, body: &RequestBody)
    requires { CanBeRequested body.now }
    ensures { OperationFits wire (operation_read wire (requested_operation body.now)) }
{
    match body {
        RequestBody::Resolution {
            handle,
            indexes,
            types,
        } => {
            string_fits(handle.as_slice());
            numbers_fit(indexes.as_slice());
            strings_fit(types.as_slice());
        }
        RequestBody::Create { handle, values }
        | RequestBody::Add { handle, values }
        | RequestBody::Modify { handle, values } => {
            string_fits(handle.as_slice());
            values_fit(wire, values.as_slice());
        }
        RequestBody::Delete { handle } | RequestBody::List { handle } => {
            string_fits(handle.as_slice());
        }
        RequestBody::Remove { handle, indexes } => {
            string_fits(handle.as_slice());
            numbers_fit(indexes.as_slice());
        }
        RequestBody::Response {
            kind,
            handle,
            index,
            answer,
        } => {
            string_fits(kind.as_slice());
            string_fits(handle.as_slice());
            number_fits(*index);
            string_fits(answer.as_slice());
        }
    }
}
