//! A request in words.

use crate::words::naming::operation_name;
use crate::words::printout::Printout;
use crate::words::value::push_value;
use hdl_frame::Envelope;
use hdl_msg::{Body, Numbers, OpFlag, Request, Strings, Values};
use hdl_value_lines::printed_octets;
use std::alloc::AllocError;

/// Adds a line of a word and a handle.
fn push_handle(printout: &mut Printout, word: &str, handle: &[u8]) -> Result<(), AllocError> {
    let name = printed_octets(printout.alloc, handle)?;
    let line = format!(in printout.alloc; "{word} {name}")?;
    printout.push(&line)
}

/// Adds a line of a word, a handle and the values that go with it.
fn push_write(
    printout: &mut Printout,
    word: &str,
    handle: &[u8],
    values: Values<'_>,
) -> Result<(), AllocError> {
    push_handle(printout, word, handle)?;
    for value in values {
        push_value(printout, &value)?;
    }
    Ok(())
}

/// Adds a line for each index.
fn push_indexes(printout: &mut Printout, indexes: Numbers<'_>) -> Result<(), AllocError> {
    for index in indexes {
        let line = format!(in printout.alloc; ";; index {index}")?;
        printout.push(&line)?;
    }
    Ok(())
}

/// Adds a line for each type.
fn push_types(printout: &mut Printout, types: Strings<'_>) -> Result<(), AllocError> {
    for kind in types {
        push_handle(printout, ";; type", kind)?;
    }
    Ok(())
}

/// Adds what is asked for, under the operation's name.
fn push_body(printout: &mut Printout, word: &str, body: &Body<'_>) -> Result<(), AllocError> {
    match body {
        Body::Resolution {
            handle,
            indexes,
            types,
        } => {
            push_handle(printout, word, handle)?;
            push_indexes(printout, *indexes)?;
            push_types(printout, *types)
        }
        Body::Create { handle, values }
        | Body::Add { handle, values }
        | Body::Modify { handle, values } => push_write(printout, word, handle, *values),
        Body::Delete { handle } | Body::List { handle } => push_handle(printout, word, handle),
        Body::Remove { handle, indexes } => {
            push_handle(printout, word, handle)?;
            push_indexes(printout, *indexes)
        }
        Body::Response {
            handle,
            index,
            answer,
            ..
        } => push_response(printout, word, handle, *index, answer),
        Body::SiteInfo { octets } => {
            let line = format!(in printout.alloc; ";; {word}, {} octets", octets.len())?;
            printout.push(&line)
        }
        Body::Other { octets } => {
            let line = format!(in printout.alloc;
                ";; an unknown operation, {} octets",
                octets.len()
            )?;
            printout.push(&line)
        }
    }
}

/// Adds the key and the octets of a response to a challenge.
fn push_response(
    printout: &mut Printout,
    word: &str,
    handle: &[u8],
    index: u32,
    answer: &[u8],
) -> Result<(), AllocError> {
    let name = printed_octets(printout.alloc, handle)?;
    let digits = hex::encode(printout.alloc, answer)?;
    let line = format!(in printout.alloc; "{word} {index}:{name} {digits}")?;
    printout.push(&line)
}

/// Adds a request with the numbers of its envelope: a comment with the numbers and flags, and what it asks for.
pub fn push_request(
    printout: &mut Printout,
    envelope: &Envelope,
    request: &Request<'_>,
) -> Result<(), AllocError> {
    let line = format!(in printout.alloc;
        ";; request {}, session {}",
        envelope.request, envelope.session
    )?;
    printout.push(&line)?;
    if request.header().has(OpFlag::PublicOnly) {
        printout.push(";; public values only")?;
    }
    if request.header().has(OpFlag::ReturnDigest) {
        printout.push(";; with the request's digest in the reply")?;
    }
    push_body(
        printout,
        operation_name(request.header().op_code),
        request.body(),
    )
}
