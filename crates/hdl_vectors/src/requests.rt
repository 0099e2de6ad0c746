//! Requests, as they are read and as they are written.

use crate::octets::{put_hex, put_text};
use crate::values::put_spelling;
use hdl_limits::{Items, MESSAGE_MAX, Octets};
use hdl_msg::{
    Body, Header, Numbers, OpCode, OpFlag, RequestBody, ResponseCode, Strings, Values,
    answer_header, read_request, request_len, write_request,
};
use hdl_value::{Value, Wire};
use std::alloc::{AllocError, Global};
use std::io;

/// Prints the fields of a header.
pub fn put_header(rt: &HostRuntime, header: Header) -> io::Result<()> {
    println!(rt;
        "  operation {}, code {}",
        header.op_code, header.response_code
    )?;
    println!(rt; "  flags {:08x}", header.op_flag)?;
    println!(rt;
        "  serial {}, recursion {}",
        header.serial, header.recursion
    )?;
    println!(rt;
        "  reserved {}, expiration {}",
        header.reserved, header.expiration
    )
}

/// Prints what the header of a request says, and the header of an answer to it with code 2.
fn put_headers(rt: &HostRuntime, header: Header) -> io::Result<()> {
    put_header(rt, header)?;
    match OpCode::of(header.op_code) {
        Some(operation) => println!(rt; "  {operation:?}")?,
        None => println!(rt; "  no operation")?,
    }
    println!(rt; "  public only {}", header.has(OpFlag::PublicOnly))?;
    println!(rt; "  and its answer:")?;
    put_header(rt, answer_header(header, ResponseCode::Error.number()))
}

/// Prints each index of a list.
fn put_indexes(rt: &HostRuntime, indexes: Numbers<'_>) -> io::Result<()> {
    for index in indexes {
        println!(rt; "  index {index}")?;
    }
    Ok(())
}

/// Prints each text of a list behind a word.
pub fn put_texts(rt: &HostRuntime, word: &str, texts: Strings<'_>) -> io::Result<()> {
    for text in texts {
        put_text(rt, word, text)?;
    }
    Ok(())
}

/// Prints the octets of each value of a list, in the profile's layout.
pub fn put_values(rt: &HostRuntime, values: Values<'_>) -> io::Result<()> {
    for value in values {
        put_spelling(rt, "value", &value)?;
    }
    Ok(())
}

/// Prints the lists of a resolution, or of a removal.
fn put_lists(rt: &HostRuntime, body: &Body<'_>) -> io::Result<()> {
    match *body {
        Body::Resolution { indexes, types, .. } => {
            put_indexes(rt, indexes)?;
            put_texts(rt, "type", types)
        }
        Body::Remove { indexes, .. } => put_indexes(rt, indexes),
        Body::Create { values, .. } | Body::Add { values, .. } | Body::Modify { values, .. } => {
            put_values(rt, values)
        }
        Body::Response {
            kind,
            index,
            answer,
            ..
        } => {
            put_text(rt, "type", kind)?;
            println!(rt; "  index {index}")?;
            put_hex(rt, "answer", answer)
        }
        Body::Delete { .. } | Body::List { .. } => Ok(()),
        Body::SiteInfo { octets } | Body::Other { octets } => put_hex(rt, "other", octets),
    }
}

/// The handle that a body names.
fn handle_of<'a>(body: &Body<'a>) -> &'a [u8] {
    match *body {
        Body::Resolution { handle, .. }
        | Body::Create { handle, .. }
        | Body::Delete { handle }
        | Body::Add { handle, .. }
        | Body::Remove { handle, .. }
        | Body::Modify { handle, .. }
        | Body::List { handle }
        | Body::Response { handle, .. } => handle,
        Body::SiteInfo { .. } | Body::Other { .. } => b"",
    }
}

/// A copy of octets.
pub fn copy_of(alloc: Global, octets: &[u8]) -> Result<Octets, AllocError> {
    Ok(Octets::new(Vec::from_slice(alloc, octets)?))
}

/// Copies of the texts of a list.
pub fn texts_of(alloc: Global, texts: Strings<'_>) -> Result<Items<Octets>, AllocError> {
    let mut out = Vec::new(alloc);
    for text in texts {
        out.push(copy_of(alloc, text)?)?;
    }
    Ok(Items::new(out))
}

/// The numbers of a list.
fn numbers_of(alloc: Global, numbers: Numbers<'_>) -> Result<Items<u32>, AllocError> {
    let mut out = Vec::new(alloc);
    for number in numbers {
        out.push(number)?;
    }
    Ok(Items::new(out))
}

/// The sound values of a list.
pub fn values_of(alloc: Global, values: Values<'_>) -> Result<Items<Value>, AllocError> {
    let mut out = Vec::new(alloc);
    for value in values {
        if let Ok(value) = value.read(alloc) {
            out.push(value)?;
        }
    }
    Ok(Items::new(out))
}

/// The body to write that says what another does.
fn body_of(alloc: Global, body: &Body<'_>) -> Result<Option<RequestBody>, AllocError> {
    let handle = copy_of(alloc, handle_of(body))?;
    Ok(Some(match *body {
        Body::Resolution { indexes, types, .. } => RequestBody::Resolution {
            handle,
            indexes: numbers_of(alloc, indexes)?,
            types: texts_of(alloc, types)?,
        },
        Body::Create { values, .. } => RequestBody::Create {
            handle,
            values: values_of(alloc, values)?,
        },
        Body::Delete { .. } => RequestBody::Delete { handle },
        Body::Add { values, .. } => RequestBody::Add {
            handle,
            values: values_of(alloc, values)?,
        },
        Body::Remove { indexes, .. } => RequestBody::Remove {
            handle,
            indexes: numbers_of(alloc, indexes)?,
        },
        Body::Modify { values, .. } => RequestBody::Modify {
            handle,
            values: values_of(alloc, values)?,
        },
        Body::List { .. } => RequestBody::List { handle },
        Body::Response {
            kind,
            index,
            answer,
            ..
        } => RequestBody::Response {
            kind: copy_of(alloc, kind)?,
            handle,
            index,
            answer: copy_of(alloc, answer)?,
        },
        Body::SiteInfo { .. } | Body::Other { .. } => return Ok(None),
    }))
}

/// Prints a request as it is written. The header that is given has another operation.
fn put_written(rt: &HostRuntime, wire: Wire, header: Header, body: &RequestBody) -> io::Result<()> {
    let header = Header {
        op_code: 7,
        ..header
    };
    if request_len(wire, body) > MESSAGE_MAX as usize {
        return println!(rt; "  too long");
    }
    put_hex(
        rt,
        "written",
        &write_request(rt.alloc(), wire, header, body)?,
    )
}

/// Prints what a request says whose values have this layout.
pub fn put_request(rt: &HostRuntime, wire: Wire, octets: &[u8]) -> io::Result<()> {
    let request = match read_request(wire, octets) {
        Ok(request) => request,
        Err(fault) => return println!(rt; "  {fault}"),
    };
    put_headers(rt, request.header())?;
    println!(rt; "  signed {} octets", request.signed().len())?;
    put_text(rt, "handle", handle_of(request.body()))?;
    put_lists(rt, request.body())?;
    match body_of(rt.alloc(), request.body())? {
        Some(body) => put_written(rt, wire, request.header(), &body),
        None => Ok(()),
    }
}
