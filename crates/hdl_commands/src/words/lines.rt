//! Lines of octets in words.

use crate::sites::push_site;
use crate::words::printout::Printout;
use crate::words::reply::push_reply;
use crate::words::request::push_request;
use crate::words::value::push_value;
use hdl_frame::{Frame, one_datagram};
use hdl_msg::{read_reply, read_request};
use hdl_site::read_site;
use hdl_value::{Wire, cut_value};
use std::alloc::AllocError;

/// Adds a frame: a request or a reply, whichever its message is, or a piece of one.
fn push_frame(
    printout: &mut Printout,
    wire: Wire,
    frame: &Frame<'_>,
    is_reply: bool,
) -> Result<(), AllocError> {
    let envelope = &frame.envelope;
    if envelope.is_truncated() {
        let line = format!(in printout.alloc;
            ";; piece {} of message {}, session {}, of {} octets",
            envelope.sequence, envelope.request, envelope.session, envelope.length
        )?;
        return printout.push(&line);
    }
    let message = frame.payload();
    if !is_reply {
        return match read_request(wire, message) {
            Ok(request) => push_request(printout, envelope, &request),
            Err(_) => printout.push(";; a frame, but its message is no request"),
        };
    }
    match read_reply(wire, message) {
        Ok(reply) => push_reply(printout, envelope, &reply, None),
        Err(_) => printout.push(";; a frame, but its message is no reply"),
    }
}

fn push_octets(
    printout: &mut Printout,
    wire: Wire,
    octets: &[u8],
    is_reply: bool,
) -> Result<(), AllocError> {
    match one_datagram(octets) {
        Ok(frame) => push_frame(printout, wire, &frame, is_reply),
        Err(fault) => {
            let line = format!(in printout.alloc; ";; no frame: {fault}")?;
            printout.push(&line)
        }
    }
}

fn push_digits(
    printout: &mut Printout,
    wire: Wire,
    digits: &str,
    is_reply: bool,
) -> Result<(), AllocError> {
    match hex::decode(printout.alloc, digits) {
        Ok(octets) => push_octets(printout, wire, &octets, is_reply),
        Err(_) => printout.push(";; no hexadecimal digits"),
    }
}

/// Adds a line of a tenants text with its value in words.
fn push_row(printout: &mut Printout, handle: &str, digits: &str) -> Result<(), AllocError> {
    let line = format!(in printout.alloc; "value {handle}")?;
    printout.push(&line)?;
    let Ok(octets) = hex::decode(printout.alloc, digits) else {
        return printout.push(";; no hexadecimal digits");
    };
    match cut_value(&octets) {
        Some((cut, [])) => push_value(printout, &cut),
        _ => printout.push(";; no value"),
    }
}

/// Adds a line of a tenants text with its site information in words.
fn push_site_row(printout: &mut Printout, publisher: &str, digits: &str) -> Result<(), AllocError> {
    let line = format!(in printout.alloc; "site {publisher}")?;
    printout.push(&line)?;
    let Ok(octets) = hex::decode(printout.alloc, digits) else {
        return printout.push(";; no hexadecimal digits");
    };
    match read_site(printout.alloc, &octets)? {
        Some(site) => push_site(printout, &site),
        None => printout.push(";; no data of an HS_SITE value"),
    }
}

/// Whether octets alone are those of a reply: its code isn't 0, as that of a request is.
fn is_reply(printout: &Printout, digits: &str) -> bool {
    match hex::decode(printout.alloc, digits) {
        Ok(octets) => match octets.get(24..28) {
            Some(code) => code.iter().any(|octet| *octet != 0),
            None => false,
        },
        Err(_) => false,
    }
}

/// Adds what a script says of a frame, and the frame.
fn push_event(
    printout: &mut Printout,
    wire: Wire,
    lane: &str,
    peer: &str,
    moment: &str,
    digits: &str,
) -> Result<(), AllocError> {
    let said = format!(in printout.alloc; ";; lane {lane}, peer {peer}, moment {moment}")?;
    printout.push(&said)?;
    push_digits(printout, wire, digits, false)
}

/// Adds what `handled` says of a reply, and the reply.
fn push_outcome(
    printout: &mut Printout,
    wire: Wire,
    lane: &str,
    what: &str,
    digits: &str,
) -> Result<(), AllocError> {
    let said = format!(in printout.alloc; ";; lane {lane}: {what}")?;
    printout.push(&said)?;
    push_digits(printout, wire, digits, true)
}

/// Adds what a line with these fields says.
fn push_fields(
    printout: &mut Printout,
    wire: Wire,
    line: &str,
    fields: &[&str],
) -> Result<(), AllocError> {
    match fields {
        ["value", handle, digits] => push_row(printout, handle, digits),
        ["site", publisher, digits] => push_site_row(printout, publisher, digits),
        ["frame", lane, peer, moment, _, digits] => push_event(
            printout, wire, lane, peer, moment, digits,
        ),
        [lane, what, digits] if matches!(*what, "reply" | "busy" | "close") => {
            push_outcome(printout, wire, lane, what, digits)
        }
        [digits] if digits.len() >= 40 => {
            push_digits(printout, wire, digits, is_reply(printout, digits))
        }
        _ => printout.push(line),
    }
}

/// Adds what a line says: a line of a script or of what `handled` prints, or the digits of a frame alone. Any other line stays as it is. The values of
/// messages stand by this layout, those of lines `value` by our profile's.
pub fn explain(printout: &mut Printout, wire: Wire, line: &str) -> Result<(), AllocError> {
    let fields: Vec<&str> = line.split(' ').collect(printout.alloc)?;
    push_fields(printout, wire, line, &fields)
}
