//! A reply in words.

use crate::words::naming::{code_name, operation_name};
use crate::words::printout::Printout;
use crate::words::value::{push_data, push_value};
use hdl_frame::Envelope;
use hdl_msg::{ContentView, Digest, OpCode, ReplyView, Strings, Values};
use hdl_value_lines::printed_octets;
use std::alloc::AllocError;

fn push_values(
    printout: &mut Printout,
    handle: &[u8],
    values: Values<'_>,
) -> Result<(), AllocError> {
    printout.push_octets(handle)?;
    for value in values {
        push_value(printout, &value)?;
    }
    Ok(())
}

fn push_handles(printout: &mut Printout, handles: Strings<'_>) -> Result<(), AllocError> {
    for handle in handles {
        printout.push_octets(handle)?;
    }
    Ok(())
}

fn push_digest(printout: &mut Printout, digest: &Digest) -> Result<(), AllocError> {
    let name = match digest {
        Digest::Sha1(_) => "SHA-1",
        Digest::Sha256(_) => "SHA-256",
    };
    let digits = hex::encode(printout.alloc, digest.as_slice())?;
    let line = format!(in printout.alloc; ";; digest {name} {digits}")?;
    printout.push(&line)
}

fn push_content(printout: &mut Printout, content: ContentView<'_>) -> Result<(), AllocError> {
    match content {
        ContentView::Values { handle, values } => push_values(printout, handle, values),
        ContentView::Handles { handles } => push_handles(printout, handles),
        ContentView::Referral { prefix } => {
            let name = printed_octets(printout.alloc, prefix)?;
            let line = format!(in printout.alloc; ";; ask the service of 0.NA/{name}")?;
            printout.push(&line)
        }
        ContentView::Nonce { nonce } => {
            let digits = hex::encode(printout.alloc, nonce.as_slice())?;
            let line = format!(in printout.alloc; ";; nonce {digits}")?;
            printout.push(&line)
        }
        ContentView::Site { octets } => {
            let digits = hex::encode(printout.alloc, octets)?;
            let line = format!(in printout.alloc; ";; site information {digits}")?;
            printout.push(&line)
        }
        ContentView::Nothing | ContentView::Empty => Ok(()),
    }
}

/// The operation of a reply: the one that was asked, if it is known and the reply has none.
fn operation_of(reply: &ReplyView<'_>, asked: Option<OpCode>) -> &'static str {
    let number = reply.header.op_code;
    match (OpCode::of(number), asked) {
        (None, Some(operation)) => operation_name(operation.number()),
        _ => operation_name(number),
    }
}

/// Adds a reply with the numbers of its envelope: a comment with the numbers, the operation and the code, and what it carries. The operation
/// that was asked stands there if it is known and the reply has none.
pub fn push_reply(
    printout: &mut Printout,
    envelope: &Envelope,
    reply: &ReplyView<'_>,
    asked: Option<OpCode>,
) -> Result<(), AllocError> {
    let code = reply.header.response_code;
    let line = format!(in printout.alloc;
        ";; reply to {} {}, session {}: {code} {}",
        operation_of(reply, asked),
        envelope.request,
        envelope.session,
        code_name(code)
    )?;
    printout.push(&line)?;
    if let Some(digest) = &reply.digest {
        push_digest(printout, digest)?;
    }
    push_content(printout, reply.content)
}

/// Adds only what was asked for, an item a line: of values the data, of a list the handles.
pub fn push_short_reply(printout: &mut Printout, reply: &ReplyView<'_>) -> Result<(), AllocError> {
    match reply.content {
        ContentView::Values { values, .. } => {
            for value in values {
                push_data(printout, &value)?;
            }
            Ok(())
        }
        ContentView::Handles { handles } => push_handles(printout, handles),
        _ => Ok(()),
    }
}
