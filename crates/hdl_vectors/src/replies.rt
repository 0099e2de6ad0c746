//! Replies, as they are read and as they are written.

use crate::digests::put_digest;
use crate::frames::envelope_of;
use crate::octets::{put_hex, put_text, unread};
use crate::requests::{copy_of, put_header, put_texts, put_values, texts_of, values_of};
use hdl_frame::{ENVELOPE_LEN, Envelope};
use hdl_limits::MESSAGE_MAX;
use hdl_msg::{
    ContentView, Reply, ReplyContent, ReplyView, busy, read_reply, refuse, reply_len, write_reply,
};
use hdl_value::Wire;
use std::alloc::{AllocError, Global};
use std::io;

/// Prints what a reply's body says behind its digest.
fn put_content(rt: &HostRuntime, content: ContentView<'_>) -> io::Result<()> {
    match content {
        ContentView::Values { handle, values } => {
            put_text(rt, "values of", handle)?;
            put_values(rt, values)
        }
        ContentView::Handles { handles } => put_texts(rt, "handle", handles),
        ContentView::Nothing => println!(rt; "  nothing"),
        ContentView::Referral { prefix } => put_text(rt, "referral to", prefix),
        ContentView::Nonce { nonce } => put_hex(rt, "nonce", nonce),
        ContentView::Empty => println!(rt; "  empty"),
        ContentView::Site { octets } => put_hex(rt, "site", octets),
    }
}

/// The content to write that says what another does.
fn content_of(
    alloc: Global,
    wire: Wire,
    content: ContentView<'_>,
) -> Result<ReplyContent, AllocError> {
    Ok(match content {
        ContentView::Values { handle, values } => ReplyContent::Values {
            wire,
            handle: copy_of(alloc, handle)?,
            values: values_of(alloc, values)?,
        },
        ContentView::Handles { handles } => ReplyContent::Handles {
            handles: texts_of(alloc, handles)?,
        },
        ContentView::Nothing => ReplyContent::Nothing,
        ContentView::Referral { prefix } => ReplyContent::Referral {
            prefix: copy_of(alloc, prefix)?,
        },
        ContentView::Nonce { nonce } => {
            let nonce = *nonce;
            ReplyContent::Nonce { nonce }
        }
        ContentView::Site { octets } => ReplyContent::Site {
            octets: copy_of(alloc, octets)?,
        },
        ContentView::Empty => ReplyContent::Empty,
    })
}

/// Prints a reply as it is written.
fn put_written(rt: &HostRuntime, reply: &Reply) -> io::Result<()> {
    let len = reply_len(reply);
    println!(rt; "  message of {len} octets")?;
    if len > MESSAGE_MAX as usize {
        return Ok(());
    }
    put_hex(rt, "written", &write_reply(rt.alloc(), reply)?)
}

/// Prints what a reply says.
fn put_view(rt: &HostRuntime, reply: ReplyView<'_>) -> io::Result<()> {
    put_header(rt, reply.header)?;
    match reply.code() {
        Some(code) => println!(rt; "  {code:?}")?,
        None => println!(rt; "  no code")?,
    }
    match reply.digest {
        Some(digest) => put_digest(rt, &digest)?,
        None => println!(rt; "  no digest")?,
    }
    put_content(rt, reply.content)
}

/// Prints what a reply says, and its frame as it is written to the request of this envelope.
fn put_both(rt: &HostRuntime, wire: Wire, came: Envelope, view: ReplyView<'_>) -> io::Result<()> {
    put_view(rt, view)?;
    let reply = Reply {
        session: came.session,
        request: came.request,
        header: view.header,
        digest: view.digest,
        content: content_of(rt.alloc(), wire, view.content)?,
    };
    put_written(rt, &reply)
}

/// Prints what the reply in a frame says whose values have this layout.
pub fn put_reply(rt: &HostRuntime, wire: Wire, frame: &[u8]) -> io::Result<()> {
    let Some((came, message)) = frame.split_at_checked(ENVELOPE_LEN) else {
        return Err(unread());
    };
    let came = envelope_of(came)?;
    match read_reply(wire, message) {
        Ok(reply) => put_both(rt, wire, came, reply),
        Err(fault) => println!(rt; "  {fault}"),
    }
}

/// Prints the answers to an envelope that are given without a decision.
pub fn put_short_replies(rt: &HostRuntime, octets: &[u8]) -> io::Result<()> {
    let came = envelope_of(octets)?;
    put_hex(rt, "refused", &refuse(&came))?;
    put_hex(rt, "busy", &busy(&came))
}
