//! What a reply is about.

ghost use Rattle.std.specs.Prelude.{◌≡◌, ◌≢◌, ◌↔◌, IsTrue, All, IfOk, IfErr, OnOk, MatchOption};
ghost use Rattle.hdl_name.specs.Name.{IsHandle};
ghost use Rattle.hdl_msg.specs.declared.replies.ReplyContent.TheVariants.{Handles, Referral};
ghost use Rattle.hdl_msg.specs.Reply.{content_seen, reply_seen};
ghost use Rattle.hdl_msg.specs.Views.{operation_of, strings_of};
ghost use Rattle.hdl_client.specs.About.{named_handle, IsUnder, IsOf, IsAbout, IsAnswerTo};
ghost use Rattle.hdl_client.specs.declared.fault.ClientFault.TheVariants.{OtherHandle};

use crate::fault::ClientFault;
use hdl_msg::{Body, ContentView, ReplyView, ResponseCode, Strings, read_request};
use hdl_name::{Name, NameFault};
use hdl_value::Wire;
use std::alloc::{AllocError, Global};

/// The name that these octets are, if they are one.
fn name_of(alloc: Global, octets: &[u8]) -> Result<Option<Name>, AllocError>
    ensures { IfOk result (λ found. MatchOption found (¬ (IsHandle octets.now)) (λ name. (name ≡ octets.now) × IsHandle octets.now)) }
{
    match Name::read(alloc, octets) {
        Ok(name) => Ok(Some(name)),
        Err(NameFault::Memory) => Err(AllocError),
        Err(_) => Ok(None),
    }
}

fn is_under(alloc: Global, prefix: &[u8], handle: &[u8]) -> Result<bool, AllocError>
    ensures { IfOk result (λ is. IsTrue is ↔ IsUnder prefix.now handle.now) }
{
    match name_of(alloc, handle)? {
        Some(name) => Ok(name.prefix() == prefix),
        None => Ok(false),
    }
}

fn are_under(alloc: Global, prefix: &[u8], mut handles: Strings<'_>) -> Result<bool, AllocError>
    ensures { IfOk result (λ are. IsTrue are ↔ All (IsUnder prefix.now) (strings_of handles.entry)) }
{
    while let Some(handle) = handles.next() {
        if !is_under(alloc, prefix, handle)? {
            return Ok(false);
        }
    }
    Ok(true)
}

/// Whether these are handles of the prefix that a handle has.
fn are_listed_by(alloc: Global, handle: &[u8], handles: Strings<'_>) -> Result<bool, AllocError>
    ensures { IfOk result (λ are. IsTrue are ↔ IsOf handle.now (Handles (strings_of handles.entry))) }
{
    let Some(name) = name_of(alloc, handle)? else {
        return Ok(false);
    };
    let are = are_under(alloc, name.prefix(), handles)?;
    Ok(are)
}

/// Whether this is the prefix of a handle, as it was sent.
fn is_prefix_of(alloc: Global, handle: &[u8], prefix: &[u8]) -> Result<bool, AllocError>
    ensures { IfOk result (λ is. IsTrue is ↔ IsOf handle.now (Referral prefix.now)) }
{
    match name_of(alloc, handle)? {
        Some(name) => Ok(name.prefix_sent() == prefix),
        None => Ok(false),
    }
}

fn is_of(alloc: Global, handle: &[u8], content: ContentView<'_>) -> Result<bool, AllocError>
    ensures { IfOk result (λ is. IsTrue is ↔ IsOf handle.now (content_seen content.entry)) }
{
    match content {
        ContentView::Values { handle: named, .. } => Ok(named == handle),
        ContentView::Handles { handles } => Ok(are_listed_by(alloc, handle, handles)?),
        ContentView::Referral { prefix } => is_prefix_of(alloc, handle, prefix),
        ContentView::Nothing
        | ContentView::Nonce { .. }
        | ContentView::Empty
        | ContentView::Site { .. } => Ok(true),
    }
}

/// Refuses a reply that is about another operation or another handle.
fn check_about(
    alloc: Global,
    operation: u32,
    handle: &[u8],
    reply: &ReplyView<'_>,
) -> Result<(), ClientFault>
    ensures about { OnOk result (IsAbout operation handle.now (reply_seen reply.now)) }
    ensures other { IfErr result (λ e. e ≡ OtherHandle → ¬ (IsOf handle.now (content_seen reply.now.content))) }
{
    let header = reply.header;
    if header.response_code == ResponseCode::Success.number() && header.op_code != operation {
        return Err(ClientFault::OtherRequest);
    }
    if !is_of(alloc, handle, reply.content)? {
        return Err(ClientFault::OtherHandle);
    }
    Ok(())
}

pub(crate) fn named_handle<'m>(body: &Body<'m>) -> &'m [u8]
    ensures { result.now ≡ named_handle (operation_of body.now) }
{
    match body {
        Body::Resolution { handle, .. } => handle,
        Body::Create { handle, .. } => handle,
        Body::Delete { handle } => handle,
        Body::Add { handle, .. } => handle,
        Body::Remove { handle, .. } => handle,
        Body::Modify { handle, .. } => handle,
        Body::List { handle } => handle,
        Body::Response { handle, .. } => handle,
        Body::SiteInfo { .. } | Body::Other { .. } => b"",
    }
}

/// Refuses a reply that isn't about what the request with this message asks. The request's values stand by this layout.
pub(crate) fn check_answer(
    alloc: Global,
    wire: Wire,
    message: &[u8],
    reply: &ReplyView<'_>,
) -> Result<(), ClientFault>
    ensures { OnOk result (IsAnswerTo wire message.now (reply_seen reply.now)) }
{
    let Ok(request) = read_request(wire, message) else {
        return Err(ClientFault::OtherRequest);
    };
    let handle = named_handle(request.body());
    check_about(alloc, request.header().op_code, handle, reply)
}
