//! A request, in the words of the tables of decision.

ghost use Rattle.std.specs.Prelude.{◌≡◌, option_map};
ghost use Rattle.hdl_msg.specs.Views.{operation_of};
ghost use Rattle.hdl_ops.specs.Requests.{response_of, sent_handle, is_unused, resolves, creates, creates_or_deletes, is_list, is_public_only, wants_digest};
ghost use Rattle.hdl_ops.specs.Views.{response_view};

use hdl_msg::{Body, OpFlag, Request};

/// The fields of a challenge response where they stand.
#[derive(Clone, Copy)]
pub struct Response<'a> {
    /// The authentication type.
    pub kind: &'a [u8],
    /// The key's handle.
    pub handle: &'a [u8],
    /// The key's index.
    pub index: u32,
    /// The response string: the octet of a hash function and its digest, which is 2 and 20 octets by SHA-1, 3 and 32 by SHA-256.
    pub answer: &'a [u8],
}

/// The challenge response that a body is, if it is one.
pub fn response_of<'a>(body: &Body<'a>) -> Option<Response<'a>>
    ensures { option_map response_view result ≡ response_of (operation_of body.now) }
{
    match body {
        Body::Response {
            kind,
            handle,
            index,
            answer,
        } => Some(Response {
            kind,
            handle,
            index: *index,
            answer,
        }),
        Body::Resolution { .. } => None,
        Body::Create { .. } => None,
        Body::Delete { .. } => None,
        Body::Add { .. } => None,
        Body::Remove { .. } => None,
        Body::Modify { .. } => None,
        Body::List { .. } => None,
        Body::SiteInfo { .. } => None,
        Body::Other { .. } => None,
    }
}

/// The handle that a body names, as it was sent.
pub(crate) fn sent_handle<'a>(body: &Body<'a>) -> &'a [u8]
    ensures { result.now ≡ sent_handle (operation_of body.now) }
{
    match body {
        Body::Resolution { handle, .. } => handle,
        Body::Create { handle, .. } => handle,
        Body::Delete { handle } => handle,
        Body::Add { handle, .. } => handle,
        Body::Remove { handle, .. } => handle,
        Body::Modify { handle, .. } => handle,
        Body::List { handle } => handle,
        Body::Response { .. } | Body::SiteInfo { .. } | Body::Other { .. } => &[],
    }
}

/// Whether the body is of no operation that is decided: a challenge response, which is not decided by itself, a question for
/// site information, or an operation that isn't offered.
pub(crate) fn is_unused(body: &Body<'_>) -> bool
    ensures { result ≡ is_unused (operation_of body.now) }
{
    matches!(
        body,
        Body::Response { .. } | Body::SiteInfo { .. } | Body::Other { .. }
    )
}

/// Whether the body is that of a resolution.
pub(crate) fn resolves(body: &Body<'_>) -> bool
    ensures { result ≡ resolves (operation_of body.now) }
{
    matches!(body, Body::Resolution { .. })
}

/// Whether the body asks for a new handle.
pub(crate) fn creates(body: &Body<'_>) -> bool
    ensures { result ≡ creates (operation_of body.now) }
{
    matches!(body, Body::Create { .. })
}

/// Whether the body asks for a new handle, or that one is taken away.
pub(crate) fn creates_or_deletes(body: &Body<'_>) -> bool
    ensures { result ≡ creates_or_deletes (operation_of body.now) }
{
    matches!(body, Body::Create { .. } | Body::Delete { .. })
}

/// Whether the body asks for the handles of a naming authority.
pub(crate) fn is_list(body: &Body<'_>) -> bool
    ensures { result ≡ is_list (operation_of body.now) }
{
    matches!(body, Body::List { .. })
}

/// Whether the request asks for public values only.
pub(crate) fn is_public_only(request: &Request<'_>) -> bool
    ensures { result ≡ is_public_only request.now }
{
    request.header().has(OpFlag::PublicOnly)
}

/// Whether the request asks for its digest.
pub(crate) fn wants_digest(request: &Request<'_>) -> bool
    ensures { result ≡ wants_digest request.now }
{
    request.header().has(OpFlag::ReturnDigest)
}
