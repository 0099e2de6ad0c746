//! What a frame from a client asks.

ghost use Rattle.std.specs.Prelude.{◌≡◌, true, IfOk};
ghost use Rattle.hdl_audit.specs.ReplySummary.{changes};
ghost use Rattle.hdl_audit.specs.RequestKind.{is_consistent};

use crate::answer::changes;
use crate::entry::KeyName;
use hdl_frame::{ENVELOPE_LEN, Envelope};
use hdl_msg::OpCode;
use hdl_value::{string_at, u32_at};
use std::alloc::{AllocError, Global};

/// How many octets the header of a message has.
const HEADER_LEN: usize = 24;

/// Whether the names of handles and keys are followed too.
#[derive(Clone, Copy, PartialEq, Eq)]
pub enum Detail {
    Operations,
    Names,
}

/// What a whole frame asks, as far as an entry and a count speak of it.
#[derive(Drop)]
pub enum RequestKind {
    /// A change of the handle, as it was sent, where names are followed.
    Change {
        operation: u32,
        handle: Option<Vec<u8>>,
    },
    /// The response to the challenge with this SessionId, by this key, where names are followed.
    Response {
        challenge: u32,
        key: Option<KeyName>,
    },
    /// A piece of a message, of which nothing is known.
    Piece,
    /// Anything else: the number of its operation; 0 where that isn't known.
    Other {
        operation: u32,
    },
}

/// A frame that came, and isn't answered.
#[derive(Drop)]
pub struct UnansweredFrame {
    pub peer: u16,
    pub request: u32,
    pub request_kind: RequestKind,
    ghost consistent: { is_consistent request_kind ≡ true },
}

/// What asks nothing that is known.
pub const UNKNOWN: RequestKind = RequestKind::Other { operation: 0 };

/// A copy on the heap.
pub fn copy_of(alloc: Global, octets: &[u8]) -> Result<Vec<u8>, AllocError>
    ensures { IfOk result (λ copied. copied.items ≡ octets.now) }
{
    let mut all = Vec::new(alloc);
    all.extend_from_slice(octets)?;
    Ok(all)
}

/// A change, by the handle that its body names first.
fn change_of(
    alloc: Global,
    detail: Detail,
    operation: u32,
    body: &[u8],
) -> Result<RequestKind, AllocError>
    requires { changes operation ≡ true }
    ensures { IfOk result (λ request_kind. is_consistent request_kind ≡ true) }
{
    let Some((handle, _)) = string_at(body) else {
        return Ok(RequestKind::Other { operation });
    };
    let handle = match detail {
        Detail::Names => Some(copy_of(alloc, handle)?),
        Detail::Operations => None,
    };
    Ok(RequestKind::Change { operation, handle })
}

/// The key that a response's body names, after the type of authentication.
fn key_at(body: &[u8]) -> Option<(&[u8], u32)> {
    let (_, rest) = string_at(body)?;
    let (handle, rest) = string_at(rest)?;
    let (index, _) = u32_at(rest)?;
    Some((handle, index))
}

fn response_of(
    alloc: Global,
    detail: Detail,
    challenge: u32,
    body: &[u8],
) -> Result<RequestKind, AllocError>
    ensures { IfOk result (λ request_kind. is_consistent request_kind ≡ true) }
{
    let Some((handle, index)) = key_at(body) else {
        return Ok(UNKNOWN);
    };
    let key = match detail {
        Detail::Names => Some(KeyName {
            index,
            handle: copy_of(alloc, handle)?,
        }),
        Detail::Operations => None,
    };
    Ok(RequestKind::Response { challenge, key })
}

/// What a whole message asks.
fn request_kind_of(
    alloc: Global,
    detail: Detail,
    session: u32,
    message: &[u8],
) -> Result<RequestKind, AllocError>
    ensures { IfOk result (λ request_kind. is_consistent request_kind ≡ true) }
{
    let Some((operation, _)) = u32_at(message) else {
        return Ok(UNKNOWN);
    };
    let Some((_, body)) = message.split_at_checked(HEADER_LEN) else {
        return Ok(RequestKind::Other { operation });
    };
    if changes(operation) {
        change_of(alloc, detail, operation, body)
    } else if operation == OpCode::ChallengeResponse as u32 {
        response_of(alloc, detail, session, body)
    } else {
        Ok(RequestKind::Other { operation })
    }
}

impl UnansweredFrame {
    ghost use Rattle.std.specs.Prelude.{IfSome};

    /// Whether it is a piece of a message.
    pub fn is_piece(&self) -> bool {
        matches!(self.request_kind, RequestKind::Piece)
    }

    /// What a frame asks, which a peer sent. None: it has no envelope.
    pub fn of(
        alloc: Global,
        detail: Detail,
        peer: u16,
        frame: &[u8],
    ) -> Result<Option<UnansweredFrame>, AllocError>
        ensures own { IfOk result (λ asked. IfSome asked (λ question. question.peer ≡ peer)) }
    {
        let Some((head, message)) = frame.split_at_checked(ENVELOPE_LEN) else {
            return Ok(None);
        };
        let envelope = Envelope::read(head);
        let request_kind = if envelope.is_truncated() {
            RequestKind::Piece
        } else {
            request_kind_of(alloc, detail, envelope.session, message)?
        };
        Ok(Some(UnansweredFrame {
            peer,
            request: envelope.request,
            request_kind,
        }))
    }
}
