//! Replies where they stand in octets.

ghost use Rattle.std.specs.Prelude.{◌≡◌};
ghost use Rattle.hdl_msg.specs.Codes.{response_code_of};
ghost use Rattle.hdl_msg.specs.Reply.{announces_digest, success_form, announced_form};

use crate::codes::{OpCode, OpFlag, ResponseCode};
use crate::fields::Header;
use crate::lists::{Strings, Values};
use hdl_auth::algorithm::Digest;

/// The form of what stands behind a reply's digest.
#[derive(Clone, Copy, PartialEq, Eq)]
pub enum ReplyForm {
    Values,
    Handles,
    Nothing,
    Referral,
    Nonce,
    Empty,
    Site,
}

/// What stands behind a reply's digest, where it stands (RFC 3652, sections 3.2 to 3.7, in our profile: docs/PROTOCOL.md,
/// "Replies").
///
/// ```text
/// Values     resolution, code 1   handle (a string), list of values
/// Handles    list, code 1         list of handles (strings)
/// Nothing    write, code 1        nothing
/// Referral   code 302             `0.NA/` and the prefix (a string), 4 octets of 0
/// Nonce      code 402             16 octets (a string)
/// Empty      every other code     an empty string
/// Site       get site info, code 1   the data of an HS_SITE value, with no length before
/// ```
///
/// A string is four octets of length and that many, a list four octets of count and that many.
#[derive(Clone, Copy)]
pub enum ContentView<'a> {
    /// The handle as it was sent, and the values that are shown, by rising index.
    Values {
        handle: &'a [u8],
        values: Values<'a>,
    },
    /// Canonical handles, rising.
    Handles {
        handles: Strings<'a>,
    },
    Nothing,
    /// The prefix, as it was sent, is hosted elsewhere.
    Referral {
        prefix: &'a [u8],
    },
    /// The nonce of a challenge.
    Nonce {
        nonce: &'a [u8; 16],
    },
    Empty,
    /// The data of an HS_SITE value.
    Site {
        octets: &'a [u8],
    },
}

/// A reply where it stands: all of its message. Its code is the header's `response_code`.
#[derive(Clone, Copy)]
pub struct ReplyView<'a> {
    pub header: Header,
    pub digest: Option<Digest>,
    pub content: ContentView<'a>,
}

impl ReplyView<'_> {
    /// The response that its code is the number of, or None where that is the number of none.
    pub fn code(&self) -> Option<ResponseCode>
        ensures { result ≡ response_code_of self.now.header.response_code }
    {
        ResponseCode::of(self.header.response_code)
    }
}

/// The form of the reply to an operation that was done.
fn success_form(operation: Option<OpCode>) -> ReplyForm
    ensures { result ≡ success_form operation }
{
    match operation {
        Some(OpCode::Resolution) => ReplyForm::Values,
        Some(OpCode::GetSiteInfo) => ReplyForm::Site,
        Some(OpCode::ListHandles) => ReplyForm::Handles,
        Some(
            OpCode::CreateHandle
            | OpCode::DeleteHandle
            | OpCode::AddValue
            | OpCode::RemoveValue
            | OpCode::ModifyValue,
        ) => ReplyForm::Nothing,
        Some(OpCode::ChallengeResponse) | None => ReplyForm::Empty,
    }
}

impl ReplyForm {
    /// The form that the header of a reply announces: by its code, and with Success by its operation.
    #[tactic(auto, unfolding(crate::specs::Reply::announced_form))]
    pub fn of(header: Header) -> ReplyForm
        ensures form { result ≡ announced_form header }
    {
        let code = header.response_code;
        if code == ResponseCode::Success.number() {
            success_form(OpCode::of(header.op_code))
        } else if code == ResponseCode::ServiceReferral.number() {
            ReplyForm::Referral
        } else if code == ResponseCode::AuthenticationNeeded.number() {
            ReplyForm::Nonce
        } else {
            ReplyForm::Empty
        }
    }
}

/// Whether the header of a reply announces a digest: by ReturnDigest, and in every challenge.
pub(crate) fn announces_digest(header: Header) -> bool
    ensures { result ≡ announces_digest header }
{
    header.has(OpFlag::ReturnDigest)
        || header.response_code == ResponseCode::AuthenticationNeeded.number()
}
