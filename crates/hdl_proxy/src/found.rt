//! What a reply says of a handle.

ghost use Rattle.std.specs.Prelude.{IfOk};
ghost use Rattle.hdl_msg.specs.Views.{values_of};
ghost use Rattle.hdl_proxy.specs.Choice.{is_shown};
ghost use Rattle.hdl_msg.specs.Reply.{content_seen};
ghost use Rattle.hdl_proxy.specs.Found.{IsFoundIn, IsFoundOf, IsSaidBy, AreShown};

use crate::choice::is_shown;
use crate::resolver::NoAnswer;
use hdl_msg::{ContentView, ResponseCode, Values, read_reply};
use hdl_value::{Value, ValueFault, Wire};
use std::alloc::{AllocError, Global};

/// What a reply says of a handle.
#[derive(Drop)]
pub enum Found {
    /// Its values that are shown, in the order of the reply.
    Values(Vec<Value>),
    /// The code of a reply without values.
    Refused(u32),
    /// No server answered, or not to what was asked.
    Nothing,
}

/// The values that are shown, each whole. None where one of them breaks the limits of values.
fn shown_values(alloc: Global, mut values: Values<'_>) -> Result<Option<Vec<Value>>, AllocError>
    ensures { IfOk result (AreShown (values_of values.entry)) }
{
    let mut shown = Vec::new(alloc);
    while let Some(cut) = values.next() {
        let value = match cut.read(alloc) {
            Ok(value) => value,
            Err(ValueFault::Memory) => return Err(AllocError),
            Err(_) => return Ok(None),
        };
        if is_shown(&value) {
            shown.push(value)?;
        }
    }
    Ok(Some(shown))
}

/// What a reply with this code and content says of this handle.
fn said_by(
    alloc: Global,
    handle: &[u8],
    code: u32,
    content: ContentView<'_>,
) -> Result<Found, AllocError>
    ensures { IfOk result (IsSaidBy handle.now code (content_seen content.entry)) }
{
    match content {
        ContentView::Values {
            handle: answered,
            values,
        } if answered == handle => match shown_values(alloc, values)? {
            Some(shown) => Ok(Found::Values(shown)),
            None => Ok(Found::Nothing),
        },
        ContentView::Referral { .. } | ContentView::Empty => Ok(Found::Refused(code)),
        _ => Ok(Found::Nothing),
    }
}

/// What a message says of this handle.
fn found_in(alloc: Global, handle: &[u8], message: &[u8]) -> Result<Found, AllocError>
    ensures { IfOk result (IsFoundIn handle.now message.now) }
{
    match read_reply(Wire::Profile, message) {
        Ok(reply) => said_by(alloc, handle, reply.header.response_code, reply.content),
        Err(_) => Ok(Found::Nothing),
    }
}

/// What was answered of this handle, if anything was.
pub fn read_answer(
    alloc: Global,
    handle: &[u8],
    answered: Result<&[u8], NoAnswer>,
) -> Result<Found, AllocError>
    ensures { IfOk result (IsFoundOf handle.now answered.entry) }
{
    match answered {
        Ok(message) => found_in(alloc, handle, message),
        Err(NoAnswer::Memory) => Err(AllocError),
        Err(NoAnswer::Unreachable) => Ok(Found::Nothing),
        Err(NoAnswer::Elsewhere) => Ok(Found::Refused(ResponseCode::ServiceReferral.number())),
        Err(NoAnswer::Crowded) => Ok(Found::Refused(ResponseCode::ServerBusy.number())),
    }
}
