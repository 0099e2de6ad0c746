//! What stands at an index just now.

ghost use Rattle.std.specs.Prelude.{◌≡◌, None, false, IfOk, IfErr};
ghost use Rattle.std.specs.Result.{result_ok};
ghost use Rattle.hdl_msg.specs.Reply.{reply_seen};
ghost use Rattle.hdl_msg.specs.Views.{values_of};
ghost use Rattle.hdl_rest.specs.Present.{ShowsAt, TriesValue, said_in, value_at};
ghost use Rattle.hdl_rest.specs.Sending.{IsFailure, code_of, says_done};
ghost use Rattle.hdl_rest.specs.Since.{AskedSince};

use crate::asking::ask_to_read;
use crate::order::Order;
use crate::service::ChangeServer;
use crate::stop::{ChangeFault, answer_to_stop};
use hdl_msg::{ContentView, ReplyView, ResponseCode, Values};
use hdl_proxy::Answer;
use hdl_value::{Value, ValueFault};
use std::alloc::{AllocError, Global};

/// Why a value of a reply isn't read: there was no memory, or it breaks the limits of values.
fn unread(fault: ValueFault) -> ChangeFault
    ensures { code_of result ≡ None }
{
    match fault {
        ValueFault::Memory => ChangeFault::Memory,
        _ => ChangeFault::Silent,
    }
}

/// The first of these values that has this index.
fn value_at(alloc: Global, index: u32, mut values: Values<'_>) -> Result<Option<Value>, ChangeFault>
    ensures there { IfOk result (λ there. there ≡ value_at index (values_of values.entry)) }
    ensures unread { IfErr result (λ fault. code_of fault ≡ None) }
{
    while let Some(cut) = values.next() {
        if cut.index() == index {
            return match cut.read(alloc) {
                Ok(value) => Ok(Some(value)),
                Err(fault) => Err(unread(fault)),
            };
        }
    }
    Ok(None)
}

/// The value that a reply to the reading of this handle shows at an index.
fn value_in_reply(
    alloc: Global,
    handle: &[u8],
    index: u32,
    reply: &ReplyView<'_>,
) -> Result<Option<Value>, ChangeFault>
    ensures shown { IfOk result (λ there. ShowsAt handle.now index there (reply_seen reply.now)) }
    ensures failure { IfErr result IsFailure }
{
    let code = reply.header.response_code;
    match reply.content {
        ContentView::Values {
            handle: answered,
            values,
        } if answered == handle => value_at(alloc, index, values),
        _ if code == ResponseCode::ValueNotFound.number() => Ok(None),
        _ if code == ResponseCode::Success.number() => Err(ChangeFault::Silent),
        _ => Err(ChangeFault::Code(code)),
    }
}

/// The value at an index, or why it isn't known.
fn read_value<S: ChangeServer>(
    alloc: Global,
    service: &mut S,
    order: &Order,
    index: u32,
) -> Result<Option<Value>, ChangeFault>
    ensures asked { AskedSince S.ChangeServer service.old service.new (TriesValue order.now.key order.now.name index (result_ok result)) }
    ensures failure { IfErr result IsFailure }
{
    match ask_to_read(alloc, service, order, &[index], &[]) {
        Ok(reply) => value_in_reply(alloc, order.name.sent(), index, &reply.view()),
        Err(fault) => Err(fault),
    }
}

/// The value of an order's handle at this index, read with the order's key before it is carried out. If it isn't known, the answer to the order.
pub fn value_there<S: ChangeServer>(
    alloc: Global,
    service: &mut S,
    order: &Order,
    index: u32,
) -> Result<Result<Option<Value>, Answer>, AllocError>
    ensures asked { AskedSince S.ChangeServer service.old service.new (TriesValue order.now.key order.now.name index (said_in result)) }
    ensures undone { IfOk result (λ read. IfErr read (λ answer. says_done answer.status ≡ false)) }
{
    service.renew();
    match read_value(alloc, service, order, index) {
        Ok(there) => Ok(Ok(there)),
        Err(stop) => Ok(Err(answer_to_stop(alloc, order.name.sent(), stop, &[])?)),
    }
}
