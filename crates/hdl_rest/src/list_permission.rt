//! Whether the handles of a prefix may be listed.

ghost use Rattle.std.specs.Prelude.{◌≡◌, false, is_some, IfErr, IfOk};
ghost use Rattle.std.specs.Result.{result_ok};
ghost use Rattle.hdl_msg.specs.Reply.{reply_seen};
ghost use Rattle.hdl_rest.specs.ListPermission.{GivesList, TriesList};
ghost use Rattle.hdl_rest.specs.Present.{said_in};
ghost use Rattle.hdl_rest.specs.Sending.{IsFailure, says_done};
ghost use Rattle.hdl_rest.specs.Since.{AskedSince};

use crate::listing::ask_for_list;
use crate::order::Order;
use crate::service::ChangeServer;
use crate::stop::{ChangeFault, answer_to_stop};
use hdl_msg::{ContentView, ReplyView, ResponseCode};
use hdl_proxy::Answer;
use std::alloc::{AllocError, Global};

/// Whether a reply to the request for a list gives it. A server answers code 2 just where the key may list the handles and they are too many for a reply.
fn leave_in_reply(reply: &ReplyView<'_>) -> Result<(), ChangeFault>
    ensures given { IfOk result (λ _. GivesList (reply_seen reply.now)) }
    ensures failure { IfErr result IsFailure }
{
    let code = reply.header.response_code;
    match reply.content {
        ContentView::Handles { .. } => Ok(()),
        _ if code == ResponseCode::Error.number() => Ok(()),
        _ if code == ResponseCode::Success.number() => Err(ChangeFault::Silent),
        _ => Err(ChangeFault::Code(code)),
    }
}

/// Asks for the list, and looks whether it is given.
fn ask_leave<S: ChangeServer>(
    alloc: Global,
    service: &mut S,
    order: &Order,
) -> Result<(), ChangeFault>
    ensures asked { AskedSince S.ChangeServer service.old service.new (TriesList order.now.key order.now.name (is_some (result_ok result))) }
    ensures failure { IfErr result IsFailure }
{
    match ask_for_list(alloc, service, order) {
        Ok(reply) => leave_in_reply(&reply.view()),
        Err(fault) => Err(fault),
    }
}

/// Whether the order's key may list the handles of the prefix whose administrative handle the order names: the server is asked for them. If not, the answer
/// to the order.
pub fn may_list<S: ChangeServer>(
    alloc: Global,
    service: &mut S,
    order: &Order,
) -> Result<Result<(), Answer>, AllocError>
    ensures asked { AskedSince S.ChangeServer service.old service.new (TriesList order.now.key order.now.name (is_some (said_in result))) }
    ensures undone { IfOk result (λ leave. IfErr leave (λ answer. says_done answer.status ≡ false)) }
{
    service.renew();
    match ask_leave(alloc, service, order) {
        Ok(()) => Ok(Ok(())),
        Err(stop) => Ok(Err(answer_to_stop(alloc, order.name.sent(), stop, &[])?)),
    }
}
