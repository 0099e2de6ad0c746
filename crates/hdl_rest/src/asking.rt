//! What is asked with a key, one request after the other.

ghost use Rattle.std.specs.Prelude.{◌≡◌, ◌<◌, None, Some, map, length, option_map, IfOk, IfErr, IfSome, IfNone, IsFalse};
ghost use Rattle.std.specs.Result.{result_ok};
ghost use Rattle.hdl_msg.specs.Message.{add, create, delete, list, remove, resolution};
ghost use Rattle.hdl_msg.specs.RequestBody.{requested_operation};
ghost use Rattle.hdl_msg.specs.Reply.{reply_seen};
ghost use Rattle.hdl_msg.specs.Views.{values_of};
ghost use Rattle.hdl_rest.specs.Exchange.{Exchange, reply_of};
ghost use Rattle.hdl_rest.specs.Sending.{IsFailure, IsToldBy, Makes, Sends, ShowsIn, Tries, TriesReading, code_of};
ghost use Rattle.hdl_rest.specs.Since.{AskedSince};

use crate::order::Order;
use crate::service::ChangeServer;
use crate::stop::ChangeFault;
use hdl_client::Reply;
use hdl_limits::{Items, MESSAGE_MAX, Octets};
use hdl_msg::{ContentView, ReplyView, RequestBody, ResponseCode, Values, request_len};
use hdl_value::{Value, Wire};
use std::alloc::{AllocError, Global};

fn is_short(body: &RequestBody) -> bool {
    request_len(Wire::Profile, body) <= MESSAGE_MAX as usize
}

/// Whether each of these requests fits a message.
fn are_short(steps: &[RequestBody]) -> bool
    ensures { IsFalse result → 0 < length steps.now }
{
    for body in steps {
        if !is_short(body) {
            return false;
        }
    }
    true
}

/// The reply to a request, whatever its code is.
pub(crate) fn reply_to<S: ChangeServer>(
    service: &mut S,
    order: &Order,
    body: &RequestBody,
) -> Result<Reply, ChangeFault>
    ensures asked { AskedSince S.ChangeServer service.old service.new (Tries order.now.key (requested_operation body.now) (reply_of result)) }
    ensures unanswered { IfErr result (λ fault. code_of fault ≡ None) }
{
    if !is_short(body) {
        return Err(ChangeFault::TooLong);
    }
    match service.ask(body, &order.key) {
        Ok(reply) => Ok(reply),
        Err(none) => Err(ChangeFault::from(none)),
    }
}

/// What a reply says of a change.
fn success_or_code(reply: &Reply) -> Result<(), ChangeFault>
    ensures told { IsToldBy result (Some reply.now) }
    ensures failure { IfErr result IsFailure }
{
    let code = reply.view().header.response_code;
    if code == ResponseCode::Success.number() {
        Ok(())
    } else {
        Err(ChangeFault::Code(code))
    }
}

/// Asks for a change. It is done if the reply says so.
pub(crate) fn make_change<S: ChangeServer>(
    service: &mut S,
    order: &Order,
    body: &RequestBody,
) -> Result<(), ChangeFault>
    ensures asked { AskedSince S.ChangeServer service.old service.new (Makes order.now.key (requested_operation body.now) result) }
    ensures failure { IfErr result IsFailure }
{
    match reply_to(service, order, body) {
        Ok(reply) => success_or_code(&reply),
        Err(fault) => Err(fault),
    }
}

/// Requests one after the other, until one isn't done: how many were done, and why the next one wasn't.
pub(crate) fn steps_done<S: ChangeServer>(
    service: &mut S,
    order: &Order,
    steps: &[RequestBody],
) -> (usize, Option<ChangeFault>)
    ensures asked { AskedSince S.ChangeServer service.old service.new (λ xs. Sends order.now.key (map requested_operation steps.now) xs result.0) }
    ensures all { IfNone result.1 (result.0 ≡ length steps.now) }
    ensures part { IfSome result.1 (λ fault. (result.0 < length steps.now) × IsFailure fault) }
{
    if !are_short(steps) {
        return (0, Some(ChangeFault::TooLong));
    }
    let mut count = 0;
    for step in steps {
        match make_change(service, order, step) {
            Ok(()) => count += 1,
            Err(stop) => return (count, Some(stop)),
        }
    }
    (count, None)
}

fn octets(alloc: Global, handle: &[u8]) -> Result<Octets, AllocError>
    ensures { IfOk result (λ octets. octets ≡ handle.now) }
{
    Ok(Octets::new(Vec::from_slice(alloc, handle)?))
}

fn copies(alloc: Global, values: &[Value]) -> Result<Items<Value>, AllocError>
    ensures { IfOk result (λ copied. copied ≡ values.now) }
{
    let mut all = Vec::new(alloc);
    for value in values {
        all.push(value.copy(alloc)?)?;
    }
    Ok(Items::new(all))
}

/// The request that creates a handle with these values.
pub(crate) fn creation(
    alloc: Global,
    handle: &[u8],
    values: &[Value],
) -> Result<RequestBody, AllocError>
    ensures { IfOk result (λ body. requested_operation body ≡ create handle.now values.now) }
{
    Ok(RequestBody::Create {
        handle: octets(alloc, handle)?,
        values: copies(alloc, values)?,
    })
}

/// The request that adds these values.
pub(crate) fn addition(
    alloc: Global,
    handle: &[u8],
    values: &[Value],
) -> Result<RequestBody, AllocError>
    ensures { IfOk result (λ body. requested_operation body ≡ add handle.now values.now) }
{
    Ok(RequestBody::Add {
        handle: octets(alloc, handle)?,
        values: copies(alloc, values)?,
    })
}

/// The request that removes the values of these indexes.
pub(crate) fn removal(
    alloc: Global,
    handle: &[u8],
    indexes: &[u32],
) -> Result<RequestBody, AllocError>
    ensures { IfOk result (λ body. requested_operation body ≡ remove handle.now indexes.now) }
{
    Ok(RequestBody::Remove {
        handle: octets(alloc, handle)?,
        indexes: Items::new(Vec::from_slice(alloc, indexes)?),
    })
}

/// The request that deletes a handle.
pub(crate) fn deletion(alloc: Global, handle: &[u8]) -> Result<RequestBody, AllocError>
    ensures { IfOk result (λ body. requested_operation body ≡ delete handle.now) }
{
    Ok(RequestBody::Delete {
        handle: octets(alloc, handle)?,
    })
}

/// The request for the handles of a prefix.
pub(crate) fn listing(alloc: Global, handle: &[u8]) -> Result<RequestBody, AllocError>
    ensures { IfOk result (λ body. requested_operation body ≡ list handle.now) }
{
    Ok(RequestBody::List {
        handle: octets(alloc, handle)?,
    })
}

fn type_copies(alloc: Global, types: &[Octets]) -> Result<Items<Octets>, AllocError>
    ensures { IfOk result (λ copied. copied ≡ types.now) }
{
    let mut all = Vec::new(alloc);
    for kind in types {
        all.push(Octets::new(Vec::from_slice(alloc, kind.as_slice())?))?;
    }
    Ok(Items::new(all))
}

/// The request for the values of these indexes and types, or for all if none is named.
pub(crate) fn reading(
    alloc: Global,
    handle: &[u8],
    indexes: &[u32],
    types: &[Octets],
) -> Result<RequestBody, AllocError>
    ensures { IfOk result (λ body. requested_operation body ≡ resolution handle.now indexes.now types.now) }
{
    Ok(RequestBody::Resolution {
        handle: octets(alloc, handle)?,
        indexes: Items::new(Vec::from_slice(alloc, indexes)?),
        types: type_copies(alloc, types)?,
    })
}

/// The indexes of these values.
fn indexes_in(alloc: Global, mut values: Values<'_>) -> Result<Vec<u32>, ChangeFault>
    ensures indexes { IfOk result (λ indexes. indexes.items ≡ map (λ value. value.index) (values_of values.entry)) }
    ensures memory { IfErr result (λ fault. code_of fault ≡ None) }
{
    let mut indexes = Vec::new(alloc);
    while let Some(cut) = values.next() {
        match indexes.push(cut.index()) {
            Ok(()) => {}
            Err(_) => return Err(ChangeFault::Memory),
        }
    }
    Ok(indexes)
}

/// The indexes that a reply to the reading of this handle tells.
fn indexes_in_reply(
    alloc: Global,
    handle: &[u8],
    reply: &ReplyView<'_>,
) -> Result<Vec<u32>, ChangeFault>
    ensures shown { IfOk result (λ indexes. ShowsIn handle.now indexes.items (reply_seen reply.now)) }
    ensures failure { IfErr result IsFailure }
{
    let code = reply.header.response_code;
    match reply.content {
        ContentView::Values {
            handle: answered,
            values,
        } if answered == handle => indexes_in(alloc, values),
        _ if code == ResponseCode::ValueNotFound.number() => Ok(Vec::new(alloc)),
        _ if code == ResponseCode::Success.number() => Err(ChangeFault::Silent),
        _ => Err(ChangeFault::Code(code)),
    }
}

/// The reply to the reading of these values, or of all if none is named.
pub(crate) fn ask_to_read<S: ChangeServer>(
    alloc: Global,
    service: &mut S,
    order: &Order,
    indexes: &[u32],
    types: &[Octets],
) -> Result<Reply, ChangeFault>
    ensures asked { AskedSince S.ChangeServer service.old service.new (Tries order.now.key (resolution order.now.name indexes.now types.now) (reply_of result)) }
    ensures unanswered { IfErr result (λ fault. code_of fault ≡ None) }
{
    match reading(alloc, order.name.sent(), indexes, types) {
        Ok(body) => reply_to(service, order, &body),
        Err(_) => Err(ChangeFault::Memory),
    }
}

/// Those of these indexes, or of all, that are there and that the key may read.
pub(crate) fn indexes_there<S: ChangeServer>(
    alloc: Global,
    service: &mut S,
    order: &Order,
    asked: &[u32],
) -> Result<Vec<u32>, ChangeFault>
    ensures asked { AskedSince S.ChangeServer service.old service.new (TriesReading order.now.key order.now.name asked.now (option_map (λ there. there.items) (result_ok result))) }
    ensures failure { IfErr result IsFailure }
{
    match ask_to_read(alloc, service, order, asked, &[]) {
        Ok(reply) => indexes_in_reply(alloc, order.name.sent(), &reply.view()),
        Err(fault) => Err(fault),
    }
}
