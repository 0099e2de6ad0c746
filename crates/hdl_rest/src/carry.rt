//! An order that is carried out.

ghost use Rattle.std.specs.Prelude.{◌≡◌, ◌∷◌, [], Bool, true, false, map, Ok, IfOk, IfNone, IsTrue};
ghost use Rattle.std.specs.List.{list_all};
ghost use Rattle.hdl_msg.specs.Message.{add as adding, create as creating, delete as deleting, remove as removing, resolution};
ghost use Rattle.hdl_msg.specs.RequestBody.{requested_operation};
ghost use Rattle.hdl_proxy.specs.declared.answer.CacheControl.TheVariants.{Never};
ghost use Rattle.hdl_rest.specs.Orders.{AreAmong, CarriesOrder, MintsBody, Puts, PutsBy};
ghost use Rattle.hdl_rest.specs.Plan.{is_among, merging, replacing};
ghost use Rattle.hdl_rest.specs.Record.{record_in};
ghost use Rattle.hdl_rest.specs.Sending.{CarriesOut, Merges, Replaces, SendsAll, SendsByReading, says_done};
ghost use Rattle.hdl_rest.specs.Since.{AskedSince};

use crate::asking::{
    addition, ask_to_read, creation, deletion, indexes_there, make_change, removal, steps_done,
};
use crate::change_answers::success;
use crate::fault::RecordFault;
use crate::listing::list_answer;
use crate::mint::mint;
use crate::order::{ChangeAction, Order, WriteMode};
use crate::plan::{is_among, merging, replacing};
use crate::record::read_record;
use crate::service::ChangeServer;
use crate::stop::{ChangeFault, answer_to_stop};
use hdl_limits::{Octets, WRITTEN_MAX};
use hdl_msg::{ContentView, ReplyView, RequestBody, ResponseCode, Values};
use hdl_proxy::{Answer, CacheControl, Status, refusal, values_answer};
use hdl_value::{Value, ValueFault};
use std::alloc::{AllocError, Global};

/// One request, and what is answered to it.
fn carry_one<S: ChangeServer>(
    alloc: Global,
    service: &mut S,
    order: &Order,
    body: &RequestBody,
    status: Status,
) -> Result<Answer, AllocError>
    requires { says_done status ≡ true }
    ensures asked { AskedSince S.ChangeServer service.old service.new (CarriesOut (SendsAll order.now.key (requested_operation body.now ∷ [])) result) }
    ensures kept { IfOk result (λ answer. answer.cache_control ≡ Never) }
{
    match make_change(service, order, body) {
        Ok(()) => success(alloc, order.name.sent(), status),
        Err(stop) => answer_to_stop(alloc, order.name.sent(), stop, &[]),
    }
}

fn carry_steps<S: ChangeServer>(
    alloc: Global,
    service: &mut S,
    order: &Order,
    steps: &[RequestBody],
) -> Result<Answer, AllocError>
    ensures asked { AskedSince S.ChangeServer service.old service.new (CarriesOut (SendsAll order.now.key (map requested_operation steps.now)) result) }
    ensures kept { IfOk result (λ answer. answer.cache_control ≡ Never) }
{
    match steps_done(service, order, steps) {
        (_, None) => success(alloc, order.name.sent(), Status::Success),
        (count, Some(stop)) => {
            let behind = steps.get(..count).unwrap_or(&[]);
            answer_to_stop(alloc, order.name.sent(), stop, behind)
        }
    }
}

/// The indexes of these values.
fn indexes_of(alloc: Global, values: &[Value]) -> Result<Vec<u32>, AllocError>
    ensures { IfOk result (λ indexes. indexes.items ≡ map (λ value. value.index) values.now) }
{
    let mut indexes = Vec::new(alloc);
    for value in values {
        indexes.push(value.index)?;
    }
    Ok(indexes)
}

fn create<S: ChangeServer>(
    alloc: Global,
    service: &mut S,
    order: &Order,
    values: &[Value],
) -> Result<Answer, AllocError>
    ensures asked { AskedSince S.ChangeServer service.old service.new (CarriesOut (SendsAll order.now.key (creating order.now.name values.now ∷ [])) result) }
    ensures kept { IfOk result (λ answer. answer.cache_control ≡ Never) }
{
    let body = creation(alloc, order.name.sent(), values)?;
    carry_one(alloc, service, order, &body, Status::Created)
}

fn add<S: ChangeServer>(
    alloc: Global,
    service: &mut S,
    order: &Order,
    values: &[Value],
) -> Result<Answer, AllocError>
    ensures asked { AskedSince S.ChangeServer service.old service.new (CarriesOut (SendsAll order.now.key (adding order.now.name values.now ∷ [])) result) }
    ensures kept { IfOk result (λ answer. answer.cache_control ≡ Never) }
{
    let body = addition(alloc, order.name.sent(), values)?;
    carry_one(alloc, service, order, &body, Status::Success)
}

fn merge<S: ChangeServer>(
    alloc: Global,
    service: &mut S,
    order: &Order,
    values: &[Value],
) -> Result<Answer, AllocError>
    ensures asked { AskedSince S.ChangeServer service.old service.new (CarriesOut (Merges order.now.key order.now.name values.now) result) }
    ensures kept { IfOk result (λ answer. answer.cache_control ≡ Never) }
{
    let asked = indexes_of(alloc, values)?;
    match indexes_there(alloc, service, order, &asked) {
        Ok(there) => {
            let steps = merging(alloc, order.name.sent(), &there, values)?;
            carry_steps(alloc, service, order, &steps)
        }
        Err(stop) => answer_to_stop(alloc, order.name.sent(), stop, &[]),
    }
}

/// Puts the values in the place of all that is there.
fn overwrite<S: ChangeServer>(
    alloc: Global,
    service: &mut S,
    order: &Order,
    values: &[Value],
) -> Result<Answer, AllocError>
    ensures asked { AskedSince S.ChangeServer service.old service.new (CarriesOut (SendsByReading order.now.key order.now.name [] (λ there. replacing order.now.name there values.now)) result) }
    ensures kept { IfOk result (λ answer. answer.cache_control ≡ Never) }
{
    match indexes_there(alloc, service, order, &[]) {
        Ok(there) if there.len() > WRITTEN_MAX => {
            answer_to_stop(alloc, order.name.sent(), ChangeFault::TooMany, &[])
        }
        Ok(there) => {
            let steps = replacing(alloc, order.name.sent(), &there, values)?;
            carry_steps(alloc, service, order, &steps)
        }
        Err(stop) => answer_to_stop(alloc, order.name.sent(), stop, &[]),
    }
}

/// Creates the handle, or if it exists puts the values in the place of all that it has.
fn replace<S: ChangeServer>(
    alloc: Global,
    service: &mut S,
    order: &Order,
    values: &[Value],
) -> Result<Answer, AllocError>
    ensures asked { AskedSince S.ChangeServer service.old service.new (CarriesOut (Replaces order.now.key order.now.name values.now) result) }
    ensures kept { IfOk result (λ answer. answer.cache_control ≡ Never) }
{
    let body = creation(alloc, order.name.sent(), values)?;
    match make_change(service, order, &body) {
        Ok(()) => success(alloc, order.name.sent(), Status::Created),
        Err(ChangeFault::Code(code)) if code == ResponseCode::HandleAlreadyExists.number() => {
            overwrite(alloc, service, order, values)
        }
        Err(stop) => answer_to_stop(alloc, order.name.sent(), stop, &[]),
    }
}

/// The first value whose index isn't among these.
fn first_unasked(among: &[u32], values: &[Value]) -> Option<RecordFault>
    ensures { IfNone result (IsTrue (list_all (λ value. is_among value.index among.now) values.now)) }
{
    let mut place: u64 = 0;
    for value in values {
        place = place.saturating_add(1);
        if !is_among(value.index, among) {
            return Some(RecordFault::Unasked { place });
        }
    }
    None
}

/// The first value whose index isn't among those that were named.
fn unasked(among: &Option<Vec<u32>>, values: &[Value]) -> Option<RecordFault>
    ensures { IfNone result (AreAmong among.now values.now) }
{
    match among {
        Some(indexes) => first_unasked(indexes, values),
        None => None,
    }
}

/// The values of a body, each among the indexes that were named.
fn values_of(
    alloc: Global,
    among: &Option<Vec<u32>>,
    body: &[u8],
) -> Result<Vec<Value>, RecordFault>
    ensures value { IfOk result (λ values. record_in body.now ≡ Ok values.items) }
    ensures among { IfOk result (λ values. AreAmong among.now values.items) }
{
    let values = read_record(alloc, body)?;
    match unasked(among, &values) {
        Some(fault) => Err(fault),
        None => Ok(values),
    }
}

fn bad_record(alloc: Global, handle: &[u8], fault: RecordFault) -> Result<Answer, AllocError>
    ensures undone { IfOk result (λ answer. says_done answer.status ≡ false) }
    ensures kept { IfOk result (λ answer. answer.cache_control ≡ Never) }
{
    if fault == RecordFault::Memory {
        return Err(AllocError);
    }
    let why = format!(in alloc; "The record can't be read: {fault}.")?;
    let code = ResponseCode::ValueInvalid.number();
    refusal(alloc, Status::BadRequest, handle, code, &why)
}

/// Puts these values into the handle.
fn put_values<S: ChangeServer>(
    alloc: Global,
    service: &mut S,
    order: &Order,
    way: WriteMode,
    values: &[Value],
) -> Result<Answer, AllocError>
    ensures asked { AskedSince S.ChangeServer service.old service.new (CarriesOut (PutsBy way order.now.key order.now.name values.now) result) }
    ensures kept { IfOk result (λ answer. answer.cache_control ≡ Never) }
{
    match way {
        WriteMode::Create => create(alloc, service, order, values),
        WriteMode::Replace => replace(alloc, service, order, values),
        WriteMode::Merge => merge(alloc, service, order, values),
        WriteMode::Add => add(alloc, service, order, values),
    }
}

fn carry_put<S: ChangeServer>(
    alloc: Global,
    service: &mut S,
    order: &Order,
    way: WriteMode,
    among: &Option<Vec<u32>>,
    body: &[u8],
) -> Result<Answer, AllocError>
    ensures asked { AskedSince S.ChangeServer service.old service.new (CarriesOut (Puts way among.now order.now.key order.now.name body.now) result) }
    ensures kept { IfOk result (λ answer. answer.cache_control ≡ Never) }
{
    match values_of(alloc, among, body) {
        Ok(values) => put_values(alloc, service, order, way, &values),
        Err(fault) => bad_record(alloc, order.name.sent(), fault),
    }
}

fn carry_mint<S: ChangeServer>(
    alloc: Global,
    service: &mut S,
    order: &Order,
    body: &[u8],
) -> Result<Answer, AllocError>
    ensures asked { AskedSince S.ChangeServer service.old service.new (CarriesOut (MintsBody order.now.key order.now.name body.now) result) }
    ensures kept { IfOk result (λ answer. answer.cache_control ≡ Never) }
{
    match read_record(alloc, body) {
        Ok(values) => mint(alloc, service, order, &values),
        Err(fault) => bad_record(alloc, order.name.sent(), fault),
    }
}

fn carry_delete<S: ChangeServer>(
    alloc: Global,
    service: &mut S,
    order: &Order,
) -> Result<Answer, AllocError>
    ensures asked { AskedSince S.ChangeServer service.old service.new (CarriesOut (SendsAll order.now.key (deleting order.now.name ∷ [])) result) }
    ensures kept { IfOk result (λ answer. answer.cache_control ≡ Never) }
{
    let body = deletion(alloc, order.name.sent())?;
    carry_one(alloc, service, order, &body, Status::Success)
}

fn carry_remove<S: ChangeServer>(
    alloc: Global,
    service: &mut S,
    order: &Order,
    indexes: &[u32],
) -> Result<Answer, AllocError>
    ensures asked { AskedSince S.ChangeServer service.old service.new (CarriesOut (SendsAll order.now.key (removing order.now.name indexes.now ∷ [])) result) }
    ensures kept { IfOk result (λ answer. answer.cache_control ≡ Never) }
{
    let body = removal(alloc, order.name.sent(), indexes)?;
    carry_one(alloc, service, order, &body, Status::Success)
}

/// All of the values, each whole. None where one of them breaks the limits of values.
fn whole_values(alloc: Global, mut values: Values<'_>) -> Result<Option<Vec<Value>>, AllocError> {
    let mut all = Vec::new(alloc);
    while let Some(cut) = values.next() {
        match cut.read(alloc) {
            Ok(value) => all.push(value)?,
            Err(ValueFault::Memory) => return Err(AllocError),
            Err(_) => return Ok(None),
        }
    }
    Ok(Some(all))
}

/// What the reply to a reading with a key says of this handle.
fn reading_answer(alloc: Global, handle: &[u8], reply: &ReplyView<'_>) -> Result<Answer, AllocError>
    ensures kept { IfOk result (λ answer. answer.cache_control ≡ Never) }
{
    let code = reply.header.response_code;
    match reply.content {
        ContentView::Values {
            handle: answered,
            values,
        } if answered == handle => match whole_values(alloc, values)? {
            Some(all) => values_answer(alloc, handle, &all, CacheControl::Never),
            None => answer_to_stop(alloc, handle, ChangeFault::Silent, &[]),
        },
        _ if code == ResponseCode::Success.number() => {
            answer_to_stop(alloc, handle, ChangeFault::Silent, &[])
        }
        _ => answer_to_stop(alloc, handle, ChangeFault::Code(code), &[]),
    }
}

fn carry_read<S: ChangeServer>(
    alloc: Global,
    service: &mut S,
    order: &Order,
    indexes: &[u32],
    types: &[Octets],
) -> Result<Answer, AllocError>
    ensures asked { AskedSince S.ChangeServer service.old service.new (λ xs. (whole : Bool) × SendsAll order.now.key (resolution order.now.name indexes.now types.now ∷ []) xs whole) }
    ensures kept { IfOk result (λ answer. answer.cache_control ≡ Never) }
{
    match ask_to_read(alloc, service, order, indexes, types) {
        Ok(reply) => reading_answer(alloc, order.name.sent(), &reply.view()),
        Err(stop) => answer_to_stop(alloc, order.name.sent(), stop, &[]),
    }
}

/// Carries out an order: reads the body of its request, if it takes one, asks for one thing after the other, and makes the answer.
/// Nothing is asked if the body is refused. If a request isn't done, none after it is sent, and the answer says what was done. No one may
/// cache an answer.
pub fn carry_out<S: ChangeServer>(
    alloc: Global,
    service: &mut S,
    order: &Order,
    body: &[u8],
) -> Result<Answer, AllocError>
    ensures asked { AskedSince S.ChangeServer service.old service.new (CarriesOrder order.now body.now result) }
    ensures kept { IfOk result (λ answer. answer.cache_control ≡ Never) }
{
    service.renew();
    match &order.act {
        ChangeAction::Put { way, among } => carry_put(alloc, service, order, *way, among, body),
        ChangeAction::Mint => carry_mint(alloc, service, order, body),
        ChangeAction::Delete => carry_delete(alloc, service, order),
        ChangeAction::Remove { indexes } => carry_remove(alloc, service, order, indexes),
        ChangeAction::List { window } => list_answer(alloc, service, order, *window),
        ChangeAction::Read { indexes, types } => carry_read(alloc, service, order, indexes, types),
    }
}
