//! The table of decision for a request that comes back with a proof.

ghost use Rattle.std.specs.Prelude.{◌≡◌, option_map};
ghost use Rattle.std.specs.List.{list_any};
ghost use Rattle.hdl_value.specs.Refs.{is_secret_key};
ghost use Rattle.hdl_msg.specs.Views.{operation_of, numbers_of, values_of};
ghost use Rattle.hdl_msg.specs.Codes.{response_number};
ghost use Rattle.hdl_ops.specs.Proven.{is_right, misses_at, takes_at, misses, takes, overfills, is_asked, code_before_key, code_after_key};
ghost use Rattle.hdl_ops.specs.TableViews.{passes};
ghost use Rattle.hdl_ops.specs.Views.{table_view_of, proof_of};

use crate::asked_values::{asks, is_kept, is_public};
use crate::decision::{Proof, TableView};
use crate::permitted::{is_allowed, is_locked};
use crate::requests::{creates, resolves};
use crate::written::count_of_values;
use hdl_auth::{check, has_response_form};
use hdl_limits::VALUES_MAX;
use hdl_msg::{Body, Numbers, Request, ResponseCode, Values};
use hdl_rows::value_with;
use hdl_value::{AdminMask, HS_SECKEY, Value};

fn is_key(key: &Option<Value>) -> bool
    ensures { result ≡ passes is_secret_key key.now }
{
    match key {
        Some(value) => value.is_secret_key(),
        None => false,
    }
}

fn is_right(key: &Option<Value>, proof: &Proof<'_>) -> bool
    ensures { result ≡ is_right key.now (proof_of proof.now) }
{
    match key {
        Some(value) => {
            let key = value.bytes.as_slice();
            check(key, proof.nonce, proof.digest, proof.response.answer).is_good()
        }
        None => false,
    }
}

fn misses_at(values: &[Value], index: u32) -> bool
    ensures { result ≡ misses_at values.now index }
{
    value_with(values, index).is_none()
}

fn takes_at(values: &[Value], index: u32) -> bool
    ensures { result ≡ takes_at values.now index }
{
    value_with(values, index).is_some()
}

fn any_missing(values: &[Value], mut indexes: Numbers<'_>) -> bool
    ensures { result ≡ list_any (misses_at values.now) (numbers_of indexes.entry) }
{
    indexes.any(|index| misses_at(values, index))
}

fn any_missing_for(values: &[Value], mut news: Values<'_>) -> bool
    ensures { result ≡ list_any (λ n. misses_at values.now n.index) (values_of news.entry) }
{
    news.any(|new| misses_at(values, new.index()))
}

fn any_taken_for(values: &[Value], mut news: Values<'_>) -> bool
    ensures { result ≡ list_any (λ n. takes_at values.now n.index) (values_of news.entry) }
{
    news.any(|new| takes_at(values, new.index()))
}

/// A value that is to be written over or away isn't there.
fn misses(body: &Body<'_>, values: &[Value]) -> bool
    ensures { result ≡ misses (operation_of body.now) values.now }
{
    match body {
        Body::Remove { indexes, .. } => any_missing(values, *indexes),
        Body::Modify { values: news, .. } => any_missing_for(values, *news),
        _ => false,
    }
}

/// A value stands where one is to be added.
fn takes(body: &Body<'_>, values: &[Value]) -> bool
    ensures { result ≡ takes (operation_of body.now) values.now }
{
    match body {
        Body::Add { values: news, .. } => any_taken_for(values, *news),
        _ => false,
    }
}

/// The handle would have more values than it may.
fn overfills(body: &Body<'_>, values: &[Value]) -> bool
    ensures { result ≡ overfills (operation_of body.now) values.now }
{
    match body {
        Body::Add { values: news, .. } => {
            let added = count_of_values(*news);
            added > VALUES_MAX || values.len() > VALUES_MAX - added
        }
        _ => false,
    }
}

fn is_asked(request: &Request<'_>, value: &Value) -> bool
    ensures { result ≡ is_asked request.now value.now }
{
    asks(request.body(), value) && (is_public(value) || is_kept(value))
}

fn any_asked(request: &Request<'_>, values: &[Value]) -> bool
    ensures { result ≡ list_any (is_asked request.now) values.now }
{
    values.iter().any(|value| is_asked(request, value))
}

/// The tests before administrators are looked for. The authentication type that is offered is also the type of a key's value.
#[tactic(auto, unfolding(crate::specs::Proven::code_before_key, crate::specs::First::first))]
pub(crate) fn code_before_key(
    request: &Request<'_>,
    table_view: &TableView,
    proof: &Proof<'_>,
) -> Option<ResponseCode>
    ensures { option_map response_number result ≡ code_before_key (table_view_of table_view.now) request.now (proof_of proof.now) }
{
    let body = request.body();
    if proof.response.kind != HS_SECKEY {
        return Some(ResponseCode::UnableToAuthenticate);
    }
    if !has_response_form(proof.digest.algorithm(), proof.response.answer) {
        return Some(ResponseCode::InvalidCredential);
    }
    if creates(body) && table_view.there {
        return Some(ResponseCode::HandleAlreadyExists);
    }
    if !creates(body) && !table_view.there {
        return Some(ResponseCode::HandleNotFound);
    }
    None
}

/// The tests for an administrator with this mask, and with this value at the key's place.
#[tactic(auto, unfolding(crate::specs::Proven::code_after_key, crate::specs::First::first))]
pub(crate) fn code_after_key(
    request: &Request<'_>,
    table_view: &TableView,
    proof: &Proof<'_>,
    mask: AdminMask,
    key: &Option<Value>,
) -> ResponseCode
    ensures { response_number result ≡ code_after_key (table_view_of table_view.now) request.now (proof_of proof.now) mask.0 key.now }
{
    let body = request.body();
    let values = &table_view.values;
    if !is_key(key) {
        return ResponseCode::UnableToAuthenticate;
    }
    if !is_right(key, proof) {
        return ResponseCode::AuthenticationFailed;
    }
    if misses(body, values) {
        return ResponseCode::ValueNotFound;
    }
    if takes(body, values) {
        return ResponseCode::ValueAlreadyExists;
    }
    if !is_allowed(body, values, mask) || is_locked(body, values) {
        return ResponseCode::AccessDenied;
    }
    if overfills(body, values) {
        return ResponseCode::ValueInvalid;
    }
    if resolves(body) && !any_asked(request, values) {
        return ResponseCode::ValueNotFound;
    }
    ResponseCode::Success
}
