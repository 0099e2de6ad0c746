//! The table of decision for anyone.

ghost use Rattle.std.specs.Prelude.{◌≡◌, ◌&&◌, not};
ghost use Rattle.std.specs.List.{list_any, list_all};
ghost use Rattle.hdl_value.specs.Permission.{is_kept};
ghost use Rattle.hdl_value.specs.Refs.{is_admin};
ghost use Rattle.hdl_msg.specs.Views.{operation_of, numbers_of, values_of};
ghost use Rattle.hdl_msg.specs.Codes.{response_number};
ghost use Rattle.hdl_ops.specs.Anyone.{is_left, is_open, is_open_write, code_for_anyone};
ghost use Rattle.hdl_ops.specs.TableViews.{passes_at};
ghost use Rattle.hdl_ops.specs.Views.{table_view_of};

use crate::asked_values::{asks, is_kept, is_public};
use crate::decision::TableView;
use crate::requests::{creates, is_public_only, resolves};
use hdl_msg::{Body, Numbers, Request, ResponseCode, Values};
use hdl_rows::value_with;
use hdl_value::{CutValue, Permission, Value};

/// The value is left of those that are asked for: it isn't hidden, nor kept where only the public are wanted.
fn is_left(request: &Request<'_>, value: &Value) -> bool
    ensures { result ≡ is_left request.now value.now }
{
    asks(request.body(), value) && (is_public(value) || is_kept(value) && !is_public_only(request))
}

fn any_left(request: &Request<'_>, values: &[Value]) -> bool
    ensures { result ≡ list_any (is_left request.now) values.now }
{
    values.iter().any(|value| is_left(request, value))
}

fn any_kept_left(request: &Request<'_>, values: &[Value]) -> bool
    ensures { result ≡ list_any (λ v. is_left request.now v && is_kept v) values.now }
{
    values
        .iter()
        .any(|value| is_left(request, value) && is_kept(value))
}

/// Anybody may write the value of this index, and it is no HS_ADMIN value.
fn is_open_at(values: &[Value], index: u32) -> bool
    ensures { result ≡ passes_at is_open values.now index }
{
    match value_with(values, index) {
        Some(value) => value.permits(Permission::PublicWrite) && !value.is_admin(),
        None => false,
    }
}

/// Anybody may put the new value in the place of the old one.
fn is_open_for(values: &[Value], new: &CutValue<'_>) -> bool
    ensures { result ≡ (not (is_admin new.now) && passes_at is_open values.now new.now.index) }
{
    !new.is_admin() && is_open_at(values, new.index())
}

fn are_open_at(values: &[Value], mut indexes: Numbers<'_>) -> bool
    ensures { result ≡ list_all (passes_at is_open values.now) (numbers_of indexes.entry) }
{
    indexes.all(|index| is_open_at(values, index))
}

fn are_open_for(values: &[Value], mut news: Values<'_>) -> bool
    ensures { result ≡ list_all (λ n. not (is_admin n) && passes_at is_open values.now n.index) (values_of news.entry) }
{
    news.all(|new| is_open_for(values, &new))
}

/// Anybody may do the write.
fn is_open_write(body: &Body<'_>, values: &[Value]) -> bool
    ensures { result ≡ is_open_write (operation_of body.now) values.now }
{
    match body {
        Body::Remove { indexes, .. } => are_open_at(values, *indexes),
        Body::Modify { values: news, .. } => are_open_for(values, *news),
        _ => false,
    }
}

/// The code of the table of decision for anyone.
#[tactic(auto, unfolding(crate::specs::Anyone::code_for_anyone, crate::specs::First::first))]
pub(crate) fn code_for_anyone(request: &Request<'_>, table_view: &TableView) -> ResponseCode
    ensures { response_number result ≡ code_for_anyone (table_view_of table_view.now) request.now }
{
    let body = request.body();
    let values = &table_view.values;
    if creates(body) && table_view.there {
        return ResponseCode::HandleAlreadyExists;
    }
    if !creates(body) && !table_view.there {
        return ResponseCode::HandleNotFound;
    }
    if resolves(body) && !any_left(request, values) {
        return ResponseCode::ValueNotFound;
    }
    if resolves(body) && any_kept_left(request, values) {
        return ResponseCode::AuthenticationNeeded;
    }
    if resolves(body) {
        return ResponseCode::Success;
    }
    if is_open_write(body, values) {
        return ResponseCode::Success;
    }
    ResponseCode::AuthenticationNeeded
}
