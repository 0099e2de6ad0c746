//! From the code of a table of decision to the whole decision.

ghost use Rattle.std.specs.Prelude.{◌≡◌, ◌&&◌, filter, map, if◌then◌else◌, Some, None, IfOk, IsTrue};
ghost use Rattle.hdl_msg.specs.Views.{operation_of, values_of};
ghost use Rattle.hdl_value.specs.Padding.{stored_by};
ghost use Rattle.hdl_msg.specs.Codes.{response_number};
ghost use Rattle.hdl_ops.specs.Decisions as decisions;
ghost use Rattle.hdl_ops.specs.Decisions.{may_read, carried_content, change_of};
ghost use Rattle.hdl_ops.specs.Replies.{fits};
ghost use Rattle.hdl_ops.specs.Requests.{sent_handle, resolves, stored_operation};
ghost use Rattle.hdl_ops.specs.TableViews.{asks};
ghost use Rattle.hdl_ops.specs.Views.{decision_of, level_of, table_view_of};

use crate::asked_values::{asks, is_kept, is_public};
use crate::change::Change;
use crate::decision::{Decision, HashedRequest, Level, TableView};
use crate::rendering::fitting;
use crate::written::{copied_indexes, stored_values};
use hdl_limits::{Items, Octets};
use hdl_msg::{Body, ReplyContent, Request, ResponseCode, Values};
use hdl_name::Name;
use hdl_rows::Refused;
use hdl_value::{Value, Wire};
use std::alloc::{AllocError, Global};

fn may_read(level: &Level<'_>, value: &Value) -> bool
    ensures { result ≡ may_read (level_of level.now) value.now }
{
    match level {
        Level::Anyone => is_public(value),
        Level::Proven(_) => is_public(value) || is_kept(value),
    }
}

pub(crate) fn readable_values(
    body: &Body<'_>,
    level: &Level<'_>,
    mut values: Vec<Value>,
) -> Vec<Value>
    ensures { result.items ≡ filter (λ v. asks (operation_of body.now) v && may_read (level_of level.now) v) values.items }
{
    values.retain(|value| asks(body, value) && may_read(level, value));
    values
}

/// What the reply carries with code 1, and the name of the request, unless the reply carries that.
fn carried_content(
    request: &Request<'_>,
    level: &Level<'_>,
    table_view: TableView,
    name: Name,
) -> (ReplyContent, Option<Name>)
    requires named { name ≡ sent_handle request.now.operation }
    ensures content { result.0 ≡ carried_content (table_view_of table_view) request.now (level_of level.now) }
    ensures left { result.1 ≡ (if resolves request.now.operation then None else Some (sent_handle request.now.operation)) }
{
    match request.body() {
        Body::Resolution { .. } => {
            let values = Items::new(readable_values(request.body(), level, table_view.values));
            let handle = Octets::new(name.into_sent());
            let wire = request.wire();
            (
                ReplyContent::Values {
                    wire,
                    handle,
                    values,
                },
                None,
            )
        }
        Body::List { .. } => {
            let handles = Items::new(table_view.names);
            (ReplyContent::Handles { handles }, Some(name))
        }
        Body::Create { .. } => (ReplyContent::Nothing, Some(name)),
        Body::Delete { .. } => (ReplyContent::Nothing, Some(name)),
        Body::Add { .. } => (ReplyContent::Nothing, Some(name)),
        Body::Remove { .. } => (ReplyContent::Nothing, Some(name)),
        Body::Modify { .. } => (ReplyContent::Nothing, Some(name)),
        Body::Response { .. } => (ReplyContent::Nothing, Some(name)),
        Body::SiteInfo { .. } => (ReplyContent::Nothing, Some(name)),
        Body::Other { .. } => (ReplyContent::Nothing, Some(name)),
    }
}

fn value_list(alloc: Global, wire: Wire, values: Values<'_>) -> Result<Items<Value>, AllocError>
    ensures { IfOk result (λ list. list ≡ map (stored_by wire) (values_of values.entry)) }
{
    Ok(Items::new(stored_values(alloc, wire, values)?))
}

/// The write that the operation asks for. A resolution, which asks for none, has no name left.
fn change_of(
    alloc: Global,
    request: &Request<'_>,
    name: Option<Name>,
) -> Result<Option<Change>, AllocError>
    requires named { name ≡ (if resolves request.now.operation then None else Some (sent_handle request.now.operation)) }
    ensures { IfOk result (λ change. change ≡ change_of (stored_operation request.now)) }
{
    let Some(name) = name else {
        return Ok(None);
    };
    let wire = request.wire();
    match request.body() {
        Body::Create { values, .. } => {
            let values = value_list(alloc, wire, *values)?;
            Ok(Some(Change::Create { name, values }))
        }
        Body::Delete { .. } => Ok(Some(Change::Delete { name })),
        Body::Add { values, .. } => {
            let values = value_list(alloc, wire, *values)?;
            Ok(Some(Change::Add { name, values }))
        }
        Body::Remove { indexes, .. } => {
            let indexes = Items::new(copied_indexes(alloc, *indexes)?);
            Ok(Some(Change::Remove { name, indexes }))
        }
        Body::Modify { values, .. } => {
            let values = value_list(alloc, wire, *values)?;
            Ok(Some(Change::Modify { name, values }))
        }
        Body::Resolution { .. } => Ok(None),
        Body::List { .. } => Ok(None),
        Body::Response { .. } => Ok(None),
        Body::SiteInfo { .. } => Ok(None),
        Body::Other { .. } => Ok(None),
    }
}

fn failure(code: ResponseCode) -> Decision
    ensures { decision_of result ≡ decisions.failure (response_number code) ReplyContent.Empty }
{
    Decision {
        code,
        content: ReplyContent::Empty,
        change: None,
    }
}

/// The answer to a question for site information, by these octets. No table is looked at.
#[tactic(auto, unfolding(crate::specs::Decisions::site_decision), using(crate::proofs::Lengths::empty_fits))]
pub fn decide_site(
    alloc: Global,
    asked: &HashedRequest<'_>,
    octets: &[u8],
) -> Result<Decision, AllocError>
    ensures carried { IfOk result (λ d. IsTrue (fits asked.now.algorithm asked.now.request.now d.content)) }
    ensures decided { IfOk result (λ d. decision_of d ≡ decisions.site_decision asked.now.algorithm asked.now.request.now octets.now) }
{
    let octets = Octets::new(Vec::from_slice(alloc, octets)?);
    let Some(content) = fitting(asked, ReplyContent::Site { octets }) else {
        return Ok(failure(ResponseCode::Error));
    };
    Ok(Decision {
        code: ResponseCode::Success,
        content,
        change: None,
    })
}

/// The whole decision, from the code of the table.
#[tactic(auto, unfolding(crate::specs::Decisions::decision), using(crate::proofs::Lengths::empty_fits))]
pub(crate) fn whole_decision(
    alloc: Global,
    asked: &HashedRequest<'_>,
    level: &Level<'_>,
    table_view: TableView,
    code: ResponseCode,
    name: Name,
) -> Result<Decision, Refused>
    requires named { name ≡ sent_handle asked.now.request.now.operation }
    ensures carried { IfOk result (λ d. IsTrue (fits asked.now.algorithm asked.now.request.now d.content)) }
    ensures decided { IfOk result (λ d. decision_of d ≡ decisions.decision asked.now.algorithm (table_view_of table_view) asked.now.request.now (level_of level.now) (response_number code)) }
{
    if code != ResponseCode::Success {
        return Ok(failure(code));
    }
    let (content, name) = carried_content(asked.request, level, table_view, name);
    let Some(content) = fitting(asked, content) else {
        return Ok(failure(ResponseCode::Error));
    };
    let change = change_of(alloc, asked.request, name)?;
    Ok(Decision {
        code,
        content,
        change,
    })
}
