//! What a decision sees of the table: first the heads of the handle's values, then what is granted of the rest.

ghost use Rattle.std.specs.Prelude.{◌≡◌, ◌≤◌, ◌+◌, ◌++◌, ◌==◌, IfOk, OnOk};
ghost use Rattle.hdl_name.specs.Name.{canonical};
ghost use Rattle.hdl_auth.specs.declared.algorithm.Algorithm.{Algorithm};
ghost use Rattle.hdl_msg.specs.Codes.{response_number};
ghost use Rattle.hdl_msg.specs.declared.codes.ResponseCode.TheVariants.{Success};
ghost use Rattle.hdl_rows.specs.Table.{refusals_after, HaveTheirIndexes, AreRefusalsAfter};
ghost use Rattle.hdl_reach.specs.Cost.{ReadsWithin};
ghost use Rattle.hdl_ops.specs.Cost.{cost_of_heads, granted_cost, shown_cost};
ghost use Rattle.hdl_ops.specs.Decisions.{decision};
ghost use Rattle.hdl_ops.specs.Requests.{sent_handle, handle_of};
ghost use Rattle.hdl_ops.specs.Seeing.{one_or_none, IsEnough};
ghost use Rattle.hdl_ops.specs.TableViews.{table_view, bare};
ghost use Rattle.hdl_ops.specs.Views.{level_of, table_view_of};

use crate::decision::{Level, TableView};
use crate::requests::{is_list, resolves};
use crate::whole_decision::readable_values;
use hdl_limits::MESSAGE_MAX;
use hdl_msg::{Request, ResponseCode};
use hdl_name::Name;
use hdl_rows::reads::{found_octets, with_call};
use hdl_rows::{Refused, Rows};
use hdl_value::{Reference, Value};
use std::alloc::{AllocError, Global};

/// Values that were read by calls that count more fit into no message: a value counts 46 octets with its call, beside what it holds, and takes at
/// least 21.
pub const READ_MAX: u64 = MESSAGE_MAX as u64 * 46 / 21;

/// Whether the code is Success.
pub(crate) fn is_granted(code: ResponseCode) -> bool
    ensures { result ≡ (response_number code == response_number Success) }
{
    code == ResponseCode::Success
}

/// What is seen before a code is known: whether the handle is there, and the heads of its values.
#[tactic(auto, unfolding(crate::specs::TableViews::table_view, crate::specs::Requests::handle_of))]
pub(crate) fn look<R: Rows>(
    alloc: Global,
    rows: &mut R,
    request: &Request<'_>,
    name: &Name,
) -> Result<TableView, Refused>
    requires named { name.now ≡ sent_handle request.now.operation }
    ensures unchanged { R.content rows.new ≡ R.content rows.old }
    ensures table_view { IfOk result (λ s. table_view_of s ≡ bare (table_view (R.content rows.old) request.now)) }
    ensures by_index { OnOk result (HaveTheirIndexes (R.content rows.old) (handle_of request.now) (table_view (R.content rows.old) request.now).values) }
    ensures count { R.refused rows.new ≡ refusals_after result (R.refused rows.old) }
    ensures cost { R.reads rows.new ≤ R.reads rows.old + cost_of_heads (table_view (R.content rows.old) request.now) }
{
    let found = rows.heads(name)?;
    let names = Vec::new(alloc);
    Ok(match found {
        Some(values) => TableView {
            there: true,
            values,
            names,
        },
        None => TableView {
            there: false,
            values: Vec::new(alloc),
            names,
        },
    })
}

/// Puts a value that was found behind the others.
fn push_found(all: &mut Vec<Value>, value: Option<Value>) -> Result<(), AllocError>
    ensures { OnOk result (all.new.items ≡ all.old.items ++ one_or_none value) }
{
    if let Some(value) = value {
        all.push(value)?;
    }
    Ok(())
}

/// The values whose heads these are: all, or so many that no message takes them.
fn whole_values<R: Rows>(
    alloc: Global,
    rows: &mut R,
    place: &mut Reference,
    heads: &[Value],
) -> Result<Vec<Value>, Refused>
    ensures unchanged { R.content rows.new ≡ R.content rows.old }
    ensures name { place.new.name ≡ place.old.name }
    ensures enough { IfOk result (λ all. IsEnough (R.content rows.old) (canonical place.old.name) heads.now all.items) }
    ensures count { AreRefusalsAfter result (R.refused rows.old) (R.refused rows.new) }
    ensures cost { ReadsWithin (R.content rows.old) shown_cost (R.reads rows.old) (R.reads rows.new) }
{
    let mut all = Vec::new(alloc);
    let mut octets: u64 = 0;
    for head in heads {
        if octets > READ_MAX {
            return Ok(all);
        }
        place.index = head.index;
        let value = rows.at(place)?;
        octets = with_call(octets, found_octets(&value));
        push_found(&mut all, value)?;
    }
    Ok(all)
}

/// What is seen if the request is granted: of a resolution the values that the level may read, of a list the handles of the naming authority.
/// No other decision tells of them, so the table isn't asked for them before.
pub(crate) fn see<R: Rows>(
    alloc: Global,
    rows: &mut R,
    request: &Request<'_>,
    level: &Level<'_>,
    place: &mut Reference,
    mut seen: TableView,
) -> Result<TableView, Refused>
    requires named { place.old.name ≡ sent_handle request.now.operation }
    requires seen { table_view_of seen ≡ bare (table_view (R.content rows.old) request.now) }
    requires by_index { HaveTheirIndexes (R.content rows.old) (handle_of request.now) (table_view (R.content rows.old) request.now).values }
    ensures unchanged { R.content rows.new ≡ R.content rows.old }
    ensures name { place.new.name ≡ place.old.name }
    ensures decision { IfOk result (λ s. (a : Algorithm) → decision a (table_view_of s) request.now (level_of level.now) (response_number Success) ≡ decision a (table_view (R.content rows.old) request.now) request.now (level_of level.now) (response_number Success)) }
    ensures count { AreRefusalsAfter result (R.refused rows.old) (R.refused rows.new) }
    ensures cost { ReadsWithin (R.content rows.old) (granted_cost request.now.operation) (R.reads rows.old) (R.reads rows.new) }
{
    if resolves(request.body()) {
        let heads = readable_values(request.body(), level, seen.values);
        let values = whole_values(alloc, rows, place, &heads)?;
        return Ok(TableView {
            there: seen.there,
            values,
            names: seen.names,
        });
    }
    if is_list(request.body()) {
        seen.names = rows.names(place.name.prefix())?;
        return Ok(seen);
    }
    Ok(seen)
}
