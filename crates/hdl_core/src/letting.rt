//! Letting in a change that another server decided.

ghost use Rattle.std.specs.Prelude.{◌≡◌, true, false, is_some, if◌then◌else◌, IfOk, OnErr};
ghost use Rattle.hdl_rows.specs.Debt.{is_owed};
ghost use Rattle.std.specs.List.{list_any};
ghost use Rattle.hdl_reach.specs.Cost.{ReadsWithin, heads_cost};
ghost use Rattle.hdl_rows.specs.Table.{indexes, values_in};
ghost use Rattle.hdl_ops.specs.Admission.{has_twins};
ghost use Rattle.hdl_ops.specs.Proven.{misses_at, takes_at};
ghost use Rattle.hdl_ops.specs.Tables.{apply, CanApply};
ghost use Rattle.hdl_core.specs.Letting.{indexes_of, is_fit, name_of, stands};

use hdl_limits::Items;
use hdl_name::Name;
use hdl_ops::{Agent, Change, Provenance, Refused, Rows, apply};
use hdl_rows::{Owed, value_with};
use hdl_value::Value;
use std::alloc::{AllocError, Global};

/// What came of a change that another server decided.
#[derive(Clone, Copy, Debug, PartialEq, Eq, Drop)]
pub enum RemoteChangeResult {
    /// It is in the table.
    Done,
    /// The table can't have it: its handle or one of its values is there and shouldn't be, or should be there and isn't.
    Unfit,
    /// Memory or the table was refused.
    Refused,
    /// The table owes a write, this one or another. The same call, made again once that has ended, claims its own.
    Owed,
}

/// What is told of a change whose write was refused.
pub(crate) fn refusal(owed: Owed) -> RemoteChangeResult
    ensures { result ≡ (if is_owed owed then RemoteChangeResult.Owed else RemoteChangeResult.Refused) }
{
    match owed {
        Owed::Nothing => RemoteChangeResult::Refused,
        Owed::UnderWay => RemoteChangeResult::Owed,
        Owed::Ended => RemoteChangeResult::Owed,
    }
}

fn copied_name(alloc: Global, name: &Name) -> Result<Name, AllocError>
    ensures { IfOk result (λ copy. copy ≡ name.now) }
{
    // A name reads as itself, so memory alone is refused.
    Name::read(alloc, name.sent()).map_err(|_| AllocError)
}

fn copied_values(alloc: Global, values: &[Value]) -> Result<Items<Value>, AllocError>
    ensures { IfOk result (λ copy. copy ≡ values.now) }
{
    let mut copy = Vec::new(alloc);
    for value in values {
        copy.push(value.copy(alloc)?)?;
    }
    Ok(Items::new(copy))
}

/// The same change, in memory of its own.
fn copied(alloc: Global, change: &Change) -> Result<Change, AllocError>
    ensures { IfOk result (λ copy. copy ≡ change.now) }
{
    let name = copied_name(alloc, name_of(change))?;
    Ok(match change {
        Change::Create { values, .. } => Change::Create {
            name,
            values: copied_values(alloc, values.as_slice())?,
        },
        Change::Delete { .. } => Change::Delete { name },
        Change::Add { values, .. } => Change::Add {
            name,
            values: copied_values(alloc, values.as_slice())?,
        },
        Change::Remove { indexes, .. } => Change::Remove {
            name,
            indexes: Items::new(Vec::from_slice(alloc, indexes.as_slice())?),
        },
        Change::Modify { values, .. } => Change::Modify {
            name,
            values: copied_values(alloc, values.as_slice())?,
        },
    })
}

fn name_of(change: &Change) -> &Name
    ensures { result.now ≡ name_of change.now }
{
    match change {
        Change::Create { name, .. } => name,
        Change::Delete { name } => name,
        Change::Add { name, .. } => name,
        Change::Remove { name, .. } => name,
        Change::Modify { name, .. } => name,
    }
}

fn indexes_in(alloc: Global, values: &[Value]) -> Result<Vec<u32>, AllocError>
    ensures { IfOk result (λ all. all.items ≡ indexes values.now) }
{
    let mut all = Vec::new(alloc);
    for value in values {
        all.push(value.index)?;
    }
    Ok(all)
}

fn indexes_of(alloc: Global, change: &Change) -> Result<Vec<u32>, AllocError>
    ensures { IfOk result (λ all. all.items ≡ indexes_of change.now) }
{
    match change {
        Change::Create { values, .. } => indexes_in(alloc, values.as_slice()),
        Change::Delete { .. } => Ok(Vec::new(alloc)),
        Change::Add { values, .. } => indexes_in(alloc, values.as_slice()),
        Change::Remove { indexes, .. } => Vec::from_slice(alloc, indexes.as_slice()),
        Change::Modify { values, .. } => indexes_in(alloc, values.as_slice()),
    }
}

fn has_twins(indexes: &[u32]) -> bool
    ensures { result ≡ has_twins (λ i. i) indexes.now }
{
    let mut left = indexes;
    while let Some((first, rest)) = left.split_first() {
        if rest.contains(first) {
            return true;
        }
        left = rest;
    }
    false
}

fn is_any_there(heads: &[Value], indexes: &[u32]) -> bool
    ensures { result ≡ list_any (takes_at heads.now) indexes.now }
{
    indexes
        .iter()
        .any(|index| value_with(heads, *index).is_some())
}

fn is_any_missing(heads: &[Value], indexes: &[u32]) -> bool
    ensures { result ≡ list_any (misses_at heads.now) indexes.now }
{
    indexes
        .iter()
        .any(|index| value_with(heads, *index).is_none())
}

/// The handle is absent for a create and there for all else, and no value is in the way or missing.
fn stands(found: &Option<Vec<Value>>, change: &Change, indexes: &[u32]) -> bool
    requires indexes { indexes.now ≡ indexes_of change.now }
    ensures { result ≡ stands (is_some found.now) (values_in found.now) change.now }
{
    let Some(heads) = found else {
        return matches!(change, Change::Create { .. });
    };
    match change {
        Change::Create { .. } => false,
        Change::Delete { .. } => true,
        Change::Add { .. } => !is_any_there(heads, indexes),
        Change::Remove { .. } => !is_any_missing(heads, indexes),
        Change::Modify { .. } => !is_any_missing(heads, indexes),
    }
}

/// So is it, and no index is named twice.
fn is_fit(found: &Option<Vec<Value>>, change: &Change, indexes: &[u32]) -> bool
    requires indexes { indexes.now ≡ indexes_of change.now }
    ensures { result ≡ is_fit (is_some found.now) (values_in found.now) change.now }
{
    !has_twins(indexes) && stands(found, change, indexes)
}

/// Does the change if the table can have it, and says whether it can.
pub(crate) fn apply_remote<R: Rows>(
    alloc: Global,
    rows: &mut R,
    moment: u64,
    change: &Change,
) -> Result<bool, Refused>
    ensures done { IfOk result (λ fit. fit ≡ true → CanApply (R.content rows.old) change.now × (R.content rows.new ≡ apply (R.content rows.old) moment change.now)) }
    ensures unfit { IfOk result (λ fit. fit ≡ false → (¬ CanApply (R.content rows.old) change.now) × (R.content rows.new ≡ R.content rows.old)) }
    ensures undone { OnErr result (R.content rows.new ≡ R.content rows.old) }
    ensures cost { ReadsWithin (R.content rows.old) heads_cost (R.reads rows.old) (R.reads rows.new) }
{
    let indexes = indexes_of(alloc, change)?;
    let found = rows.heads(name_of(change))?;
    if !is_fit(&found, change, &indexes) {
        return Ok(false);
    }
    let change = copied(alloc, change)?;
    let agent = Agent::Server;
    apply(rows, change, &Provenance { moment, agent })?;
    Ok(true)
}
