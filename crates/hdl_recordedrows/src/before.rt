//! The values before a write.

ghost use Rattle.std.specs.Prelude.{◌≡◌, ◌+◌, ◌++◌, ◌∷◌, [], min, IfOk, OnOk};
ghost use Rattle.hdl_name.specs.Name.{canonical};
ghost use Rattle.hdl_rows.specs.Table.{indexes, most, refusals_after};
ghost use Rattle.hdl_recordedrows.specs.Before.{standing};

use hdl_name::Name;
use hdl_rows::{Refused, Rows};
use hdl_value::{Reference, Value};
use std::alloc::{AllocError, Global};

/// Counts a write for whose values there is no memory.
fn refuse(refusals: &mut u64) -> Refused
    ensures { refusals.new ≡ min (refusals.old + 1) most }
{
    *refusals = refusals.saturating_add(1);
    Refused
}

/// Adds the value at a place, if there is one.
fn push_at<R: Rows>(
    rows: &mut R,
    refusals: &mut u64,
    place: &Reference,
    all: &mut Vec<Value>,
) -> Result<(), Refused>
    ensures found { OnOk result (all.new.items ≡ all.old.items ++ standing (R.content rows.old) (canonical place.now.name) (place.now.index ∷ [])) }
    ensures unchanged { R.content rows.new ≡ R.content rows.old }
    ensures count { min (R.refused rows.new + refusals.new) most ≡ refusals_after result (min (R.refused rows.old + refusals.old) most) }
{
    let Some(value) = rows.at(place)? else {
        return Ok(());
    };
    match all.push(value) {
        Ok(()) => Ok(()),
        Err(_) => Err(refuse(refusals)),
    }
}

/// The first place of a handle, and room for the values at these.
fn room_for(alloc: Global, name: &Name, count: usize) -> Result<(Reference, Vec<Value>), AllocError>
    ensures named { IfOk result (λ room. room.0.name ≡ name.now) }
    ensures empty { IfOk result (λ room. room.1.items ≡ []) }
{
    let Ok(name) = Name::read(alloc, name.sent()) else {
        return Err(AllocError);
    };
    let mut all = Vec::new(alloc);
    all.reserve_exact(count)?;
    Ok((Reference { name, index: 0 }, all))
}

/// The values at these indexes of a handle, in their order.
#[tactic(auto, using(crate::proofs::Standing::standing_more))]
pub(crate) fn values_at<R: Rows>(
    alloc: Global,
    rows: &mut R,
    refusals: &mut u64,
    name: &Name,
    indexes: &[u32],
) -> Result<Vec<Value>, Refused>
    ensures found { IfOk result (λ all. all.items ≡ standing (R.content rows.old) (canonical name.now) indexes.now) }
    ensures unchanged { R.content rows.new ≡ R.content rows.old }
    ensures count { min (R.refused rows.new + refusals.new) most ≡ refusals_after result (min (R.refused rows.old + refusals.old) most) }
{
    let Ok((mut place, mut all)) = room_for(alloc, name, indexes.len()) else {
        return Err(refuse(refusals));
    };
    for index in indexes {
        place.index = *index;
        push_at(rows, refusals, &place, &mut all)?;
    }
    Ok(all)
}

fn indexes_in(alloc: Global, values: &[Value]) -> Result<Vec<u32>, AllocError>
    ensures { IfOk result (λ all. all.items ≡ indexes values.now) }
{
    let mut all = Vec::new(alloc);
    for value in values {
        all.push(value.index)?;
    }
    Ok(all)
}

/// The values of a handle in whose places these are to stand, in their order.
pub(crate) fn values_replaced<R: Rows>(
    alloc: Global,
    rows: &mut R,
    refusals: &mut u64,
    name: &Name,
    values: &[Value],
) -> Result<Vec<Value>, Refused>
    ensures found { IfOk result (λ all. all.items ≡ standing (R.content rows.old) (canonical name.now) (indexes values.now)) }
    ensures unchanged { R.content rows.new ≡ R.content rows.old }
    ensures count { min (R.refused rows.new + refusals.new) most ≡ refusals_after result (min (R.refused rows.old + refusals.old) most) }
{
    match indexes_in(alloc, values) {
        Ok(indexes) => values_at(alloc, rows, refusals, name, &indexes),
        Err(_) => Err(refuse(refusals)),
    }
}
