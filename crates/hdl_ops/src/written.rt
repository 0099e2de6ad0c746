//! What a write names: its indexes and its values, tested without memory, and copied once it stands.

ghost use Rattle.std.specs.Prelude.{◌≡◌, ◌==◌, length, map, IfOk};
ghost use Rattle.std.specs.List.{list_any, list_all};
ghost use Rattle.hdl_value.specs.Refs.{is_admin};
ghost use Rattle.hdl_value.specs.Tests.{is_sound};
ghost use Rattle.hdl_value.specs.Padding.{stored_by};
ghost use Rattle.hdl_msg.specs.Views.{operation_of, numbers_of, values_of};
ghost use Rattle.hdl_ops.specs.Admission.{has_twins, is_bad_list, are_bad, is_bad_write};
ghost use Rattle.hdl_ops.specs.Requests.{stored_operation};

use crate::asked_values::lists_index;
use hdl_limits::WRITTEN_MAX;
use hdl_msg::{Body, Numbers, Request, Values};
use hdl_value::{Value, Wire};
use std::alloc::{AllocError, Global};

fn count_of_indexes(indexes: Numbers<'_>) -> usize
    ensures { result ≡ length (numbers_of indexes.entry) }
{
    indexes.count()
}

pub(crate) fn count_of_values(values: Values<'_>) -> usize
    ensures { result ≡ length (values_of values.entry) }
{
    values.count()
}

fn has_twin_indexes(mut indexes: Numbers<'_>) -> bool
    ensures { result ≡ has_twins (λ i. i) (numbers_of indexes.entry) }
{
    while let Some(index) = indexes.next() {
        if lists_index(indexes, index) {
            return true;
        }
    }
    false
}

fn has_value_of(mut values: Values<'_>, index: u32) -> bool
    ensures { result ≡ list_any (λ v. v.index == index) (values_of values.entry) }
{
    values.any(|value| value.index() == index)
}

fn has_twin_values(mut values: Values<'_>) -> bool
    ensures { result ≡ has_twins (λ v. v.index) (values_of values.entry) }
{
    while let Some(value) = values.next() {
        if has_value_of(values, value.index()) {
            return true;
        }
    }
    false
}

fn are_bad_indexes(indexes: Numbers<'_>) -> bool
    ensures { result ≡ is_bad_list (λ i. i) (numbers_of indexes.entry) }
{
    let count = count_of_indexes(indexes);
    count == 0 || count > WRITTEN_MAX || has_twin_indexes(indexes)
}

fn is_bad_value_list(values: Values<'_>) -> bool
    ensures { result ≡ is_bad_list (λ v. v.index) (values_of values.entry) }
{
    let count = count_of_values(values);
    count == 0 || count > WRITTEN_MAX || has_twin_values(values)
}

fn are_sound(wire: Wire, mut values: Values<'_>) -> bool
    ensures { result ≡ list_all is_sound (map (stored_by wire) (values_of values.entry)) }
{
    values.all(|value| value.stored_by(wire).check().is_ok())
}

#[tactic(auto, unfolding(crate::specs::Admission::are_bad), using(crate::proofs::Stored::bad_stored))]
fn are_bad(wire: Wire, values: Values<'_>) -> bool
    ensures { result ≡ are_bad (map (stored_by wire) (values_of values.entry)) }
{
    is_bad_value_list(values) || !are_sound(wire, values)
}

fn has_admin(mut values: Values<'_>) -> bool
    ensures { result ≡ list_any is_admin (values_of values.entry) }
{
    values.any(|value| value.is_admin())
}

/// What the write names can't be written, whatever the table holds.
#[tactic(auto, using(crate::proofs::Stored::admins_stored))]
pub(crate) fn is_bad_write(request: &Request<'_>) -> bool
    ensures { result ≡ is_bad_write (stored_operation request.now) }
{
    let wire = request.wire();
    match request.body() {
        Body::Create { values, .. } => are_bad(wire, *values) || !has_admin(*values),
        Body::Add { values, .. } => are_bad(wire, *values),
        Body::Modify { values, .. } => are_bad(wire, *values),
        Body::Remove { indexes, .. } => are_bad_indexes(*indexes),
        _ => false,
    }
}

/// The values that are stored where these came by the layout, in memory of their own.
pub(crate) fn stored_values(
    alloc: Global,
    wire: Wire,
    mut values: Values<'_>,
) -> Result<Vec<Value>, AllocError>
    ensures { IfOk result (λ all. all.items ≡ map (stored_by wire) (values_of values.entry)) }
{
    let mut all = Vec::new(alloc);
    while let Some(value) = values.next() {
        let Ok(value) = value.stored_by(wire).read(alloc) else {
            return Err(AllocError);
        };
        all.push(value)?;
    }
    Ok(all)
}

/// The indexes, in memory of their own.
pub(crate) fn copied_indexes(
    alloc: Global,
    mut indexes: Numbers<'_>,
) -> Result<Vec<u32>, AllocError>
    ensures { IfOk result (λ all. all.items ≡ numbers_of indexes.entry) }
{
    let mut all = Vec::new(alloc);
    while let Some(index) = indexes.next() {
        all.push(index)?;
    }
    Ok(all)
}
