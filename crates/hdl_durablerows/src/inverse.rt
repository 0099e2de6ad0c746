//! The write that undoes another.

ghost use Rattle.std.specs.Prelude.{◌≡◌, ◌⊎◌, ◌+◌, min, IfOk, OnOk};
ghost use Rattle.std.specs.List.{filter_map};
ghost use Rattle.hdl_rows.specs.Table.{value_with, indexes, IsPlaced, AreRefusalsAfter, most};
ghost use Rattle.hdl_rows.specs.Write.{CanWrite};
ghost use Rattle.hdl_name.specs.Name.{canonical};
ghost use Rattle.hdl_durablerows.specs.Writes.{write_in};
ghost use Rattle.hdl_durablerows.specs.Inverse.{values_at, inverse, AreAtOwnIndexes, IsUndo, CanUndo, Undone, OwnIndexesStay};

use crate::write::{OwnedWrite, copy_of_name};
use hdl_name::Name;
use hdl_rows::{Refused, Rows, value_with};
use hdl_value::Value;
use std::alloc::{AllocError, Global};

/// The table after a write allows its inverse.
pub fn can_undo()
    ensures { CanUndo }
{}

/// A write and then its inverse leave the table as it was.
pub fn undone()
    ensures { Undone }
{}

/// A table whose values stand at their own indexes is such a one after every write.
pub fn own_indexes_stay()
    ensures { OwnIndexesStay }
{}

fn indexes_of(alloc: Global, values: &[Value]) -> Result<Vec<u32>, AllocError>
    ensures { IfOk result (λ all. all.items ≡ indexes values.now) }
{
    values.iter().map(|value| value.index).collect(alloc)
}

/// Copies of the values with these indexes, in the order of the indexes.
fn chosen(alloc: Global, values: &[Value], indexes: &[u32]) -> Result<Vec<Value>, AllocError>
    ensures { IfOk result (λ some. some.items ≡ filter_map (λ i. value_with i values.now) indexes.now) }
{
    let mut some = Vec::new(alloc);
    for index in indexes {
        if let Some(value) = value_with(values, *index) {
            some.push(value.copy(alloc)?)?;
        }
    }
    Ok(some)
}

/// The values that stand at these indexes of a handle, in the order of the indexes.
fn old_values<R: Rows>(
    alloc: Global,
    rows: &mut R,
    name: &Name,
    indexes: &[u32],
) -> Result<Vec<Value>, Refused>
    ensures unchanged { R.content rows.new ≡ R.content rows.old }
    ensures found { IfOk result (λ old. old.items ≡ values_at (R.content rows.old) (canonical name.now) indexes.now) }
    ensures own { IfOk result (λ _. AreAtOwnIndexes (R.content rows.old) (canonical name.now)) }
    ensures count { AreRefusalsAfter result (R.refused rows.old) (R.refused rows.new) }
{
    let all = rows.values(name)?;
    Ok(chosen(alloc, &all, indexes)?)
}

/// The inverse of a write, over the table before it. Refused: the table refused a look, and its count rose by one; or memory was refused, and the
/// count is as it was.
pub(crate) fn inverse_of<R: Rows>(
    alloc: Global,
    rows: &mut R,
    write: &OwnedWrite,
) -> Result<OwnedWrite, Refused>
    requires placed { IsPlaced (R.content rows.old) }
    requires can { CanWrite (R.content rows.old) (write_in write.now) }
    ensures inverse { IfOk result (λ undo. write_in undo ≡ inverse (R.content rows.old) (write_in write.now)) }
    ensures undo { IfOk result (λ undo. IsUndo (R.content rows.old) (write_in write.now) (write_in undo)) }
    ensures unchanged { R.content rows.new ≡ R.content rows.old }
    ensures count { (R.refused rows.new ≡ R.refused rows.old) ⊎ (R.refused rows.new ≡ min (R.refused rows.old + 1) most) }
    ensures same_count { OnOk result (R.refused rows.new ≡ R.refused rows.old) }
{
    match write {
        OwnedWrite::Create(name, _) => Ok(OwnedWrite::Delete(copy_of_name(alloc, name)?)),
        OwnedWrite::Add(name, values) => {
            let indexes = indexes_of(alloc, values)?;
            Ok(OwnedWrite::Remove(copy_of_name(alloc, name)?, indexes))
        }
        OwnedWrite::Modify(name, values) => {
            let indexes = indexes_of(alloc, values)?;
            let old = old_values(alloc, rows, name, &indexes)?;
            Ok(OwnedWrite::Modify(copy_of_name(alloc, name)?, old))
        }
        OwnedWrite::Remove(name, indexes) => {
            let old = old_values(alloc, rows, name, indexes)?;
            Ok(OwnedWrite::Add(copy_of_name(alloc, name)?, old))
        }
        OwnedWrite::Delete(name) => {
            let old = rows.values(name)?;
            Ok(OwnedWrite::Create(copy_of_name(alloc, name)?, old))
        }
    }
}
