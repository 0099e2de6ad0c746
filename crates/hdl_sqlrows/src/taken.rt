//! Putting rows that were read into a table in memory. A row that no write of this crate makes is refused as unsound.

ghost use Rattle.std.specs.Prelude.{◌≡◌, ◌<◌, true, false, None, [], ◌∷◌, pos, IfOk, IfSome, OnOk};
ghost use Rattle.sqlite_value.specs.declared.value.Value.TheVariants.{Int, Blob};
ghost use Rattle.sqlite_value.specs.Order.{column};
ghost use Rattle.hdl_name.specs.Name.{canonical};
ghost use Rattle.hdl_rows.specs.Table.{place, has, at, with_new_handle, with_values};
ghost use Rattle.hdl_sqlrows.specs.Stored.{IsHandleRow, IsEntryRow, handle_in, place_in, value_in};
ghost use Rattle.hdl_sqlrows.specs.Loaded.{entry_shown};

use crate::cells::{blob_at, value_from};
use crate::fault::LoadFault;
use hdl_name::{Name, NameFault};
use hdl_rows::{Provenance, Rows};
use hdl_value::{Reference, Value};
use sqlite::Row;
use std::alloc::Global;
use std::slice;

/// The rowid in a cell. It must be above the last one.
fn rowid_at(row: &Row, at: usize, last: Option<u64>) -> Result<u64, LoadFault>
    ensures cell { IfOk result (λ id. column row.now at ≡ Int (pos id)) }
    ensures above { IfOk result (λ id. IfSome last (λ before. before < id)) }
{
    let Ok(id) = row.get::<u64>(at) else {
        return Err(LoadFault::Rowid);
    };
    match last {
        Some(before) if id <= before => Err(LoadFault::Rowid),
        _ => Ok(id),
    }
}

/// The handle in a cell. It must be in canonical form.
fn name_at(alloc: Global, row: &Row, at: usize) -> Result<Name, LoadFault>
    ensures { IfOk result (λ name. column row.now at ≡ Blob (canonical name)) }
{
    let octets = blob_at(row, at)?;
    let name = match Name::read(alloc, octets) {
        Ok(name) => name,
        Err(NameFault::Memory) => return Err(LoadFault::Memory),
        Err(_) => return Err(LoadFault::Name),
    };
    if name.canon() != octets {
        return Err(LoadFault::Name);
    }
    Ok(name)
}

/// Puts the handle of a row of `handles` into the table, and returns the rowid. The row is as `SELECT rowid, name,
/// authority` returns it.
pub(crate) fn take_handle<R: Rows>(
    alloc: Global,
    row: &Row,
    last: Option<u64>,
    rows: &mut R,
) -> Result<u64, LoadFault>
    ensures sound { OnOk result (IsHandleRow row.now) }
    ensures rowid { IfOk result (λ id. column row.now 0 ≡ Int (pos id)) }
    ensures above { IfOk result (λ id. IfSome last (λ before. before < id)) }
    ensures absent { OnOk result (has (R.content rows.old) (handle_in row.now) ≡ false) }
    ensures put { OnOk result (R.content rows.new ≡ with_new_handle (R.content rows.old) (handle_in row.now) []) }
{
    let id = rowid_at(row, 0, last)?;
    let name = name_at(alloc, row, 1)?;
    if name.authority() != blob_at(row, 2)? {
        return Err(LoadFault::Authority);
    }
    if rows.exists(&name)? {
        return Err(LoadFault::TwoRows);
    }
    rows.create(&name, &[], &Provenance::opening())?;
    Ok(id)
}

/// Adds a value to a handle that is there, at an index where there is none.
fn put_value<R: Rows>(rows: &mut R, name: Name, value: &Value) -> Result<(), LoadFault>
    ensures there { OnOk result (has (R.content rows.old) (canonical name) ≡ true) }
    ensures absent { OnOk result (at (R.content rows.old) (place (canonical name) value.now.index) ≡ None) }
    ensures put { OnOk result (R.content rows.new ≡ with_values (R.content rows.old) (canonical name) (value.now ∷ [])) }
{
    if !rows.exists(&name)? {
        return Err(LoadFault::NoHandle);
    }
    let place = Reference {
        name,
        index: value.index,
    };
    if rows.at(&place)?.is_some() {
        return Err(LoadFault::TwoValues);
    }
    Ok(rows.add(&place.name, slice::from_ref(value), &Provenance::opening())?)
}

/// Puts the value of a row of `entries` into the table, and returns the rowid. The row is as `SELECT idx, kind, bytes,
/// ttl, permissions, timestamp, refs, name, rowid` returns it.
pub(crate) fn take_entry<R: Rows>(
    alloc: Global,
    row: &Row,
    last: Option<u64>,
    rows: &mut R,
) -> Result<u64, LoadFault>
    ensures sound { OnOk result (IsEntryRow (entry_shown row.now)) }
    ensures rowid { IfOk result (λ id. column row.now 8 ≡ Int (pos id)) }
    ensures above { IfOk result (λ id. IfSome last (λ before. before < id)) }
    ensures there { OnOk result (has (R.content rows.old) (handle_in (entry_shown row.now)) ≡ true) }
    ensures absent { OnOk result (at (R.content rows.old) (place_in (entry_shown row.now)) ≡ None) }
    ensures put { OnOk result (R.content rows.new ≡ with_values (R.content rows.old) (handle_in (entry_shown row.now)) (value_in (entry_shown row.now) ∷ [])) }
{
    let id = rowid_at(row, 8, last)?;
    let name = name_at(alloc, row, 7)?;
    let value = value_from(alloc, row)?;
    put_value(rows, name, &value)?;
    Ok(id)
}
