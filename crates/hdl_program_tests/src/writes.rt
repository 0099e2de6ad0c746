//! Calls of a table as tests make them. Each write asserts first what it requires, so that a test needs no proof of it.

ghost use Rattle.std.specs.Prelude.{◌≡◌};
ghost use Rattle.hdl_rows.specs.Table.{AreDistinct, indexes};

use hdl_name::Name;
use hdl_rows::{Provenance, Rows};
use hdl_value::{Reference, Value};
use std::alloc::Global;
use std::process::Abort;
use std::test::Fail;

pub fn reference(alloc: Global, text: &[u8], index: u32) -> Result<Reference, Fail> {
    Ok(Reference {
        name: Name::read(alloc, text)?,
        index,
    })
}

/// Makes a handle that isn't there.
pub fn create<R: Rows>(
    rt: &impl Abort,
    rows: &mut R,
    name: &Name,
    values: &[Value],
) -> Result<(), Fail>
    requires distinct { AreDistinct (indexes values.now) }
{
    assert!(rt; !rows.exists(name)?);
    rows.create(name, values, &Provenance::opening())?;
    Ok(())
}

/// Adds a value where none stands.
pub fn add<R: Rows>(
    rt: &impl Abort,
    rows: &mut R,
    place: &Reference,
    value: Value,
) -> Result<(), Fail>
    requires place { value.index ≡ place.now.index }
{
    assert!(rt; rows.exists(&place.name)?);
    assert!(rt; rows.at(place)?.is_none());
    rows.add(&place.name, &[value], &Provenance::opening())?;
    Ok(())
}

/// Replaces the value that stands at a place.
pub fn modify<R: Rows>(
    rt: &impl Abort,
    rows: &mut R,
    place: &Reference,
    value: Value,
) -> Result<(), Fail>
    requires place { value.index ≡ place.now.index }
{
    assert!(rt; rows.exists(&place.name)?);
    assert!(rt; rows.at(place)?.is_some());
    rows.modify(&place.name, &[value], &Provenance::opening())?;
    Ok(())
}

/// Takes away the value that stands at a place.
pub fn remove<R: Rows>(rt: &impl Abort, rows: &mut R, place: &Reference) -> Result<(), Fail> {
    assert!(rt; rows.exists(&place.name)?);
    assert!(rt; rows.at(place)?.is_some());
    rows.remove(&place.name, &[place.index], &Provenance::opening())?;
    Ok(())
}

/// Takes away a handle that is there.
pub fn delete<R: Rows>(rt: &impl Abort, rows: &mut R, name: &Name) -> Result<(), Fail> {
    assert!(rt; rows.exists(name)?);
    rows.delete(name, &Provenance::opening())?;
    Ok(())
}
