//! Writes of a table as changes, and changes as writes.

ghost use Rattle.std.specs.Prelude.{◌≡◌, map, IfOk};
ghost use Rattle.hdl_ops.specs.Tables as tables;
ghost use Rattle.hdl_ops.specs.Tables.{with_timestamp};
ghost use Rattle.hdl_durablerows.specs.Writes.{write_of, write_in};
ghost use Rattle.hdl_cluster.specs.Writes.{write_at};

use hdl_durablerows::{OwnedWrite, Write};
use hdl_limits::Items;
use hdl_name::Name;
use hdl_ops::Change;
use hdl_value::Value;
use std::alloc::{AllocError, Global};

fn name_of(alloc: Global, name: &Name) -> Result<Name, AllocError>
    ensures { IfOk result (λ copy. copy ≡ name.now) }
{
    // A name reads as itself, so memory alone is refused.
    Name::read(alloc, name.sent()).map_err(|_| AllocError)
}

fn copies(alloc: Global, values: &[Value]) -> Result<Vec<Value>, AllocError>
    ensures { IfOk result (λ all. all.items ≡ values.now) }
{
    let mut all = Vec::new(alloc);
    for value in values {
        all.push(value.copy(alloc)?)?;
    }
    Ok(all)
}

fn with_moment(mut values: Vec<Value>, moment: u64) -> Vec<Value>
    ensures { result.items ≡ map (with_timestamp moment) values.items }
{
    for value in values.iter_mut() {
        value.timestamp = moment;
    }
    values
}

/// The values, each with this moment.
fn stamped(alloc: Global, values: &[Value], moment: u64) -> Result<Vec<Value>, AllocError>
    ensures { IfOk result (λ all. all.items ≡ map (with_timestamp moment) values.now) }
{
    Ok(with_moment(copies(alloc, values)?, moment))
}

/// The write that a change makes at a moment.
pub(crate) fn write_of_change(
    alloc: Global,
    moment: u64,
    change: &Change,
) -> Result<OwnedWrite, AllocError>
    ensures { IfOk result (λ write. write_in write ≡ write_at moment change.now) }
{
    Ok(match change {
        Change::Create { name, values } => OwnedWrite::Create(
            name_of(alloc, name)?,
            stamped(alloc, values.as_slice(), moment)?,
        ),
        Change::Add { name, values } => OwnedWrite::Add(
            name_of(alloc, name)?,
            stamped(alloc, values.as_slice(), moment)?,
        ),
        Change::Modify { name, values } => OwnedWrite::Modify(
            name_of(alloc, name)?,
            stamped(alloc, values.as_slice(), moment)?,
        ),
        Change::Remove { name, indexes } => OwnedWrite::Remove(
            name_of(alloc, name)?,
            Vec::from_slice(alloc, indexes.as_slice())?,
        ),
        Change::Delete { name } => OwnedWrite::Delete(name_of(alloc, name)?),
    })
}

/// The change that makes a write.
pub(crate) fn change_of_write(alloc: Global, write: &Write<'_>) -> Result<Change, AllocError>
    ensures { IfOk result (λ change. tables.write_of change ≡ write_of write.now) }
{
    Ok(match write {
        Write::Create(name, values) => Change::Create {
            name: name_of(alloc, name)?,
            values: Items::new(copies(alloc, values)?),
        },
        Write::Add(name, values) => Change::Add {
            name: name_of(alloc, name)?,
            values: Items::new(copies(alloc, values)?),
        },
        Write::Modify(name, values) => Change::Modify {
            name: name_of(alloc, name)?,
            values: Items::new(copies(alloc, values)?),
        },
        Write::Remove(name, indexes) => Change::Remove {
            name: name_of(alloc, name)?,
            indexes: Items::new(Vec::from_slice(alloc, indexes)?),
        },
        Write::Delete(name) => Change::Delete {
            name: name_of(alloc, name)?,
        },
    })
}

/// The moment of a write: that of its first value. A write without values has none.
pub(crate) fn moment_of(write: &Write<'_>) -> u64 {
    match write {
        Write::Create(_, values) | Write::Add(_, values) | Write::Modify(_, values) => {
            values.first().map_or(0, |value| value.timestamp)
        }
        Write::Remove(_, _) | Write::Delete(_) => 0,
    }
}
