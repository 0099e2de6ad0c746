//! What an update of a handle sends.

ghost use Rattle.std.specs.Prelude.{◌≡◌, map, option_copied, Some, IfOk};
ghost use Rattle.hdl_commands.specs.Update as said;

use hdl_value::Value;
use std::alloc::{AllocError, Global};

/// What of a value that is there stays, since no column of the file says it.
#[derive(Clone, Copy)]
pub struct KeptFields {
    pub ttl: bool,
    pub permissions: bool,
}

/// The wanted values that an update modifies, and those that it adds.
#[derive(Drop)]
pub(crate) struct Steps {
    pub modified: Vec<Value>,
    pub added: Vec<Value>,
}

/// The value with this index.
pub(crate) fn value_at(index: u32, values: &[Value]) -> Option<&Value>
    ensures { option_copied result ≡ said.value_at index values.now }
{
    values.iter().find(|value| value.index == index)
}

/// A wanted value as it is meant, where this one is there at its index.
fn with_kept(kept: KeptFields, old: &Value, wanted: Value) -> Value
    ensures { result ≡ said.meant_by kept (Some old.now) wanted }
{
    let Value {
        index,
        kind,
        bytes,
        ttl,
        permissions,
        timestamp,
        references,
    } = wanted;
    Value {
        index,
        kind,
        bytes,
        ttl: if kept.ttl { old.ttl } else { ttl },
        permissions: if kept.permissions {
            old.permissions
        } else {
            permissions
        },
        timestamp,
        references,
    }
}

/// A value as it is meant beside those that are there.
fn meant(
    alloc: Global,
    kept: KeptFields,
    there: &[Value],
    wanted: &Value,
) -> Result<Value, AllocError>
    ensures { IfOk result (λ v. v ≡ said.meant kept there.now wanted.now) }
{
    let value = wanted.copy(alloc)?;
    match value_at(wanted.index, there) {
        Some(old) => Ok(with_kept(kept, old, value)),
        None => Ok(value),
    }
}

/// The wanted values as they are meant beside those that are there: what no column says stays.
pub(crate) fn meant_values(
    alloc: Global,
    kept: KeptFields,
    there: &[Value],
    wanted: &[Value],
) -> Result<Vec<Value>, AllocError>
    ensures { IfOk result (λ all. all.items ≡ map (said.meant kept there.now) wanted.now) }
{
    let mut all = Vec::new(alloc);
    for value in wanted {
        all.push(meant(alloc, kept, there, value)?)?;
    }
    Ok(all)
}

fn has_index(index: u32, values: &[Value]) -> bool
    ensures { result ≡ said.has_index index values.now }
{
    values.iter().any(|value| value.index == index)
}

/// Whether a value is as it is wanted, whenever it was written.
pub(crate) fn is_same(there: &Value, wanted: &Value) -> bool
    ensures { result ≡ said.is_same there.now wanted.now }
{
    there.index == wanted.index
        && there.kind.as_slice() == wanted.kind.as_slice()
        && there.bytes.as_slice() == wanted.bytes.as_slice()
        && there.ttl == wanted.ttl
        && there.permissions == wanted.permissions
        && there.references.as_slice().is_empty()
        && wanted.references.as_slice().is_empty()
}

fn is_there(there: &[Value], wanted: &Value) -> bool
    ensures { result ≡ said.is_there there.now wanted.now }
{
    there.iter().any(|value| is_same(value, wanted))
}

/// What has to be sent so that the wanted values are there: of those whose index is there the ones that differ are modified, and those
/// whose index isn't there are added. Values with other indexes stay.
pub(crate) fn steps_to(
    alloc: Global,
    there: &[Value],
    wanted: &[Value],
) -> Result<Steps, AllocError>
    ensures modified { IfOk result (λ steps. steps.modified.items ≡ said.changed there.now wanted.now) }
    ensures added { IfOk result (λ steps. steps.added.items ≡ said.lacking there.now wanted.now) }
{
    let mut modified = Vec::new(alloc);
    let mut added = Vec::new(alloc);
    for value in wanted {
        if !has_index(value.index, there) {
            added.push(value.copy(alloc)?)?;
        } else if !is_there(there, value) {
            modified.push(value.copy(alloc)?)?;
        }
    }
    Ok(Steps { modified, added })
}

/// Whatever is there, each wanted value is there as it is wanted after the steps, and no value with another index is changed.
pub fn update_is_right()
    ensures { said.UpdateIsRight }
{}
