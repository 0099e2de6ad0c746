//! The heads of values: all but their data and references.

ghost use Rattle.std.specs.Prelude.{◌≡◌, map, IfOk};
ghost use Rattle.hdl_rows.specs.Heads as spec;

use hdl_limits::Octets;
use hdl_value::{RawRefs, Value};
use std::alloc::{AllocError, Global};

fn head_of(alloc: Global, value: &Value) -> Result<Value, AllocError>
    ensures { IfOk result (λ head. head ≡ spec.head value.now) }
{
    let kind = Octets::new(Vec::from_slice(alloc, value.kind.as_slice())?);
    Ok(Value {
        index: value.index,
        kind,
        bytes: Octets::new(Vec::new(alloc)),
        ttl: value.ttl,
        permissions: value.permissions,
        timestamp: value.timestamp,
        references: RawRefs::new(Vec::new(alloc)),
    })
}

/// Copies of the heads of values.
pub fn heads_of(alloc: Global, values: &[Value]) -> Result<Vec<Value>, AllocError>
    ensures { IfOk result (λ heads. heads.items ≡ map spec.head values.now) }
{
    let mut heads = Vec::with_capacity(alloc, values.len())?;
    for value in values {
        heads.push(head_of(alloc, value)?)?;
    }
    Ok(heads)
}

/// Drops all of a value but its head.
fn strip(alloc: Global, value: &mut Value)
    ensures { value.new ≡ spec.head value.old }
{
    value.bytes = Octets::new(Vec::new(alloc));
    value.references = RawRefs::new(Vec::new(alloc));
}

/// Drops all of the values but their heads. Takes no memory.
pub fn into_heads(alloc: Global, mut values: Vec<Value>) -> Vec<Value>
    ensures { result.items ≡ map spec.head values.items }
{
    for value in values.iter_mut() {
        strip(alloc, value);
    }
    values
}
