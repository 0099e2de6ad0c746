//! Values that the tests of several crates put into tables.

ghost use Rattle.std.specs.Prelude.{◌≡◌, IfOk};

use hdl_limits::Octets;
use hdl_value::{RawRefs, Value};
use std::alloc::{AllocError, Global};

/// A value of this index, type and data that anybody may read, without a timestamp and references.
pub fn value(alloc: Global, index: u32, kind: &[u8], bytes: &[u8]) -> Result<Value, AllocError>
    ensures { IfOk result (λ v. v.index ≡ index) }
{
    Ok(Value {
        index,
        kind: Octets::new(Vec::from_slice(alloc, kind)?),
        bytes: Octets::new(Vec::from_slice(alloc, bytes)?),
        ttl: [0; 5],
        permissions: 6,
        timestamp: 0,
        references: RawRefs::new(Vec::new(alloc)),
    })
}
