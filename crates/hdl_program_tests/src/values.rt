//! Values that tables are to keep as they are.

ghost use Rattle.std.specs.Prelude.{◌≡◌, IfOk};

use hdl_limits::Octets;
use hdl_value::{RawRef, RawRefs, Value};
use std::alloc::{AllocError, Global};

/// A value whose fields are all great, with this index and this data.
pub fn great(alloc: Global, index: u32, bytes: &[u8]) -> Result<Value, AllocError>
    ensures { IfOk result (λ v. v.index ≡ index) }
{
    let mut refs = Vec::new(alloc);
    for named in [u32::MAX, 0] {
        refs.push(RawRef {
            handle: Octets::new(Vec::from_slice(alloc, bytes)?),
            index: named,
        })?;
    }
    Ok(Value {
        index,
        kind: Octets::new(Vec::from_slice(alloc, &[255; 255])?),
        bytes: Octets::new(Vec::from_slice(alloc, bytes)?),
        ttl: [255, 0, 1, 2, 254],
        permissions: 255,
        timestamp: u64::MAX,
        references: RawRefs::new(refs),
    })
}
