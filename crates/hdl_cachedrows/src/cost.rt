//! What keeping the values of a handle costs: their octets, and fixed sums for what the allocator and the map take in addition.
//! The greatest number stands for those that are more, so no sum can wrap.

ghost use Rattle.std.specs.Prelude.{◌≡◌, sum_by};
ghost use Rattle.hdl_cachedrows.specs.Cost as cost;
ghost use Rattle.hdl_limits.specs.Counts.{at_most_u64};

use hdl_value::{RawRef, Value};

/// Octets of a handle in addition to its name and its values: 80 for its node, up to 60 for its slot in the map, which doubles, and what is
/// rounded up in the blocks of the name and of the list of values.
const HANDLE_COST: usize = 192;

/// Octets of a value in addition to its type, its data and its references: 96 for its fields, and what is rounded up in three blocks.
const VALUE_COST: usize = 176;

/// Octets of a reference in addition to its handle: 32 for its fields, and what is rounded up in a block.
const REFERENCE_COST: usize = 64;

fn references_cost(refs: &[RawRef]) -> usize
    ensures { result ≡ at_most_u64 (sum_by cost.reference_cost refs.now) }
{
    let mut sum: usize = 0;
    for r in refs {
        let handle = r.handle.as_slice().len();
        sum = sum.saturating_add(REFERENCE_COST).saturating_add(handle);
    }
    sum
}

fn value_cost(value: &Value) -> usize
    ensures { result ≡ at_most_u64 (cost.value_cost value.now) }
{
    let kind = value.kind.as_slice().len();
    let bytes = value.bytes.as_slice().len();
    let refs = references_cost(value.references.as_slice());
    VALUE_COST
        .saturating_add(kind)
        .saturating_add(bytes)
        .saturating_add(refs)
}

/// What a handle costs with these values, or heads.
pub(crate) fn entry_cost(name: &[u8], values: &[Value]) -> usize
    ensures { result ≡ at_most_u64 (cost.cost name.now values.now) }
{
    let mut sum = HANDLE_COST.saturating_add(name.len());
    for value in values {
        sum = sum.saturating_add(value_cost(value));
    }
    sum
}
