//! Counts of what a table's calls return.

ghost use Rattle.std.specs.Prelude.{◌≡◌, ◌+◌, sum_by, map};
ghost use Rattle.hdl_limits.specs.Counts.{at_most_u64};
ghost use Rattle.hdl_rows.specs.Reads as spec;
ghost use Rattle.hdl_rows.specs.Reads.{of_value};
ghost use Rattle.hdl_rows.specs.Table.{values_in};

use hdl_limits::Octets;
use hdl_value::{RawRef, Value};

/// What a call counts in addition to what it returns, in octets.
pub const CALL_OCTETS: u64 = 16;

/// What a value counts in addition to its type, its data and its references: as many octets as its other fields take in
/// a message.
pub const VALUE_OCTETS: u64 = 30;

/// What a reference counts in addition to its handle: as many octets as in a message.
pub const REFERENCE_OCTETS: u64 = 8;

/// What a handle in a list counts in addition to its own octets: as many as in a message.
pub const NAME_OCTETS: u64 = 4;

/// The count after one more call, which returned `octets`.
pub fn with_call(reads: u64, octets: u64) -> u64
    ensures { result ≡ at_most_u64 (reads + (CALL_OCTETS + octets)) }
{
    reads.saturating_add(CALL_OCTETS).saturating_add(octets)
}

fn references_octets(refs: &[RawRef]) -> u64
    ensures { result ≡ at_most_u64 (sum_by spec.reference_octets refs.now) }
{
    let mut sum: u64 = 0;
    for r in refs {
        let handle = r.handle.as_slice().len() as u64;
        sum = sum.saturating_add(REFERENCE_OCTETS).saturating_add(handle);
    }
    sum
}

/// How many octets a value counts.
pub fn value_octets(value: &Value) -> u64
    ensures { result ≡ at_most_u64 (spec.value_octets value.now) }
{
    let kind = value.kind.as_slice().len() as u64;
    let bytes = value.bytes.as_slice().len() as u64;
    let refs = references_octets(value.references.as_slice());
    VALUE_OCTETS
        .saturating_add(kind)
        .saturating_add(bytes)
        .saturating_add(refs)
}

/// How many octets a value counts; 0 if there is none.
pub fn found_octets(value: &Option<Value>) -> u64
    ensures { result ≡ at_most_u64 (of_value value.now) }
{
    match value {
        Some(value) => value_octets(value),
        None => 0,
    }
}

/// How many octets values count together.
pub fn values_octets(values: &[Value]) -> u64
    ensures { result ≡ at_most_u64 (spec.values_octets values.now) }
{
    let mut sum: u64 = 0;
    for value in values {
        sum = sum.saturating_add(value_octets(value));
    }
    sum
}

/// How many octets the values of a handle count together; 0 if the handle is absent.
pub fn seen_octets(seen: &Option<Vec<Value>>) -> u64
    ensures { result ≡ at_most_u64 (spec.values_octets (values_in seen.now)) }
{
    match seen {
        Some(values) => values_octets(values),
        None => 0,
    }
}

/// How many octets names of handles count together.
pub fn names_octets(names: &[Octets]) -> u64
    ensures { result ≡ at_most_u64 (spec.names_octets names.now) }
{
    let mut sum: u64 = 0;
    for name in names {
        let octets = name.as_slice().len() as u64;
        sum = sum.saturating_add(NAME_OCTETS).saturating_add(octets);
    }
    sum
}
