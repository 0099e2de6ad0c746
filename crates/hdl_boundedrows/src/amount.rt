//! What handles and their values count. The greatest number stands for those that are more, so no sum can wrap.

ghost use Rattle.std.specs.Prelude.{◌≡◌, ◌+◌, map, sum_by};
ghost use Rattle.hdl_rows.specs.Table.{indexes as indexes_of};
ghost use Rattle.hdl_boundedrows.specs.Amount as spec;
ghost use Rattle.hdl_boundedrows.specs.Amount.{in_handles, in_values, in_octets, with_handle, values_at};
ghost use Rattle.hdl_limits.specs.Counts.{at_most_u64};

use hdl_rows::value_with;
use hdl_value::{RawRef, Value};
use std::fmt;

/// Octets that a handle counts in addition to its name, and a value in addition to its type, data and references. So small rows have a bound too.
const ROW_OCTETS: u64 = 64;

/// Octets that a reference counts in addition to its handle.
const REFERENCE_OCTETS: u64 = 16;

/// A number of values and a number of octets.
#[derive(Clone, Copy, Debug, PartialEq, Eq, Drop)]
pub struct Amount {
    /// A handle by itself is none.
    pub values: u64,
    /// Of each handle 64 and those of its name; of each value 64 and those of its type and its data, and for each reference 16 and those of its handle.
    pub octets: u64,
}

impl fmt::Display for Amount {
    fn fmt<W: fmt::Write>(&self, f: &mut fmt::Formatter<W>) -> fmt::Result {
        let Amount { values, octets } = *self;
        write!(f, "{values} values and {octets} octets")
    }
}

impl Amount {
    /// Whether there is no more of this than of the other.
    pub fn fits(self, most: Amount) -> bool {
        self.values <= most.values && self.octets <= most.octets
    }

    /// Both together.
    pub(crate) fn plus(self, other: Amount) -> Amount
        ensures values { result.values ≡ at_most_u64 (self.values + other.values) }
        ensures octets { result.octets ≡ at_most_u64 (self.octets + other.octets) }
    {
        Amount {
            values: self.values.saturating_add(other.values),
            octets: self.octets.saturating_add(other.octets),
        }
    }
}

/// A number of handles, and the amount of them and their values. A bound limits the amount alone.
#[derive(Clone, Copy, Debug, PartialEq, Eq, Drop)]
pub struct Count {
    /// A value by itself is none.
    pub handles: u64,
    pub amount: Amount,
}

impl Count {
    /// Nothing.
    pub(crate) const NONE: Count = Count {
        handles: 0,
        amount: Amount {
            values: 0,
            octets: 0,
        },
    };

    /// Both together.
    pub(crate) fn plus(self, other: Count) -> Count
        ensures handles { result.handles ≡ at_most_u64 (self.handles + other.handles) }
        ensures values { result.amount.values ≡ at_most_u64 (self.amount.values + other.amount.values) }
        ensures octets { result.amount.octets ≡ at_most_u64 (self.amount.octets + other.amount.octets) }
    {
        Count {
            handles: self.handles.saturating_add(other.handles),
            amount: self.amount.plus(other.amount),
        }
    }
}

fn references_octets(refs: &[RawRef]) -> u64
    ensures { result ≡ at_most_u64 (sum_by spec.reference_octets refs.now) }
{
    let mut sum: u64 = 0;
    for r in refs {
        let handle = r.handle.as_slice().len() as u64;
        sum = sum.saturating_add(REFERENCE_OCTETS).saturating_add(handle);
    }
    sum
}

fn value_octets(value: &Value) -> u64
    ensures { result ≡ at_most_u64 (spec.value_octets value.now) }
{
    let kind = value.kind.as_slice().len() as u64;
    let bytes = value.bytes.as_slice().len() as u64;
    let refs = references_octets(value.references.as_slice());
    ROW_OCTETS
        .saturating_add(kind)
        .saturating_add(bytes)
        .saturating_add(refs)
}

fn value_count(value: &Value) -> Count
    ensures handles { result.handles ≡ at_most_u64 (in_handles.value value.now) }
    ensures values { result.amount.values ≡ at_most_u64 (in_values.value value.now) }
    ensures octets { result.amount.octets ≡ at_most_u64 (in_octets.value value.now) }
{
    let amount = Amount {
        values: 1,
        octets: value_octets(value),
    };
    Count { handles: 0, amount }
}

/// What values count.
pub(crate) fn values_count(values: &[Value]) -> Count
    ensures handles { result.handles ≡ at_most_u64 (sum_by in_handles.value values.now) }
    ensures values { result.amount.values ≡ at_most_u64 (sum_by in_values.value values.now) }
    ensures octets { result.amount.octets ≡ at_most_u64 (sum_by in_octets.value values.now) }
{
    let mut sum = Count::NONE;
    for value in values {
        sum = sum.plus(value_count(value));
    }
    sum
}

/// What a handle counts with these values.
pub(crate) fn handle_count(name: &[u8], values: &[Value]) -> Count
    ensures handles { result.handles ≡ at_most_u64 (with_handle in_handles name.now values.now) }
    ensures values { result.amount.values ≡ at_most_u64 (with_handle in_values name.now values.now) }
    ensures octets { result.amount.octets ≡ at_most_u64 (with_handle in_octets name.now values.now) }
{
    let octets = ROW_OCTETS.saturating_add(name.len() as u64);
    let amount = Amount { values: 0, octets };
    values_count(values).plus(Count { handles: 1, amount })
}

/// What the value at an index counts, nothing where there is none.
fn count_at(held: &[Value], index: u32) -> Count
    ensures handles { result.handles ≡ at_most_u64 (spec.value_at in_handles held.now index) }
    ensures values { result.amount.values ≡ at_most_u64 (spec.value_at in_values held.now index) }
    ensures octets { result.amount.octets ≡ at_most_u64 (spec.value_at in_octets held.now index) }
{
    match value_with(held, index) {
        Some(value) => value_count(value),
        None => Count::NONE,
    }
}

/// What those count that stand at these indexes.
pub(crate) fn count_of_indexes(held: &[Value], indexes: &[u32]) -> Count
    ensures handles { result.handles ≡ at_most_u64 (values_at in_handles held.now indexes.now) }
    ensures values { result.amount.values ≡ at_most_u64 (values_at in_values held.now indexes.now) }
    ensures octets { result.amount.octets ≡ at_most_u64 (values_at in_octets held.now indexes.now) }
{
    let mut sum = Count::NONE;
    for index in indexes {
        sum = sum.plus(count_at(held, *index));
    }
    sum
}

/// What those count that stand at the indexes of these values.
pub(crate) fn count_of_replaced(held: &[Value], values: &[Value]) -> Count
    ensures handles { result.handles ≡ at_most_u64 (values_at in_handles held.now (indexes_of values.now)) }
    ensures values { result.amount.values ≡ at_most_u64 (values_at in_values held.now (indexes_of values.now)) }
    ensures octets { result.amount.octets ≡ at_most_u64 (values_at in_octets held.now (indexes_of values.now)) }
{
    let mut sum = Count::NONE;
    for value in values {
        sum = sum.plus(count_at(held, value.index));
    }
    sum
}
