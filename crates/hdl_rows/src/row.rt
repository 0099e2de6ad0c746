//! The values of one handle, by rising index.

ghost use Rattle.std.specs.Prelude.{◌≡◌, IsTrue, ◌≤◌, ◌<◌, ◌+◌, ◌==◌, not, filter, nat_lt, option_copied, vec_len, vec_capacity, IfOk, OnOk, OnErr};
ghost use Rattle.std.specs.List.{list_any, prefix_len};
ghost use Rattle.std.specs.FinMap.{find, put, is_sorted};
ghost use Rattle.std.specs.Ordering.{nat_cmp};
ghost use Rattle.hdl_rows.specs.RowStore.{by_index, put_all};
ghost use Rattle.hdl_rows.specs.Table.{value_with};

use hdl_value::Value;
use std::alloc::{AllocError, Global};

/// How many of the values at the front have a lower index.
fn count_below(values: &[Value], index: u32) -> usize
    requires ordered { IsTrue (is_sorted nat_cmp (by_index values.now)) }
    ensures { result ≡ prefix_len (λ v. nat_lt v.index index) values.now }
{
    values.partition_point(|value| value.index < index)
}

/// The value with this index, if the values are in any order.
pub fn value_with(values: &[Value], index: u32) -> Option<&Value>
    ensures found { option_copied result ≡ value_with index values.now }
{
    values.iter().find(|value| value.index == index)
}

/// The value with this index, by binary search.
pub(crate) fn value_of(values: &[Value], index: u32) -> Option<&Value>
    requires ordered { IsTrue (is_sorted nat_cmp (by_index values.now)) }
    ensures { option_copied result ≡ find nat_cmp index (by_index values.now) }
{
    let at = count_below(values, index);
    if at < values.len() && values[at].index == index {
        Some(&values[at])
    } else {
        None
    }
}

pub(crate) fn copies(alloc: Global, values: &[Value]) -> Result<Vec<Value>, AllocError>
    ensures { IfOk result (λ all. all.items ≡ values.now) }
{
    let mut all = Vec::new(alloc);
    for value in values {
        all.push(value.copy(alloc)?)?;
    }
    Ok(all)
}

/// Inserts a value in order. If there is one with its index, it is replaced.
fn put_value(values: &mut Vec<Value>, value: Value)
    requires ordered { IsTrue (is_sorted nat_cmp (by_index values.old.items)) }
    requires room { vec_len values.old < vec_capacity values.old }
    ensures put { by_index values.new.items ≡ put nat_cmp value.index value (by_index values.old.items) }
    ensures len { vec_len values.new ≤ vec_len values.old + 1 }
    ensures capacity { vec_capacity values.new ≡ vec_capacity values.old }
{
    let at = count_below(values, value.index);
    if at < values.len() && values[at].index == value.index {
        values[at] = value;
    } else {
        match values.insert(at, value) {
            Ok(()) => {}
            Err(_) => unreachable!(),
        }
    }
}

/// Inserts copies of all values. All memory is taken before the first is inserted.
pub(crate) fn put_copies(
    alloc: Global,
    values: &mut Vec<Value>,
    others: &[Value],
) -> Result<(), AllocError>
    requires ordered { IsTrue (is_sorted nat_cmp (by_index values.old.items)) }
    ensures done { OnOk result (by_index values.new.items ≡ put_all (by_index values.old.items) others.now) }
    ensures undone { OnErr result (values.new.items ≡ values.old.items) }
{
    let fresh = copies(alloc, others)?;
    values.reserve(fresh.len())?;
    for value in fresh {
        put_value(values, value);
    }
    Ok(())
}

/// Removes the values with these indexes.
pub(crate) fn remove_indexes(values: &mut Vec<Value>, indexes: &[u32])
    ensures { values.new.items ≡ filter (λ v. not (list_any (λ i. i == v.index) indexes.now)) values.old.items }
{
    values.retain(|value| !indexes.contains(&value.index));
}
