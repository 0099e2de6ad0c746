//! What is kept of a handle: its values, or their heads alone.

ghost use Rattle.std.specs.Prelude.{◌≡◌, List, ℕ, nat_lt, IfOk, IfSome, OnOk};
ghost use Rattle.std.specs.List.{prefix_len};
ghost use Rattle.std.specs.FinMap.{put};
ghost use Rattle.std.specs.Ordering.{nat_cmp};
ghost use Rattle.hdl_limits.specs.Counts.{at_most_u64};
ghost use Rattle.hdl_rows.specs.RowStore.{by_index, put_all};
ghost use Rattle.hdl_rows.specs.Table.{Table, place, at, value_with, with_new_handle, with_values};
ghost use Rattle.hdl_cachedrows.specs.Cost as cost;
ghost use Rattle.hdl_cachedrows.specs.Cache.{AreHeads, IsAbsent, IsFound, IsKept};

use crate::cost::entry_cost;
use hdl_rows::heads::heads_of;
use hdl_rows::value_with;
use hdl_value::Value;
use std::alloc::{AllocError, Global};

/// What is kept of a handle.
#[derive(Drop)]
pub(crate) enum CachedHandle {
    /// All of its values.
    Values(Vec<Value>),
    /// The heads of all of its values, which are without data and references.
    Heads(Vec<Value>),
}

fn copies(alloc: Global, values: &[Value]) -> Result<Vec<Value>, AllocError>
    ensures { IfOk result (λ all. all.items ≡ values.now) }
{
    let mut all = Vec::with_capacity(alloc, values.len())?;
    for value in values {
        all.push(value.copy(alloc)?)?;
    }
    Ok(all)
}

/// How many of the values at the front have a lower index.
fn count_below(values: &[Value], index: u32) -> usize
    ensures { result ≡ prefix_len (λ v. nat_lt v.index index) values.now }
{
    values
        .iter()
        .take_while(|value| value.index < index)
        .count()
}

/// Puts a value in its order among values by rising index. If there is one with its index, it is replaced.
fn put_value(values: &mut Vec<Value>, value: Value) -> Result<(), AllocError>
    ensures put { OnOk result (by_index values.new.items ≡ put nat_cmp value.index value (by_index values.old.items)) }
{
    let at = count_below(values, value.index);
    if at < values.len() && values[at].index == value.index {
        values[at] = value;
        return Ok(());
    }
    values.insert(at, value)?;
    Ok(())
}

fn put_values(values: &mut Vec<Value>, others: Vec<Value>) -> Result<(), AllocError>
    ensures put { OnOk result (by_index values.new.items ≡ put_all (by_index values.old.items) others.items) }
{
    for value in others {
        put_value(values, value)?;
    }
    Ok(())
}

/// A copy of the value with this index, if there is one.
fn copy_with(alloc: Global, values: &[Value], index: u32) -> Result<Option<Value>, AllocError>
    ensures { IfOk result (λ value. value ≡ value_with index values.now) }
{
    match value_with(values, index) {
        Some(value) => Ok(Some(value.copy(alloc)?)),
        None => Ok(None),
    }
}

impl CachedHandle {
    /// A copy of these values of a handle, or of their heads if the values cost more than `most`.
    pub(crate) fn of(
        alloc: Global,
        name: &[u8],
        values: &[Value],
        most: usize,
    ) -> Result<CachedHandle, AllocError>
        ensures of_table { (t : Table) (h : List ℕ) → IsFound t h values.now → IfOk result (IsKept t h) }
    {
        if entry_cost(name, values) > most {
            Ok(CachedHandle::Heads(heads_of(alloc, values)?))
        } else {
            Ok(CachedHandle::Values(copies(alloc, values)?))
        }
    }

    /// What is kept of a handle that was created with these values: copies of them, or of their heads if the values cost more than `most`.
    pub(crate) fn created(
        alloc: Global,
        name: &[u8],
        values: &[Value],
        most: usize,
    ) -> Result<CachedHandle, AllocError>
        ensures of_table { (t : Table) (h : List ℕ) → IsAbsent t h → IfOk result (IsKept (with_new_handle t h values.now) h) }
    {
        let none = Vec::with_capacity(alloc, values.len())?;
        let before = if entry_cost(name, values) > most {
            CachedHandle::Heads(none)
        } else {
            CachedHandle::Values(none)
        };
        before.with_values(alloc, values)
    }

    /// What is kept of a handle once these values were put into the table. Nothing but these is copied.
    pub(crate) fn with_values(
        self,
        alloc: Global,
        values: &[Value],
    ) -> Result<CachedHandle, AllocError>
        ensures of_table { (t : Table) (h : List ℕ) → IsKept t h self → IfOk result (IsKept (with_values t h values.now) h) }
    {
        match self {
            CachedHandle::Values(mut all) => {
                put_values(&mut all, copies(alloc, values)?)?;
                Ok(CachedHandle::Values(all))
            }
            CachedHandle::Heads(mut heads) => {
                put_values(&mut heads, heads_of(alloc, values)?)?;
                Ok(CachedHandle::Heads(heads))
            }
        }
    }

    /// What it costs to keep this of a handle.
    pub(crate) fn cost(&self, name: &[u8]) -> usize
        ensures { result ≡ at_most_u64 (cost.kept_cost name.now self.now) }
    {
        match self {
            CachedHandle::Values(values) => entry_cost(name, values),
            CachedHandle::Heads(heads) => entry_cost(name, heads),
        }
    }

    /// A copy of the values. None: the heads alone are kept, or memory was refused.
    pub(crate) fn values(&self, alloc: Global) -> Option<Vec<Value>>
        ensures of_table { (t : Table) (h : List ℕ) → IsKept t h self.now → IfSome result (λ all. IsFound t h all.items) }
    {
        match self {
            CachedHandle::Values(values) => copies(alloc, values).ok(),
            CachedHandle::Heads(_) => None,
        }
    }

    /// The heads of the values. None: memory was refused.
    pub(crate) fn heads(&self, alloc: Global) -> Option<Vec<Value>>
        ensures of_table { (t : Table) (h : List ℕ) → IsKept t h self.now → IfSome result (λ all. AreHeads t h all.items) }
    {
        match self {
            CachedHandle::Values(values) => heads_of(alloc, values).ok(),
            CachedHandle::Heads(heads) => copies(alloc, heads).ok(),
        }
    }

    /// A copy of the value at an index, or that there is none. None: the head alone of this value is kept, or memory was refused.
    pub(crate) fn at(&self, alloc: Global, index: u32) -> Option<Option<Value>>
        ensures of_table { (t : Table) (h : List ℕ) → IsKept t h self.now → IfSome result (λ value. value ≡ at t (place h index)) }
    {
        match self {
            CachedHandle::Values(values) => copy_with(alloc, values, index).ok(),
            CachedHandle::Heads(heads) => match value_with(heads, index) {
                Some(_) => None,
                None => Some(None),
            },
        }
    }
}
