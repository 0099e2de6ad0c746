//! What stands of a handle.

ghost use Rattle.std.specs.Prelude.{◌≡◌, option_copied};
ghost use Rattle.std.specs.List.{list_all};
ghost use Rattle.hdl_undo.specs.Undo as said;

use hdl_value::{Value, Wire};

/// A moment as a reply tells it: the layout of the Handle.Net software has the second, in four octets.
pub(crate) fn told(wire: Wire, moment: u64) -> u64
    ensures { result ≡ said.told wire moment }
{
    match wire {
        Wire::Profile => moment,
        Wire::HandleNet => (moment / 1000).min(u32::MAX as u64) * 1000,
    }
}

fn has_index(values: &[Value], index: u32) -> bool
    ensures { result ≡ said.has_index values.now index }
{
    values.iter().any(|value| value.index == index)
}

/// Whether the value at an index was written at this moment.
fn stands(moment: u64, values: &[Value], index: u32) -> bool
    ensures { result ≡ said.stands moment values.now index }
{
    values
        .iter()
        .any(|value| value.index == index && value.timestamp == moment)
}

fn is_among(indexes: &[u32], index: u32) -> bool
    ensures { result ≡ said.is_among indexes.now index }
{
    indexes.iter().any(|one| *one == index)
}

/// The first index whose value wasn't written at this moment.
pub(crate) fn changed(moment: u64, values: &[Value], indexes: &[u32]) -> Option<u32>
    ensures { result ≡ said.changed moment values.now indexes.now }
{
    for index in indexes {
        if !stands(moment, values, *index) {
            return Some(*index);
        }
    }
    None
}

/// The first index that has a value.
pub(crate) fn taken(values: &[Value], indexes: &[u32]) -> Option<u32>
    ensures { result ≡ said.taken values.now indexes.now }
{
    for index in indexes {
        if has_index(values, *index) {
            return Some(*index);
        }
    }
    None
}

/// The first value with another index.
pub(crate) fn added<'v>(indexes: &[u32], values: &'v [Value]) -> Option<&'v Value>
    ensures { option_copied result ≡ said.added indexes.now values.now }
{
    values.iter().find(|value| !is_among(indexes, value.index))
}

fn have_values(values: &[Value], indexes: &[u32]) -> bool
    ensures { result ≡ list_all (λ i. said.has_index values.now i) indexes.now }
{
    indexes.iter().all(|index| has_index(values, *index))
}

/// Whether there is a value at each index, and at no other.
pub(crate) fn are_at(indexes: &[u32], values: &[Value]) -> bool
    ensures { result ≡ said.are_at indexes.now values.now }
{
    added(indexes, values).is_none() && have_values(values, indexes)
}
