//! Merging names.

ghost use Rattle.std.specs.Prelude.{◌≡◌, ◌++◌, [], IfNone, IfOk, option_to_list};
ghost use Rattle.hdl_partitionedrows.specs.Partitioned.{merged, takes_second};

use hdl_limits::Octets;
use std::alloc::{AllocError, Global};
use std::collections::VecDeque;

/// Whether the name that comes first is the second list's.
fn is_second_next(first: &VecDeque<Octets>, second: &VecDeque<Octets>) -> bool
    ensures { result ≡ takes_second first.now.items second.now.items }
{
    match (first.front(), second.front()) {
        (Some(name), Some(other)) => other.as_slice() < name.as_slice(),
        (None, Some(_)) => true,
        (_, None) => false,
    }
}

/// Takes the name that comes first, if one is left.
fn take_first(first: &mut VecDeque<Octets>, second: &mut VecDeque<Octets>) -> Option<Octets>
    ensures taken { merged first.old.items second.old.items ≡ option_to_list result ++ merged first.new.items second.new.items }
    ensures none { IfNone result (merged first.old.items second.old.items ≡ []) }
{
    if is_second_next(first, second) {
        second.pop_front()
    } else {
        first.pop_front()
    }
}

/// The names of two lists that rise by octets, merged.
pub(crate) fn merge(
    alloc: Global,
    first: Vec<Octets>,
    second: Vec<Octets>,
) -> Result<Vec<Octets>, AllocError>
    ensures { IfOk result (λ all. all.items ≡ merged first.items second.items) }
{
    let count = first.len().saturating_add(second.len());
    let mut all = Vec::with_capacity(alloc, count)?;
    let mut first = VecDeque::from(first);
    let mut second = VecDeque::from(second);
    while let Some(name) = take_first(&mut first, &mut second) {
        all.push(name)?;
    }
    Ok(all)
}
